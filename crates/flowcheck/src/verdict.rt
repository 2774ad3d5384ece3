// The verdict on a book in bytes.
ghost use Rattle.flowcheck.specs.Verdicts.{verdict_of};
ghost use Rattle.flowcheck.specs.Worked.{WorkedBooks};
ghost use Rattle.std.specs.Prelude.{◌≡◌};

use crate::checker::check;
use line::Verdict;
use meter::meter::Meter;
use scale::scale::Scale;

// Accepted with the number of events, or refused.
#[tactic(auto, using(crate::proofs::Worked::worked_books))]
pub fn judge<S: Scale, M: Meter>(scale: &S, meter: &M, bytes: &[u8]) -> Verdict
    ensures verdict { result ≡ verdict_of (S.meaning scale.now) (M.meaning meter.now) bytes.now }
    ensures worked { WorkedBooks }
{
    Ok(check(scale, meter, bytes)?.events())
}
