// The check itself: bytes to a book that keeps every flow rule, or the first fault.
ghost use Rattle.std.specs.Prelude.{◌≡◌, ◌<◌, not, [], ◌∷◌, IfSome};
ghost use Rattle.std.specs.List.{position_from};
ghost use Rattle.std.specs.Result.{result_err};
ghost use Rattle.reader.specs.Books.{outcome, said};
ghost use Rattle.book.specs.Encodings.{ReaderLaw};
ghost use Rattle.flowcheck.specs.Checks.{checking, checking_bytes, unknown};
ghost use Rattle.flowcheck.specs.Laws.{CheckLaw};
ghost use Rattle.flowcheck.specs.Settings.{setting_of};
ghost use Rattle.flowcheck.specs.Walks.{walk as walk_from};

use crate::grounds::Grounds;
use crate::walk::Walk;
use meter::meter::Meter;
use reader::reader::read;
use reader::rulebook::Book;
use refusal::check::CheckFault;
use scale::scale::Scale;

// The first figure whose level the scale does not know.
fn unknown_figure<S: Scale>(scale: &S, book: &Book) -> Option<usize>
    ensures first { result ≡ position_from (λ l. not ((S.meaning scale.now).known l)) 0 (said book.now).levels }
    ensures within { IfSome result (λ v. v < 32) }
{
    book.levels().iter().position(|level| !scale.known(*level))
}

// The scale knows each level, the clock's before the figures'.
fn check_levels<S: Scale>(scale: &S, book: &Book) -> Result<(), CheckFault>
    ensures { result_err result ≡ unknown (S.meaning scale.now) 0 ((said book.now).clock ∷ (said book.now).levels) }
{
    if !scale.known(book.clock_level()) {
        return Err(CheckFault::ClockLevel);
    }
    match unknown_figure(scale, book) {
        Some(figure) => Err(CheckFault::FigureLevel(1 + figure as u32)),
        None => Ok(()),
    }
}

// Each instruction keeps its rules.
fn check_flow<S: Scale, M: Meter>(grounds: &Grounds<'_, S, M>) -> Result<(), CheckFault>
    ensures { result_err result ≡ walk_from (setting_of S.meaning M.meaning grounds.now) 0 [] [] (said grounds.now.book.now).code }
{
    let mut walk = Walk::new();
    for (place, instruction) in grounds.book.code().iter().enumerate() {
        walk.check_instruction(grounds, place, *instruction)?;
        walk.pass(grounds, *instruction);
    }
    Ok(())
}

// The first fault of a book: its levels are asked before its instructions.
fn check_book<S: Scale, M: Meter>(grounds: &Grounds<'_, S, M>) -> Result<(), CheckFault>
    ensures { result_err result ≡ checking (S.meaning grounds.now.scale.now) (M.meaning grounds.now.meter.now) (said grounds.now.book.now) }
{
    check_levels(grounds.scale, grounds.book)?;
    check_flow(grounds)
}

// The book that these bytes are, checked, or its first fault.
#[tactic(auto, using(crate::proofs::CheckLaw::check_law))]
pub fn check<S: Scale, M: Meter>(scale: &S, meter: &M, bytes: &[u8]) -> Result<Book, CheckFault>
    ensures outcome { outcome result ≡ checking_bytes (S.meaning scale.now) (M.meaning meter.now) bytes.now }
    ensures law { CheckLaw (S.meaning scale.now) (M.meaning meter.now) }
    ensures reads { ReaderLaw }
{
    meter.laws();
    let book = read(bytes)?;
    let grounds = Grounds {
        scale,
        meter,
        book: &book,
    };
    check_book(&grounds)?;
    Ok(book)
}
