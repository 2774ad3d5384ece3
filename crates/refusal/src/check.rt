// Why a book is refused: the reader's fault inside the check's.
ghost use Rattle.refusal.specs.declared.reader.ReaderFault.{ReaderFault as ReadersFault};
ghost use Rattle.refusal.specs.Checks.{check_refusal};
ghost use Rattle.refusal.specs.declared.check.CheckFault.TheVariants.{Reader};
ghost use Rattle.std.specs.Prelude.{◌≡◌};

use crate::reader::ReaderFault;
use crate::{Layer, Refusal};

// A check's fault. A place is the number of an instruction, but for levels.
#[derive(Clone, Copy, PartialEq, Eq, Debug)]
pub enum CheckFault {
    // the bytes are no book
    Reader(ReaderFault),
    // the scale does not know the clock's level
    ClockLevel,
    // the scale does not know a figure's level: place 1 + v is that of figure v, behind the clock's
    FigureLevel(u32),
    // a charge that varies with what the clock must not show
    Charge(u32),
    // an amount stored in a figure that is not at or above its level
    Direct(u32),
    // a store that tells of a test above the figure's level
    Implicit(u32),
    // an if whose parts take different times, on a test that the clock must not show
    Parts(u32),
}

impl From<CheckFault> for Refusal {
    ghost from_gives = { λ fault refusal. refusal ≡ check_refusal fault };

    fn from(fault: CheckFault) -> Refusal {
        let (number, place) = match fault {
            CheckFault::Reader(fault) => return fault.into(),
            CheckFault::ClockLevel => (7, 0),
            CheckFault::FigureLevel(place) => (7, place),
            CheckFault::Charge(place) => (8, place),
            CheckFault::Direct(place) => (9, place),
            CheckFault::Implicit(place) => (10, place),
            CheckFault::Parts(place) => (11, place),
        };
        Refusal {
            number,
            layer: Layer::Check,
            place,
        }
    }
}

impl From<ReaderFault> for CheckFault {
    ghost from_gives = { λ e r. r ≡ Reader e };

    fn from(fault: ReaderFault) -> CheckFault {
        CheckFault::Reader(fault)
    }
}
