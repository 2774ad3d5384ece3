// Why an engine refuses a call: a check's fault, with the reader's in it, or one of its own.
ghost use Rattle.refusal.specs.declared.check.CheckFault.{CheckFault as ChecksFault};
ghost use Rattle.refusal.specs.Engines.{engine_refusal};
ghost use Rattle.refusal.specs.declared.engine.EngineFault.TheVariants.{Check};
ghost use Rattle.std.specs.Prelude.{◌≡◌};

use crate::check::CheckFault;
use crate::{Layer, Refusal};

// An engine's fault.
#[derive(Clone, Copy, PartialEq, Eq, Debug)]
pub enum EngineFault {
    // the book was refused when it was loaded
    Check(CheckFault),
    NoBook,
    // no figure or no event of this number
    NoSuch(u32),
    // a level that the scale does not know
    UnknownLevel(u16),
    // the level of this figure is not at or below the one given
    Hidden(u32),
    // the clock's level is not at or below the one given
    HiddenClock,
    SlipOut,
    NotTheSlip,
    TooManyOpenings,
    SameFigure(u32),
}

impl From<EngineFault> for Refusal {
    ghost from_gives = { λ fault refusal. refusal ≡ engine_refusal fault };

    fn from(fault: EngineFault) -> Refusal {
        let (number, place) = match fault {
            EngineFault::Check(fault) => return fault.into(),
            EngineFault::NoBook => (12, 0),
            EngineFault::NoSuch(number) => (13, number),
            EngineFault::UnknownLevel(level) => (14, u32::from(level)),
            EngineFault::Hidden(figure) => (15, figure),
            EngineFault::HiddenClock => (15, 32),
            EngineFault::SlipOut => (16, 0),
            EngineFault::NotTheSlip => (17, 0),
            EngineFault::TooManyOpenings => (18, 0),
            EngineFault::SameFigure(figure) => (19, figure),
        };
        Refusal {
            number,
            layer: Layer::Engine,
            place,
        }
    }
}

impl From<CheckFault> for EngineFault {
    ghost from_gives = { λ e r. r ≡ Check e };

    fn from(fault: CheckFault) -> EngineFault {
        EngineFault::Check(fault)
    }
}
