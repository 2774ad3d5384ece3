// Why the reader refuses bytes.
ghost use Rattle.refusal.specs.Readers.{reader_refusal};
ghost use Rattle.std.specs.Prelude.{◌≡◌};

use crate::{Layer, Refusal};

// A reader's fault. A place is the number of an instruction.
#[derive(Clone, Copy, PartialEq, Eq, Debug)]
pub enum ReaderFault {
    // fewer than six bytes, or not as many as the sizes ask for
    Length,
    TooManyFigures,
    TooManyInstructions,
    // an unknown code, or an argument out of its range
    Argument(u32),
    // the stack is not as the instruction wants it
    Height(u32),
    // the blocks are not as the instruction wants them, or no stop stands last
    Nesting(u32),
    // the event that starts here weighs too much
    Weight(u32),
}

impl From<ReaderFault> for Refusal {
    ghost from_gives = { λ fault refusal. refusal ≡ reader_refusal fault };

    fn from(fault: ReaderFault) -> Refusal {
        let (number, place) = match fault {
            ReaderFault::Length => (1, 0),
            ReaderFault::TooManyFigures => (2, 0),
            ReaderFault::TooManyInstructions => (2, 2),
            ReaderFault::Argument(place) => (3, place),
            ReaderFault::Height(place) => (4, place),
            ReaderFault::Nesting(place) => (5, place),
            ReaderFault::Weight(place) => (6, place),
        };
        Refusal {
            number,
            layer: Layer::Reader,
            place,
        }
    }
}
