// Why a word is not read.
ghost use Rattle.spelling.specs.Faults.{fault_of};
ghost use Rattle.spelling.specs.declared.fault.SpellingFault.TheVariants.{Memory};
ghost use Rattle.std.specs.Prelude.{◌≡◌, alloc_error};

use hex::FromHexError;
use std::alloc::{AllocError, AllocFailed};

#[derive(Drop)]
pub enum SpellingFault {
    Malformed,
    Memory(AllocError),
}

impl From<AllocError> for SpellingFault {
    ghost from_gives = { λ error fault. fault ≡ Memory error };

    fn from(error: AllocError) -> SpellingFault {
        SpellingFault::Memory(error)
    }
}

impl<T: Drop> From<AllocFailed<T>> for SpellingFault {
    ghost from_gives = { λ _ fault. fault ≡ Memory alloc_error };

    fn from(refused: AllocFailed<T>) -> SpellingFault {
        SpellingFault::Memory(refused.into())
    }
}

impl From<FromHexError> for SpellingFault {
    ghost from_gives = { λ error fault. fault ≡ fault_of error };

    fn from(error: FromHexError) -> SpellingFault {
        match error {
            FromHexError::OutOfMemory => SpellingFault::Memory(AllocError),
            _ => SpellingFault::Malformed,
        }
    }
}
