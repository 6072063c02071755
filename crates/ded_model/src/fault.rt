//! Why nothing is read of bytes or words.
ghost use Rattle.std.specs.Prelude.{◌≡◌};
ghost use Rattle.ded_model.specs.declared.fault.ParseFault.TheVariants.{Memory};

use std::alloc::{AllocError, AllocFailed};

/// Why nothing is read.
#[derive(Clone, Copy, PartialEq, Eq, Debug)]
pub enum ParseFault {
    /// Nothing is spelled there, or nothing for which there is room.
    NotRead,
    /// Out of memory.
    Memory,
}

impl From<AllocError> for ParseFault {
    ghost from_gives = { λ _ e. e ≡ Memory };

    fn from(_error: AllocError) -> ParseFault {
        ParseFault::Memory
    }
}

impl<T: Drop> From<AllocFailed<T>> for ParseFault {
    ghost from_gives = { λ _ e. e ≡ Memory };

    fn from(_error: AllocFailed<T>) -> ParseFault {
        ParseFault::Memory
    }
}
