//! Out of memory, and the one other reason for which exact work is abandoned.
ghost use Rattle.std.specs.Prelude.{◌≡◌};
ghost use Rattle.ded_model.specs.declared.memory.Refused.TheVariants.{Memory};

use std::alloc::{AllocError, AllocFailed};

/// Out of memory: an allocation failed. It is the one answer that any call which allocates may give.
pub type NoMemory = AllocError;

/// Why a call that works on rows gives no list.
#[derive(Clone, Copy, PartialEq, Eq, Debug)]
pub enum Refused {
    /// A number of the result has more than 127 binary digits.
    Wide,
    /// Out of memory.
    Memory,
}

impl From<AllocError> for Refused {
    ghost from_gives = { λ _ e. e ≡ Memory };

    fn from(_error: AllocError) -> Refused {
        Refused::Memory
    }
}

impl<T: Drop> From<AllocFailed<T>> for Refused {
    ghost from_gives = { λ _ e. e ≡ Memory };

    fn from(_error: AllocFailed<T>) -> Refused {
        Refused::Memory
    }
}
