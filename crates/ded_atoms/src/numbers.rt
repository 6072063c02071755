//! The numbers of columns, one after another.
ghost use Rattle.std.specs.Prelude.{◌≡◌, ◌+◌, IfOk};

use ded_model::memory::NoMemory;
use std::alloc::AllocError;

/// The next number.
///
/// # Errors
/// Out of memory, where the number is the greatest one and has no next.
pub fn following(number: u32) -> Result<u32, NoMemory>
    ensures { IfOk result (λ n. n ≡ number + 1) }
{
    number.checked_add(1).ok_or(AllocError)
}
