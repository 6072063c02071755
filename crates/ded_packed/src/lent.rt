//! Tuples that are lent where they stand.
ghost use Rattle.std.specs.Prelude.{◌≡◌, IfOk};
ghost use Rattle.ded_packed.specs.Lent.{tuple_of, lent};

use crate::packed::Packed;
use ded_model::memory::NoMemory;
use ded_model::tuple::Tuple;
use std::alloc::Global;

/// A tuple that is lent: as it is, or in few bytes.
#[derive(Clone, Copy)]
pub enum Lent<'a> {
    Plain(&'a Tuple),
    Packed(&'a Packed),
}

impl<'a> Lent<'a> {
    /// The tuple, as a copy.
    ///
    /// # Errors
    /// Out of memory.
    pub fn copy(self, alloc: Global) -> Result<Tuple, NoMemory>
        ensures { IfOk result (λ t. t ≡ tuple_of self.entry) }
    {
        match self {
            Lent::Plain(tuple) => tuple.copy(),
            Lent::Packed(packed) => packed.unpack(alloc),
        }
    }
}

/// References to the tuples, in order.
///
/// # Errors
/// Out of memory.
pub fn lend(alloc: Global, tuples: &[Tuple]) -> Result<Vec<Lent<'_>>, NoMemory>
    ensures { IfOk result (λ v. lent v.items ≡ tuples.now) }
{
    let mut list = Vec::with_capacity(alloc, tuples.len())?;
    for tuple in tuples {
        list.push(Lent::Plain(tuple))?;
    }
    Ok(list)
}
