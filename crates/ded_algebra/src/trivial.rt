//! Lists of tuples that hold everywhere, and nowhere.
ghost use Rattle.std.specs.Prelude.{◌≡◌, ◌∷◌, [], IfOk};

use ded_model::memory::NoMemory;
use ded_model::tuple::{Tuple, Tuples};
use std::alloc::Global;

/// The tuple without atoms, which holds everywhere.
///
/// # Errors
/// Out of memory.
pub fn everywhere(alloc: Global) -> Result<Tuples, NoMemory>
    ensures { IfOk result (λ ts. ts ≡ [] ∷ []) }
{
    let mut list = Vec::new(alloc);
    list.push(Tuple {
        atoms: Vec::new(alloc),
    })?;
    Ok(Tuples { list })
}

/// No tuples, which hold nowhere.
pub fn nowhere(alloc: Global) -> Tuples
    ensures { result ≡ [] }
{
    Tuples {
        list: Vec::new(alloc),
    }
}
