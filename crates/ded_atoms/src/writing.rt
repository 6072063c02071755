//! Lists of conjunctions of rows and text atoms, written as tuples.
ghost use Rattle.std.specs.Prelude.{IfOk};
ghost use Rattle.ded_atoms.specs.Written.{IsWrittenAs};

use crate::theories::Atoms;
use ded_genrel::GenRel;
use ded_model::memory::NoMemory;
use ded_model::tuple::Tuples;
use ded_tuple::normal_tuple;
use std::alloc::Global;

/// The normal tuples of the conjunctions of a list.
///
/// # Errors
/// Out of memory.
pub fn tuples(alloc: Global, list: GenRel<Atoms>) -> Result<Tuples, NoMemory>
    ensures { IfOk result (λ ts. IsWrittenAs list ts) }
{
    let mut tuples = Vec::with_capacity(alloc, list.list().len())?;
    for conj in list.conjs {
        tuples.push(normal_tuple(alloc, conj)?)?;
    }
    Ok(Tuples { list: tuples })
}
