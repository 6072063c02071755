//! Tuples that hold where two tuples do.
ghost use Rattle.std.specs.Prelude.{IfOk};
ghost use Rattle.ded_algebra.specs.Evaluation.{IsMet};

use ded_atoms::{Atoms, reduce_answer};
use ded_genrel::both_conjs;
use ded_model::memory::NoMemory;
use ded_model::tuple::Tuple;
use ded_theory::{Theory, Verdict};
use ded_tuple::normal_tuple;
use std::alloc::Global;

/// The tuple of both without superfluous atoms, or nothing where they are found to hold nowhere together.
///
/// # Errors
/// Out of memory.
pub(crate) fn met(alloc: Global, first: &Tuple, second: &Tuple) -> Result<Option<Tuple>, NoMemory>
    ensures { IfOk result (IsMet first.now second.now) }
{
    let atoms = both_conjs::<Atoms>(alloc, &first.atoms, &second.atoms)?;
    if let Verdict::Empty = Atoms::refute(alloc, &atoms)? {
        drop(atoms);
        return Ok(None);
    }
    let both = normal_tuple(alloc, atoms)?;
    let reduced = reduce_answer(alloc, &both);
    drop(both);
    reduced
}
