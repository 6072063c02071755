//! Closures and interiors of tuples.
ghost use Rattle.std.specs.Prelude.{◌≡◌, ◌↔◌, List, IsTrue, IfOk, IsErrOf};
ghost use Rattle.std.specs.List.{AllByRecursion};
ghost use Rattle.ded_model.specs.declared.memory.Refused.TheVariants.{Wide};
ghost use Rattle.ded_model.specs.declared.name.Column.{Column};
ghost use Rattle.ded_model.specs.Known.{IsTupleOver};
ghost use Rattle.ded_model.specs.Lines.{IsSubset, tuples_lines};
ghost use Rattle.ded_model.specs.Near.{IsCloseAt, IsInsideAt};
ghost use Rattle.ded_model.specs.Point.{Point, IsPoint};
ghost use Rattle.ded_model.specs.Row.{tuples_hold};
ghost use Rattle.ded_model.specs.Width.{IsNarrowList};
ghost use Rattle.ded_genrel.specs.Lists.{SomeConj};
ghost use Rattle.ded_complement.specs.Pieces.{all_atoms};
ghost use Rattle.ded_topology.specs.Closing.{AreNormalPart};

use crate::closing::closure;
use crate::inner::interior;
use ded_atoms::{Atoms, reduced};
use ded_genrel::{GenRel, copy_conj};
use ded_model::memory::{NoMemory, Refused};
use ded_model::tuple::{Tuple, Tuples};
use std::alloc::Global;

/// Tuples that hold at the points that are close to the tuples, over each heading that all of these are over.
///
/// # Errors
/// `Wide` only where some tuple isn't narrow, otherwise out of memory.
pub fn closed_tuples(alloc: Global, tuples: &[Tuple]) -> Result<Tuples, Refused>
    ensures is { IfOk result (λ us. (p : Point) → IsPoint p → IsCloseAt (tuples_hold tuples.now) p
        ↔ IsTrue (tuples_hold us p)) }
    ensures over { IfOk result (λ us. (h : List Column) → AllByRecursion (IsTupleOver h) tuples.now
        → AllByRecursion (IsTupleOver h) us) }
    ensures lines { IfOk result (λ us. IsSubset (tuples_lines us) (tuples_lines tuples.now)) }
    ensures wide { IsErrOf result Wide → SomeConj (λ t. IsNarrowList t → ⊥) tuples.now }
{
    let list = conjunctions(alloc, tuples)?;
    Ok(normal_tuples(alloc, closure(alloc, &list)?)?)
}

/// Tuples that hold at the points that are inside of the tuples, over each heading that all of these are over.
///
/// # Errors
/// `Wide` only where the list of the atoms of all tuples isn't narrow, otherwise out of memory.
pub fn inner_tuples(alloc: Global, tuples: &[Tuple]) -> Result<Tuples, Refused>
    ensures is { IfOk result (λ us. (p : Point) → IsPoint p → IsInsideAt (tuples_hold tuples.now) p
        ↔ IsTrue (tuples_hold us p)) }
    ensures over { IfOk result (λ us. (h : List Column) → AllByRecursion (IsTupleOver h) tuples.now
        → AllByRecursion (IsTupleOver h) us) }
    ensures lines { IfOk result (λ us. IsSubset (tuples_lines us) (tuples_lines tuples.now)) }
    ensures wide { IsErrOf result Wide → IsNarrowList (all_atoms tuples.now) → ⊥ }
{
    let list = conjunctions(alloc, tuples)?;
    Ok(normal_tuples(alloc, interior(alloc, &list)?)?)
}

/// The list of the conjunctions of the tuples' atoms.
///
/// # Errors
/// Out of memory.
fn conjunctions(alloc: Global, tuples: &[Tuple]) -> Result<GenRel<Atoms>, NoMemory>
    ensures { IfOk result (λ r. r ≡ tuples.now) }
{
    let mut list = GenRel::new(alloc);
    for tuple in tuples {
        list.push(copy_conj::<Atoms>(alloc, &tuple.atoms)?)?;
    }
    Ok(list)
}

/// Normal tuples without superfluous atoms, that hold where the list does.
///
/// # Errors
/// Out of memory.
fn normal_tuples(alloc: Global, list: GenRel<Atoms>) -> Result<Tuples, NoMemory>
    ensures { IfOk result (λ us. AreNormalPart list us) }
{
    reduced(alloc, ded_atoms::tuples(alloc, list)?)
}
