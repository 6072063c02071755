//! Interiors of lists of conjunctions.
ghost use Rattle.std.specs.Prelude.{◌≡◌, ◌↔◌, true, IsTrue, IfOk, IsErrOf};
ghost use Rattle.ded_model.specs.declared.memory.Refused.TheVariants.{Wide};
ghost use Rattle.ded_model.specs.declared.slot.Slot.{Slot};
ghost use Rattle.ded_model.specs.Lines.{IsSubset, tuples_lines};
ghost use Rattle.ded_model.specs.Near.{IsInsideAt};
ghost use Rattle.ded_model.specs.Point.{Point, IsPoint};
ghost use Rattle.ded_model.specs.Row.{tuples_hold, tuples_mention};
ghost use Rattle.ded_model.specs.Width.{IsNarrowList};
ghost use Rattle.ded_complement.specs.Pieces.{all_atoms};

use crate::closing::closed;
use ded_atoms::Atoms;
use ded_complement::complement;
use ded_genrel::GenRel;
use ded_model::memory::Refused;
use std::alloc::Global;

/// A list that holds at the points that are inside of the list: each point for which the list holds at all points that
/// are near enough and have the same texts. It is the complement of the closure of the complement.
///
/// # Errors
/// `Wide` only where the list of all atoms isn't narrow, otherwise out of memory.
pub fn interior(alloc: Global, rel: &GenRel<Atoms>) -> Result<GenRel<Atoms>, Refused>
    ensures is { IfOk result (λ r. (p : Point) → IsPoint p → IsInsideAt (tuples_hold rel.now) p
        ↔ IsTrue (tuples_hold r p)) }
    ensures slots { IfOk result (λ r. (s : Slot) → tuples_mention r s ≡ true → tuples_mention rel.now s ≡ true) }
    ensures lines { IfOk result (λ r. IsSubset (tuples_lines r) (tuples_lines rel.now)) }
    ensures wide { IsErrOf result Wide → IsNarrowList (all_atoms rel.now) → ⊥ }
{
    let _ = &rel.conjs; // for its invariant
    let outside = complement(alloc, rel)?;
    let near = closed(alloc, &outside)?;
    Ok(complement(alloc, &near)?)
}
