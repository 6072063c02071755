//! Closures of lists of conjunctions.
ghost use Rattle.std.specs.Prelude.{◌≡◌, ◌↔◌, ◌∷◌, ◌++◌, [], true, List, IsTrue, IfOk, IsErrOf};
ghost use Rattle.std.specs.List.{AllByRecursion};
ghost use Rattle.ded_model.specs.declared.memory.Refused.TheVariants.{Wide};
ghost use Rattle.ded_model.specs.declared.slot.Slot.{Slot};
ghost use Rattle.ded_model.specs.Lines.{IsSubset, tuples_lines};
ghost use Rattle.ded_model.specs.Near.{IsCloseAt};
ghost use Rattle.ded_model.specs.Point.{Point, IsPoint};
ghost use Rattle.ded_model.specs.Row.{Atom, tuples_hold, tuples_mention};
ghost use Rattle.ded_model.specs.Width.{IsNarrowList};
ghost use Rattle.ded_theory.specs.Conjunctions.{IsWide};
ghost use Rattle.ded_theory.specs.declared.answers.Verdict.TheVariants.{Unknown};
ghost use Rattle.ded_genrel.specs.Lists.{SomeConj};
ghost use Rattle.ded_topology.specs.Closing.{verdict_of, IsClosed};

use crate::weakening::weakened;
use ded_atoms::Atoms;
use ded_genrel::GenRel;
use ded_model::memory::Refused;
use ded_model::tuple::Atom;
use ded_theory::{Theory, Verdict};
use std::alloc::Global;

/// A list that holds at the points that are close to the list: each point with points as near as one likes, and with
/// the same texts, at which the list holds. It has the conjunctions that hold somewhere, with their strict rows made
/// weak.
///
/// # Errors
/// `Wide` only where some conjunction isn't narrow, otherwise out of memory.
pub fn closure(alloc: Global, rel: &GenRel<Atoms>) -> Result<GenRel<Atoms>, Refused>
    ensures is { IfOk result (λ r. (p : Point) → IsPoint p → IsCloseAt (tuples_hold rel.now) p
        ↔ IsTrue (tuples_hold r p)) }
    ensures slots { IfOk result (λ r. (s : Slot) → tuples_mention r s ≡ true → tuples_mention rel.now s ≡ true) }
    ensures lines { IfOk result (λ r. IsSubset (tuples_lines r) (tuples_lines rel.now)) }
    ensures wide { IsErrOf result Wide → SomeConj (λ t. IsNarrowList t → ⊥) rel.now }
{
    let _ = &rel.conjs; // for its invariant
    closed(alloc, rel)
}

/// The conjunctions of the list that hold somewhere, with their strict rows made weak.
///
/// # Errors
/// `Wide` only where some conjunction is wide, otherwise out of memory.
pub(crate) fn closed(alloc: Global, rel: &GenRel<Atoms>) -> Result<GenRel<Atoms>, Refused>
    ensures is { IfOk result (λ r. IsClosed rel.now r) }
    ensures wide { IsErrOf result Wide → SomeConj
        (IsWide ⟦<Atoms as Theory>⟧.mentions ⟦<Atoms as Theory>⟧.lines) rel.now }
{
    let mut out = GenRel::new(alloc);
    for conj in rel.list() {
        push_closed(alloc, &mut out, conj)?;
    }
    Ok(out)
}

/// Sets the conjunction, its strict rows made weak, at the end, unless it holds nowhere.
///
/// # Errors
/// `Wide` only where the conjunction is wide, otherwise out of memory.
fn push_closed(alloc: Global, out: &mut GenRel<Atoms>, conj: &[Atom]) -> Result<(), Refused>
    requires { AllByRecursion ⟦<Atoms as Theory>⟧.normal conj.now }
    ensures is { IfOk result (λ _. (conjs : List (List Atom)) → IsClosed conjs out.old
        → IsClosed (conjs ++ conj.now ∷ []) out.new) }
    ensures wide { IsErrOf result Wide → IsWide ⟦<Atoms as Theory>⟧.mentions ⟦<Atoms as Theory>⟧.lines conj.now }
{
    let verdict = Atoms::refute(alloc, conj)?;
    if is_inhabited(verdict)? {
        out.push(weakened(alloc, conj)?)?;
    }
    Ok(())
}

/// Whether it is known that some point satisfies a conjunction.
///
/// # Errors
/// `Wide` where that isn't known.
fn is_inhabited(verdict: Verdict) -> Result<bool, Refused>
    ensures known { IfOk result (λ b. verdict ≡ verdict_of b) }
    ensures wide { IsErrOf result Wide → verdict ≡ Unknown }
{
    match verdict {
        Verdict::Empty => Ok(false),
        Verdict::Inhabited => Ok(true),
        Verdict::Unknown => Err(Refused::Wide),
    }
}
