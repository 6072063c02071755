//! Reducing a conjunction.
ghost use Rattle.std.specs.Prelude.{◌≡◌, true, IfOk};
ghost use Rattle.std.specs.List.{AllByRecursion};
ghost use Rattle.ded_model.specs.declared.slot.Slot.{Slot};
ghost use Rattle.ded_model.specs.Point.{Point, IsPoint};
ghost use Rattle.ded_model.specs.Cell.{conj_holds, IsReduced, HoldsNowhere};
ghost use Rattle.ded_model.specs.Lines.{IsSubset};
ghost use Rattle.ded_model.specs.Sublists.{IsSublist};
ghost use Rattle.ded_theory.specs.Conjunctions.{conj_mentions, conj_lines, IsWide};
ghost use Rattle.ded_reduce.specs.Reductions.{IfGone, IfKept};

use crate::superfluous::sift;
use ded_genrel::copy_conj;
use ded_model::memory::NoMemory;
use ded_theory::{Theory, Verdict};
use std::alloc::Global;

/// What reducing a conjunction leaves of it.
#[derive(Drop)]
pub enum Reduced<A> {
    /// It holds nowhere.
    Gone,
    /// The atoms that the others don't imply.
    Kept(Vec<A>),
}

/// The atoms without those that the others imply, in the same order: they hold at the same points. `Gone` where they
/// are found to hold nowhere. Where the atoms that are kept aren't wide, or the theory decides, they hold somewhere,
/// and each is needed: without it the others hold at a point at which it doesn't.
///
/// # Errors
/// Out of memory.
pub fn reduce<T: Theory>(alloc: Global, conj: &[T::Atom]) -> Result<Reduced<T::Atom>, NoMemory>
    requires normal { AllByRecursion T.normal conj.now }
    ensures gone { IfOk result (λ r. IfGone (HoldsNowhere (conj_holds T.holds conj.now)) r) }
    ensures holds { IfOk result (λ r. IfKept (λ atoms. (p : Point) → IsPoint p
        → conj_holds T.holds atoms p ≡ conj_holds T.holds conj.now p) r) }
    ensures kept { IfOk result (λ r. IfKept (λ atoms. IsSublist atoms conj.now) r) }
    ensures slots { IfOk result (λ r. IfKept (λ atoms. (s : Slot) → conj_mentions T.mentions atoms s ≡ true
        → conj_mentions T.mentions conj.now s ≡ true) r) }
    ensures lines { IfOk result (λ r. IfKept (λ atoms.
        IsSubset (conj_lines T.lines atoms) (conj_lines T.lines conj.now)) r) }
    ensures normal { IfOk result (λ r. IfKept (λ atoms. AllByRecursion T.normal atoms) r) }
    ensures reduced { IfOk result (λ r. IfKept (λ atoms. (IsWide T.mentions T.lines atoms → ⊥)
        → IsReduced T.holds atoms) r) }
    ensures decided { T.decides → IfOk result (λ r. IfKept (λ atoms. IsReduced T.holds atoms) r) }
{
    let mut left = copy_conj::<T>(alloc, conj)?;
    loop {
        let is_open = match T::refute(alloc, &left)? {
            Verdict::Empty => return Ok(Reduced::Gone),
            Verdict::Inhabited => false,
            Verdict::Unknown => true,
        };
        if !sift::<T>(alloc, &mut left, is_open)? {
            return Ok(Reduced::Kept(left));
        }
    }
}
