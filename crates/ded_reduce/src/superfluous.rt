//! Atoms that others imply.
ghost use Rattle.std.specs.Prelude.{◌≡◌, ◌<◌, not, ◌&&◌, [], ◌∷◌, ◌++◌, length, IfOk};
ghost use Rattle.std.specs.List.{AllByRecursion};
ghost use Rattle.ded_model.specs.Cell.{conj_holds, HoldsSomewhere, HoldsNowhere};
ghost use Rattle.ded_theory.specs.declared.answers.Verdict.TheVariants.{Empty, Inhabited, Unknown};
ghost use Rattle.ded_reduce.specs.Reductions.{MayBeOpen, IsNeeded, IsImplied, IsSifted};

use ded_genrel::{both_conjs, copy_conj};
use ded_model::memory::NoMemory;
use ded_model::tuple::Negated;
use ded_theory::{Theory, Verdict};
use std::alloc::Global;

/// Removes atoms that the others imply, one after another. Returns whether to try again: after a removal the atoms
/// before it aren't tried again, which only makes a difference where something was left open, here or before.
///
/// # Errors
/// Out of memory.
pub(crate) fn sift<T: Theory>(
    alloc: Global,
    conj: &mut Vec<T::Atom>,
    is_open: bool,
) -> Result<bool, NoMemory>
    requires normal { AllByRecursion T.normal conj.old.items }
    ensures { IfOk result (λ again. IsSifted T.decides T.holds T.mentions T.lines T.normal is_open conj.old.items
        conj.new.items again) }
{
    let mut removed = false;
    let mut unsure = is_open;
    let mut index = 0;
    while index < conj.len() {
        match left_out::<T>(alloc, conj, index)? {
            Verdict::Empty => {
                conj.remove(index);
                removed = true;
            }
            Verdict::Inhabited => index += 1,
            Verdict::Unknown => {
                unsure = true;
                index += 1;
            }
        }
    }
    Ok(removed && unsure)
}

/// Whether some point satisfies the others and not the atom at the index: `Empty` where they imply it.
fn left_out<T: Theory>(alloc: Global, conj: &[T::Atom], index: usize) -> Result<Verdict, NoMemory>
    requires within { index < length conj.now }
    requires normal { AllByRecursion T.normal conj.now }
    ensures implied { IfOk result (λ v. v ≡ Empty → IsImplied T.holds conj.now index) }
    ensures needed { IfOk result (λ v. v ≡ Inhabited → IsNeeded T.holds conj.now index) }
    ensures open { IfOk result (λ v. v ≡ Unknown → MayBeOpen T.decides T.mentions T.lines conj.now) }
{
    let others = both_conjs::<T>(alloc, &conj[..index], &conj[index + 1..])?;
    some_point_outside::<T>(alloc, others, &conj[index])
}

/// Whether some point satisfies the others and not the atom: a piece of its negation together with them. `Empty` where
/// they imply it. `Unknown` only where the theory doesn't decide, and they and the atom are wide.
///
/// # Errors
/// Out of memory.
pub fn some_point_outside<T: Theory>(
    alloc: Global,
    others: Vec<T::Atom>,
    atom: &T::Atom,
) -> Result<Verdict, NoMemory>
    requires normal { AllByRecursion T.normal others.items }
    requires normal_atom { T.normal atom.now }
    ensures implied { IfOk result (λ v. v ≡ Empty
        → HoldsNowhere (λ p. conj_holds T.holds others.items p && not (T.holds atom.now p))) }
    ensures needed { IfOk result (λ v. v ≡ Inhabited
        → HoldsSomewhere (λ p. conj_holds T.holds others.items p && not (T.holds atom.now p))) }
    ensures open { IfOk result (λ v. v ≡ Unknown
        → MayBeOpen T.decides T.mentions T.lines (others.items ++ atom.now ∷ [])) }
{
    match T::negate(atom)? {
        Negated::One(only) => together::<T>(alloc, others, only),
        Negated::Two(first, second) => {
            let copies = copy_conj::<T>(alloc, &others)?;
            match together::<T>(alloc, copies, first)? {
                Verdict::Empty => together::<T>(alloc, others, second),
                Verdict::Inhabited => Ok(Verdict::Inhabited),
                Verdict::Unknown => Ok(Verdict::Unknown),
            }
        }
    }
}

/// Whether some point satisfies the others and the atom.
fn together<T: Theory>(
    alloc: Global,
    mut others: Vec<T::Atom>,
    atom: T::Atom,
) -> Result<Verdict, NoMemory>
    requires normal { AllByRecursion T.normal others.items }
    requires normal_atom { T.normal atom }
    ensures implied { IfOk result (λ v. v ≡ Empty
        → HoldsNowhere (λ p. conj_holds T.holds others.items p && T.holds atom p)) }
    ensures needed { IfOk result (λ v. v ≡ Inhabited
        → HoldsSomewhere (λ p. conj_holds T.holds others.items p && T.holds atom p)) }
    ensures open { IfOk result (λ v. v ≡ Unknown
        → MayBeOpen T.decides T.mentions T.lines (others.items ++ atom ∷ [])) }
{
    others.push(atom)?;
    T::refute(alloc, &others)
}
