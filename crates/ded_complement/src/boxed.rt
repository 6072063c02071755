//! Conjunctions in boxes.
ghost use Rattle.std.specs.Prelude.{◌≡◌, ◌++◌, IfOk};
ghost use Rattle.std.specs.List.{AllByRecursion};
ghost use Rattle.ded_model.specs.declared.slot.Sort.TheVariants.{Rat};
ghost use Rattle.ded_genrel.specs.Lists.{conjs_of, AreNormal};
ghost use Rattle.ded_genrel.specs.Rounds.{AreRational};
ghost use Rattle.ded_complement.specs.Boxed.{conjs_in, IsBoxed, AreBoxed};

use ded_box::BoundBox;
use ded_genrel::{GenRel, box_round};
use ded_model::bound::Bound;
use ded_model::memory::NoMemory;
use ded_model::slot::{Slot, Sort};
use ded_theory::{Span, Theory};
use std::alloc::Global;

/// From how many conjunctions on a list gets boxes, as one of fewer isn't worth them. The first so many are asked which
/// slots they bound, and no more.
const BOXED_FROM: usize = 8;

/// Slots of higher numbers get no intervals. The columns of a relation and the variables of a formula are numbered from
/// 0 on.
const SLOTS: u32 = 8;

/// A conjunction, and a box around it on some slots.
#[derive(Drop)]
pub struct Boxed<A> {
    pub(crate) conj: Vec<A>,
    pub(crate) bounds: BoundBox,
}

/// Rational slots that the first conjunctions of the list bound; none where the list has few.
///
/// # Errors
/// Out of memory.
pub(crate) fn bounded_slots<T: Theory>(
    alloc: Global,
    list: &GenRel<T>,
) -> Result<Vec<Slot>, NoMemory>
    ensures { IfOk result (λ v. AreRational v.items) }
{
    let mut slots = Vec::new(alloc);
    let conjs = list.list();
    if conjs.len() < BOXED_FROM {
        return Ok(slots);
    }
    for number in 0..SLOTS {
        let slot = Slot {
            number,
            sort: Sort::Rat,
        };
        if some_bounds::<T>(alloc, &conjs[..BOXED_FROM], slot)? {
            slots.push(slot)?;
        }
    }
    Ok(slots)
}

/// Whether one of the conjunctions bounds the slot.
fn some_bounds<T: Theory>(
    alloc: Global,
    conjs: &[Vec<T::Atom>],
    slot: Slot,
) -> Result<bool, NoMemory>
    requires normal { AreNormal T.normal (conjs_of conjs.now) }
    requires rational { slot.sort ≡ Rat }
{
    for conj in conjs {
        if is_bounded(T::bounds(alloc, conj, slot)?) {
            return Ok(true);
        }
    }
    Ok(false)
}

/// Whether the span has a bound: false where no point satisfies the conjunction.
fn is_bounded(span: Span) -> bool {
    match span {
        Span::Nothing => false,
        Span::Exact(Bound::Infinite, Bound::Infinite) => false,
        Span::Around(Bound::Infinite, Bound::Infinite) => false,
        _ => true,
    }
}

/// The conjunction with a box around it on the slots.
///
/// # Errors
/// Out of memory.
pub(crate) fn with_box<T: Theory>(
    alloc: Global,
    conj: Vec<T::Atom>,
    slots: &[Slot],
) -> Result<Boxed<T::Atom>, NoMemory>
    requires normal { AllByRecursion T.normal conj.items }
    requires rational { AreRational slots.now }
    ensures same { IfOk result (λ b. b.conj.items ≡ conj.items) }
    ensures boxed { IfOk result (λ b. IsBoxed T.holds T.normal slots.now b) }
{
    let bounds = box_round::<T>(alloc, &conj, slots)?;
    Ok(Boxed { conj, bounds })
}

/// Each conjunction of the list in its box.
///
/// # Errors
/// Out of memory.
pub fn boxed_list<T: Theory>(
    alloc: Global,
    list: &GenRel<T>,
    slots: &[Slot],
) -> Result<Vec<Boxed<T::Atom>>, NoMemory>
    requires { AreRational slots.now }
    ensures same { IfOk result (λ v. conjs_in v.items ≡ list.now) }
    ensures boxed { IfOk result (λ v. AreBoxed T.holds T.normal slots.now v.items) }
{
    let mut out = Vec::new(alloc);
    push_boxed(&mut out, list.copy()?, slots)?;
    Ok(out)
}

/// Sets each conjunction of the list, in its box, at the end.
///
/// # Errors
/// Out of memory.
pub(crate) fn push_boxed<T: Theory>(
    out: &mut Vec<Boxed<T::Atom>>,
    list: GenRel<T>,
    slots: &[Slot],
) -> Result<(), NoMemory>
    requires rational { AreRational slots.now }
    requires boxed { AreBoxed T.holds T.normal slots.now out.old.items }
    ensures same { IfOk result (λ _. conjs_in out.new.items ≡ conjs_in out.old.items ++ list) }
    ensures boxed { IfOk result (λ _. AreBoxed T.holds T.normal slots.now out.new.items) }
{
    let alloc = *out.allocator();
    for conj in list.conjs {
        out.push(with_box::<T>(alloc, conj, slots)?)?;
    }
    Ok(())
}

/// The conjunctions without their boxes.
///
/// # Errors
/// Out of memory.
pub(crate) fn unboxed<T: Theory>(
    alloc: Global,
    list: Vec<Boxed<T::Atom>>,
) -> Result<GenRel<T>, NoMemory>
    requires { AreNormal T.normal (conjs_in list.items) }
    ensures { IfOk result (λ r. r ≡ conjs_in list.items) }
{
    let mut out = GenRel::new(alloc);
    for boxed in list {
        out.push(boxed.conj)?;
    }
    Ok(out)
}
