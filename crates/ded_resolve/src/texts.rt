//! Comparisons of texts.
ghost use Rattle.std.specs.Prelude.{◌≡◌, IfOk};
ghost use Rattle.ded_model.specs.declared.slot.Sort.TheVariants.{Text};
ghost use Rattle.ded_model.specs.Point.{AllBytes};
ghost use Rattle.ded_model.specs.Goal.{goal_form};
ghost use Rattle.ded_model.specs.Slotted.{text_side, texts_goal, same_text_goal, other_text_goal, same_slots_goal};
ghost use Rattle.ded_model.specs.Slotted.{other_slots_goal, truth_goal};
ghost use Rattle.ded_resolve.specs.Sides.{side_form};
ghost use Rattle.ded_resolve.specs.Tuples.{IsTextSide, IsNormalComparison};

use crate::scope::Scope;
use ded_model::formula::{CompareOp, Operand};
use ded_model::goal::Goal;
use ded_model::memory::NoMemory;
use ded_model::name::Name;
use ded_model::slot::Slot;
use ded_model::tuple::ThemeAtom;
use std::alloc::Global;

/// A side of a comparison of texts: a slot, or the bytes of a quoted text.
#[derive(Clone, Copy)]
pub enum ComparedText<'a> {
    At(Slot),
    Word(&'a [u8]),
}

/// The side that an operand is. A sum is no text, and counts as an empty one.
pub fn text_side<'a>(scope: &Scope, operand: &'a Operand) -> ComparedText<'a>
    ensures { side_form result ≡ text_side scope.now operand.now }
{
    match operand {
        Operand::Single(name) => ComparedText::At(scope.slot(name)),
        Operand::Sum(_) => ComparedText::Word(&[]),
        Operand::Quoted(text) => ComparedText::Word(text.bytes.as_slice()),
    }
}

/// The goal of a comparison of texts, which have no order.
///
/// # Errors
/// Out of memory.
pub fn texts(
    alloc: Global,
    left: ComparedText,
    op: CompareOp,
    right: ComparedText,
) -> Result<Goal, NoMemory>
    ensures goal { IfOk result (λ g. goal_form g ≡ texts_goal (side_form left.entry) op (side_form right.entry)) }
    ensures normal { IsTextSide (side_form left.entry) → IsTextSide (side_form right.entry)
        → IfOk result (λ g. IsNormalComparison (goal_form g)) }
{
    match op {
        CompareOp::Equal => same_text(alloc, left, right),
        CompareOp::NotEqual => other_text(alloc, left, right),
        _ => Ok(Goal::False),
    }
}

/// The goal that both sides are the same text.
fn same_text(alloc: Global, left: ComparedText, right: ComparedText) -> Result<Goal, NoMemory>
    ensures goal { IfOk result (λ g. goal_form g ≡ same_text_goal (side_form left.entry) (side_form right.entry)) }
    ensures normal { IsTextSide (side_form left.entry) → IsTextSide (side_form right.entry)
        → IfOk result (λ g. IsNormalComparison (goal_form g)) }
{
    match (left, right) {
        (ComparedText::At(s), ComparedText::At(t)) => Ok(same_slots(s, t)),
        (ComparedText::At(s), ComparedText::Word(t)) => Ok(Goal::Theme(ThemeAtom::EqText(
            s,
            quoted(alloc, t)?,
        ))),
        (ComparedText::Word(t), ComparedText::At(s)) => Ok(Goal::Theme(ThemeAtom::EqText(
            s,
            quoted(alloc, t)?,
        ))),
        (ComparedText::Word(t), ComparedText::Word(u)) => Ok(truth(t == u)),
    }
}

/// The goal that the sides are different texts.
fn other_text(alloc: Global, left: ComparedText, right: ComparedText) -> Result<Goal, NoMemory>
    ensures goal { IfOk result (λ g. goal_form g ≡ other_text_goal (side_form left.entry) (side_form right.entry)) }
    ensures normal { IsTextSide (side_form left.entry) → IsTextSide (side_form right.entry)
        → IfOk result (λ g. IsNormalComparison (goal_form g)) }
{
    match (left, right) {
        (ComparedText::At(s), ComparedText::At(t)) => Ok(other_slots(s, t)),
        (ComparedText::At(s), ComparedText::Word(t)) => Ok(Goal::Theme(ThemeAtom::NeText(
            s,
            quoted(alloc, t)?,
        ))),
        (ComparedText::Word(t), ComparedText::At(s)) => Ok(Goal::Theme(ThemeAtom::NeText(
            s,
            quoted(alloc, t)?,
        ))),
        (ComparedText::Word(t), ComparedText::Word(u)) => Ok(truth(t != u)),
    }
}

/// The goal that both slots have the same text. The slot of lesser number stands first.
fn same_slots(s: Slot, t: Slot) -> Goal
    ensures goal { goal_form result ≡ same_slots_goal s t }
    ensures normal { s.sort ≡ Text → t.sort ≡ Text → IsNormalComparison (goal_form result) }
{
    if s.is_same(t) {
        Goal::True
    } else if s.number < t.number {
        Goal::Theme(ThemeAtom::EqSlot(s, t))
    } else {
        Goal::Theme(ThemeAtom::EqSlot(t, s))
    }
}

/// The goal that the slots have different texts. The slot of lesser number stands first.
fn other_slots(s: Slot, t: Slot) -> Goal
    ensures goal { goal_form result ≡ other_slots_goal s t }
    ensures normal { s.sort ≡ Text → t.sort ≡ Text → IsNormalComparison (goal_form result) }
{
    if s.is_same(t) {
        Goal::False
    } else if s.number < t.number {
        Goal::Theme(ThemeAtom::NeSlot(s, t))
    } else {
        Goal::Theme(ThemeAtom::NeSlot(t, s))
    }
}

/// The goal that holds everywhere, or nowhere.
fn truth(holds: bool) -> Goal
    ensures { goal_form result ≡ truth_goal holds }
{
    if holds { Goal::True } else { Goal::False }
}

/// A text of the given bytes.
fn quoted(alloc: Global, bytes: &[u8]) -> Result<Name, NoMemory>
    ensures text { IfOk result (λ n. n ≡ bytes.now) }
    ensures bytes { IfOk result (λ n. AllBytes n) }
{
    Ok(Name {
        bytes: Vec::from_slice(alloc, bytes)?,
    })
}
