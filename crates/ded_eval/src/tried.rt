//! Which plans are tried before they are evaluated, and the slots that are projected around a part.
ghost use Rattle.std.specs.Prelude.{◌≡◌, ◌∷◌, ◌++◌, [], IfOk};

use crate::beside::is_rows;
use ded_atoms::{first_slot, last_slot};
use ded_model::memory::NoMemory;
use ded_model::plan::Plan;
use ded_model::slot::Slot;
use ded_model::tuple::{Atom, BothAtom};
use std::alloc::Global;

/// Whether the plan projects a slot.
pub(crate) fn projects(plan: &Plan) -> bool {
    match plan {
        Plan::Project(_, _) => true,
        Plan::Scan(_, _)
        | Plan::Rows(_)
        | Plan::Join(_)
        | Plan::Union(_)
        | Plan::Minus(_, _)
        | Plan::Not(_) => false,
    }
}

/// Whether the plan joins parts under its projections, or is a union of which a part does.
#[cycle(joins)]
pub(crate) fn joins(plan: &Plan) -> bool {
    match plan {
        Plan::Join(parts) => others_than_rows(parts) > 1,
        Plan::Union(parts) => some_joins(parts),
        Plan::Project(_, part) => joins(part),
        Plan::Scan(_, _) | Plan::Rows(_) | Plan::Minus(_, _) | Plan::Not(_) => false,
    }
}

/// Whether some part does.
#[cycle(joins)]
fn some_joins(parts: &Vec<Plan>) -> bool {
    for part in parts {
        if joins(part) {
            return true;
        }
    }
    false
}

/// How many of the parts aren't rows and text atoms alone.
pub(crate) fn others_than_rows(parts: &Vec<Plan>) -> usize {
    parts.iter().filter(|part| !is_rows(part)).count()
}

/// The slots that are projected around a plan.
#[derive(Clone, Copy)]
pub(crate) enum Projected<'a> {
    Nothing,
    Within(Slot, &'a Projected<'a>),
}

impl<'a> Projected<'a> {
    /// Whether the slot is one of them.
    fn has(&self, slot: Slot) -> bool {
        match self {
            Projected::Nothing => false,
            Projected::Within(own, outer) => own.is_same(slot) || outer.has(slot),
        }
    }
}

/// Whether each slot that the plan scans, or that its rows and text atoms mention, is projected in it, or around it.
#[cycle(is_closed)]
pub(crate) fn is_closed(plan: &Plan, bound: &Projected<'_>) -> bool {
    match plan {
        Plan::Scan(_, slots) => slots.list.iter().all(|slot| bound.has(*slot)),
        Plan::Rows(tuple) => tuple.atoms.iter().all(|atom| is_bound(atom, bound)),
        Plan::Join(parts) | Plan::Union(parts) => are_closed(parts, bound),
        Plan::Minus(from, taken) => is_closed(from, bound) && is_closed(taken, bound),
        Plan::Not(part) => is_closed(part, bound),
        Plan::Project(slot, part) => is_closed(part, &Projected::Within(*slot, &*bound)),
    }
}

/// Whether each slot of each part is so.
#[cycle(is_closed)]
fn are_closed(parts: &Vec<Plan>, bound: &Projected<'_>) -> bool {
    for part in parts {
        if !is_closed(part, bound) {
            return false;
        }
    }
    true
}

/// Whether each slot that the atom mentions is projected around it.
fn is_bound(atom: &Atom, bound: &Projected<'_>) -> bool {
    match atom {
        BothAtom::First(row) => row.coefs.list().iter().all(|coef| bound.has(coef.0)),
        BothAtom::Second(theme) => bound.has(first_slot(theme)) && bound.has(last_slot(theme)),
    }
}

/// The slots, and the slot behind them.
///
/// # Errors
/// Out of memory.
pub(crate) fn with_slot(alloc: Global, slots: &[Slot], slot: Slot) -> Result<Vec<Slot>, NoMemory>
    ensures { IfOk result (λ v. v.items ≡ slots.now ++ slot ∷ []) }
{
    let mut list = Vec::with_capacity(alloc, slots.len().saturating_add(1))?;
    list.extend_from_slice(slots)?;
    list.push(slot)?;
    Ok(list)
}
