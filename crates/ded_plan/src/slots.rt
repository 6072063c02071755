//! The slots that a plan mentions freely.
ghost use Rattle.std.specs.Prelude.{◌≡◌};
ghost use Rattle.ded_model.specs.Logic.{any_mentions};
ghost use Rattle.ded_model.specs.PlanForm.{plan_form, plan_forms, in_plan_atom, plan_mentions};
ghost use Rattle.ded_model.specs.Point.{slot};

use ded_model::plan::Plan;
use ded_model::slot::{Slot, stands_in};
use ded_model::tuple::mention;

/// Whether the plan mentions the slot freely.
#[cycle(mentions)]
pub fn mentions(plan: &Plan, at: Slot) -> bool
    ensures { result ≡ plan_mentions (plan_form plan.now) (slot at) }
{
    match plan {
        Plan::Scan(_, slots) => stands_in(&slots.list, at),
        Plan::Rows(tuple) => mention(&tuple.atoms, at),
        Plan::Join(parts) | Plan::Union(parts) => some_mentions(parts, at),
        Plan::Minus(from, taken) => mentions(from, at) || mentions(taken, at),
        Plan::Not(part) => mentions(part, at),
        Plan::Project(projected, part) => !at.is_same(*projected) && mentions(part, at),
    }
}

/// Whether one of the plans mentions the slot freely.
#[cycle(mentions)]
fn some_mentions(plans: &Vec<Plan>, at: Slot) -> bool
    ensures { result ≡ any_mentions in_plan_atom (plan_forms plans.now.items) (slot at) }
{
    for plan in plans {
        if mentions(plan, at) {
            return true;
        }
    }
    false
}
