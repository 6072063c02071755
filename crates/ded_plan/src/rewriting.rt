//! The plan that is put in the place of a plan, from its parts on.
ghost use Rattle.std.specs.Prelude.{◌≡◌, IfOk};
ghost use Rattle.ded_model.specs.Logic.{atom, every_of};
ghost use Rattle.ded_model.specs.Normal.{IsNormalTuple};
ghost use Rattle.ded_model.specs.PlanForm.{scan, rows, plan_form, plan_forms};
ghost use Rattle.ded_model.specs.Point.{AreDistinctSlots};
ghost use Rattle.ded_plan.specs.Rewrite.{rewritten, each_rewritten};
ghost use Rattle.ded_plan.specs.Rewritten.{IsTidyPlan, IsRewritten};

use crate::joining::{joined, minus_of, negated, union_of};
use crate::projecting::projected;
use ded_model::memory::NoMemory;
use ded_model::name::Name;
use ded_model::plan::Plan;
use ded_model::slot::Slots;
use ded_model::tuple::Tuple;
use std::alloc::Global;

/// The plan in the form in which each projection stands as deep as it can: over no union, over nothing that doesn't
/// mention its slot and over no member of a join that doesn't; with no join in a join, no rows beside a union, no
/// complement in a complement or beside another member, and no join or union of one part. Over every catalogue it holds
/// exactly where the plan does. It mentions freely only slots that the plan does, has lengths and a rank of at most the
/// plan's, lines among the plan's, and clashes only where the plan does. It has the same scans, each as often, and
/// atoms of the plan alone, and is conjunctive where the plan is. Its projections are of slots, its scans at distinct
/// ones, and its rows are normal. Where two slots of one number that a part of the plan mentions freely have one sort,
/// so it is in each of its parts.
///
/// # Errors
/// Out of memory; the plan is lost.
pub fn rewrite(alloc: Global, plan: Plan) -> Result<Plan, NoMemory>
    ensures { IfOk result (λ p. IsRewritten (plan_form plan) (plan_form p)) }
{
    Ok(rewritten(alloc, plan)?)
}

/// The plan with its parts rewritten first, and then itself.
#[cycle(rewritten)]
fn rewritten(alloc: Global, plan: Plan) -> Result<Plan, NoMemory>
    ensures plan { IfOk result (λ p. plan_form p ≡ rewritten (plan_form plan)) }
    ensures tidy { IfOk result (λ p. IsTidyPlan (plan_form plan)) }
{
    match plan {
        Plan::Join(parts) => joined(alloc, each_rewritten(alloc, parts)?),
        Plan::Union(parts) => Ok(union_of(each_rewritten(alloc, parts)?)),
        Plan::Minus(from, taken) => {
            let from = rewritten(alloc, Box::into_inner(from))?;
            let taken = rewritten(alloc, Box::into_inner(taken))?;
            minus_of(alloc, from, taken)
        }
        Plan::Not(part) => negated(alloc, rewritten(alloc, Box::into_inner(part))?),
        Plan::Project(slot, part) => projected(
            alloc,
            slot,
            rewritten(alloc, Box::into_inner(part))?,
        ),
        Plan::Rows(tuple) => Ok(rows_of(tuple)),
        Plan::Scan(name, slots) => Ok(scan_of(name, slots)),
    }
}

/// The plans, each rewritten.
#[cycle(rewritten)]
fn each_rewritten(alloc: Global, plans: Vec<Plan>) -> Result<Vec<Plan>, NoMemory>
    ensures plans { IfOk result (λ ps. plan_forms ps.items ≡ each_rewritten (plan_forms plans.items)) }
    ensures tidy { IfOk result (λ ps. IsTidyPlan (every_of (plan_forms plans.items))) }
{
    let mut done = Vec::with_capacity(alloc, plans.len())?;
    for plan in plans {
        done.push(rewritten(alloc, plan)?)?;
    }
    Ok(done)
}

/// The plan of the points at which the tuple holds.
fn rows_of(tuple: Tuple) -> Plan
    ensures plan { plan_form result ≡ atom (rows tuple) }
    ensures normal { IsNormalTuple tuple }
{
    let _ = &tuple.atoms; // for its invariant
    Plan::Rows(tuple)
}

/// The scan of a name at the slots.
fn scan_of(name: Name, slots: Slots) -> Plan
    ensures plan { plan_form result ≡ atom (scan name slots) }
    ensures distinct { AreDistinctSlots slots }
{
    let _ = &slots.list; // for its invariant
    Plan::Scan(name, slots)
}
