//! Projections of plans.
ghost use Rattle.std.specs.Prelude.{◌≡◌, false, IfOk};
ghost use Rattle.ded_model.specs.Logic.{every_of, exists};
ghost use Rattle.ded_model.specs.PlanForm.{plan_form, plan_forms};
ghost use Rattle.ded_model.specs.Point.{slot};
ghost use Rattle.ded_model.specs.Pushed.{is_join};
ghost use Rattle.ded_plan.specs.Rewrite.{count_of, inside, projected_down, projected, each_projected, projected_apart};

use crate::slots::mentions;
use ded_model::memory::NoMemory;
use ded_model::plan::Plan;
use ded_model::slot::Slot;
use std::alloc::Global;

/// The plan without the slot, which may have any value.
///
/// # Errors
/// Out of memory.
#[cycle(projected)]
pub fn projected(alloc: Global, at: Slot, plan: Plan) -> Result<Plan, NoMemory>
    ensures { IfOk result (λ p. plan_form p ≡ projected at.sort (slot at) (plan_form plan)) }
{
    match plan {
        Plan::Join(parts) => projected_join(alloc, at, parts),
        other => {
            if mentions(&other, at) {
                projected_down(alloc, at, other)
            } else {
                Ok(other)
            }
        }
    }
}

/// A plan that mentions the slot and is no join, without it.
#[cycle(projected)]
fn projected_down(alloc: Global, at: Slot, plan: Plan) -> Result<Plan, NoMemory>
    ensures { is_join (plan_form plan) ≡ false → IfOk result (λ p. plan_form p
        ≡ projected_down at.sort (slot at) (plan_form plan)) }
{
    match plan {
        Plan::Union(parts) => Ok(Plan::Union(each_projected(alloc, at, parts)?)),
        other => projection_of(alloc, at, other),
    }
}

/// The join of the parts without the slot: only parts that mention it are projected.
#[cycle(projected)]
fn projected_join(alloc: Global, at: Slot, parts: Vec<Plan>) -> Result<Plan, NoMemory>
    ensures { IfOk result (λ p. plan_form p ≡ projected at.sort (slot at) (every_of (plan_forms parts.items))) }
{
    let inside = count_inside(&parts, at);
    if inside == 0 {
        Ok(Plan::Join(parts))
    } else if inside == parts.len() {
        projection_of(alloc, at, Plan::Join(parts))
    } else if inside == 1 {
        Ok(Plan::Join(each_projected(alloc, at, parts)?))
    } else {
        projected_apart(alloc, at, parts)
    }
}

/// The plans, each without the slot.
#[cycle(projected)]
fn each_projected(alloc: Global, at: Slot, plans: Vec<Plan>) -> Result<Vec<Plan>, NoMemory>
    ensures { IfOk result (λ ps. plan_forms ps.items ≡ each_projected at.sort (slot at) (plan_forms plans.items)) }
{
    let mut parts = Vec::with_capacity(alloc, plans.len())?;
    for plan in plans {
        parts.push(projected(alloc, at, plan)?)?;
    }
    Ok(parts)
}

/// The projection of the whole plan: the plan without the slot.
fn projection_of(alloc: Global, at: Slot, plan: Plan) -> Result<Plan, NoMemory>
    ensures { IfOk result (λ p. plan_form p ≡ exists at.sort (slot at) (plan_form plan)) }
{
    Ok(Plan::Project(at, Box::new(alloc, plan)?))
}

/// How many of the plans mention the slot.
fn count_inside(plans: &Vec<Plan>, at: Slot) -> usize
    ensures { result ≡ count_of (inside (slot at) (plan_forms plans.now.items)) }
{
    let mut count = 0;
    for plan in plans {
        if mentions(plan, at) {
            count += 1;
        }
    }
    count
}

/// The members that don't mention the slot, joined with the projection of the join of those that do.
fn projected_apart(alloc: Global, at: Slot, plans: Vec<Plan>) -> Result<Plan, NoMemory>
    ensures { IfOk result (λ p. plan_form p ≡ projected_apart at.sort (slot at) (plan_forms plans.items)) }
{
    let mut inside = Vec::new(alloc);
    let mut outside = Vec::with_capacity(alloc, plans.len())?;
    for plan in plans {
        if mentions(&plan, at) {
            inside.push(plan)?;
        } else {
            outside.push(plan)?;
        }
    }
    outside.push(projection_of(alloc, at, Plan::Join(inside))?)?;
    Ok(Plan::Join(outside))
}
