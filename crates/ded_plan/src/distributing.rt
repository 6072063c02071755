//! Rows beside a union: they go into its parts.
ghost use Rattle.std.specs.Prelude.{◌≡◌, IfOk};
ghost use Rattle.ded_model.specs.PlanForm.{plan_form, plan_forms};
ghost use Rattle.ded_model.specs.Pushed.{is_rows, is_union, some_member};
ghost use Rattle.ded_plan.specs.Rewrite.{with_rows, each_with_rows, also_rows, also_all_rows, distributed};

use crate::joining::join_of;
use ded_model::memory::NoMemory;
use ded_model::plan::Plan;
use ded_model::tuple::Tuple;
use std::alloc::Global;

/// The members of a join with the rows among them put into a union, where there is one.
///
/// # Errors
/// Out of memory.
pub fn distributed(alloc: Global, plans: Vec<Plan>) -> Result<Vec<Plan>, NoMemory>
    ensures { IfOk result (λ ps. plan_forms ps.items ≡ distributed (plan_forms plans.items)) }
{
    if !some_is_rows(&plans) || !some_is_union(&plans) {
        return Ok(plans);
    }
    let mut tuples = Vec::new(alloc);
    let mut members = Vec::with_capacity(alloc, plans.len())?;
    for plan in plans {
        match plan {
            Plan::Rows(tuple) => tuples.push(tuple)?,
            other => members.push(other)?,
        }
    }
    also_all_rows(alloc, &tuples, members)
}

/// Whether one of the plans is a tuple.
fn some_is_rows(plans: &Vec<Plan>) -> bool
    ensures { result ≡ some_member is_rows (plan_forms plans.now.items) }
{
    for plan in plans {
        if is_rows(plan) {
            return true;
        }
    }
    false
}

/// Whether one of the plans is a union.
fn some_is_union(plans: &Vec<Plan>) -> bool
    ensures { result ≡ some_member is_union (plan_forms plans.now.items) }
{
    for plan in plans {
        if is_union(plan) {
            return true;
        }
    }
    false
}

/// Whether the plan is a tuple.
fn is_rows(plan: &Plan) -> bool
    ensures { result ≡ is_rows (plan_form plan.now) }
{
    matches!(plan, Plan::Rows(_))
}

/// Whether the plan is a union.
fn is_union(plan: &Plan) -> bool
    ensures { result ≡ is_union (plan_form plan.now) }
{
    matches!(plan, Plan::Union(_))
}

/// The members of a join, with each of the tuples beside them.
fn also_all_rows(alloc: Global, tuples: &[Tuple], members: Vec<Plan>) -> Result<Vec<Plan>, NoMemory>
    ensures { IfOk result (λ ps. plan_forms ps.items ≡ also_all_rows tuples.now (plan_forms members.items)) }
{
    let mut members = members;
    for tuple in tuples {
        members = also_rows(alloc, tuple, members)?;
    }
    Ok(members)
}

/// The plan at the points at which the tuple holds as well.
#[cycle(with_rows)]
fn with_rows(alloc: Global, tuple: &Tuple, plan: Plan) -> Result<Plan, NoMemory>
    ensures { IfOk result (λ p. plan_form p ≡ with_rows tuple.now (plan_form plan)) }
{
    match plan {
        Plan::Union(parts) => Ok(Plan::Union(each_with_rows(alloc, tuple, parts)?)),
        Plan::Join(parts) => Ok(join_of(also_rows(alloc, tuple, parts)?)),
        Plan::Not(part) => Ok(Plan::Minus(Box::new(alloc, Plan::Rows(tuple.copy()?))?, part)),
        other => {
            let mut members = Vec::with_capacity(alloc, 2)?;
            members.push(other)?;
            members.push(Plan::Rows(tuple.copy()?))?;
            Ok(Plan::Join(members))
        }
    }
}

/// The plans, each at the points at which the tuple holds as well.
#[cycle(with_rows)]
fn each_with_rows(alloc: Global, tuple: &Tuple, plans: Vec<Plan>) -> Result<Vec<Plan>, NoMemory>
    ensures { IfOk result (λ ps. plan_forms ps.items ≡ each_with_rows tuple.now (plan_forms plans.items)) }
{
    let mut parts = Vec::with_capacity(alloc, plans.len())?;
    for plan in plans {
        parts.push(with_rows(alloc, tuple, plan)?)?;
    }
    Ok(parts)
}

/// The members of a join with the tuple beside them: in the first union, else as one member more.
#[cycle(with_rows)]
fn also_rows(alloc: Global, tuple: &Tuple, plans: Vec<Plan>) -> Result<Vec<Plan>, NoMemory>
    ensures { IfOk result (λ ps. plan_forms ps.items ≡ also_rows tuple.now (plan_forms plans.items)) }
{
    let mut members = Vec::with_capacity(alloc, plans.len())?;
    let mut placed = false;
    for plan in plans {
        if !placed && is_union(&plan) {
            members.push(with_rows(alloc, tuple, plan)?)?;
            placed = true;
        } else {
            members.push(plan)?;
        }
    }
    if !placed {
        members.push(Plan::Rows(tuple.copy()?))?;
    }
    Ok(members)
}
