//! Joins, unions and complements of plans.
ghost use Rattle.std.specs.Prelude.{◌≡◌, ◌++◌, IfOk};
ghost use Rattle.ded_model.specs.Logic.{minus};
ghost use Rattle.ded_model.specs.PlanForm.{plan_form, plan_forms};
ghost use Rattle.ded_model.specs.Pushed.{some_member};
ghost use Rattle.ded_plan.specs.Rewrite.{join_of, union_of, negated, comes_apart, flattened, kept, taken};
ghost use Rattle.ded_plan.specs.Rewrite.{difference_of, joined};

use crate::distributing::distributed;
use ded_model::memory::NoMemory;
use ded_model::plan::Plan;
use std::alloc::Global;

/// The join of the plans: the members of joins among them in the joins' places, and without the parts of complements.
///
/// # Errors
/// Out of memory.
pub fn joined(alloc: Global, plans: Vec<Plan>) -> Result<Plan, NoMemory>
    ensures { IfOk result (λ p. plan_form p ≡ joined (plan_forms plans.items)) }
{
    if !some_comes_apart(&plans) {
        return Ok(join_of(distributed(alloc, plans)?));
    }
    let mut kept = Vec::with_capacity(alloc, plans.len())?;
    let mut taken = Vec::new(alloc);
    for plan in flattened(alloc, plans)? {
        match plan {
            Plan::Not(part) => taken.push(Box::into_inner(part))?,
            other => kept.push(other)?,
        }
    }
    difference_of(alloc, kept, taken)
}

/// Whether a join takes one of the plans apart.
fn some_comes_apart(plans: &Vec<Plan>) -> bool
    ensures { result ≡ some_member comes_apart (plan_forms plans.now.items) }
{
    for plan in plans {
        if comes_apart(plan) {
            return true;
        }
    }
    false
}

/// Whether a join takes the plan apart: a join into its members, a complement into its part.
fn comes_apart(plan: &Plan) -> bool
    ensures { result ≡ comes_apart (plan_form plan.now) }
{
    matches!(plan, Plan::Join(_) | Plan::Not(_))
}

/// The plans with the members of joins in the joins' places.
fn flattened(alloc: Global, plans: Vec<Plan>) -> Result<Vec<Plan>, NoMemory>
    ensures { IfOk result (λ ps. plan_forms ps.items ≡ flattened (plan_forms plans.items)) }
{
    let mut members = Vec::with_capacity(alloc, plans.len())?;
    for plan in plans {
        match plan {
            Plan::Join(parts) => members = appended(members, parts)?,
            other => members.push(other)?,
        }
    }
    Ok(members)
}

/// The first plans, then the second.
fn appended(plans: Vec<Plan>, others: Vec<Plan>) -> Result<Vec<Plan>, NoMemory>
    ensures { IfOk result (λ ps. ps.items ≡ plans.items ++ others.items) }
{
    let mut plans = plans;
    for other in others {
        plans.push(other)?;
    }
    Ok(plans)
}

/// The join of the first plans without the union of the second.
fn difference_of(alloc: Global, kept: Vec<Plan>, taken: Vec<Plan>) -> Result<Plan, NoMemory>
    ensures { IfOk result (λ p. plan_form p ≡ difference_of (plan_forms kept.items) (plan_forms taken.items)) }
{
    if taken.is_empty() {
        drop(taken);
        return Ok(join_of(distributed(alloc, kept)?));
    }
    if kept.is_empty() {
        drop(kept);
        return negated(alloc, union_of(taken));
    }
    let from = join_of(distributed(alloc, kept)?);
    minus_of(alloc, from, union_of(taken))
}

/// The first plan without the second.
///
/// # Errors
/// Out of memory.
pub(crate) fn minus_of(alloc: Global, from: Plan, taken: Plan) -> Result<Plan, NoMemory>
    ensures { IfOk result (λ p. plan_form p ≡ minus (plan_form from) (plan_form taken)) }
{
    Ok(Plan::Minus(Box::new(alloc, from)?, Box::new(alloc, taken)?))
}

/// The complement of the plan.
///
/// # Errors
/// Out of memory.
pub fn negated(alloc: Global, plan: Plan) -> Result<Plan, NoMemory>
    ensures { IfOk result (λ p. plan_form p ≡ negated (plan_form plan)) }
{
    match plan {
        Plan::Not(part) => Ok(Box::into_inner(part)),
        other => Ok(Plan::Not(Box::new(alloc, other)?)),
    }
}

/// The union of the plans; a single one as it is.
pub fn union_of(plans: Vec<Plan>) -> Plan
    ensures { plan_form result ≡ union_of (plan_forms plans.items) }
{
    if plans.len() == 1 {
        let mut plans = plans;
        plans.remove(0)
    } else {
        Plan::Union(plans)
    }
}

/// The join of the plans; a single one as it is.
pub fn join_of(plans: Vec<Plan>) -> Plan
    ensures { plan_form result ≡ join_of (plan_forms plans.items) }
{
    if plans.len() == 1 {
        let mut plans = plans;
        plans.remove(0)
    } else {
        Plan::Join(plans)
    }
}
