//! The names that a plan scans and that a goal uses.
ghost use Rattle.std.specs.Prelude.{◌≡◌, IfOk, OnOk, List, ℕ};
ghost use Rattle.std.specs.Str.{bytes_eq};
ghost use Rattle.std.specs.List.{list_any};
ghost use Rattle.ded_model.specs.Goal.{goal_form, goal_forms};
ghost use Rattle.ded_model.specs.PlanForm.{plan_form, plan_forms};
ghost use Rattle.ded_model.specs.Uses.{goal_uses, plan_uses};
ghost use Rattle.ded_plan.specs.ScannedNames.{with_name, with_names, with_all_names, scanned_name, used_name};
ghost use Rattle.ded_plan.specs.ScannedNames.{AreDistinctNames};

use ded_model::goal::Goal;
use ded_model::memory::NoMemory;
use ded_model::name::Name;
use ded_model::plan::Plan;
use std::alloc::Global;

/// The names that the plan scans, each once.
///
/// # Errors
/// Out of memory.
pub fn scanned_names(alloc: Global, plan: &Plan) -> Result<Vec<Name>, NoMemory>
    ensures all { IfOk result (λ v. (n : List ℕ) → plan_uses n (plan_form plan.now) ≡ list_any (bytes_eq n) v.items) }
    ensures once { IfOk result (λ v. AreDistinctNames v.items) }
{
    let mut names = Vec::new(alloc);
    add_names(&mut names, plan)?;
    Ok(names)
}

/// The names that the goal uses, each once.
///
/// # Errors
/// Out of memory.
pub fn used_names(alloc: Global, goal: &Goal) -> Result<Vec<Name>, NoMemory>
    ensures all { IfOk result (λ v. (n : List ℕ) → goal_uses n (goal_form goal.now) ≡ list_any (bytes_eq n) v.items) }
    ensures once { IfOk result (λ v. AreDistinctNames v.items) }
{
    let mut names = Vec::new(alloc);
    add_used_names(&mut names, goal)?;
    Ok(names)
}

/// Adds the names that the plan scans and that aren't there yet.
#[cycle(add_names)]
fn add_names(names: &mut Vec<Name>, plan: &Plan) -> Result<(), NoMemory>
    ensures { OnOk result (names.new.items ≡ with_names scanned_name names.old.items (plan_form plan.now)) }
{
    match plan {
        Plan::Scan(name, _) => add_name(names, name),
        Plan::Rows(_) => Ok(()),
        Plan::Join(parts) | Plan::Union(parts) => add_all_names(names, parts),
        Plan::Minus(from, taken) => {
            add_names(names, from)?;
            add_names(names, taken)
        }
        Plan::Not(part) | Plan::Project(_, part) => add_names(names, part),
    }
}

/// Adds the names that one of the plans scans and that aren't there yet.
#[cycle(add_names)]
fn add_all_names(names: &mut Vec<Name>, plans: &Vec<Plan>) -> Result<(), NoMemory>
    ensures { OnOk result (names.new.items ≡ with_all_names scanned_name names.old.items (plan_forms plans.now.items)) }
{
    for plan in plans {
        add_names(names, plan)?;
    }
    Ok(())
}

/// Adds the names that the goal uses and that aren't there yet.
#[cycle(add_used_names)]
fn add_used_names(names: &mut Vec<Name>, goal: &Goal) -> Result<(), NoMemory>
    ensures { OnOk result (names.new.items ≡ with_names used_name names.old.items (goal_form goal.now)) }
{
    match goal {
        Goal::True | Goal::False | Goal::Linear(_) | Goal::Theme(_) => Ok(()),
        Goal::Member(name, _) => add_name(names, name),
        Goal::Not(part) => add_used_names(names, part),
        Goal::And(parts) | Goal::Or(parts) => add_all_used_names(names, parts),
        Goal::Implies(left, right) => {
            add_used_names(names, left)?;
            add_used_names(names, right)
        }
        Goal::Exists(_, part) | Goal::Forall(_, part) => add_used_names(names, part),
    }
}

/// Adds the names that one of the goals uses and that aren't there yet.
#[cycle(add_used_names)]
fn add_all_used_names(names: &mut Vec<Name>, goals: &Vec<Goal>) -> Result<(), NoMemory>
    ensures { OnOk result (names.new.items ≡ with_all_names used_name names.old.items (goal_forms goals.now.items)) }
{
    for goal in goals {
        add_used_names(names, goal)?;
    }
    Ok(())
}

/// Adds the name, unless it is there already.
fn add_name(names: &mut Vec<Name>, name: &Name) -> Result<(), NoMemory>
    ensures { OnOk result (names.new.items ≡ with_name names.old.items name.now) }
{
    if !names.contains(name) {
        names.push(name.copy()?)?;
    }
    Ok(())
}
