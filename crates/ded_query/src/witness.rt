//! Plans that ask only whether a view has a point, and the closed goal that says it: that of the view's formula, with a
//! quantifier for each column.
ghost use Rattle.std.specs.Prelude.{◌≡◌, ◌≤◌, true, is_some, IfOk, IsErrOf, OnOk};
ghost use Rattle.std.specs.List.{AllByRecursion};
ghost use Rattle.std.specs.Option.{IfSome};
ghost use Rattle.ded_model.specs.declared.memory.Refused.TheVariants.{Wide};
ghost use Rattle.ded_model.specs.Entries.{known, entry_of, view_in};
ghost use Rattle.ded_model.specs.Goal.{goal_form};
ghost use Rattle.ded_model.specs.Known.{heading_slots, level_with};
ghost use Rattle.ded_model.specs.Made.{base};
ghost use Rattle.ded_model.specs.PlanForm.{plan_form};
ghost use Rattle.ded_catalog.specs.Snapshots.{snapshot_of};
ghost use Rattle.ded_query.specs.Asking.{projects, IsRoundScan, IsAsking, IsAskedView, IsClosedView, IsClosedPlan};
ghost use Rattle.ded_query.specs.Asking.{IsWitness, IsTruthOf};
ghost use Rattle.ded_query.specs.Closing.{closing};
ghost use Rattle.ded_query.specs.Gathering.{IsGivenOf, IsFront};
ghost use Rattle.ded_query.specs.Tried.{TriesMore, IsBelowTried, IsGatheredBy};

use crate::gathering::evaluated_whole;
use crate::strata::Strata;
use crate::tried::Tried;
use ded_algebra::{Evaluate, Given, everywhere, nowhere};
use ded_atoms::holds_everywhere;
use ded_catalog::Snapshot;
use ded_model::goal::Goal;
use ded_model::memory::{NoMemory, Refused};
use ded_model::name::{Column, Name};
use ded_model::plan::Plan;
use ded_model::slot::{Slot, Slots};
use ded_model::tuple::Tuples;
use ded_plan::plan;
use ded_resolve::laws;
use std::alloc::{AllocError, Global};

/// The view of which the plan asks only whether it has a point, where nothing is given under its name. None says
/// nothing: whether it is told decides speed alone.
pub(crate) fn asked_view<'a>(
    snapshot: &Snapshot<'_>,
    plan: &'a Plan,
    given: &Given,
) -> Option<&'a Name>
    ensures { IfSome result (λ n. IsAskedView (snapshot_of snapshot.now) (plan_form plan.now) n.now) }
{
    let name = asked_name(plan)?;
    if given.has(name) || snapshot.goal(name).is_none() {
        return None;
    }
    Some(name)
}

/// The name that the plan scans, where it is made of projections round this scan, and they project all its slots.
fn asked_name(plan: &Plan) -> Option<&Name>
    ensures { IfSome result (λ n. IsAsking (plan_form plan.now) n.now) }
{
    let (name, slots) = round_scan(plan)?;
    if are_projected(plan, slots) {
        Some(name)
    } else {
        None
    }
}

/// The name and the slots of the scan round which the plan is made of projections alone.
fn round_scan(plan: &Plan) -> Option<(&Name, &Slots)>
    ensures { IfSome result (λ r. IsRoundScan (plan_form plan.now) r.0.now r.1.now) }
{
    match plan {
        Plan::Scan(name, slots) => Some((name, slots)),
        Plan::Project(_, part) => round_scan(part),
        Plan::Rows(_) | Plan::Join(_) | Plan::Union(_) | Plan::Minus(_, _) | Plan::Not(_) => None,
    }
}

/// Whether each of the slots is one of those that the plan begins with projecting.
fn are_projected(plan: &Plan, slots: &Slots) -> bool
    ensures { result ≡ true → AllByRecursion (λ s. projects (plan_form plan.now) s ≡ true) slots.now }
{
    for slot in &slots.list {
        if !is_projected(plan, *slot) {
            return false;
        }
    }
    true
}

/// Whether the slot is one of those that the plan begins with projecting.
fn is_projected(plan: &Plan, slot: Slot) -> bool
    ensures { result ≡ projects (plan_form plan.now) slot }
{
    match plan {
        Plan::Project(own, part) => own.is_same(slot) || is_projected(part, slot),
        Plan::Scan(_, _)
        | Plan::Rows(_)
        | Plan::Join(_)
        | Plan::Union(_)
        | Plan::Minus(_, _)
        | Plan::Not(_) => false,
    }
}

/// Whether the view, which has at most the level, has a point.
///
/// # Errors
/// Its closed goal is too wide, or out of memory. More may be given then.
#[cycle(evaluated)]
pub(crate) fn witnessed<E: Evaluate>(
    strata: &Strata<'_, '_>,
    name: &Name,
    given: &mut Given,
    tried: &mut Tried,
) -> Result<bool, Refused>
    requires view { is_some
        (view_in (entry_of (snapshot_of strata.now.snapshot.now).entries name.now)) ≡ true }
    requires level { level_with (known (snapshot_of strata.now.snapshot.now) (base name.now)) ≤ strata.now.level }
    requires given { AllByRecursion (IsGivenOf (snapshot_of strata.now.snapshot.now)) given.old }
    requires below { IsBelowTried (snapshot_of strata.now.snapshot.now) given.old tried.old
        (λ m. level_with (known (snapshot_of strata.now.snapshot.now) (base name.now)) ≤ m) }
    ensures is { IfOk result (IsWitness (snapshot_of strata.now.snapshot.now) name.now) }
    ensures gathered { OnOk result
        (IsGatheredBy (snapshot_of strata.now.snapshot.now) given.old tried.old given.new tried.new) }
    ensures left { IsErrOf result Wide
        → IsGatheredBy (snapshot_of strata.now.snapshot.now) given.old tried.old given.new tried.new }
    ensures front { IsFront given.old given.new }
    ensures tried { TriesMore given.old tried.old tried.new }
{
    strata.snapshot.formed();
    let plan = closed_plan(strata.alloc, strata.snapshot, name)?;
    let below = Strata {
        alloc: strata.alloc,
        snapshot: strata.snapshot,
        level: strata.level - 1,
    };
    let Some(inner) = asked_view(strata.snapshot, &plan, given) else {
        let tuples = evaluated_whole::<E>(&below, &plan, given, tried)?;
        return Ok(holds_everywhere(&tuples.list));
    };
    witnessed::<E>(&below, inner, given, tried)
}

/// A plan of the view's goal with a quantifier for each of its columns.
///
/// # Errors
/// Out of memory.
fn closed_plan(alloc: Global, snapshot: &Snapshot<'_>, name: &Name) -> Result<Plan, NoMemory>
    requires view { is_some (view_in (entry_of (snapshot_of snapshot.now).entries name.now)) ≡ true }
    ensures { IfOk result (λ f. IsClosedPlan (snapshot_of snapshot.now) name.now (plan_form f)) }
{
    snapshot.formed();
    laws::normal_goals();
    let goal = closed_view(alloc, snapshot, name)?;
    plan(alloc, &goal)
}

/// The goal of the view's formula with a quantifier for each of its columns, the first outermost.
///
/// # Errors
/// Out of memory.
fn closed_view(alloc: Global, snapshot: &Snapshot<'_>, name: &Name) -> Result<Goal, NoMemory>
    requires { is_some (view_in (entry_of (snapshot_of snapshot.now).entries name.now)) ≡ true }
    ensures { IfOk result (λ g. IsClosedView (snapshot_of snapshot.now) name.now (goal_form g)) }
{
    snapshot.formed();
    let Some(goal) = snapshot.goal(name) else {
        unreachable!()
    };
    let Some(heading) = snapshot.heading(name) else {
        unreachable!()
    };
    let _ = &heading.columns; // for its invariant
    closed_goal(alloc, goal, &heading.columns, 0)
}

/// The goal with a quantifier for each of the columns, whose slots have the numbers from `number` on. The first is
/// outermost.
///
/// # Errors
/// Out of memory, also where a column would have no number.
fn closed_goal(
    alloc: Global,
    goal: &Goal,
    columns: &[Column],
    number: u32,
) -> Result<Goal, NoMemory>
    ensures { IfOk result (λ g. goal_form g ≡ closing (heading_slots number columns.now) (goal_form goal.now)) }
{
    let Some((column, others)) = columns.split_first() else {
        return goal.copy();
    };
    let next = number.checked_add(1).ok_or(AllocError)?;
    let inside = closed_goal(alloc, goal, others, next)?;
    let slot = Slot {
        number,
        sort: column.sort,
    };
    Ok(Goal::Exists(slot, Box::new(alloc, inside)?))
}

/// The tuple that holds everywhere, or none.
///
/// # Errors
/// Out of memory.
pub(crate) fn truth(alloc: Global, holds: bool) -> Result<Tuples, NoMemory>
    ensures { IfOk result (IsTruthOf holds) }
{
    if !holds {
        return Ok(nowhere(alloc));
    }
    everywhere(alloc)
}
