//! The plan of a goal.
ghost use Rattle.std.specs.Prelude.{◌≡◌, IfOk, map};
ghost use Rattle.ded_model.specs.declared.tuple.BothAtom.TheVariants.{Second};
ghost use Rattle.ded_model.specs.Goal.{goal_form, goal_forms, linear};
ghost use Rattle.ded_model.specs.Logic.{atom, negation, exists, AllAtomsOf};
ghost use Rattle.ded_model.specs.Normal.{IsNormalRow};
ghost use Rattle.ded_model.specs.PlanForm.{plan_form, plan_forms, rows, scan};
ghost use Rattle.ded_model.specs.Point.{slot, AreDistinctSlots};
ghost use Rattle.ded_model.specs.Slotted.{goal_atoms};
ghost use Rattle.ded_algebra.specs.Compile.{row_plan, joined, projected, member_plan, plan_of, plans_of};
ghost use Rattle.ded_model.specs.NormalGoal.{IsOrderedTheme, IsNormalGoalAtom, IsNormalGoal};
ghost use Rattle.ded_algebra.specs.Compiled.{AreByteTexts, HasByteTexts, IsOfBytes, IsCompiled};

use crate::arguments::{first_free, quoted};
use crate::scanning::{Scanning, rows_of};
use ded_model::goal::{Goal, Place};
use ded_model::memory::NoMemory;
use ded_model::name::Name;
use ded_model::plan::Plan;
use ded_model::row::Row;
use ded_model::slot::{Slot, Slots};
use ded_model::tuple::{BothAtom, ThemeAtom, Tuple};
use ded_tuple::is_true;
use std::alloc::Global;

/// The plan of a goal whose rows and text atoms are normal, as those of the goal of a formula are. Over every catalogue
/// it holds exactly where the goal does. It mentions freely only slots that the goal does, has lengths and a rank of at
/// most the goal's, lines among the goal's, and clashes only where the goal does. Each scan is of an atom of the goal,
/// at slots of the sorts of its arguments, and each list of rows is an atom of the goal or ties an argument of one. Of
/// a conjunctive goal it is conjunctive and scans each name as often as the goal has it. Where in the goal each number
/// has one sort, two slots of one number that a part of the plan mentions freely have one sort.
///
/// # Errors
/// Out of memory, also where an atom has a slot of the greatest number and an argument that needs a new one.
pub fn compile(alloc: Global, goal: &Goal) -> Result<Plan, NoMemory>
    requires normal { IsNormalGoal (goal_form goal.now) }
    ensures { IfOk result (λ p. IsCompiled (goal_form goal.now) (plan_form p)) }
{
    Ok(plan(alloc, goal)?)
}

/// The plan of a goal, made of the plans of its parts.
#[cycle(plan)]
fn plan(alloc: Global, goal: &Goal) -> Result<Plan, NoMemory>
    requires normal { IsNormalGoal (goal_form goal.now) }
    ensures plan { IfOk result (λ p. plan_form p ≡ plan_of (goal_form goal.now)) }
    ensures bytes { IfOk result (λ p. IsOfBytes (goal_form goal.now)) }
{
    match goal {
        Goal::True => Ok(Plan::Join(Vec::new(alloc))),
        Goal::False => Ok(Plan::Union(Vec::new(alloc))),
        Goal::Linear(row) => row_plan(alloc, row),
        Goal::Theme(atom) => theme_plan(alloc, atom),
        Goal::Member(name, places) => member_plan(alloc, name, &places.list),
        Goal::Not(part) => negation_of(alloc, plan(alloc, part)?),
        Goal::And(parts) => Ok(Plan::Join(plans(alloc, parts)?)),
        Goal::Or(parts) => Ok(Plan::Union(plans(alloc, parts)?)),
        Goal::Implies(left, right) => {
            let mut parts = Vec::with_capacity(alloc, 2)?;
            parts.push(negation_of(alloc, plan(alloc, left)?)?)?;
            parts.push(plan(alloc, right)?)?;
            Ok(Plan::Union(parts))
        }
        Goal::Exists(slot, part) => projection_of(alloc, *slot, plan(alloc, part)?),
        Goal::Forall(slot, part) => {
            let fails = negation_of(alloc, plan(alloc, part)?)?;
            negation_of(alloc, projection_of(alloc, *slot, fails)?)
        }
    }
}

/// The plans of goals, one for each.
#[cycle(plan)]
fn plans(alloc: Global, goals: &Vec<Goal>) -> Result<Vec<Plan>, NoMemory>
    requires normal { AllAtomsOf IsNormalGoalAtom (goal_forms goals.now.items) }
    ensures plans { IfOk result (λ ps. plan_forms ps.items ≡ plans_of (goal_forms goals.now.items)) }
    ensures bytes { IfOk result (λ ps. AllAtomsOf HasByteTexts (goal_forms goals.now.items)) }
{
    let mut plans = Vec::with_capacity(alloc, goals.len())?;
    for goal in goals {
        plans.push(plan(alloc, goal)?)?;
    }
    Ok(plans)
}

/// The complement of the plan.
fn negation_of(alloc: Global, plan: Plan) -> Result<Plan, NoMemory>
    ensures { IfOk result (λ p. plan_form p ≡ negation (plan_form plan)) }
{
    Ok(Plan::Not(Box::new(alloc, plan)?))
}

/// The plan without the slot, which may have any value.
fn projection_of(alloc: Global, at: Slot, plan: Plan) -> Result<Plan, NoMemory>
    ensures { IfOk result (λ p. plan_form p ≡ exists at.sort (slot at) (plan_form plan)) }
{
    Ok(Plan::Project(at, Box::new(alloc, plan)?))
}

/// The plan of a row: the points at which it holds, or the whole space where the row is true everywhere.
fn row_plan(alloc: Global, row: &Row) -> Result<Plan, NoMemory>
    requires { IsNormalRow row.now }
    ensures { IfOk result (λ p. plan_form p ≡ atom (rows (goal_atoms (atom (linear row.now))))) }
{
    if is_true(row) {
        Ok(Plan::Rows(Tuple {
            atoms: Vec::new(alloc),
        }))
    } else {
        rows_of(alloc, BothAtom::First(row.copy()?))
    }
}

/// The plan of a text atom: the points at which it holds.
fn theme_plan(alloc: Global, theme: &ThemeAtom) -> Result<Plan, NoMemory>
    requires { IsOrderedTheme theme.now }
    ensures { IfOk result (λ p. plan_form p ≡ row_plan (Second theme.now)) }
{
    let atom = match theme {
        ThemeAtom::EqText(slot, text) => ThemeAtom::EqText(*slot, quoted(alloc, &text.bytes)?),
        ThemeAtom::NeText(slot, text) => ThemeAtom::NeText(*slot, quoted(alloc, &text.bytes)?),
        ThemeAtom::EqSlot(slot, other) => ThemeAtom::EqSlot(*slot, *other),
        ThemeAtom::NeSlot(slot, other) => ThemeAtom::NeSlot(*slot, *other),
    };
    rows_of(alloc, BothAtom::Second(atom))
}

/// The plan of an atom of a name: the scan of the name at its arguments, with the new slots tied and projected.
fn member_plan(alloc: Global, name: &Name, places: &[Place]) -> Result<Plan, NoMemory>
    ensures plan { IfOk result (λ p. plan_form p ≡ member_plan name.now places.now) }
    ensures bytes { IfOk result (λ p. AreByteTexts places.now) }
{
    let mut scanning = Scanning {
        slots: Vec::new(alloc),
        fresh: Vec::new(alloc),
        ties: Vec::new(alloc),
        next: first_free(places),
    };
    for place in places {
        scanning.add(alloc, place)?;
    }
    let Scanning {
        slots,
        fresh,
        ties,
        ..
    } = scanning;
    let scan = scan_of(name.copy()?, slots);
    projected(alloc, &fresh, joined(alloc, scan, ties)?)
}

/// The scan of a name at distinct slots.
fn scan_of(name: Name, list: Vec<Slot>) -> Plan
    requires { AreDistinctSlots list.items }
    ensures { plan_form result ≡ atom (scan name list.items) }
{
    Plan::Scan(name, Slots { list })
}

/// The join of the plan with others; the plan as it is where there are none.
fn joined(alloc: Global, plan: Plan, others: Vec<Plan>) -> Result<Plan, NoMemory>
    ensures { IfOk result (λ p. plan_form p ≡ joined (plan_form plan) (map plan_form others.items)) }
{
    if others.is_empty() {
        return Ok(plan);
    }
    let mut parts = Vec::with_capacity(alloc, others.len())?;
    parts.push(plan)?;
    for other in others {
        parts.push(other)?;
    }
    Ok(Plan::Join(parts))
}

/// The plan without the slots, the first one innermost.
fn projected(alloc: Global, slots: &[Slot], plan: Plan) -> Result<Plan, NoMemory>
    ensures { IfOk result (λ p. plan_form p ≡ projected slots.now (plan_form plan)) }
{
    let mut plan = plan;
    for slot in slots {
        plan = projection_of(alloc, *slot, plan)?;
    }
    Ok(plan)
}
