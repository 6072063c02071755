//! Answers of questions and of views.
ghost use Rattle.std.specs.Prelude.{◌≡◌, ◌↔◌, IsTrue, true, is_some, None, [], IfOk, IsErrOf, OnOk};
ghost use Rattle.std.specs.List.{AllByRecursion, list_any};
ghost use Rattle.ded_model.specs.declared.memory.Refused.TheVariants.{Wide};
ghost use Rattle.ded_model.specs.Catalogue.{IsTruth};
ghost use Rattle.ded_model.specs.Cell.{IsReduced};
ghost use Rattle.ded_model.specs.Entries.{known, entry_of, view_in};
ghost use Rattle.ded_model.specs.Form.{Form};
ghost use Rattle.ded_model.specs.Goal.{GoalForm, goal_form};
ghost use Rattle.ded_model.specs.Made.{base};
ghost use Rattle.ded_model.specs.Measure.{measures, goal_clashes, IsTight};
ghost use Rattle.ded_model.specs.PlanForm.{plan_form};
ghost use Rattle.ded_model.specs.Row.{atom_holds};
ghost use Rattle.ded_model.specs.Width.{IsNarrowList};
ghost use Rattle.ded_algebra.specs.Given.{has_name};
ghost use Rattle.ded_catalog.specs.Snapshots.{snapshot_of};
ghost use Rattle.ded_plan.specs.Planned.{IsPlanned};
ghost use Rattle.ded_query.specs.Gathering.{IsGivenOf, IsGathered, IsFront, IsPosed, IsPosedPlan, IsEvaluated};
ghost use Rattle.ded_query.specs.Gathering.{IsViewOf, IsViewPlan};
ghost use Rattle.ded_query.specs.Over.{over_relations};
ghost use Rattle.ded_query.specs.Questions.{IsQuestion, IsAnswer};

use crate::gathering::evaluated_by;
use crate::giving::give_all;
use crate::strata::Strata;
use crate::tried::Tried;
use ded_algebra::{Evaluate, Given};
use ded_atoms::{holds_everywhere, reduced};
use ded_catalog::Snapshot;
use ded_model::goal::Goal;
use ded_model::limits;
use ded_model::memory::Refused;
use ded_model::name::{Heading, Name};
use ded_model::plan::Plan;
use ded_model::tuple::Tuples;
use ded_plan::plan;
use ded_resolve::laws;
use ded_width::laws::orderly_rows;
use std::alloc::Global;

/// Whether a closed formula, given as its goal, is true over the catalogue. What is held of views is read in their
/// place, and is the same after it.
///
/// # Errors
/// `Wide` only where the formula isn't tight, otherwise out of memory.
pub fn is_true<E: Evaluate>(
    alloc: Global,
    snapshot: &Snapshot<'_>,
    goal: &Goal,
    held: &mut Given,
) -> Result<bool, Refused>
    requires question { (f : Form) × IsQuestion (snapshot_of snapshot.now) [] (goal_form goal.now) f }
    requires held { AllByRecursion (IsGivenOf (snapshot_of snapshot.now)) held.old }
    ensures truth { (f : Form) → IsQuestion (snapshot_of snapshot.now) [] (goal_form goal.now) f
        → IfOk result (λ b. IsTrue b ↔ IsTruth (snapshot_of snapshot.now) f) }
    ensures held { held.new ≡ held.old }
    ensures wide { IsErrOf result Wide → (f : Form) → IsQuestion (snapshot_of snapshot.now) [] (goal_form goal.now) f
        → IsTight (snapshot_of snapshot.now) [] f → ⊥ }
{
    snapshot.formed();
    let tuples = evaluated_over::<E>(alloc, snapshot, goal, held)?;
    Ok(holds_everywhere(&tuples.list))
}

/// Normal tuples over the heading that hold exactly where a formula does, given as its goal. Each narrow one has
/// nothing superfluous, and none stands twice. Where the formula is orderly, each one has nothing superfluous, and its
/// rows are order rows between the points that the formula reaches. What is held of views is read in their place, and
/// is the same after it.
///
/// # Errors
/// `Wide` only where the formula isn't tight, otherwise out of memory.
pub fn answer<E: Evaluate>(
    alloc: Global,
    snapshot: &Snapshot<'_>,
    heading: &Heading,
    goal: &Goal,
    held: &mut Given,
) -> Result<Tuples, Refused>
    requires question { (f : Form) × IsQuestion (snapshot_of snapshot.now) heading.now (goal_form goal.now) f }
    requires held { AllByRecursion (IsGivenOf (snapshot_of snapshot.now)) held.old }
    ensures is { (f : Form) → IsQuestion (snapshot_of snapshot.now) heading.now (goal_form goal.now) f
        → IfOk result (λ ts. IsAnswer (snapshot_of snapshot.now) heading.now f ts) }
    ensures held { held.new ≡ held.old }
    ensures wide { IsErrOf result Wide → (f : Form)
        → IsQuestion (snapshot_of snapshot.now) heading.now (goal_form goal.now) f
        → IsTight (snapshot_of snapshot.now) heading.now f → ⊥ }
{
    snapshot.formed();
    orderly_rows();
    let _ = &heading.columns; // for its invariant
    let tuples = evaluated_over::<E>(alloc, snapshot, goal, held)?;
    Ok(reduced(alloc, tuples)?)
}

/// The answer to a view's formula, as normal tuples in which narrow ones have nothing superfluous. What is held of
/// views is read in their place, and is the same after it.
///
/// # Errors
/// `Wide` only where the view clashes, otherwise out of memory.
pub fn view_tuples<E: Evaluate>(
    alloc: Global,
    snapshot: &Snapshot<'_>,
    name: &Name,
    held: &mut Given,
) -> Result<Tuples, Refused>
    requires view { is_some (view_in (entry_of (snapshot_of snapshot.now).entries name.now)) ≡ true }
    requires held { AllByRecursion (IsGivenOf (snapshot_of snapshot.now)) held.old }
    ensures is { IfOk result (IsViewOf (snapshot_of snapshot.now) name.now) }
    ensures reduced { IfOk result (λ ts. AllByRecursion (λ t. IsNarrowList t → IsReduced atom_holds t) ts) }
    ensures held { held.new ≡ held.old }
    ensures wide { IsErrOf result Wide → (measures (snapshot_of snapshot.now) name.now).clash ≡ true }
{
    snapshot.formed();
    let Some(goal) = snapshot.goal(name) else {
        unreachable!()
    };
    let tuples = evaluated_over::<E>(alloc, snapshot, goal, held)?;
    Ok(reduced(alloc, tuples)?)
}

/// The answer to a view's formula, as [`view_tuples`] gives it, by a plan of the formula's goal.
///
/// # Errors
/// `Wide` only where the view clashes, otherwise out of memory.
pub fn planned_view<E: Evaluate>(
    alloc: Global,
    snapshot: &Snapshot<'_>,
    name: &Name,
    plan: &Plan,
    held: &mut Given,
) -> Result<Tuples, Refused>
    requires plan { IsViewPlan (snapshot_of snapshot.now) name.now (plan_form plan.now) }
    requires held { AllByRecursion (IsGivenOf (snapshot_of snapshot.now)) held.old }
    ensures is { IfOk result (IsViewOf (snapshot_of snapshot.now) name.now) }
    ensures reduced { IfOk result (λ ts. AllByRecursion (λ t. IsNarrowList t → IsReduced atom_holds t) ts) }
    ensures held { held.new ≡ held.old }
    ensures wide { IsErrOf result Wide → (measures (snapshot_of snapshot.now) name.now).clash ≡ true }
{
    snapshot.formed();
    let tuples = planned_over::<E>(alloc, snapshot, plan, held)?;
    Ok(reduced(alloc, tuples)?)
}

/// Gives those of the names that are views as well. All are made of defined ones. What was given stays at the front.
///
/// # Errors
/// `Wide` only where one of the names clashes, otherwise out of memory. More may be given then.
pub fn give_names<E: Evaluate>(
    alloc: Global,
    snapshot: &Snapshot<'_>,
    names: &[Name],
    held: &mut Given,
) -> Result<(), Refused>
    requires defined { AllByRecursion (λ n. is_some (known (snapshot_of snapshot.now) (base n)) ≡ true) names.now }
    requires held { AllByRecursion (IsGivenOf (snapshot_of snapshot.now)) held.old }
    ensures gathered { OnOk result (IsGathered (snapshot_of snapshot.now) held.old held.new) }
    ensures all { OnOk result (AllByRecursion (λ n.
        has_name n (over_relations (snapshot_of snapshot.now) None held.new) ≡ true) names.now) }
    ensures front { IsFront held.old held.new }
    ensures wide { IsErrOf result Wide → list_any
        (λ n. (measures (snapshot_of snapshot.now) n).clash) names.now ≡ true }
{
    snapshot.formed();
    let strata = Strata {
        alloc,
        snapshot,
        level: limits::LEVELS,
    };
    let mut tried = Tried::new(alloc);
    give_all::<E>(&strata, names, held, &mut tried)
}

/// What the goal of an accepted formula is evaluated to. What is held is the same after it.
///
/// # Errors
/// `Wide` only where the goal clashes, otherwise out of memory.
fn evaluated_over<E: Evaluate>(
    alloc: Global,
    snapshot: &Snapshot<'_>,
    goal: &Goal,
    held: &mut Given,
) -> Result<Tuples, Refused>
    requires posed { IsPosed (snapshot_of snapshot.now) (goal_form goal.now) 16 }
    requires held { AllByRecursion (IsGivenOf (snapshot_of snapshot.now)) held.old }
    ensures is { IfOk result (λ ts. IsEvaluated (snapshot_of snapshot.now) (goal_form goal.now) ts) }
    ensures held { held.new ≡ held.old }
    ensures wide { IsErrOf result Wide → goal_clashes (measures (snapshot_of snapshot.now))
        (goal_form goal.now) ≡ true }
{
    laws::normal_goals();
    let plan = plan(alloc, goal)?;
    planned_over::<E>(alloc, snapshot, &plan, held)
}

/// What the goals of accepted formulas are evaluated to of which the plan is one. What is held is the same after it.
///
/// # Errors
/// `Wide` only where each of these goals clashes, otherwise out of memory.
fn planned_over<E: Evaluate>(
    alloc: Global,
    snapshot: &Snapshot<'_>,
    plan: &Plan,
    held: &mut Given,
) -> Result<Tuples, Refused>
    requires posed { IsPosedPlan (snapshot_of snapshot.now) (plan_form plan.now) 16 }
    requires held { AllByRecursion (IsGivenOf (snapshot_of snapshot.now)) held.old }
    ensures is { (g : GoalForm) → IsPosed (snapshot_of snapshot.now) g 16 → IsPlanned g (plan_form plan.now)
        → IfOk result (λ ts. IsEvaluated (snapshot_of snapshot.now) g ts) }
    ensures held { held.new ≡ held.old }
    ensures wide { IsErrOf result Wide → (g : GoalForm) → IsPosed (snapshot_of snapshot.now) g 16
        → IsPlanned g (plan_form plan.now)
        → goal_clashes (measures (snapshot_of snapshot.now)) g ≡ true }
{
    let strata = Strata {
        alloc,
        snapshot,
        level: limits::LEVELS,
    };
    let mut tried = Tried::new(alloc);
    let count = held.count();
    let tuples = evaluated_by::<E>(&strata, plan, held, &mut tried);
    held.keep_first(count);
    tuples
}
