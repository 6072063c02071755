//! What a plan is evaluated to where views that it scans once are evaluated near their scans alone.
ghost use Rattle.std.specs.Prelude.{◌≡◌, ◌≤◌, ◌||◌, true, None, IfOk, IsErrOf, OnOk};
ghost use Rattle.std.specs.List.{AllByRecursion, list_any};
ghost use Rattle.ded_model.specs.declared.memory.Refused.TheVariants.{Wide};
ghost use Rattle.ded_model.specs.Entries.{known};
ghost use Rattle.ded_model.specs.Goal.{GoalForm, goal_form};
ghost use Rattle.ded_model.specs.Known.{level_with};
ghost use Rattle.ded_model.specs.Made.{base};
ghost use Rattle.ded_model.specs.Measure.{measures, goal_clashes};
ghost use Rattle.ded_model.specs.PlanForm.{plan_form};
ghost use Rattle.ded_model.specs.Row.{tuple_holds};
ghost use Rattle.ded_catalog.specs.Snapshots.{snapshot_of};
ghost use Rattle.ded_algebra.specs.Given.{has_name};
ghost use Rattle.ded_plan.specs.Planned.{IsPlanned};
ghost use Rattle.ded_query.specs.Gathering.{IsGivenOf, IsFront, IsPosed, IsPosedPlan, IsEvaluated, IsViewGoal};
ghost use Rattle.ded_query.specs.Over.{over_relations};
ghost use Rattle.ded_query.specs.Tried.{TriesMore, IsBelowTried, IsGatheredBy};
ghost use Rattle.ded_query.specs.Windows.{IsEvaluatedWithin, IsGivenNear, IsNearView, IsReadable};

use crate::columns::at_columns;
use crate::giving::give;
use crate::near::{NEAR_VIEWS, add_all, near_goal};
use crate::over::Over;
use crate::strata::Strata;
use crate::tried::Tried;
use crate::views::view_relation;
use ded_algebra::{Evaluate, Given, GivenRelation};
use ded_atoms::reduced;
use ded_model::goal::Goal;
use ded_model::memory::Refused;
use ded_model::plan::Plan;
use ded_model::tuple::{Tuple, Tuples};
use ded_plan::{ScanWithin, plan, scans_within};
use ded_resolve::laws;

/// The same as `evaluated_whole`, where views that the plan scans once are evaluated near their scans alone.
///
/// # Errors
/// As `evaluated_whole`.
#[cycle(evaluated)]
pub(crate) fn evaluated_near<E: Evaluate>(
    strata: &Strata<'_, '_>,
    plan: &Plan,
    given: &mut Given,
    tried: &mut Tried,
) -> Result<Tuples, Refused>
    requires posed { IsPosedPlan (snapshot_of strata.now.snapshot.now) (plan_form plan.now) strata.now.level }
    requires given { AllByRecursion (IsGivenOf (snapshot_of strata.now.snapshot.now)) given.old }
    requires below { IsBelowTried (snapshot_of strata.now.snapshot.now) given.old tried.old
        (IsPosedPlan (snapshot_of strata.now.snapshot.now) (plan_form plan.now)) }
    ensures is { (g : GoalForm) → IsPosed (snapshot_of strata.now.snapshot.now) g strata.now.level
        → IsPlanned g (plan_form plan.now)
        → IfOk result (λ ts. IsEvaluated (snapshot_of strata.now.snapshot.now) g ts) }
    ensures gathered { OnOk result
        (IsGatheredBy (snapshot_of strata.now.snapshot.now) given.old tried.old given.new tried.new) }
    ensures left { IsErrOf result Wide
        → IsGatheredBy (snapshot_of strata.now.snapshot.now) given.old tried.old given.new tried.new }
    ensures front { IsFront given.old given.new }
    ensures tried { TriesMore given.old tried.old tried.new }
    ensures wide { IsErrOf result Wide → (g : GoalForm)
        → IsPosed (snapshot_of strata.now.snapshot.now) g strata.now.level → IsPlanned g (plan_form plan.now)
        → goal_clashes (measures (snapshot_of strata.now.snapshot.now)) g ≡ true }
{
    strata.snapshot.formed();
    let everywhere = Tuple {
        atoms: Vec::new(strata.alloc),
    };
    let scans = scans_within(strata.alloc, plan, &everywhere)?;
    let mut left = NEAR_VIEWS;
    let near = gathered::<E>(strata, &scans, given, tried, &mut left)?;
    let count = given.count();
    add_all(given, near)?;
    let relations = Over {
        snapshot: strata.snapshot,
        given: &*given,
        hidden: None,
    };
    let tuples = E::evaluate(strata.alloc, plan, &relations);
    given.keep_first(count);
    tuples
}

/// Tuples that hold, of the points at which the tuple `within` does, exactly where the goals do of which the plan is
/// one. They mention only slots that the goal mentions freely.
///
/// # Errors
/// As `evaluated_whole`.
#[cycle(evaluated)]
fn evaluated_within<E: Evaluate>(
    strata: &Strata<'_, '_>,
    plan: &Plan,
    within: &Tuple,
    given: &mut Given,
    tried: &mut Tried,
    left: &mut u32,
) -> Result<Tuples, Refused>
    requires posed { IsPosedPlan (snapshot_of strata.now.snapshot.now) (plan_form plan.now) strata.now.level }
    requires given { AllByRecursion (IsGivenOf (snapshot_of strata.now.snapshot.now)) given.old }
    requires below { IsBelowTried (snapshot_of strata.now.snapshot.now) given.old tried.old
        (IsPosedPlan (snapshot_of strata.now.snapshot.now) (plan_form plan.now)) }
    ensures is { (g : GoalForm) → IsPosed (snapshot_of strata.now.snapshot.now) g strata.now.level
        → IsPlanned g (plan_form plan.now)
        → IfOk result (λ ts.
        IsEvaluatedWithin (snapshot_of strata.now.snapshot.now) g (tuple_holds within.now) ts) }
    ensures gathered { OnOk result
        (IsGatheredBy (snapshot_of strata.now.snapshot.now) given.old tried.old given.new tried.new) }
    ensures left { IsErrOf result Wide
        → IsGatheredBy (snapshot_of strata.now.snapshot.now) given.old tried.old given.new tried.new }
    ensures front { IsFront given.old given.new }
    ensures tried { TriesMore given.old tried.old tried.new }
    ensures wide { IsErrOf result Wide → (g : GoalForm)
        → IsPosed (snapshot_of strata.now.snapshot.now) g strata.now.level → IsPlanned g (plan_form plan.now)
        → goal_clashes (measures (snapshot_of strata.now.snapshot.now)) g ≡ true }
{
    strata.snapshot.formed();
    let scans = scans_within(strata.alloc, plan, within)?;
    let near = gathered::<E>(strata, &scans, given, tried, left)?;
    let count = given.count();
    add_all(given, near)?;
    let relations = Over {
        snapshot: strata.snapshot,
        given: &*given,
        hidden: None,
    };
    let tuples = E::evaluate_within(strata.alloc, plan, &relations, within);
    given.keep_first(count);
    tuples
}

/// What the scans are of: views that one of them alone is of as relations that are right where its tuple holds, which
/// are handed back, and other views as a whole, which are given.
///
/// # Errors
/// `Wide` only where one of the scanned names clashes, otherwise out of memory. More may be given then.
#[cycle(evaluated)]
fn gathered<E: Evaluate>(
    strata: &Strata<'_, '_>,
    scans: &[ScanWithin],
    given: &mut Given,
    tried: &mut Tried,
    left: &mut u32,
) -> Result<Vec<GivenRelation>, Refused>
    requires scans { AllByRecursion
        (IsReadable (snapshot_of strata.now.snapshot.now) strata.now.level) scans.now }
    requires given { AllByRecursion (IsGivenOf (snapshot_of strata.now.snapshot.now)) given.old }
    requires below { IsBelowTried (snapshot_of strata.now.snapshot.now) given.old tried.old
        (λ m. AllByRecursion (IsReadable (snapshot_of strata.now.snapshot.now) m) scans.now) }
    ensures gathered { OnOk result
        (IsGatheredBy (snapshot_of strata.now.snapshot.now) given.old tried.old given.new tried.new) }
    ensures near { IfOk result (λ v.
        AllByRecursion (IsGivenNear (snapshot_of strata.now.snapshot.now) scans.now) v.items) }
    ensures all { IfOk result (λ v. AllByRecursion (λ s.
        (has_name s.name (over_relations (snapshot_of strata.now.snapshot.now) None given.new)
        || has_name s.name v.items) ≡ true) scans.now) }
    ensures left { IsErrOf result Wide
        → IsGatheredBy (snapshot_of strata.now.snapshot.now) given.old tried.old given.new tried.new }
    ensures front { IsFront given.old given.new }
    ensures tried { TriesMore given.old tried.old tried.new }
    ensures wide { IsErrOf result Wide
        → list_any (λ s. (measures (snapshot_of strata.now.snapshot.now) s.name).clash) scans.now ≡ true }
{
    let mut near = Vec::new(strata.alloc);
    for scan in scans {
        match near_goal(strata.snapshot, scan, scans, given, left) {
            Some(goal) => near.push(view_near::<E>(strata, scan, goal, given, tried, left)?)?,
            None => give::<E>(strata, &scan.name, given, tried)?,
        }
    }
    Ok(near)
}

/// The view of the scan, by its goal, as a relation that is right where the scan's tuple holds. It has at most the
/// level.
///
/// # Errors
/// `Wide` only where the view clashes, otherwise out of memory. More may be given then.
#[cycle(evaluated)]
fn view_near<E: Evaluate>(
    strata: &Strata<'_, '_>,
    scan: &ScanWithin,
    goal: &Goal,
    given: &mut Given,
    tried: &mut Tried,
    left: &mut u32,
) -> Result<GivenRelation, Refused>
    requires view { IsViewGoal (snapshot_of strata.now.snapshot.now) scan.now.name (goal_form goal.now) }
    requires readable { IsReadable (snapshot_of strata.now.snapshot.now) strata.now.level scan.now }
    requires given { AllByRecursion (IsGivenOf (snapshot_of strata.now.snapshot.now)) given.old }
    requires below { IsBelowTried (snapshot_of strata.now.snapshot.now) given.old tried.old
        (λ m. level_with (known (snapshot_of strata.now.snapshot.now) (base scan.now.name)) ≤ m) }
    ensures is { IfOk result (IsNearView (snapshot_of strata.now.snapshot.now) scan.now) }
    ensures gathered { OnOk result
        (IsGatheredBy (snapshot_of strata.now.snapshot.now) given.old tried.old given.new tried.new) }
    ensures left { IsErrOf result Wide
        → IsGatheredBy (snapshot_of strata.now.snapshot.now) given.old tried.old given.new tried.new }
    ensures front { IsFront given.old given.new }
    ensures tried { TriesMore given.old tried.old tried.new }
    ensures wide { IsErrOf result Wide
        → (measures (snapshot_of strata.now.snapshot.now) scan.now.name).clash ≡ true }
{
    strata.snapshot.formed();
    laws::normal_goals();
    let plan = plan(strata.alloc, goal)?;
    let within = at_columns(strata.alloc, &scan.within, &scan.slots)?;
    let below = Strata {
        alloc: strata.alloc,
        snapshot: strata.snapshot,
        level: strata.level - 1,
    };
    let tuples = evaluated_within::<E>(&below, &plan, &within, given, tried, left)?;
    Ok(view_relation(strata.snapshot, &scan.name, reduced(strata.alloc, tuples)?)?)
}
