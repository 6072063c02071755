//! What a plan is evaluated to, over the views that it scans, which are gathered first. Relations are read where they
//! stand.
ghost use Rattle.std.specs.Prelude.{◌≡◌, true, None, IfOk, IsErrOf, OnOk};
ghost use Rattle.std.specs.List.{AllByRecursion};
ghost use Rattle.ded_model.specs.declared.memory.Refused.TheVariants.{Wide};
ghost use Rattle.ded_model.specs.Goal.{GoalForm, goal_form};
ghost use Rattle.ded_model.specs.Measure.{measures, goal_clashes};
ghost use Rattle.ded_model.specs.PlanForm.{plan_form};
ghost use Rattle.ded_catalog.specs.Snapshots.{snapshot_of};
ghost use Rattle.ded_plan.specs.Planned.{IsPlanned};
ghost use Rattle.ded_query.specs.Gathering.{IsGivenOf, IsFront, IsPosed, IsPosedPlan, IsEvaluated};
ghost use Rattle.ded_query.specs.Over.{over_relations};
ghost use Rattle.ded_query.specs.Tried.{TriesMore, IsBelowTried, IsGatheredBy};

use crate::giving::give_all;
use crate::near::some_view;
use crate::over::Over;
use crate::strata::Strata;
use crate::tried::Tried;
use crate::within::evaluated_near;
use crate::witness::{asked_view, truth, witnessed};
use ded_algebra::{Evaluate, Given};
use ded_model::goal::Goal;
use ded_model::memory::Refused;
use ded_model::plan::Plan;
use ded_model::tuple::Tuples;
use ded_plan::{plan, scanned_names};
use ded_resolve::laws;

/// Tuples that hold exactly where the goal of an accepted formula does over the catalogue, whose names have at most the
/// level. They mention only slots that the goal mentions freely. The views that it reaches are given first, each name
/// once. What was given stays at the front.
///
/// # Errors
/// `Wide` only where the goal clashes, otherwise out of memory. More may be given then.
#[cycle(evaluated)]
pub(crate) fn evaluated<E: Evaluate>(
    strata: &Strata<'_, '_>,
    goal: &Goal,
    given: &mut Given,
    tried: &mut Tried,
) -> Result<Tuples, Refused>
    requires posed { IsPosed (snapshot_of strata.now.snapshot.now) (goal_form goal.now) strata.now.level }
    requires given { AllByRecursion (IsGivenOf (snapshot_of strata.now.snapshot.now)) given.old }
    requires below { IsBelowTried (snapshot_of strata.now.snapshot.now) given.old tried.old
        (IsPosed (snapshot_of strata.now.snapshot.now) (goal_form goal.now)) }
    ensures is { IfOk result (λ ts. IsEvaluated (snapshot_of strata.now.snapshot.now) (goal_form goal.now) ts) }
    ensures gathered { OnOk result
        (IsGatheredBy (snapshot_of strata.now.snapshot.now) given.old tried.old given.new tried.new) }
    ensures left { IsErrOf result Wide
        → IsGatheredBy (snapshot_of strata.now.snapshot.now) given.old tried.old given.new tried.new }
    ensures front { IsFront given.old given.new }
    ensures tried { TriesMore given.old tried.old tried.new }
    ensures wide { IsErrOf result Wide
        → goal_clashes (measures (snapshot_of strata.now.snapshot.now)) (goal_form goal.now) ≡ true }
{
    laws::normal_goals();
    let plan = plan(strata.alloc, goal)?;
    evaluated_by::<E>(strata, &plan, given, tried)
}

/// Tuples that hold exactly where the goals do of which the plan is one, as [`evaluated`] gives them.
///
/// # Errors
/// `Wide` only where each of these goals clashes, otherwise out of memory. More may be given then.
#[cycle(evaluated)]
pub(crate) fn evaluated_by<E: Evaluate>(
    strata: &Strata<'_, '_>,
    plan: &Plan,
    given: &mut Given,
    tried: &mut Tried,
) -> Result<Tuples, Refused>
    requires posed { IsPosedPlan (snapshot_of strata.now.snapshot.now) (plan_form plan.now) strata.now.level }
    requires given { AllByRecursion (IsGivenOf (snapshot_of strata.now.snapshot.now)) given.old }
    requires below { IsBelowTried (snapshot_of strata.now.snapshot.now) given.old tried.old
        (IsPosedPlan (snapshot_of strata.now.snapshot.now) (plan_form plan.now)) }
    ensures is { (g : GoalForm) → IsPosed (snapshot_of strata.now.snapshot.now) g strata.now.level
        → IsPlanned g (plan_form plan.now)
        → IfOk result (λ ts. IsEvaluated (snapshot_of strata.now.snapshot.now) g ts) }
    ensures gathered { OnOk result
        (IsGatheredBy (snapshot_of strata.now.snapshot.now) given.old tried.old given.new tried.new) }
    ensures left { IsErrOf result Wide
        → IsGatheredBy (snapshot_of strata.now.snapshot.now) given.old tried.old given.new tried.new }
    ensures front { IsFront given.old given.new }
    ensures tried { TriesMore given.old tried.old tried.new }
    ensures wide { IsErrOf result Wide → (g : GoalForm)
        → IsPosed (snapshot_of strata.now.snapshot.now) g strata.now.level → IsPlanned g (plan_form plan.now)
        → goal_clashes (measures (snapshot_of strata.now.snapshot.now)) g ≡ true }
{
    let Some(name) = asked_view(strata.snapshot, plan, given) else {
        return evaluated_whole::<E>(strata, plan, given, tried);
    };
    strata.snapshot.formed();
    match witnessed::<E>(strata, name, given, tried) {
        Ok(holds) => Ok(truth(strata.alloc, holds)?),
        Err(Refused::Wide) => evaluated_whole::<E>(strata, plan, given, tried),
        Err(Refused::Memory) => Err(Refused::Memory),
    }
}

/// The same as [`evaluated_by`], by all points of the views that the plan scans.
///
/// # Errors
/// As [`evaluated_by`].
#[cycle(evaluated)]
pub(crate) fn evaluated_whole<E: Evaluate>(
    strata: &Strata<'_, '_>,
    plan: &Plan,
    given: &mut Given,
    tried: &mut Tried,
) -> Result<Tuples, Refused>
    requires posed { IsPosedPlan (snapshot_of strata.now.snapshot.now) (plan_form plan.now) strata.now.level }
    requires given { AllByRecursion (IsGivenOf (snapshot_of strata.now.snapshot.now)) given.old }
    requires below { IsBelowTried (snapshot_of strata.now.snapshot.now) given.old tried.old
        (IsPosedPlan (snapshot_of strata.now.snapshot.now) (plan_form plan.now)) }
    ensures is { (g : GoalForm) → IsPosed (snapshot_of strata.now.snapshot.now) g strata.now.level
        → IsPlanned g (plan_form plan.now)
        → IfOk result (λ ts. IsEvaluated (snapshot_of strata.now.snapshot.now) g ts) }
    ensures gathered { OnOk result
        (IsGatheredBy (snapshot_of strata.now.snapshot.now) given.old tried.old given.new tried.new) }
    ensures left { IsErrOf result Wide
        → IsGatheredBy (snapshot_of strata.now.snapshot.now) given.old tried.old given.new tried.new }
    ensures front { IsFront given.old given.new }
    ensures tried { TriesMore given.old tried.old tried.new }
    ensures wide { IsErrOf result Wide → (g : GoalForm)
        → IsPosed (snapshot_of strata.now.snapshot.now) g strata.now.level → IsPlanned g (plan_form plan.now)
        → goal_clashes (measures (snapshot_of strata.now.snapshot.now)) g ≡ true }
{
    strata.snapshot.formed();
    let names = scanned_names(strata.alloc, plan)?;
    if some_view(strata.snapshot, &names) {
        return evaluated_near::<E>(strata, plan, given, tried);
    }
    give_all::<E>(strata, &names, given, tried)?;
    let relations = Over {
        snapshot: strata.snapshot,
        given: &*given,
        hidden: None,
    };
    E::evaluate(strata.alloc, plan, &relations)
}
