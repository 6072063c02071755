//! The evaluation over rows and text atoms. Where numbers get too long, it is done once more over order rows, if there
//! are no others.
ghost use Rattle.std.specs.Prelude.{◌≡◌, true, IfOk, IsErrOf};
ghost use Rattle.ded_model.specs.declared.memory.Refused.TheVariants.{Wide};
ghost use Rattle.ded_model.specs.Measure.{stored_measures, plan_clashes};
ghost use Rattle.ded_model.specs.PlanForm.{plan_form};
ghost use Rattle.ded_model.specs.Row.{tuple_holds};
ghost use Rattle.ded_genrel.specs.Lists.{conjs_hold, conjs_mention, conjs_lines};
ghost use Rattle.ded_algebra.specs.Evaluation.{IsAnyAtom, IsEvaluable, IsEvaluation, IsEvaluationWithin};
ghost use Rattle.ded_eval.specs.OrderPlans.{AreOrderRows};

use crate::deciding::evaluate_orders;
use crate::evaluation::{evaluate_counted, evaluate_within};
use ded_algebra::Relations;
use ded_atoms::Atoms;
use ded_genrel::GenRel;
use ded_model::memory::Refused;
use ded_model::plan::Plan;
use ded_model::tuple::Tuple;
use ded_theory::Theory;
use std::alloc::Global;

/// A list that holds exactly where the plan does over the given relations. It mentions only slots that the plan
/// mentions freely, and has lines among those of the plan. Each name that the plan scans is given, with tuples over
/// columns of the sorts of the scan's slots.
///
/// # Errors
/// `Wide` only where the plan clashes over the given relations, and some row of it, or of the tuples of a name that it
/// scans, is no order row; otherwise out of memory.
pub fn eval<R: Relations>(
    alloc: Global,
    plan: &Plan,
    relations: &R,
) -> Result<GenRel<Atoms>, Refused>
    requires { IsEvaluable IsAnyAtom (R.catalogue relations.now) (plan_form plan.now) }
    ensures is { IfOk result (λ r. IsEvaluation (R.catalogue relations.now) (plan_form plan.now)
        (conjs_hold ⟦<Atoms as Theory>⟧.holds r) (conjs_mention ⟦<Atoms as Theory>⟧.mentions r)
        (conjs_lines ⟦<Atoms as Theory>⟧.lines r)) }
    ensures wide { IsErrOf result Wide → plan_clashes (stored_measures (R.catalogue relations.now))
        (plan_form plan.now) ≡ true }
    ensures orders { AreOrderRows (R.catalogue relations.now) (plan_form plan.now) → IsErrOf result Wide → ⊥ }
{
    let mut met = 0;
    eval_counted(alloc, plan, relations, &mut met)
}

/// A list that holds exactly where the plan does over the given relations, as [`eval`] gives it. `met` grows by the
/// count of pairs that joins meet, up to the greatest `u64`; where the plan is evaluated once more, by those that they
/// meet then too.
///
/// # Errors
/// As [`eval`].
pub fn eval_counted<R: Relations>(
    alloc: Global,
    plan: &Plan,
    relations: &R,
    met: &mut u64,
) -> Result<GenRel<Atoms>, Refused>
    requires { IsEvaluable IsAnyAtom (R.catalogue relations.now) (plan_form plan.now) }
    ensures is { IfOk result (λ r. IsEvaluation (R.catalogue relations.now) (plan_form plan.now)
        (conjs_hold ⟦<Atoms as Theory>⟧.holds r) (conjs_mention ⟦<Atoms as Theory>⟧.mentions r)
        (conjs_lines ⟦<Atoms as Theory>⟧.lines r)) }
    ensures wide { IsErrOf result Wide → plan_clashes (stored_measures (R.catalogue relations.now))
        (plan_form plan.now) ≡ true }
    ensures orders { AreOrderRows (R.catalogue relations.now) (plan_form plan.now) → IsErrOf result Wide → ⊥ }
{
    match evaluate_counted::<Atoms, R>(alloc, plan, relations, met) {
        Err(Refused::Wide) => evaluate_orders(alloc, plan, relations, met),
        answer => answer,
    }
}

/// A list that holds exactly where the plan does over the given relations at each point at which the tuple does, with
/// slots and lines as [`eval`] gives it.
///
/// # Errors
/// As [`eval`].
pub(crate) fn eval_within<R: Relations>(
    alloc: Global,
    plan: &Plan,
    relations: &R,
    within: &Tuple,
) -> Result<GenRel<Atoms>, Refused>
    requires { IsEvaluable IsAnyAtom (R.catalogue relations.now) (plan_form plan.now) }
    ensures is { IfOk result (λ r. IsEvaluationWithin (R.catalogue relations.now) (plan_form plan.now)
        (tuple_holds within.now) (conjs_hold ⟦<Atoms as Theory>⟧.holds r) (conjs_mention ⟦<Atoms as Theory>⟧.mentions r)
        (conjs_lines ⟦<Atoms as Theory>⟧.lines r)) }
    ensures wide { IsErrOf result Wide → plan_clashes (stored_measures (R.catalogue relations.now))
        (plan_form plan.now) ≡ true }
    ensures orders { AreOrderRows (R.catalogue relations.now) (plan_form plan.now) → IsErrOf result Wide → ⊥ }
{
    let mut met = 0;
    match evaluate_within::<Atoms, R>(alloc, plan, relations, &within.atoms, &mut met) {
        Err(Refused::Wide) => evaluate_orders(alloc, plan, relations, &mut met),
        answer => answer,
    }
}
