//! Kept tuples, computed anew and extended.
ghost use Rattle.std.specs.Prelude.{◌≡◌, ◌↔◌, true, IsTrue, None, IfOk, IsErrOf};
ghost use Rattle.ded_model.specs.declared.memory.Refused.TheVariants.{Wide};
ghost use Rattle.ded_model.specs.Catalogue.{Catalogue, PlanHolds};
ghost use Rattle.ded_model.specs.Entries.{entry_of};
ghost use Rattle.ded_model.specs.Lines.{tuples_lines};
ghost use Rattle.ded_model.specs.Measure.{stored_measures, plan_clashes};
ghost use Rattle.ded_model.specs.PlanForm.{plan_form};
ghost use Rattle.ded_model.specs.Point.{Point, IsPoint};
ghost use Rattle.ded_model.specs.Row.{tuples_hold, tuples_mention};
ghost use Rattle.ded_algebra.specs.Evaluation.{IsAnyAtom, IsEvaluable, IsEvaluation};
ghost use Rattle.ded_keep.specs.Additive.{is_additive};
ghost use Rattle.ded_keep.specs.Adding.{with_alone, IsExtended, IsAddition};

use crate::alone::{OneTuple, tuples_alone};
use crate::behind::put_behind;
use ded_algebra::{Evaluate, Relations};
use ded_model::memory::Refused;
use ded_model::plan::Plan;
use ded_model::tuple::Tuples;
use std::alloc::Global;

/// Tuples that hold exactly where the plan does over the given relations. They mention only slots that the plan
/// mentions freely, and have lines among those of the plan. Each name that the plan scans is given, with tuples over
/// columns of the sorts of the scan's slots.
///
/// # Errors
/// `Wide` only where the plan clashes over the given relations, otherwise out of memory.
pub fn refresh<E: Evaluate, R: Relations>(
    alloc: Global,
    plan: &Plan,
    relations: &R,
) -> Result<Tuples, Refused>
    requires { IsEvaluable IsAnyAtom (R.catalogue relations.now) (plan_form plan.now) }
    ensures is { IfOk result (λ ts. IsEvaluation (R.catalogue relations.now) (plan_form plan.now) (tuples_hold ts)
        (tuples_mention ts) (tuples_lines ts)) }
    ensures wide { IsErrOf result Wide → plan_clashes (stored_measures (R.catalogue relations.now))
        (plan_form plan.now) ≡ true }
{
    E::evaluate(alloc, plan, relations)
}

/// Tuples that hold where `kept` does or where the plan does with `added` alone as the tuples of its relation: `kept`,
/// and more behind it, without tuples that are found to be covered already ([`put_behind`]). So where `kept` held
/// exactly where the plan did, and `added` is inserted into its relation, they hold exactly where the plan does then,
/// if each other name that the plan scans means what is given of it before and after. The closure and the interior of
/// the relation are such names. The plan is additive in the relation's name. The other relations don't give that name,
/// and give each other one that the plan scans, with tuples over columns of the sorts of the scan's slots.
///
/// # Errors
/// `Wide` only where the plan clashes with `added` alone as the tuples of its relation, otherwise out of memory. `kept`
/// is lost then.
pub fn add_tuple<E: Evaluate, R: Relations>(
    alloc: Global,
    plan: &Plan,
    added: &OneTuple<'_>,
    kept: Tuples,
    others: &R,
) -> Result<Tuples, Refused>
    requires additive { is_additive added.now.name.now (plan_form plan.now) ≡ true }
    requires apart { entry_of (R.catalogue others.now).entries added.now.name.now ≡ None }
    requires evaluable { IsEvaluable IsAnyAtom (with_alone
        (R.catalogue others.now) added.now.name.now added.now.heading.now added.now.tuple.now) (plan_form plan.now) }
    ensures is { IfOk result (IsExtended (with_alone
        (R.catalogue others.now) added.now.name.now added.now.heading.now added.now.tuple.now)
        (plan_form plan.now) kept) }
    ensures adds { IfOk result (λ ts. (b d : Catalogue)
        → IsAddition (R.catalogue others.now) b d added.now.name.now added.now.heading.now
        added.now.tuple.now (plan_form plan.now)
        → ((p : Point) → IsPoint p → IsTrue (tuples_hold kept p) ↔ PlanHolds b (plan_form plan.now) p)
        → (p : Point) → IsPoint p → IsTrue (tuples_hold ts p) ↔ PlanHolds d (plan_form plan.now) p) }
    ensures wide { IsErrOf result Wide → plan_clashes
        (stored_measures (with_alone (R.catalogue others.now) added.now.name.now added.now.heading.now
        added.now.tuple.now)) (plan_form plan.now) ≡ true }
{
    others.formed();
    let more = tuples_alone::<E, R>(alloc, plan, added, others)?;
    let mut list = kept.list;
    put_behind::<E>(alloc, &mut list, more)?;
    Ok(Tuples { list })
}
