//! Plans of order rows alone, evaluated over the theory of dense order. It decides them whatever their numbers.
ghost use Rattle.std.specs.Prelude.{◌≡◌, false, IfOk, IsErrOf};
ghost use Rattle.std.specs.List.{list_any};
ghost use Rattle.ded_model.specs.declared.memory.Refused.TheVariants.{Wide};
ghost use Rattle.ded_model.specs.Logic.{some_atom, some_atom_of};
ghost use Rattle.ded_model.specs.PlanForm.{plan_form, plan_forms};
ghost use Rattle.ded_genrel.specs.Lists.{conjs_hold, conjs_mention, conjs_lines};
ghost use Rattle.ded_packed.specs.Lent.{lent, tuple_of};
ghost use Rattle.ded_algebra.specs.Evaluation.{given_tuples, IsAnyAtom, IsEvaluable, IsEvaluation};
ghost use Rattle.ded_eval.specs.OrderPlans.{has_other, has_other_under, has_other_in, AreOrderRows};

use crate::evaluation::evaluate_counted;
use ded_algebra::Relations;
use ded_atoms::{Atoms, OrderAtoms, are_orders, tuple_atoms};
use ded_genrel::GenRel;
use ded_model::memory::{NoMemory, Refused};
use ded_model::name::Name;
use ded_model::plan::Plan;
use ded_packed::Lent;
use ded_theory::Theory;
use std::alloc::Global;

/// A list that holds exactly where the plan does over the given relations, as [`crate::eval`] gives it, evaluated over
/// order rows. `met` grows by the count of pairs that joins meet, up to the greatest `u64`.
///
/// # Errors
/// `Wide` only where some row of the plan, or of the tuples of a name that it scans, is no order row; otherwise out of
/// memory.
pub(crate) fn evaluate_orders<R: Relations>(
    alloc: Global,
    plan: &Plan,
    relations: &R,
    met: &mut u64,
) -> Result<GenRel<Atoms>, Refused>
    requires { IsEvaluable IsAnyAtom (R.catalogue relations.now) (plan_form plan.now) }
    ensures is { IfOk result (λ r. IsEvaluation (R.catalogue relations.now) (plan_form plan.now)
        (conjs_hold ⟦<Atoms as Theory>⟧.holds r) (conjs_mention ⟦<Atoms as Theory>⟧.mentions r)
        (conjs_lines ⟦<Atoms as Theory>⟧.lines r)) }
    ensures orders { AreOrderRows (R.catalogue relations.now) (plan_form plan.now) → IsErrOf result Wide → ⊥ }
{
    if plan_has_other(alloc, plan, relations)? {
        return Err(Refused::Wide);
    }
    let list = evaluate_counted::<OrderAtoms, R>(alloc, plan, relations, met)?;
    Ok(as_rows(alloc, list)?)
}

/// The list, its order rows as rows.
///
/// # Errors
/// Out of memory.
fn as_rows(alloc: Global, list: GenRel<OrderAtoms>) -> Result<GenRel<Atoms>, NoMemory>
    ensures { IfOk result (λ r. r ≡ list) }
{
    let mut rows = GenRel::new(alloc);
    for conj in list.conjs {
        rows.push(tuple_atoms(alloc, conj)?)?;
    }
    Ok(rows)
}

/// Whether some row of the plan, or of the tuples of a name that it scans, is no order row.
///
/// # Errors
/// Out of memory.
#[cycle(plan_has_other)]
fn plan_has_other<R: Relations>(alloc: Global, plan: &Plan, relations: &R) -> Result<bool, NoMemory>
    ensures { IfOk result (λ b. b ≡ some_atom (has_other_in (R.catalogue relations.now)) (plan_form plan.now)) }
{
    match plan {
        Plan::Scan(name, _) => name_has_other(alloc, name, relations),
        Plan::Rows(tuple) => Ok(!are_orders(&tuple.atoms)),
        Plan::Join(parts) => some_plan_has_other(alloc, parts, relations),
        Plan::Union(parts) => some_plan_has_other(alloc, parts, relations),
        Plan::Minus(from, taken) => {
            Ok(plan_has_other(alloc, from, relations)? || plan_has_other(alloc, taken, relations)?)
        }
        Plan::Not(part) | Plan::Project(_, part) => plan_has_other(alloc, part, relations),
    }
}

/// Whether some row of one of the plans is none.
#[cycle(plan_has_other)]
fn some_plan_has_other<R: Relations>(
    alloc: Global,
    plans: &Vec<Plan>,
    relations: &R,
) -> Result<bool, NoMemory>
    ensures { IfOk result (λ b. b ≡ some_atom_of (has_other_in (R.catalogue relations.now))
        (plan_forms plans.now.items)) }
{
    for plan in plans {
        if plan_has_other(alloc, plan, relations)? {
            return Ok(true);
        }
    }
    Ok(false)
}

/// Whether some row of the tuples of the name is none.
///
/// # Errors
/// Out of memory.
fn name_has_other<R: Relations>(alloc: Global, name: &Name, relations: &R) -> Result<bool, NoMemory>
    ensures { IfOk result (λ b. b ≡ has_other_under (given_tuples (R.catalogue relations.now) name.now)) }
{
    match relations.all(alloc, name)? {
        Some(tuples) => have_other(alloc, &tuples),
        None => Ok(false),
    }
}

/// Whether some row of the tuples is none.
///
/// # Errors
/// Out of memory.
fn have_other(alloc: Global, tuples: &[Lent<'_>]) -> Result<bool, NoMemory>
    ensures { IfOk result (λ b. b ≡ list_any has_other (lent tuples.now)) }
{
    for &tuple in tuples {
        if has_other(alloc, tuple)? {
            return Ok(true);
        }
    }
    Ok(false)
}

/// Whether some row of the tuple is none.
fn has_other(alloc: Global, tuple: Lent<'_>) -> Result<bool, NoMemory>
    ensures { IfOk result (λ b. b ≡ has_other (tuple_of tuple.entry)) }
{
    match tuple {
        Lent::Plain(tuple) => Ok(!are_orders(&tuple.atoms)),
        Lent::Packed(packed) => Ok(!are_orders(&packed.unpack(alloc)?.atoms)),
    }
}
