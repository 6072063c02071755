//! Kept tuples where a relation loses a tuple.
ghost use Rattle.std.specs.Prelude.{◌≡◌, ◌↔◌, ◌⊎◌, true, false, IsTrue, None, IfOk, OnOk, IsErrOf, [], ◌∷◌, ◌++◌};
ghost use Rattle.ded_model.specs.declared.memory.Refused.TheVariants.{Wide};
ghost use Rattle.ded_model.specs.Catalogue.{Catalogue, PlanHolds, GivenHolds};
ghost use Rattle.ded_model.specs.Entries.{entry_of};
ghost use Rattle.ded_model.specs.Measure.{stored_measures, plan_clashes};
ghost use Rattle.ded_model.specs.PlanForm.{plan_form};
ghost use Rattle.ded_model.specs.Point.{Point, IsPoint};
ghost use Rattle.ded_model.specs.Row.{tuple_holds, tuples_hold};
ghost use Rattle.ded_algebra.specs.Evaluation.{IsAnyAtom, IsEvaluable};
ghost use Rattle.ded_keep.specs.Additive.{is_additive};
ghost use Rattle.ded_keep.specs.Adding.{with_alone, IsAddition};
ghost use Rattle.ded_keep.specs.Remaining.{IsApart, AreApart, IsParted, AreOfBoth, AddsPiece, IsWithin, AddsWithin};
ghost use Rattle.ded_keep.specs.Remaining.{AreLeft, IsRemaining};

use crate::alone::{OneTuple, tuples_alone};
use crate::behind::put_behind;
use crate::unlike::fix_other_texts;
use ded_algebra::{Evaluate, Relations};
use ded_model::laws::sameness::equal_tuples;
use ded_model::memory::{NoMemory, Refused};
use ded_model::plan::Plan;
use ded_model::tuple::{Tuple, Tuples};
use std::alloc::Global;

/// Tuples that are left of `kept` where a relation loses the tuple `gone`: those at whose points the plan with `gone`
/// alone as the tuples of that relation doesn't hold, as they are, and of each other one what the plan gives within it
/// over what is given after. So where `kept` held exactly where the plan did, they hold exactly where the plan does
/// after, if each other name that the plan scans means what is given of it before and after. The closure and the
/// interior of the relation are such names. The plan is additive in the relation's name. The other relations don't give
/// that name, and give each other one that the plan scans, with tuples over columns of the sorts of the scan's slots;
/// and so do those after, which give that name too.
///
/// # Errors
/// `Wide` only where the plan clashes with `gone` alone as the tuples of its relation, or over what is given after;
/// otherwise out of memory. `kept` is lost then.
pub fn remove_tuple<E: Evaluate, R: Relations, A: Relations>(
    alloc: Global,
    plan: &Plan,
    gone: &OneTuple<'_>,
    kept: Tuples,
    others: &R,
    after: &A,
) -> Result<Tuples, Refused>
    requires additive { is_additive gone.now.name.now (plan_form plan.now) ≡ true }
    requires apart { entry_of (R.catalogue others.now).entries gone.now.name.now ≡ None }
    requires evaluable { IsEvaluable IsAnyAtom (with_alone
        (R.catalogue others.now) gone.now.name.now gone.now.heading.now gone.now.tuple.now) (plan_form plan.now) }
    requires after { IsEvaluable IsAnyAtom (A.catalogue after.now) (plan_form plan.now) }
    ensures is { IfOk result (IsRemaining (with_alone
        (R.catalogue others.now) gone.now.name.now gone.now.heading.now gone.now.tuple.now) (A.catalogue after.now)
        (plan_form plan.now) kept) }
    ensures removes { IfOk result (λ ts. (b d : Catalogue)
        → IsAddition (R.catalogue others.now) d b gone.now.name.now gone.now.heading.now
        gone.now.tuple.now (plan_form plan.now)
        → ((p : Point) → IsPoint p → GivenHolds (A.catalogue after.now) (plan_form plan.now) p
        ↔ PlanHolds d (plan_form plan.now) p)
        → ((p : Point) → IsPoint p → IsTrue (tuples_hold kept p) ↔ PlanHolds b (plan_form plan.now) p)
        → (p : Point) → IsPoint p → IsTrue (tuples_hold ts p) ↔ PlanHolds d (plan_form plan.now) p) }
    ensures wide { IsErrOf result Wide
        → (plan_clashes (stored_measures (with_alone
        (R.catalogue others.now) gone.now.name.now gone.now.heading.now gone.now.tuple.now))
        (plan_form plan.now) ≡ true)
        ⊎ (plan_clashes (stored_measures (A.catalogue after.now)) (plan_form plan.now) ≡ true) }
{
    others.formed();
    let lost = tuples_alone::<E, R>(alloc, plan, gone, others)?;
    let parted = part_kept::<E>(alloc, kept, &lost.list)?;
    left_of::<E, A>(alloc, plan, parted, &lost.list, after)
}

/// Kept tuples: those that meet no lost one, and the others.
#[derive(Drop)]
struct Parted {
    apart: Tuples,
    near: Tuples,
}

/// The kept tuples, parted into those that are found to meet no lost one and the others.
///
/// # Errors
/// Out of memory.
fn part_kept<E: Evaluate>(alloc: Global, kept: Tuples, lost: &[Tuple]) -> Result<Parted, NoMemory>
    ensures { IfOk result (λ s. IsParted lost.now kept s.apart s.near) }
{
    let mut apart = Vec::new(alloc);
    let mut near = Vec::new(alloc);
    for tuple in kept.list {
        if is_apart::<E>(alloc, &tuple, lost)? {
            apart.push(tuple)?;
        } else {
            near.push(tuple)?;
        }
    }
    Ok(Parted {
        apart: Tuples { list: apart },
        near: Tuples { list: near },
    })
}

/// Whether the tuple is found to hold nowhere with one of the lost ones.
fn is_apart<E: Evaluate>(alloc: Global, tuple: &Tuple, lost: &[Tuple]) -> Result<bool, NoMemory>
    ensures { IfOk result (λ b. b ≡ true → IsApart tuple.now lost.now) }
{
    for other in lost {
        if fix_other_texts(&tuple.atoms, &other.atoms) {
            continue;
        }
        if let Some(_) = E::meet(alloc, tuple, other)? {
            return Ok(false);
        }
    }
    Ok(true)
}

/// What is left of the kept tuples: those apart as they are, and of the others what the plan gives within them. Those
/// that are left as they are stand before the pieces, of which many are covered by one of them.
///
/// # Errors
/// `Wide` only where the plan clashes over the given relations, otherwise out of memory.
fn left_of<E: Evaluate, A: Relations>(
    alloc: Global,
    plan: &Plan,
    parted: Parted,
    lost: &[Tuple],
    after: &A,
) -> Result<Tuples, Refused>
    requires evaluable { IsEvaluable IsAnyAtom (A.catalogue after.now) (plan_form plan.now) }
    requires apart { AreApart parted.apart lost.now }
    ensures is { IfOk result (AreLeft (A.catalogue after.now) (plan_form plan.now) lost.now
        (parted.apart ++ parted.near)) }
    ensures wide { IsErrOf result Wide → plan_clashes (stored_measures (A.catalogue after.now))
        (plan_form plan.now) ≡ true }
{
    let mut list = parted.apart.list;
    let mut cut = Vec::new(alloc);
    for tuple in parted.near.list {
        add_within::<E, A>(alloc, plan, tuple, after, &mut list, &mut cut)?;
    }
    put_behind::<E>(alloc, &mut list, Tuples { list: cut })?;
    Ok(Tuples { list })
}

/// Adds what the plan gives within the tuple: to the list, where that is the tuple itself, and else to the pieces.
///
/// # Errors
/// `Wide` only where the plan clashes over the given relations, otherwise out of memory.
fn add_within<E: Evaluate, A: Relations>(
    alloc: Global,
    plan: &Plan,
    tuple: Tuple,
    after: &A,
    list: &mut Vec<Tuple>,
    cut: &mut Vec<Tuple>,
) -> Result<(), Refused>
    requires { IsEvaluable IsAnyAtom (A.catalogue after.now) (plan_form plan.now) }
    ensures is { OnOk result (AddsWithin (A.catalogue after.now)
        (plan_form plan.now) tuple list.old.items cut.old.items list.new.items cut.new.items) }
    ensures wide { IsErrOf result Wide → plan_clashes (stored_measures (A.catalogue after.now))
        (plan_form plan.now) ≡ true }
{
    let within = plan_within::<E, A>(alloc, plan, tuple, after)?;
    if within.is_whole {
        return Ok(put_behind::<E>(alloc, list, within.tuples)?);
    }
    let mut pieces = within.tuples.list;
    Ok(cut.append(&mut pieces)?)
}

/// What the plan gives within a tuple, and whether that is the tuple itself.
#[derive(Drop)]
struct Within {
    tuples: Tuples,
    is_whole: bool,
}

/// What the plan gives within the tuple: the tuple itself, where the plan holds wherever it does, and else its pieces.
///
/// # Errors
/// `Wide` only where the plan clashes over the given relations, otherwise out of memory.
fn plan_within<E: Evaluate, A: Relations>(
    alloc: Global,
    plan: &Plan,
    tuple: Tuple,
    after: &A,
) -> Result<Within, Refused>
    requires { IsEvaluable IsAnyAtom (A.catalogue after.now) (plan_form plan.now) }
    ensures is { IfOk result (λ w. IsWithin (A.catalogue after.now) (plan_form plan.now) tuple w.tuples) }
    ensures wide { IsErrOf result Wide → plan_clashes (stored_measures (A.catalogue after.now))
        (plan_form plan.now) ≡ true }
{
    let found = E::evaluate_within(alloc, plan, after, &tuple)?;
    let pieces = pieces_of::<E>(alloc, &tuple, &found.list)?;
    if has(&pieces.list, &tuple) {
        return Ok(Within {
            tuples: single(alloc, tuple)?,
            is_whole: true,
        });
    }
    Ok(Within {
        tuples: pieces,
        is_whole: false,
    })
}

/// The tuple together with each of the list, without those that hold nowhere.
fn pieces_of<E: Evaluate>(alloc: Global, tuple: &Tuple, list: &[Tuple]) -> Result<Tuples, NoMemory>
    ensures { IfOk result (AreOfBoth tuple.now list.now) }
{
    let mut pieces = Vec::new(alloc);
    for other in list {
        push_met::<E>(alloc, tuple, other, &mut pieces)?;
    }
    Ok(Tuples { list: pieces })
}

/// Adds the tuple of both, unless they hold nowhere together.
///
/// # Errors
/// Out of memory.
fn push_met<E: Evaluate>(
    alloc: Global,
    tuple: &Tuple,
    other: &Tuple,
    pieces: &mut Vec<Tuple>,
) -> Result<(), NoMemory>
    ensures { OnOk result (AddsPiece tuple.now other.now pieces.old.items pieces.new.items) }
{
    match E::meet(alloc, tuple, other)? {
        Some(piece) => Ok(pieces.push(piece)?),
        None => Ok(()),
    }
}

/// Whether the tuple stands in the list.
fn has(list: &[Tuple], tuple: &Tuple) -> bool
    ensures { result ≡ true → (p : Point) → tuple_holds tuple.now p ≡ true → tuples_hold list.now p ≡ true }
{
    equal_tuples();
    for other in list {
        if *other == *tuple {
            return true;
        }
    }
    false
}

/// The list of the one tuple.
fn single(alloc: Global, tuple: Tuple) -> Result<Tuples, NoMemory>
    ensures { IfOk result (λ ts. ts ≡ tuple ∷ []) }
{
    let mut list = Vec::with_capacity(alloc, 1)?;
    list.push(tuple)?;
    Ok(Tuples { list })
}
