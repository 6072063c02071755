//! What shows a closed plan to hold, or not to: a few conjunctions of each part, tried before the plan is evaluated.
ghost use Rattle.std.specs.Prelude.{◌≡◌, ◌∷◌, [], true, IfOk, List};
ghost use Rattle.std.specs.List.{AllByRecursion};
ghost use Rattle.ded_model.specs.Cell.{conj_holds};
ghost use Rattle.ded_model.specs.Entries.{entry_of};
ghost use Rattle.ded_model.specs.Logic.{atom, every_of, some_of, AllAtomsOf};
ghost use Rattle.ded_model.specs.PlanForm.{scan, plan_form, plan_forms};
ghost use Rattle.ded_model.specs.Point.{Point};
ghost use Rattle.ded_genrel.specs.Lists.{conjs_hold};
ghost use Rattle.ded_genrel.specs.Operations.{IsMeet, IsInhabitedPart};
ghost use Rattle.ded_algebra.specs.Evaluation.{IsScannable, IsScannedFrom, IsEvaluable};
ghost use Rattle.ded_eval.specs.Finding.{IsFoundIn, IsFoundWith, AreAlike, IsPlanVerdict, IsClosedVerdict};

use crate::attaining::{are_over, is_empty, is_inhabited, list_attained};
use crate::beside::{alone, is_rows, put_behind, rows_of_parts};
use crate::evaluation::rows;
use crate::scanning::{FirstTuples, first_scanned};
use crate::tried::{Projected, is_closed, joins, others_than_rows, projects, with_slot};
use crate::window::without_slot;
use ded_algebra::Relations;
use ded_atoms::OfTuples;
use ded_genrel::{GenRel, both_conjs};
use ded_model::memory::{NoMemory, Refused};
use ded_model::name::Name;
use ded_model::plan::Plan;
use ded_model::slot::{Slot, Slots, stands_in};
use ded_theory::{Theory, Verdict};
use std::alloc::{AllocError, Global};

/// How many conjunctions of a part are tried: where one of a few shows that the plan holds, no slot is eliminated, and
/// where none does, they were tried for nothing.
const TRIED_OF_A_PART: usize = 4;

/// How many tuples near a window are tried where one relation is looked up.
const NEAR: usize = 16;

/// How many plans are looked at in all.
const LOOKS: u32 = 32;

/// What is found of the plan: that it holds everywhere (`Inhabited`), or nowhere (`Empty`). Only closed plans that
/// project slots or join parts are tried, and of each part a few conjunctions alone, so that `Unknown` says nothing.
///
/// # Errors
/// Out of memory.
pub(crate) fn found<T: OfTuples, R: Relations>(
    alloc: Global,
    plan: &Plan,
    relations: &R,
) -> Result<Verdict, NoMemory>
    requires { IsEvaluable T.reads (R.catalogue relations.now) (plan_form plan.now) }
    ensures { IfOk result (IsClosedVerdict (R.catalogue relations.now) (plan_form plan.now)) }
{
    if !(projects(plan) || joins(plan)) || !is_closed(plan, &Projected::Nothing) {
        return Ok(Verdict::Unknown);
    }
    if !projects(plan) {
        return found_by_few::<T, R>(alloc, plan, relations);
    }
    match attained::<T, R>(alloc, plan, relations, &[], &[])? {
        Verdict::Empty => Ok(Verdict::Empty),
        Verdict::Inhabited => Ok(Verdict::Inhabited),
        Verdict::Unknown => found_by_few::<T, R>(alloc, plan, relations),
    }
}

/// The same by a few conjunctions of the plan, where it joins parts: whether one of them has no atoms.
///
/// # Errors
/// Out of memory.
fn found_by_few<T: OfTuples, R: Relations>(
    alloc: Global,
    plan: &Plan,
    relations: &R,
) -> Result<Verdict, NoMemory>
    requires { IsEvaluable T.reads (R.catalogue relations.now) (plan_form plan.now) }
    ensures { IfOk result (IsClosedVerdict (R.catalogue relations.now) (plan_form plan.now)) }
{
    if !joins(plan) {
        return Ok(Verdict::Unknown);
    }
    let everywhere = Vec::new(alloc);
    let mut looks = LOOKS;
    match few::<T, R>(alloc, plan, relations, &everywhere, &mut looks) {
        Ok(list) if has_everything(&list) => Ok(Verdict::Inhabited),
        Ok(_) | Err(Refused::Wide) => Ok(Verdict::Unknown),
        Err(Refused::Memory) => Err(AllocError),
    }
}

/// What is found of the plan at points at which the atoms hold: `Empty` where it holds at none of them, and `Inhabited`
/// where it holds wherever a point has the values, at the slots, of some point at which the atoms hold. For that one of
/// a few conjunctions, over these slots and those that the plan projects first, has to hold somewhere together with the
/// atoms. So no slot has to be eliminated.
///
/// # Errors
/// Out of memory.
#[cycle(attained)]
fn attained<T: OfTuples, R: Relations>(
    alloc: Global,
    plan: &Plan,
    relations: &R,
    atoms: &[T::Atom],
    slots: &[Slot],
) -> Result<Verdict, NoMemory>
    requires plan { IsEvaluable T.reads (R.catalogue relations.now) (plan_form plan.now) }
    requires atoms { AllByRecursion T.normal atoms.now }
    requires alike { AreAlike T.holds slots.now atoms.now }
    ensures { IfOk result (IsPlanVerdict T.holds atoms.now (R.catalogue relations.now) slots.now (plan_form plan.now)) }
{
    match plan {
        Plan::Project(slot, part) => {
            let inside = with_slot(alloc, slots, *slot)?;
            match attained::<T, R>(alloc, part, relations, atoms, &inside)? {
                Verdict::Empty if stands_in(slots, *slot) => Ok(Verdict::Unknown),
                Verdict::Empty => Ok(Verdict::Empty),
                Verdict::Inhabited => Ok(Verdict::Inhabited),
                Verdict::Unknown => Ok(Verdict::Unknown),
            }
        }
        Plan::Join(parts) if others_than_rows(parts) == 1 => {
            join_attained::<T, R>(alloc, parts, relations, atoms, slots)
        }
        Plan::Scan(name, columns) => {
            scan_attained::<T, R>(alloc, name, columns, relations, atoms, slots)
        }
        Plan::Rows(_) | Plan::Join(_) | Plan::Union(_) | Plan::Minus(_, _) | Plan::Not(_) => {
            few_attained::<T, R>(alloc, plan, relations, atoms, slots)
        }
    }
}

/// The same of the join of the parts, where all but one of them are rows over the slots.
#[cycle(attained)]
fn join_attained<T: OfTuples, R: Relations>(
    alloc: Global,
    parts: &Vec<Plan>,
    relations: &R,
    atoms: &[T::Atom],
    slots: &[Slot],
) -> Result<Verdict, NoMemory>
    requires parts { AllAtomsOf (IsScannable T.reads (R.catalogue relations.now)) (plan_forms parts.now.items) }
    requires atoms { AllByRecursion T.normal atoms.now }
    requires alike { AreAlike T.holds slots.now atoms.now }
    ensures { IfOk result (IsPlanVerdict T.holds atoms.now (R.catalogue relations.now) slots.now
        (every_of (plan_forms parts.now.items))) }
{
    let own = rows_of_parts::<T>(alloc, parts)?;
    if !are_over::<T>(&own, slots) {
        return Ok(Verdict::Unknown);
    }
    let inner = put_behind::<T>(alloc, atoms, own)?;
    let mut found = false;
    for part in parts {
        if is_rows(part) {
            continue;
        }
        let verdict = attained::<T, R>(alloc, part, relations, &inner, slots)?;
        if is_empty(verdict) {
            return Ok(Verdict::Empty);
        }
        if found || !is_inhabited(verdict) {
            return Ok(Verdict::Unknown);
        }
        found = true;
    }
    Ok(if found {
        Verdict::Inhabited
    } else {
        Verdict::Unknown
    })
}

/// The same of a scan, by its first tuples.
///
/// # Errors
/// Out of memory.
fn scan_attained<T: OfTuples, R: Relations>(
    alloc: Global,
    name: &Name,
    columns: &Slots,
    relations: &R,
    atoms: &[T::Atom],
    slots: &[Slot],
) -> Result<Verdict, NoMemory>
    requires scan { IsScannedFrom T.reads (entry_of (R.catalogue relations.now).entries name.now) columns.now }
    requires atoms { AllByRecursion T.normal atoms.now }
    requires alike { AreAlike T.holds slots.now atoms.now }
    ensures { IfOk result (IsPlanVerdict T.holds atoms.now (R.catalogue relations.now) slots.now
        (atom (scan name.now columns.now))) }
{
    let FirstTuples { list, is_whole } = first_scanned::<T, R>(
        alloc, name, columns, relations, atoms, NEAR,
    )?;
    match list_attained(alloc, list, atoms, slots)? {
        Verdict::Empty if is_whole => Ok(Verdict::Empty),
        Verdict::Inhabited => Ok(Verdict::Inhabited),
        Verdict::Empty | Verdict::Unknown => Ok(Verdict::Unknown),
    }
}

/// The same by a few conjunctions of the plan, which are never all.
///
/// # Errors
/// Out of memory.
fn few_attained<T: OfTuples, R: Relations>(
    alloc: Global,
    plan: &Plan,
    relations: &R,
    atoms: &[T::Atom],
    slots: &[Slot],
) -> Result<Verdict, NoMemory>
    requires plan { IsEvaluable T.reads (R.catalogue relations.now) (plan_form plan.now) }
    requires atoms { AllByRecursion T.normal atoms.now }
    requires alike { AreAlike T.holds slots.now atoms.now }
    ensures { IfOk result (IsPlanVerdict T.holds atoms.now (R.catalogue relations.now) slots.now (plan_form plan.now)) }
{
    let mut looks = LOOKS;
    match few::<T, R>(alloc, plan, relations, atoms, &mut looks) {
        Ok(list) => match list_attained(alloc, list, atoms, slots)? {
            Verdict::Inhabited => Ok(Verdict::Inhabited),
            Verdict::Empty | Verdict::Unknown => Ok(Verdict::Unknown),
        },
        Err(Refused::Wide) => Ok(Verdict::Unknown),
        Err(Refused::Memory) => Err(AllocError),
    }
}

/// A few conjunctions, which hold only where the plan does at points at which all atoms of the window hold. `looks`
/// falls by one for each plan inside that is looked at, and when it is 0 there are none.
///
/// # Errors
/// `Wide` where an elimination gives up; otherwise out of memory.
#[cycle(few)]
fn few<T: OfTuples, R: Relations>(
    alloc: Global,
    plan: &Plan,
    relations: &R,
    window: &[T::Atom],
    looks: &mut u32,
) -> Result<GenRel<T>, Refused>
    requires plan { IsEvaluable T.reads (R.catalogue relations.now) (plan_form plan.now) }
    requires window { AllByRecursion T.normal window.now }
    ensures { IfOk result (IsFoundIn T.holds (R.catalogue relations.now)
        (conj_holds T.holds window.now) (plan_form plan.now)) }
{
    if *looks == 0 {
        return Ok(GenRel::new(alloc));
    }
    *looks -= 1;
    match plan {
        Plan::Scan(name, slots) => Ok(
            first_scanned(alloc, name, slots, relations, window, TRIED_OF_A_PART)?.list,
        ),
        Plan::Rows(tuple) => Ok(rows(alloc, tuple)?),
        Plan::Join(parts) => few_joined(alloc, parts, relations, window, looks),
        Plan::Union(parts) => few_united(alloc, parts, relations, window, looks),
        Plan::Minus(_, _) | Plan::Not(_) => Ok(GenRel::new(alloc)),
        Plan::Project(slot, part) => {
            let outside = without_slot::<T>(alloc, window, *slot)?;
            let list = few(alloc, part, relations, &outside, looks)?;
            list.project(*slot)
        }
    }
}

/// A few conjunctions of the join of the parts: its rows and text atoms together with a few of one part after another,
/// each looked up within those before it.
#[cycle(few)]
fn few_joined<T: OfTuples, R: Relations>(
    alloc: Global,
    parts: &Vec<Plan>,
    relations: &R,
    window: &[T::Atom],
    looks: &mut u32,
) -> Result<GenRel<T>, Refused>
    requires parts { AllAtomsOf (IsScannable T.reads (R.catalogue relations.now)) (plan_forms parts.now.items) }
    requires window { AllByRecursion T.normal window.now }
    ensures { IfOk result (IsFoundIn T.holds (R.catalogue relations.now) (conj_holds T.holds window.now)
        (every_of (plan_forms parts.now.items))) }
{
    let rows = rows_of_parts::<T>(alloc, parts)?;
    let mut list = alone::<T>(alloc, &rows)?;
    for part in parts {
        if is_rows(part) {
            continue;
        }
        list = few_with(alloc, &list, part, relations, window, looks)?;
    }
    Ok(list)
}

/// A few conjunctions of the list, each together with one of the plan.
#[cycle(few)]
fn few_with<T: OfTuples, R: Relations>(
    alloc: Global,
    list: &GenRel<T>,
    plan: &Plan,
    relations: &R,
    window: &[T::Atom],
    looks: &mut u32,
) -> Result<GenRel<T>, Refused>
    requires plan { IsEvaluable T.reads (R.catalogue relations.now) (plan_form plan.now) }
    requires window { AllByRecursion T.normal window.now }
    ensures { IfOk result (IsFoundWith T.holds (R.catalogue relations.now) (conj_holds T.holds window.now)
        (plan_form plan.now) list.now) }
{
    let mut joined = GenRel::new(alloc);
    for conj in list.list() {
        if joined.list().len() >= TRIED_OF_A_PART {
            return Ok(joined);
        }
        let inner = with_atoms::<T>(alloc, window, conj)?;
        let next = few(alloc, plan, relations, &inner, looks)?;
        joined.append(pairs_of(alloc, conj, &next)?)?;
    }
    Ok(joined)
}

/// The pairs of the conjunction with those of the list, without those that no point satisfies.
///
/// # Errors
/// Out of memory.
fn pairs_of<T: Theory>(
    alloc: Global,
    conj: &[T::Atom],
    next: &GenRel<T>,
) -> Result<GenRel<T>, NoMemory>
    requires { AllByRecursion T.normal conj.now }
    ensures { IfOk result (λ r. (both : List (List T.Atom))
        × IsMeet T.holds T.mentions T.lines (conj.now ∷ []) next.now both
        × IsInhabitedPart T.holds T.mentions T.lines both r) }
{
    let one = alone(alloc, conj)?;
    let both = one.meet(next)?;
    both.inhabited()
}

/// A few conjunctions of the union of the parts.
#[cycle(few)]
fn few_united<T: OfTuples, R: Relations>(
    alloc: Global,
    parts: &Vec<Plan>,
    relations: &R,
    window: &[T::Atom],
    looks: &mut u32,
) -> Result<GenRel<T>, Refused>
    requires parts { AllAtomsOf (IsScannable T.reads (R.catalogue relations.now)) (plan_forms parts.now.items) }
    requires window { AllByRecursion T.normal window.now }
    ensures { IfOk result (IsFoundIn T.holds (R.catalogue relations.now) (conj_holds T.holds window.now)
        (some_of (plan_forms parts.now.items))) }
{
    let mut list = GenRel::new(alloc);
    for part in parts {
        if list.list().len() >= TRIED_OF_A_PART {
            return Ok(list);
        }
        list.append(few(alloc, part, relations, window, looks)?)?;
    }
    Ok(list)
}

/// The atoms of the window and of the conjunction.
///
/// # Errors
/// Out of memory.
fn with_atoms<T: Theory>(
    alloc: Global,
    window: &[T::Atom],
    conj: &[T::Atom],
) -> Result<Vec<T::Atom>, NoMemory>
    requires window { AllByRecursion T.normal window.now }
    requires conj { AllByRecursion T.normal conj.now }
    ensures holds { IfOk result (λ v. (p : Point) → conj_holds T.holds window.now p ≡ true
        → conj_holds T.holds conj.now p ≡ true → conj_holds T.holds v.items p ≡ true) }
    ensures normal { IfOk result (λ v. AllByRecursion T.normal v.items) }
{
    both_conjs::<T>(alloc, window, conj)
}

/// Whether a conjunction of the list has no atoms, and so holds everywhere.
fn has_everything<T: Theory>(list: &GenRel<T>) -> bool
    ensures { result ≡ true → (p : Point) → conjs_hold T.holds list.now p ≡ true }
{
    for conj in list.list() {
        if conj.is_empty() {
            return true;
        }
    }
    false
}
