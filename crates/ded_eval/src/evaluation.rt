//! Plans, from their leaves to their roots.
ghost use Rattle.std.specs.Prelude.{◌≡◌, true, IfOk, IsErrOf};
ghost use Rattle.std.specs.List.{AllByRecursion};
ghost use Rattle.ded_model.specs.declared.memory.Refused.TheVariants.{Wide};
ghost use Rattle.ded_model.specs.Catalogue.{Catalogue};
ghost use Rattle.ded_model.specs.Logic.{atom, negation, every_of, some_of, AllAtomsOf};
ghost use Rattle.ded_model.specs.Lines.{any_clashes};
ghost use Rattle.ded_model.specs.Measure.{stored_measures, plan_atom_lines, plan_atom_clash, plan_clashes};
ghost use Rattle.ded_model.specs.PlanForm.{rows, plan_form, plan_forms};
ghost use Rattle.ded_genrel.specs.Lists.{conjs_hold, conjs_mention, conjs_lines};
ghost use Rattle.ded_model.specs.Cell.{conj_holds};
ghost use Rattle.ded_algebra.specs.Evaluation.{IsScannable, IsEvaluable, IsEvaluation, IsEvaluationWithin};
ghost use Rattle.ded_eval.specs.Joining.{begun, IsJoinedWith, IsJoinStep};

use crate::across::{join_inside, rows_across};
use crate::beside::{
    alone, begun_with, is_rows, leaves_nothing, narrowed, narrowed_by, rows_of_parts,
};
use crate::fronts::{front_part, place_of};
use crate::lookups::is_lookup;
use crate::scanning::scanned;
use crate::slots::{add_all, rational_slots, shared, slots_of_rows};
use crate::step::JoinStep;
use crate::window::without_slot;
use ded_algebra::Relations;
use ded_atoms::{OfTuples, conjunction, distinct};
use ded_complement::{complement, minus};
use ded_genrel::{GenRel, both_conjs};
use ded_model::memory::{NoMemory, Refused};
use ded_model::plan::Plan;
use ded_model::tuple::Tuple;
use ded_theory::Theory;
use std::alloc::Global;

/// A list that holds exactly where the plan does over the given relations. It mentions only slots that the plan
/// mentions freely, and has lines among those of the plan. Each name that the plan scans is given, with tuples over
/// columns of the sorts of the scan's slots, and the theory reads all atoms. `met` grows by the count of pairs that
/// joins meet, up to the greatest `u64`.
///
/// # Errors
/// `Wide` only where the plan clashes over the given relations, and never over a theory that decides; otherwise out of
/// memory.
pub fn evaluate_counted<T: OfTuples, R: Relations>(
    alloc: Global,
    plan: &Plan,
    relations: &R,
    met: &mut u64,
) -> Result<GenRel<T>, Refused>
    requires { IsEvaluable T.reads (R.catalogue relations.now) (plan_form plan.now) }
    ensures is { IfOk result (λ r. IsEvaluation (R.catalogue relations.now) (plan_form plan.now) (conjs_hold T.holds r)
        (conjs_mention T.mentions r) (conjs_lines T.lines r)) }
    ensures wide { IsErrOf result Wide → plan_clashes (stored_measures (R.catalogue relations.now))
        (plan_form plan.now) ≡ true }
    ensures never_wide { T.decides → IsErrOf result Wide → ⊥ }
{
    let everywhere = Vec::new(alloc);
    evaluate_within(alloc, plan, relations, &everywhere, met)
}

/// A list that holds exactly where the plan does over the given relations, at each point at which all atoms of the
/// window hold. It mentions only slots that the plan mentions freely, and has lines among those of the plan, as
/// [`evaluate_counted`] gives it. Tuples that hold nowhere in the window needn't be read.
///
/// # Errors
/// `Wide` only where the plan clashes over the given relations, and never over a theory that decides; otherwise out of
/// memory.
#[cycle(evaluate)]
pub fn evaluate_within<T: OfTuples, R: Relations>(
    alloc: Global,
    plan: &Plan,
    relations: &R,
    window: &[T::Atom],
    met: &mut u64,
) -> Result<GenRel<T>, Refused>
    requires plan { IsEvaluable T.reads (R.catalogue relations.now) (plan_form plan.now) }
    requires window { AllByRecursion T.normal window.now }
    ensures is { IfOk result (λ r. IsEvaluationWithin (R.catalogue relations.now) (plan_form plan.now)
        (conj_holds T.holds window.now) (conjs_hold T.holds r) (conjs_mention T.mentions r) (conjs_lines T.lines r)) }
    ensures wide { IsErrOf result Wide → plan_clashes (stored_measures (R.catalogue relations.now))
        (plan_form plan.now) ≡ true }
    ensures never_wide { T.decides → IsErrOf result Wide → ⊥ }
{
    match plan {
        Plan::Scan(name, slots) => Ok(scanned(alloc, name, slots, relations, window)?),
        Plan::Rows(tuple) => Ok(rows(alloc, tuple)?),
        Plan::Join(parts) => joined(alloc, parts, relations, window, met),
        Plan::Union(parts) => united(alloc, parts, relations, window, met),
        Plan::Minus(from, taken) => {
            let from = evaluate_within(alloc, from, relations, window, met)?;
            left_of(alloc, from, taken, relations, window, met)
        }
        Plan::Not(part) => complemented(alloc, part, relations, window, met),
        Plan::Project(slot, part) => {
            let outside = without_slot::<T>(alloc, window, *slot)?;
            let list = evaluate_within(alloc, part, relations, &outside, met)?.project(*slot)?;
            Ok(distinct(alloc, list)?)
        }
    }
}

/// What the plan leaves of the list. Of nothing it leaves nothing, and isn't evaluated; what is looked up is looked up
/// for each conjunction of the list.
#[cycle(evaluate)]
fn left_of<T: OfTuples, R: Relations>(
    alloc: Global,
    list: GenRel<T>,
    taken: &Plan,
    relations: &R,
    window: &[T::Atom],
    met: &mut u64,
) -> Result<GenRel<T>, Refused>
    requires taken { IsEvaluable T.reads (R.catalogue relations.now) (plan_form taken.now) }
    requires window { AllByRecursion T.normal window.now }
    ensures is { IfOk result (λ r. IsJoinedWith T.holds T.mentions T.lines (R.catalogue relations.now)
        (conj_holds T.holds window.now) (negation (plan_form taken.now)) list r) }
    ensures wide { IsErrOf result Wide → plan_clashes (stored_measures (R.catalogue relations.now))
        (plan_form taken.now) ≡ true }
    ensures never_wide { T.decides → IsErrOf result Wide → ⊥ }
{
    if list.list().is_empty() {
        return Ok(list);
    }
    if !is_lookup(alloc, &list, taken, relations) {
        return left_of_whole(alloc, &list, taken, relations, window, met);
    }
    let mut left = GenRel::new(alloc);
    for conj in list.list() {
        let one = alone(alloc, conj)?;
        left.append(left_of_whole(alloc, &one, taken, relations, window, met)?)?;
    }
    Ok(left)
}

/// What the plan leaves of the list. It is evaluated within the window, and within the conjunction of the list where
/// that has one alone.
#[cycle(evaluate)]
fn left_of_whole<T: OfTuples, R: Relations>(
    alloc: Global,
    list: &GenRel<T>,
    taken: &Plan,
    relations: &R,
    window: &[T::Atom],
    met: &mut u64,
) -> Result<GenRel<T>, Refused>
    requires taken { IsEvaluable T.reads (R.catalogue relations.now) (plan_form taken.now) }
    requires window { AllByRecursion T.normal window.now }
    ensures is { IfOk result (λ r. IsJoinedWith T.holds T.mentions T.lines (R.catalogue relations.now)
        (conj_holds T.holds window.now) (negation (plan_form taken.now)) list.now r) }
    ensures wide { IsErrOf result Wide → plan_clashes (stored_measures (R.catalogue relations.now))
        (plan_form taken.now) ≡ true }
    ensures never_wide { T.decides → IsErrOf result Wide → ⊥ }
{
    let inner = narrowed_by(alloc, window, list)?;
    let taken = evaluate_within(alloc, taken, relations, &inner, met)?;
    Ok(minus(alloc, list, &taken)?)
}

/// The complement of the plan. Where the plan is a union of a complement and another plan, as `implies` makes it, that
/// is what the other plan leaves of the complement's part: so nothing is complemented twice, and where that part leaves
/// nothing the other plan isn't evaluated.
#[cycle(evaluate)]
fn complemented<T: OfTuples, R: Relations>(
    alloc: Global,
    plan: &Plan,
    relations: &R,
    window: &[T::Atom],
    met: &mut u64,
) -> Result<GenRel<T>, Refused>
    requires plan { IsEvaluable T.reads (R.catalogue relations.now) (plan_form plan.now) }
    requires window { AllByRecursion T.normal window.now }
    ensures is { IfOk result (λ r. IsEvaluationWithin (R.catalogue relations.now) (negation (plan_form plan.now))
        (conj_holds T.holds window.now) (conjs_hold T.holds r) (conjs_mention T.mentions r) (conjs_lines T.lines r)) }
    ensures wide { IsErrOf result Wide → plan_clashes (stored_measures (R.catalogue relations.now))
        (plan_form plan.now) ≡ true }
    ensures never_wide { T.decides → IsErrOf result Wide → ⊥ }
{
    if let Plan::Union(parts) = plan {
        if let [first, other] = parts.as_slice() {
            if let Plan::Not(from) = first {
                let from = evaluate_within(alloc, from, relations, window, met)?;
                return left_of(alloc, from, other, relations, window, met);
            }
        }
    }
    let list = evaluate_within(alloc, plan, relations, window, met)?;
    Ok(complement(alloc, &list)?)
}

/// The join of the parts, which ends at the first one that leaves nothing. Its rows and text atoms come first, and of
/// two scans the one with far fewer tuples. Each other part is evaluated within the window and them, and where the
/// parts so far leave one conjunction, within that. Pairs that hold nowhere in the window by its rows that lie across
/// the two sides are left out.
#[cycle(evaluate)]
fn joined<T: OfTuples, R: Relations>(
    alloc: Global,
    parts: &Vec<Plan>,
    relations: &R,
    window: &[T::Atom],
    met: &mut u64,
) -> Result<GenRel<T>, Refused>
    requires parts { AllAtomsOf (IsScannable T.reads (R.catalogue relations.now)) (plan_forms parts.now.items) }
    requires window { AllByRecursion T.normal window.now }
    ensures is { IfOk result (λ r. IsEvaluationWithin (R.catalogue relations.now)
        (every_of (plan_forms parts.now.items)) (conj_holds T.holds window.now) (conjs_hold T.holds r)
        (conjs_mention T.mentions r) (conjs_lines T.lines r)) }
    ensures wide { IsErrOf result Wide → any_clashes (plan_atom_lines (stored_measures (R.catalogue relations.now)))
        (plan_atom_clash (stored_measures (R.catalogue relations.now))) (plan_forms parts.now.items) ≡ true }
    ensures never_wide { T.decides → IsErrOf result Wide → ⊥ }
{
    let rows = rows_of_parts::<T>(alloc, parts)?;
    let within = both_conjs::<T>(alloc, window, &rows)?;
    let mut slots = slots_of_rows(alloc, parts)?;
    let mut list = begun_with(alloc, rows)?;
    let front = front_part::<T, R>(alloc, parts, relations, &within)?;
    for i in 0..parts.len() {
        let part = &parts[place_of(front, i, parts.len())];
        if is_rows(part) {
            continue;
        }
        if leaves_nothing(&list) {
            return Ok(whole(alloc, list)?);
        }
        let own = rational_slots(alloc, part)?;
        let near = shared(alloc, &own, &slots)?;
        let across = rows_across::<T>(alloc, &within, &slots, &own)?;
        let step = JoinStep {
            within: &within,
            slots: &near,
            across: &across,
        };
        list = Some(joined_with(alloc, list, part, relations, &step, met)?);
        add_all(&mut slots, &own)?;
    }
    Ok(whole(alloc, list)?)
}

/// The join of the parts so far with one more, within the rows across both. What is looked up is looked up for each
/// conjunction of the parts so far.
#[cycle(evaluate)]
fn joined_with<T: OfTuples, R: Relations>(
    alloc: Global,
    before: Option<GenRel<T>>,
    part: &Plan,
    relations: &R,
    step: &JoinStep<'_, T>,
    met: &mut u64,
) -> Result<GenRel<T>, Refused>
    requires part { IsEvaluable T.reads (R.catalogue relations.now) (plan_form part.now) }
    requires step { IsJoinStep T.normal T.holds step.now.within.now step.now.slots.now step.now.across.now }
    ensures is { IfOk result (λ r. IsJoinedWith T.holds T.mentions T.lines (R.catalogue relations.now)
        (conj_holds T.holds step.now.within.now) (plan_form part.now) (begun before) r) }
    ensures wide { IsErrOf result Wide → plan_clashes (stored_measures (R.catalogue relations.now))
        (plan_form part.now) ≡ true }
    ensures never_wide { T.decides → IsErrOf result Wide → ⊥ }
{
    match before {
        Some(list) if is_lookup(alloc, &list, part, relations) => {
            probed(alloc, &list, part, relations, step, met)
        }
        before => met_with(alloc, before, part, relations, step, met),
    }
}

/// The join of the parts so far with one more, by the slots that they share, within the rows across both.
#[cycle(evaluate)]
fn met_with<T: OfTuples, R: Relations>(
    alloc: Global,
    before: Option<GenRel<T>>,
    part: &Plan,
    relations: &R,
    step: &JoinStep<'_, T>,
    met: &mut u64,
) -> Result<GenRel<T>, Refused>
    requires part { IsEvaluable T.reads (R.catalogue relations.now) (plan_form part.now) }
    requires step { IsJoinStep T.normal T.holds step.now.within.now step.now.slots.now step.now.across.now }
    ensures is { IfOk result (λ r. IsJoinedWith T.holds T.mentions T.lines (R.catalogue relations.now)
        (conj_holds T.holds step.now.within.now) (plan_form part.now) (begun before) r) }
    ensures wide { IsErrOf result Wide → plan_clashes (stored_measures (R.catalogue relations.now))
        (plan_form part.now) ≡ true }
    ensures never_wide { T.decides → IsErrOf result Wide → ⊥ }
{
    let inner = narrowed(alloc, step.within, &before)?;
    let next = evaluate_within(alloc, part, relations, &inner, met)?;
    match before {
        Some(list) => Ok(join_inside(alloc, &list, &next, step, met)?),
        None => Ok(next),
    }
}

/// The join of a list with one part more, which is evaluated for each conjunction of the list within that.
#[cycle(evaluate)]
fn probed<T: OfTuples, R: Relations>(
    alloc: Global,
    list: &GenRel<T>,
    part: &Plan,
    relations: &R,
    step: &JoinStep<'_, T>,
    met: &mut u64,
) -> Result<GenRel<T>, Refused>
    requires part { IsEvaluable T.reads (R.catalogue relations.now) (plan_form part.now) }
    requires step { IsJoinStep T.normal T.holds step.now.within.now step.now.slots.now step.now.across.now }
    ensures is { IfOk result (λ r. IsJoinedWith T.holds T.mentions T.lines (R.catalogue relations.now)
        (conj_holds T.holds step.now.within.now) (plan_form part.now) list.now r) }
    ensures wide { IsErrOf result Wide → plan_clashes (stored_measures (R.catalogue relations.now))
        (plan_form part.now) ≡ true }
    ensures never_wide { T.decides → IsErrOf result Wide → ⊥ }
{
    let each = JoinStep {
        within: step.within,
        slots: &[],
        across: step.across,
    };
    let mut joined = GenRel::new(alloc);
    for conj in list.list() {
        let before = Some(alone(alloc, conj)?);
        let more = met_with(alloc, before, part, relations, &each, met)?;
        joined.append(more)?;
    }
    Ok(joined)
}

/// The union of the parts, without repetitions.
#[cycle(evaluate)]
fn united<T: OfTuples, R: Relations>(
    alloc: Global,
    parts: &Vec<Plan>,
    relations: &R,
    window: &[T::Atom],
    met: &mut u64,
) -> Result<GenRel<T>, Refused>
    requires parts { AllAtomsOf (IsScannable T.reads (R.catalogue relations.now)) (plan_forms parts.now.items) }
    requires window { AllByRecursion T.normal window.now }
    ensures is { IfOk result (λ r. IsEvaluationWithin (R.catalogue relations.now) (some_of (plan_forms parts.now.items))
        (conj_holds T.holds window.now) (conjs_hold T.holds r) (conjs_mention T.mentions r) (conjs_lines T.lines r)) }
    ensures wide { IsErrOf result Wide → any_clashes (plan_atom_lines (stored_measures (R.catalogue relations.now)))
        (plan_atom_clash (stored_measures (R.catalogue relations.now))) (plan_forms parts.now.items) ≡ true }
    ensures never_wide { T.decides → IsErrOf result Wide → ⊥ }
{
    let mut list = GenRel::new(alloc);
    for part in parts {
        list.append(evaluate_within(alloc, part, relations, window, met)?)?;
    }
    Ok(distinct(alloc, list)?)
}

/// The join of all parts: of none the conjunction without atoms, which holds everywhere.
fn whole<T: Theory>(alloc: Global, list: Option<GenRel<T>>) -> Result<GenRel<T>, NoMemory>
    ensures { IfOk result (λ r. r ≡ begun list) }
{
    match list {
        Some(list) => Ok(list),
        None => {
            let mut list = GenRel::new(alloc);
            list.push(Vec::new(alloc))?;
            Ok(list)
        }
    }
}

/// The tuple, unless no point satisfies it.
///
/// # Errors
/// Out of memory.
pub(crate) fn rows<T: OfTuples>(alloc: Global, tuple: &Tuple) -> Result<GenRel<T>, NoMemory>
    requires { AllByRecursion T.reads tuple.now }
    ensures { IfOk result (λ r. (c : Catalogue) → IsEvaluation c (atom (rows tuple.now)) (conjs_hold T.holds r)
        (conjs_mention T.mentions r) (conjs_lines T.lines r)) }
{
    let mut list = GenRel::new(alloc);
    list.push(conjunction::<T>(alloc, tuple)?)?;
    list.inhabited()
}
