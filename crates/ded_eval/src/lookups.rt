//! Which plans are looked up for each conjunction of a list: of the parts of a join before them, or of what they are
//! taken from.
ghost use Rattle.ded_model.specs.Catalogue.{Catalogue};
ghost use Rattle.ded_model.specs.Logic.{AllAtoms};
ghost use Rattle.ded_model.specs.PlanForm.{plan_form};
ghost use Rattle.ded_algebra.specs.Evaluation.{IsScannable, IsEvaluable};

use crate::beside::{is_rows, rows_of_parts};
use crate::window::columns_window;
use ded_algebra::{Relations, near_in};
use ded_atoms::OfTuples;
use ded_genrel::{GenRel, copy_conj};
use ded_model::memory::NoMemory;
use ded_model::name::Name;
use ded_model::plan::Plan;
use ded_model::slot::Slots;
use ded_ranges::Window;
use std::alloc::Global;

/// A plan is looked up for each conjunction where at most one of so many tuples may hold where one of these does: where
/// the index passes over fewer tuples, reading the plan whole is likely to be cheaper.
const LOOKED_UP_AT_ONE_OF: usize = 4;

/// Whether looking the plan up for each conjunction of the list is likely to be cheaper than reading it whole: it scans
/// one relation that has an index, with rows and projections alone around it, and few of the tuples may hold where a
/// conjunction of the list does. Where the list has one conjunction alone, the plan is read within that in any case.
pub(crate) fn is_lookup<T: OfTuples, R: Relations>(
    alloc: Global,
    list: &GenRel<T>,
    plan: &Plan,
    relations: &R,
) -> bool
    requires { IsEvaluable T.reads (R.catalogue relations.now) (plan_form plan.now) }
{
    let conjs = list.list();
    if conjs.len() < 2 {
        return false;
    }
    match (scan_in(plan), conjs.get(conjs.len() / 2)) {
        (Some((name, _)), Some(conj)) => {
            relations.is_indexed(name)
                && is_selective::<T, R>(alloc, plan, relations, conj).unwrap_or(false)
        }
        _ => false,
    }
}

/// The only scan of a plan that has rows and projections alone around it.
#[cycle(scan_in)]
fn scan_in(plan: &Plan) -> Option<(&Name, &Slots)> {
    match plan {
        Plan::Scan(name, slots) => Some((name, slots)),
        Plan::Project(_, part) => scan_in(part),
        Plan::Join(parts) => only_scan_in(parts),
        Plan::Rows(_) | Plan::Union(_) | Plan::Minus(_, _) | Plan::Not(_) => None,
    }
}

/// The only scan of the parts, all others of which are rows.
#[cycle(scan_in)]
fn only_scan_in(parts: &Vec<Plan>) -> Option<(&Name, &Slots)> {
    let mut found = None;
    for part in parts {
        if is_rows(part) {
            continue;
        }
        if found.is_some() {
            return None;
        }
        found = Some(scan_in(part)?);
    }
    found
}

/// How many tuples may hold where the conjunction does, of the relation that is the plan's only scan; none where it has
/// no such scan.
///
/// # Errors
/// Out of memory.
pub(crate) fn near_count<T: OfTuples, R: Relations>(
    alloc: Global,
    plan: &Plan,
    relations: &R,
    conj: &[T::Atom],
) -> Result<Option<usize>, NoMemory>
    requires { IsEvaluable T.reads (R.catalogue relations.now) (plan_form plan.now) }
{
    let Some((name, slots)) = scan_in(plan) else {
        return Ok(None);
    };
    let mut inside = rows_around::<T>(alloc, plan)?;
    inside.append(&mut copy_conj::<T>(alloc, conj)?)?;
    let window = columns_window::<T>(alloc, &inside, &slots.list)?;
    let near = near_in(alloc, relations, name, &window);
    drop(window);
    Ok(Some(near?.map_or(0, |tuples| tuples.len())))
}

/// The atoms of the rows beside the plan's scan, below its projections.
///
/// # Errors
/// Out of memory.
#[cycle(rows_around)]
fn rows_around<T: OfTuples>(alloc: Global, plan: &Plan) -> Result<Vec<T::Atom>, NoMemory>
    requires { (c : Catalogue) × AllAtoms (IsScannable T.reads c) (plan_form plan.now) }
{
    match plan {
        Plan::Project(_, part) => rows_around::<T>(alloc, part),
        Plan::Join(parts) => rows_of_parts::<T>(alloc, parts),
        Plan::Scan(_, _) | Plan::Rows(_) | Plan::Union(_) | Plan::Minus(_, _) | Plan::Not(_) => {
            Ok(Vec::new(alloc))
        }
    }
}

/// Whether few tuples of the relation that is the plan's only scan may hold where the conjunction does.
///
/// # Errors
/// Out of memory.
fn is_selective<T: OfTuples, R: Relations>(
    alloc: Global,
    plan: &Plan,
    relations: &R,
    conj: &[T::Atom],
) -> Result<bool, NoMemory>
    requires { IsEvaluable T.reads (R.catalogue relations.now) (plan_form plan.now) }
{
    let (Some(near), Some((name, _))) = (
        near_count::<T, R>(alloc, plan, relations, conj)?,
        scan_in(plan),
    ) else {
        return Ok(false);
    };
    let all = near_in(alloc, relations, name, &Window::everything(alloc))?;
    Ok(near <= all.map_or(0, |tuples| tuples.len()) / LOOKED_UP_AT_ONE_OF)
}
