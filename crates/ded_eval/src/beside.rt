//! The rows and text atoms that stand beside the other parts of a join, and what the parts so far leave to those that
//! follow.
ghost use Rattle.std.specs.Prelude.{◌≡◌, ◌++◌, ◌∷◌, [], true, length, IfOk, List, map};
ghost use Rattle.std.specs.List.{AllByRecursion};
ghost use Rattle.ded_model.specs.Catalogue.{Catalogue};
ghost use Rattle.ded_model.specs.Cell.{conj_holds};
ghost use Rattle.ded_model.specs.Logic.{AllAtoms, AllAtomsOf};
ghost use Rattle.ded_model.specs.PlanForm.{PlanForm, plan_form, plan_forms};
ghost use Rattle.ded_model.specs.Point.{Point};
ghost use Rattle.ded_model.specs.Row.{Atom};
ghost use Rattle.ded_genrel.specs.Lists.{conjs_hold};
ghost use Rattle.ded_algebra.specs.Evaluation.{IsScannable};
ghost use Rattle.ded_eval.specs.Joining.{begun};
ghost use Rattle.ded_eval.specs.Within.{is_rows, AreRowsOf, IsBegun};

use ded_atoms::{OfTuples, conjunction};
use ded_genrel::{GenRel, both_conjs, copy_conj};
use ded_model::memory::NoMemory;
use ded_model::plan::Plan;
use ded_theory::Theory;
use std::alloc::Global;

/// Whether the plan is rows and text atoms alone.
pub(crate) fn is_rows(plan: &Plan) -> bool
    ensures { result ≡ is_rows (plan_form plan.now) }
{
    match plan {
        Plan::Rows(_) => true,
        Plan::Scan(_, _)
        | Plan::Join(_)
        | Plan::Union(_)
        | Plan::Minus(_, _)
        | Plan::Not(_)
        | Plan::Project(_, _) => false,
    }
}

/// The atoms of all parts that are rows and text atoms alone.
///
/// # Errors
/// Out of memory.
pub(crate) fn rows_of_parts<T: OfTuples>(
    alloc: Global,
    parts: &Vec<Plan>,
) -> Result<Vec<T::Atom>, NoMemory>
    requires { (c : Catalogue) × AllAtomsOf (IsScannable T.reads c) (plan_forms parts.now.items) }
    ensures rows { IfOk result (λ v. AreRowsOf T.holds T.mentions T.lines (map plan_form parts.now.items) v.items) }
    ensures normal { IfOk result (λ v. AllByRecursion T.normal v.items) }
{
    let mut atoms = Vec::new(alloc);
    for part in parts {
        push_rows::<T>(alloc, &mut atoms, part)?;
    }
    Ok(atoms)
}

/// Sets the atoms of the plan at the end, where it is rows and text atoms alone.
///
/// # Errors
/// Out of memory.
fn push_rows<T: OfTuples>(
    alloc: Global,
    atoms: &mut Vec<T::Atom>,
    plan: &Plan,
) -> Result<(), NoMemory>
    requires plan { (c : Catalogue) × AllAtoms (IsScannable T.reads c) (plan_form plan.now) }
    requires normal { AllByRecursion T.normal atoms.old.items }
    ensures rows { IfOk result (λ _. (fs : List PlanForm) → AreRowsOf T.holds T.mentions T.lines fs atoms.old.items
        → AreRowsOf T.holds T.mentions T.lines (fs ++ plan_form plan.now ∷ []) atoms.new.items) }
    ensures normal { IfOk result (λ _. AllByRecursion T.normal atoms.new.items) }
{
    match plan {
        Plan::Rows(tuple) => {
            let mut more = conjunction::<T>(alloc, tuple)?;
            Ok(atoms.append(&mut more)?)
        }
        Plan::Scan(_, _)
        | Plan::Join(_)
        | Plan::Union(_)
        | Plan::Minus(_, _)
        | Plan::Not(_)
        | Plan::Project(_, _) => Ok(()),
    }
}

/// The join that begins with the atoms; it has no part yet where there are none.
///
/// # Errors
/// Out of memory.
pub(crate) fn begun_with<T: Theory>(
    alloc: Global,
    atoms: Vec<T::Atom>,
) -> Result<Option<GenRel<T>>, NoMemory>
    requires { AllByRecursion T.normal atoms.items }
    ensures { IfOk result (λ o. IsBegun T.holds T.mentions T.lines atoms.items (begun o)) }
{
    if atoms.is_empty() {
        return Ok(None);
    }
    let mut list = GenRel::new(alloc);
    list.push(atoms)?;
    Ok(Some(list.inhabited()?))
}

/// The list of the conjunction alone.
///
/// # Errors
/// Out of memory.
pub(crate) fn alone<T: Theory>(alloc: Global, conj: &[T::Atom]) -> Result<GenRel<T>, NoMemory>
    requires { AllByRecursion T.normal conj.now }
    ensures { IfOk result (λ r. r ≡ conj.now ∷ []) }
{
    let mut list = GenRel::new(alloc);
    list.push(copy_conj::<T>(alloc, conj)?)?;
    Ok(list)
}

/// Whether the join of the parts so far has no conjunction.
pub(crate) fn leaves_nothing<T: Theory>(list: &Option<GenRel<T>>) -> bool
    ensures { result ≡ true → length (begun list.now) ≡ 0 }
{
    match list {
        Some(list) => list.list().is_empty(),
        None => false,
    }
}

/// The window, and the conjunction of the list where there is one that has one alone.
///
/// # Errors
/// Out of memory.
pub(crate) fn narrowed<T: Theory>(
    alloc: Global,
    window: &[T::Atom],
    list: &Option<GenRel<T>>,
) -> Result<Vec<T::Atom>, NoMemory>
    requires { AllByRecursion T.normal window.now }
    ensures holds { IfOk result (λ v. (p : Point) → conj_holds T.holds window.now p ≡ true
        → conjs_hold T.holds (begun list.now) p ≡ true → conj_holds T.holds v.items p ≡ true) }
    ensures normal { IfOk result (λ v. AllByRecursion T.normal v.items) }
{
    match list {
        Some(list) => narrowed_by(alloc, window, list),
        None => copy_conj::<T>(alloc, window),
    }
}

/// The window, and the conjunction of the list where it has one alone.
///
/// # Errors
/// Out of memory.
pub(crate) fn narrowed_by<T: Theory>(
    alloc: Global,
    window: &[T::Atom],
    list: &GenRel<T>,
) -> Result<Vec<T::Atom>, NoMemory>
    requires { AllByRecursion T.normal window.now }
    ensures holds { IfOk result (λ v. (p : Point) → conj_holds T.holds window.now p ≡ true
        → conjs_hold T.holds list.now p ≡ true → conj_holds T.holds v.items p ≡ true) }
    ensures normal { IfOk result (λ v. AllByRecursion T.normal v.items) }
{
    if let [only] = list.list() {
        return both_conjs::<T>(alloc, window, only);
    }
    copy_conj::<T>(alloc, window)
}

/// The atoms, and those of the conjunction behind them.
///
/// # Errors
/// Out of memory; the conjunction is lost.
pub(crate) fn put_behind<T: Theory>(
    alloc: Global,
    atoms: &[T::Atom],
    conj: Vec<T::Atom>,
) -> Result<Vec<T::Atom>, NoMemory>
    ensures { IfOk result (λ v. v.items ≡ atoms.now ++ conj.items) }
{
    if atoms.is_empty() {
        return Ok(conj);
    }
    let mut conj = conj;
    let mut both = copy_conj::<T>(alloc, atoms)?;
    both.append(&mut conj)?;
    Ok(both)
}
