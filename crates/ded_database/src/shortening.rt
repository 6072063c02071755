//! The list of a view from which a tuple that goes only takes.
ghost use Rattle.std.specs.Prelude.{◌≡◌, true, false, [], IfOk, IfSome, IsErrOf, List};
ghost use Rattle.std.specs.List.{AllByRecursion};
ghost use Rattle.ded_model.specs.declared.memory.Refused.TheVariants.{Wide};
ghost use Rattle.ded_model.specs.Lines.{Line, IsSubset, atoms_lines, tuples_lines};
ghost use Rattle.ded_model.specs.Measure.{measures};
ghost use Rattle.ded_database.specs.Marks.{mark_adds, IsMark};
ghost use Rattle.ded_query.specs.Gathering.{IsFront, IsViewOf};
ghost use Rattle.ded_database.specs.Changes.{before, after, inserted_tuple, IsChange, IsDelete};
ghost use Rattle.ded_database.specs.Held.{IsHeld};
ghost use Rattle.ded_database.specs.Lasting.{HasLinesBut, IsViewBut};
ghost use Rattle.ded_database.specs.Lost.{LosesOnly, HaveNoneLost};

use crate::change::Renewal;
use crate::laws;
use crate::lines::have_any;
use crate::lost::lost_lines;
use crate::renewing::anew;
use crate::unshared::unshared;
use ded_algebra::{Evaluate, Given, Relations};
use ded_keep::{OneTuple, remove_tuple};
use ded_model::memory::{NoMemory, Refused};
use ded_model::row::Row;
use ded_model::tuple::{BothAtom, Tuple, Tuples};
use ded_plan::scanned_names;
use ded_query::{Over, give_names};
use std::alloc::Global;

/// The list of a view after a tuple is deleted that only took part once: without what the deleted tuple alone gave. A
/// row of a tuple may have numbers that only the deleted tuple had. Where it has, or where that can't be told, and
/// where a plan is too wide, the list is made anew. What is held is right over the catalogue as it will be, and stays
/// as it is.
///
/// # Errors
/// `Wide` only where the view clashes over the catalogue as it will be, otherwise out of memory. The list is lost then.
pub(crate) fn list_without<E: Evaluate>(
    alloc: Global,
    renewal: &Renewal<'_, '_>,
    gone: &Tuple,
    list: Tuples,
    held: &mut Given,
) -> Result<Tuples, Refused>
    requires change { IsChange (before renewal.now.change.now)
        (after renewal.now.change.now) renewal.now.change.now.name.now (inserted_tuple renewal.now.change.now) }
    requires delete { IsDelete (before renewal.now.change.now)
        (after renewal.now.change.now) renewal.now.change.now.name.now gone.now }
    requires mark { IsMark (before renewal.now.change.now) renewal.now.mark.now }
    requires adds { mark_adds renewal.now.mark.now renewal.now.change.now.name.now ≡ true }
    requires list { IsViewOf (before renewal.now.change.now) renewal.now.mark.now.name list }
    requires held { AllByRecursion (IsHeld (after renewal.now.change.now)) held.old }
    ensures is { IfOk result (IsViewOf (after renewal.now.change.now) renewal.now.mark.now.name) }
    ensures held { held.new ≡ held.old }
    ensures wide { IsErrOf result Wide
        → (measures (after renewal.now.change.now) renewal.now.mark.now.name).clash ≡ true }
{
    let Some(lost) = losable(alloc, renewal, gone, &list.list)? else {
        return anew::<E>(alloc, renewal, held);
    };
    match shortened::<E>(alloc, renewal, gone, list, held) {
        Ok(tuples) => settled::<E>(alloc, renewal, gone, &lost, tuples, held),
        Err(Refused::Wide) => anew::<E>(alloc, renewal, held),
        Err(Refused::Memory) => Err(Refused::Memory),
    }
}

/// Lines, but for which the lines of the list are lines of the view after the delete. None where they can't be told.
///
/// # Errors
/// Out of memory.
fn losable(
    alloc: Global,
    renewal: &Renewal<'_, '_>,
    gone: &Tuple,
    list: &[Tuple],
) -> Result<Option<Vec<Row>>, NoMemory>
    requires delete { IsDelete (before renewal.now.change.now)
        (after renewal.now.change.now) renewal.now.change.now.name.now gone.now }
    requires mark { IsMark (before renewal.now.change.now) renewal.now.mark.now }
    requires adds { mark_adds renewal.now.mark.now renewal.now.change.now.name.now ≡ true }
    requires list { IsViewOf (before renewal.now.change.now) renewal.now.mark.now.name list.now }
    ensures { IfOk result (λ o. IfSome o (λ v. HasLinesBut (before renewal.now.change.now)
        (after renewal.now.change.now) renewal.now.mark.now.name v.items list.now)) }
{
    if !has_rows(list) {
        return Ok(Some(Vec::new(alloc)));
    }
    lost_lines(alloc, renewal, gone, &gone.atoms)
}

/// The shortened list, where none of its rows has a line that the view loses, or else the list made anew. What is held
/// stays as it is.
///
/// # Errors
/// `Wide` only where the view clashes over the catalogue as it will be, otherwise out of memory. The list is lost then.
fn settled<E: Evaluate>(
    alloc: Global,
    renewal: &Renewal<'_, '_>,
    gone: &Tuple,
    lost: &[Row],
    tuples: Tuples,
    held: &mut Given,
) -> Result<Tuples, Refused>
    requires change { IsChange (before renewal.now.change.now)
        (after renewal.now.change.now) renewal.now.change.now.name.now (inserted_tuple renewal.now.change.now) }
    requires delete { IsDelete (before renewal.now.change.now)
        (after renewal.now.change.now) renewal.now.change.now.name.now gone.now }
    requires mark { IsMark (before renewal.now.change.now) renewal.now.mark.now }
    requires adds { mark_adds renewal.now.mark.now renewal.now.change.now.name.now ≡ true }
    requires but { IsViewBut (after renewal.now.change.now) renewal.now.mark.now.name lost.now tuples }
    requires loses { (more : List Line) → LosesOnly (before renewal.now.change.now)
        (after renewal.now.change.now) renewal.now.mark.now.name more
        → IsViewBut (after renewal.now.change.now) renewal.now.mark.now.name more tuples }
    requires held { AllByRecursion (IsHeld (after renewal.now.change.now)) held.old }
    ensures is { IfOk result (IsViewOf (after renewal.now.change.now) renewal.now.mark.now.name) }
    ensures held { held.new ≡ held.old }
    ensures wide { IsErrOf result Wide
        → (measures (after renewal.now.change.now) renewal.now.mark.now.name).clash ≡ true }
{
    if !have_any(&tuples.list, lost)? || have_none_lost(alloc, renewal, gone, &tuples.list)? {
        return Ok(tuples);
    }
    anew::<E>(alloc, renewal, held)
}

/// Whether the tuples are found to have none of the lines that the view loses: lines of the deleted tuple that others
/// of the relation have too aren't lost.
///
/// # Errors
/// Out of memory.
fn have_none_lost(
    alloc: Global,
    renewal: &Renewal<'_, '_>,
    gone: &Tuple,
    tuples: &[Tuple],
) -> Result<bool, NoMemory>
    requires delete { IsDelete (before renewal.now.change.now)
        (after renewal.now.change.now) renewal.now.change.now.name.now gone.now }
    requires mark { IsMark (before renewal.now.change.now) renewal.now.mark.now }
    requires adds { mark_adds renewal.now.mark.now renewal.now.change.now.name.now ≡ true }
    ensures { IfOk result (λ b. b ≡ true → HaveNoneLost (before renewal.now.change.now)
        (after renewal.now.change.now) renewal.now.mark.now.name tuples.now) }
{
    let atoms = unshared(alloc, renewal.change, gone)?;
    match lost_lines(alloc, renewal, gone, &atoms)? {
        Some(lost) => Ok(!have_any(tuples, &lost)?),
        None => Ok(false),
    }
}

/// Whether some tuple has a row.
fn has_rows(tuples: &[Tuple]) -> bool
    ensures { result ≡ false → IsSubset (tuples_lines tuples.now) [] }
{
    for tuple in tuples {
        if has_row(tuple) {
            return true;
        }
    }
    false
}

/// Whether the tuple has a row.
fn has_row(tuple: &Tuple) -> bool
    ensures { result ≡ false → IsSubset (atoms_lines tuple.now) [] }
{
    for atom in &tuple.atoms {
        match atom {
            BothAtom::First(_) => return true,
            BothAtom::Second(_) => {}
        }
    }
    false
}

/// The list of a view after a tuple is deleted that only took part once: the list before, without what the plan gave
/// for the tuple alone. Its rows have lines of the view or of the list before. What is held is right over the catalogue
/// as it will be, and stays as it is.
///
/// # Errors
/// `Wide` where a plan is too wide, otherwise out of memory. The list is lost then.
fn shortened<E: Evaluate>(
    alloc: Global,
    renewal: &Renewal<'_, '_>,
    gone: &Tuple,
    list: Tuples,
    held: &mut Given,
) -> Result<Tuples, Refused>
    requires delete { IsDelete (before renewal.now.change.now)
        (after renewal.now.change.now) renewal.now.change.now.name.now gone.now }
    requires mark { IsMark (before renewal.now.change.now) renewal.now.mark.now }
    requires adds { mark_adds renewal.now.mark.now renewal.now.change.now.name.now ≡ true }
    requires list { IsViewOf (before renewal.now.change.now) renewal.now.mark.now.name list }
    requires held { AllByRecursion (IsHeld (after renewal.now.change.now)) held.old }
    ensures is { IfOk result (λ ts. (more : List Line)
        → HasLinesBut (before renewal.now.change.now) (after renewal.now.change.now) renewal.now.mark.now.name more list
        → IsViewBut (after renewal.now.change.now) renewal.now.mark.now.name more ts) }
    ensures held { held.new ≡ held.old }
{
    let count = held.count();
    let shortened = shortened_over::<E>(alloc, renewal, gone, list, held);
    held.keep_first(count);
    shortened
}

/// The list of a view after a tuple is deleted that only took part once, as [`shortened`] gives it. Views that the plan
/// scans are given behind what is held, and stay there. Relations are read where they stand.
fn shortened_over<E: Evaluate>(
    alloc: Global,
    renewal: &Renewal<'_, '_>,
    gone: &Tuple,
    list: Tuples,
    held: &mut Given,
) -> Result<Tuples, Refused>
    requires delete { IsDelete (before renewal.now.change.now)
        (after renewal.now.change.now) renewal.now.change.now.name.now gone.now }
    requires mark { IsMark (before renewal.now.change.now) renewal.now.mark.now }
    requires adds { mark_adds renewal.now.mark.now renewal.now.change.now.name.now ≡ true }
    requires list { IsViewOf (before renewal.now.change.now) renewal.now.mark.now.name list }
    requires held { AllByRecursion (IsHeld (after renewal.now.change.now)) held.old }
    ensures is { IfOk result (λ ts. (more : List Line)
        → HasLinesBut (before renewal.now.change.now) (after renewal.now.change.now) renewal.now.mark.now.name more list
        → IsViewBut (after renewal.now.change.now) renewal.now.mark.now.name more ts) }
    ensures front { IsFront held.old held.new }
{
    laws::nothing_beside();
    let change = renewal.change;
    let names = scanned_names(alloc, &renewal.mark.plan)?;
    give_names::<E>(alloc, change.snapshot, &names, held)?;
    // The others don't reach the relation, so nothing of it is given. This says so.
    let _ = held.take(change.name);
    let Some(heading) = change.snapshot.heading(change.name) else {
        unreachable!()
    };
    let others = Over {
        snapshot: change.snapshot,
        given: &*held,
        hidden: Some(change.name),
    };
    let after = Over {
        snapshot: change.snapshot,
        given: &*held,
        hidden: None,
    };
    others.formed();
    let gone = OneTuple {
        name: change.name,
        heading,
        tuple: gone,
    };
    remove_tuple::<E, _, _>(alloc, &renewal.mark.plan, &gone, list, &others, &after)
}
