//! Marks and lists of views, made and dropped.
ghost use Rattle.std.specs.Prelude.{◌≡◌, ◌≤◌, ◌⊎◌, true, length, OnOk, OnErr, List, ℕ};
ghost use Rattle.std.specs.List.{AllByRecursion};
ghost use Rattle.ded_model.specs.Entries.{known};
ghost use Rattle.ded_catalog.specs.State.{catalogue_of};
ghost use Rattle.ded_algebra.specs.Given.{has_name, without_name};
ghost use Rattle.ded_database.specs.Marks.{IsMark};
ghost use Rattle.ded_query.specs.Gathering.{IsFront};
ghost use Rattle.ded_sorts.specs.Causes.{is_view_with};
ghost use Rattle.ded_database.specs.Held.{is_marked, AreMarkedApart, IsHeld, IsUpheld};
ghost use Rattle.ded_database.specs.Keeping.{IsMarkedWith, IsListedWith, without_mark};

use crate::mark::{Mark, mark_of};
use ded_algebra::{Evaluate, Given};
use ded_catalog::{Catalogue, Snapshot};
use ded_model::memory::{NoMemory, Refused};
use ded_model::name::Name;
use ded_query::{held_view, view_tuples};
use std::alloc::{AllocError, Global};

/// Marks a view, and makes its list where none is held. Where numbers get too long for it, none is held.
///
/// # Errors
/// Out of memory; nothing is changed then.
pub(crate) fn keep_view<E: Evaluate>(
    alloc: Global,
    catalogue: &Catalogue,
    marks: &mut Vec<Mark>,
    held: &mut Given,
    name: &Name,
) -> Result<(), NoMemory>
    requires view { is_view_with (known (catalogue_of catalogue.now) name.now) ≡ true }
    requires upheld { IsUpheld (catalogue_of catalogue.now) marks.old.items held.old }
    ensures upheld { IsUpheld (catalogue_of catalogue.now) marks.new.items held.new }
    ensures marked { OnOk result (IsMarkedWith name.now marks.old.items marks.new.items) }
    ensures listed { OnOk result (IsListedWith (catalogue_of catalogue.now) name.now held.old held.new) }
    ensures unmarked { OnErr result (marks.new.items ≡ marks.old.items) }
    ensures unlisted { OnErr result (held.new ≡ held.old) }
{
    let count = held.count();
    hold::<E>(alloc, catalogue, held, name)?;
    match mark(alloc, catalogue, marks, name) {
        Ok(()) => Ok(()),
        Err(error) => {
            held.keep_first(count);
            Err(error)
        }
    }
}

/// Makes the list of a view, unless one is held or numbers get too long for it.
///
/// # Errors
/// Out of memory; nothing is changed then.
fn hold<E: Evaluate>(
    alloc: Global,
    catalogue: &Catalogue,
    held: &mut Given,
    name: &Name,
) -> Result<(), NoMemory>
    requires view { is_view_with (known (catalogue_of catalogue.now) name.now) ≡ true }
    requires held { AllByRecursion (IsHeld (catalogue_of catalogue.now)) held.old }
    ensures right { AllByRecursion (IsHeld (catalogue_of catalogue.now)) held.new }
    ensures front { IsFront held.old held.new }
    ensures names { (n : List ℕ) → has_name n held.new ≡ true → (has_name n held.old ≡ true) ⊎ (n ≡ name.now) }
    ensures listed { OnOk result (IsListedWith (catalogue_of catalogue.now) name.now held.old held.new) }
    ensures err { OnErr result (held.new ≡ held.old) }
{
    if held.has(name) {
        return Ok(());
    }
    catalogue.formed();
    let snapshot = Snapshot::present(catalogue);
    match view_tuples::<E>(alloc, &snapshot, name, held) {
        Ok(tuples) => held.add(held_view(&snapshot, name, tuples)?),
        Err(Refused::Wide) => Ok(()),
        Err(Refused::Memory) => Err(AllocError),
    }
}

/// Marks a view, unless it is marked, in front of the marks that reach it. So a list is made before those that may read
/// it.
///
/// # Errors
/// Out of memory; nothing is changed then.
fn mark(
    alloc: Global,
    catalogue: &Catalogue,
    marks: &mut Vec<Mark>,
    name: &Name,
) -> Result<(), NoMemory>
    requires view { is_view_with (known (catalogue_of catalogue.now) name.now) ≡ true }
    requires marks { AllByRecursion (IsMark (catalogue_of catalogue.now)) marks.old.items }
    requires apart { AreMarkedApart marks.old.items }
    ensures marks { AllByRecursion (IsMark (catalogue_of catalogue.now)) marks.new.items }
    ensures apart { AreMarkedApart marks.new.items }
    ensures marked { OnOk result (IsMarkedWith name.now marks.old.items marks.new.items) }
    ensures err { OnErr result (marks.new.items ≡ marks.old.items) }
{
    if has_mark(marks, name) {
        return Ok(());
    }
    catalogue.formed();
    let mark = mark_of(alloc, catalogue, name)?;
    let place = first_above(marks, name);
    marks.insert(place, mark)?;
    Ok(())
}

/// Whether a mark has the name.
fn has_mark(marks: &[Mark], name: &Name) -> bool
    ensures { result ≡ is_marked marks.now name.now }
{
    marks.iter().any(|mark| name.is_same(&mark.name))
}

/// The place of the first mark that reaches the name, and behind all marks where none does.
fn first_above(marks: &[Mark], name: &Name) -> usize
    ensures { result ≤ length marks.now }
{
    for (place, mark) in marks.iter().enumerate() {
        if mark.reaches(name) {
            return place;
        }
    }
    marks.len()
}

/// Drops the mark of the name and its list, if there are any.
pub(crate) fn drop_kept(marks: &mut Vec<Mark>, held: &mut Given, name: &Name)
    ensures marks { marks.new.items ≡ without_mark name.now marks.old.items }
    ensures held { held.new ≡ without_name name.now held.old }
{
    marks.retain(|mark| mark.name != *name);
    let _ = held.take(name);
}
