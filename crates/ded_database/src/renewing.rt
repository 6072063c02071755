//! The lists of the views that a change concerns, made anew.
ghost use Rattle.std.specs.Prelude.{◌≡◌, true, false, is_some, None, IfOk, OnOk, OnErr, IfSome, IsErrOf, List, ℕ};
ghost use Rattle.std.specs.List.{AllByRecursion};
ghost use Rattle.ded_model.specs.declared.memory.Refused.TheVariants.{Wide};
ghost use Rattle.ded_model.specs.Measure.{measures};
ghost use Rattle.ded_algebra.specs.Given.{has_name, without_name};
ghost use Rattle.ded_database.specs.Marks.{mark_adds, IsMark};
ghost use Rattle.ded_query.specs.Gathering.{IsFront, IsViewOf};
ghost use Rattle.ded_views.specs.Reaching.{reaches};
ghost use Rattle.ded_database.specs.Changes.{before, after, inserted_tuple, deleted_tuple, IsChange, IsToldDelete};
ghost use Rattle.ded_database.specs.Held.{IsHeld, held_under, is_marked, AreMarkedApart};
ghost use Rattle.ded_database.specs.Renewed.{IsRenewed, AreRenewed};
ghost use Rattle.ded_database.specs.Upkeep.{IsLonger};

use crate::change::{Change, Renewal, TupleStep};
use crate::extending::extended;
use crate::laws;
use crate::mark::Mark;
use crate::shortening::list_without;
use ded_algebra::{Evaluate, Given, GivenRelation};
use ded_model::memory::{NoMemory, Refused};
use ded_model::tuple::Tuples;
use ded_query::{held_view, planned_view};
use std::alloc::{AllocError, Global};

/// Makes the lists of those of the marked views that reach the relation, and holds them behind what is held. Where a
/// list is too wide, none is held of its view. `added` counts the lists that were extended by the tuple alone, up to
/// its greatest number.
///
/// # Errors
/// Out of memory. Some lists may be made then.
pub(crate) fn renew_all<E: Evaluate>(
    alloc: Global,
    change: &Change<'_, '_>,
    marks: &[Mark],
    stale: &mut Given,
    held: &mut Given,
    added: &mut u64,
) -> Result<(), NoMemory>
    requires change { IsChange (before change.now) (after change.now) change.now.name.now (inserted_tuple change.now) }
    requires told { IsToldDelete (before change.now) (after change.now) change.now.name.now (deleted_tuple change.now) }
    requires marks { AllByRecursion (IsMark (before change.now)) marks.now }
    requires apart { AreMarkedApart marks.now }
    requires held { AllByRecursion (IsHeld (after change.now)) held.old }
    requires stale { AllByRecursion (IsHeld (before change.now)) stale.old }
    requires gone { (v : List ℕ) → is_marked marks.now v ≡ true
        → reaches (before change.now) v change.now.name.now ≡ true → held_under held.old v ≡ None }
    ensures ok { OnOk result (AreRenewed (before change.now) (after change.now) change.now.name.now marks.now
        (inserted_tuple change.now) stale.old stale.new held.old held.new) }
    ensures front { IsFront held.old held.new }
{
    laws::marks_reach();
    for mark in marks {
        if mark.reaches(change.name) {
            renew::<E>(alloc, change, mark, stale, held, added)?;
        }
    }
    Ok(())
}

/// Makes the list of one view, which reaches the relation, and holds it behind what is held, unless it is too wide.
///
/// # Errors
/// Out of memory; what is held is as before then.
fn renew<E: Evaluate>(
    alloc: Global,
    change: &Change<'_, '_>,
    mark: &Mark,
    stale: &mut Given,
    held: &mut Given,
    added: &mut u64,
) -> Result<(), NoMemory>
    requires change { IsChange (before change.now) (after change.now) change.now.name.now (inserted_tuple change.now) }
    requires told { IsToldDelete (before change.now) (after change.now) change.now.name.now (deleted_tuple change.now) }
    requires mark { IsMark (before change.now) mark.now }
    requires held { AllByRecursion (IsHeld (after change.now)) held.old }
    requires stale { AllByRecursion (IsHeld (before change.now)) stale.old }
    requires new { has_name mark.now.name held.old ≡ false }
    ensures stale { stale.new ≡ without_name mark.now.name stale.old }
    ensures ok { OnOk result (IsRenewed (before change.now) (after change.now) change.now.name.now mark.now.name
        (inserted_tuple change.now) (held_under stale.old mark.now.name) held.old held.new) }
    ensures err { OnErr result (held.new ≡ held.old) }
{
    laws::conjunctive_views();
    let list = stale.take(&mark.name);
    let renewal = Renewal { change, mark };
    match new_list::<E>(alloc, &renewal, list, held, added) {
        Ok(tuples) => held.add(held_view(change.snapshot, &mark.name, tuples)?),
        Err(Refused::Wide) => Ok(()),
        Err(Refused::Memory) => Err(AllocError),
    }
}

/// The list of one view after the change: where there is a list before, and the tuple that comes or goes takes part
/// once, that list, extended or without what the tuple gave, and else what its plan is evaluated to. What is held stays
/// as it is.
///
/// # Errors
/// `Wide` only where the view clashes over the catalogue as it will be, otherwise out of memory.
fn new_list<E: Evaluate>(
    alloc: Global,
    renewal: &Renewal<'_, '_>,
    list: Option<GivenRelation>,
    held: &mut Given,
    added: &mut u64,
) -> Result<Tuples, Refused>
    requires change { IsChange (before renewal.now.change.now)
        (after renewal.now.change.now) renewal.now.change.now.name.now (inserted_tuple renewal.now.change.now) }
    requires told { IsToldDelete (before renewal.now.change.now)
        (after renewal.now.change.now) renewal.now.change.now.name.now (deleted_tuple renewal.now.change.now) }
    requires mark { IsMark (before renewal.now.change.now) renewal.now.mark.now }
    requires list { IfSome list (λ r. IsViewOf (before renewal.now.change.now) renewal.now.mark.now.name r.tuples) }
    requires held { AllByRecursion (IsHeld (after renewal.now.change.now)) held.old }
    ensures is { IfOk result (IsViewOf (after renewal.now.change.now) renewal.now.mark.now.name) }
    ensures longer { is_some (inserted_tuple renewal.now.change.now) ≡ true
        → mark_adds renewal.now.mark.now renewal.now.change.now.name.now ≡ true
        → IfOk result (λ ts. IfSome list (λ r. IsLonger r.tuples ts)) }
    ensures held { held.new ≡ held.old }
    ensures wide { IsErrOf result Wide
        → (measures (after renewal.now.change.now) renewal.now.mark.now.name).clash ≡ true }
{
    match list {
        Some(list) if renewal.mark.adds(renewal.change.name) => {
            followed::<E>(alloc, renewal, list.tuples, held, added)
        }
        _ => anew::<E>(alloc, renewal, held),
    }
}

/// The list of one view in which the tuple that comes or goes takes part once, after the change: extended, or without
/// what the tuple gave. Where a tuple goes that isn't told, it is what the plan is evaluated to. What is held stays as
/// it is.
///
/// # Errors
/// `Wide` only where the view clashes over the catalogue as it will be, otherwise out of memory. The list is lost then.
fn followed<E: Evaluate>(
    alloc: Global,
    renewal: &Renewal<'_, '_>,
    list: Tuples,
    held: &mut Given,
    added: &mut u64,
) -> Result<Tuples, Refused>
    requires change { IsChange (before renewal.now.change.now)
        (after renewal.now.change.now) renewal.now.change.now.name.now (inserted_tuple renewal.now.change.now) }
    requires told { IsToldDelete (before renewal.now.change.now)
        (after renewal.now.change.now) renewal.now.change.now.name.now (deleted_tuple renewal.now.change.now) }
    requires mark { IsMark (before renewal.now.change.now) renewal.now.mark.now }
    requires adds { mark_adds renewal.now.mark.now renewal.now.change.now.name.now ≡ true }
    requires list { IsViewOf (before renewal.now.change.now) renewal.now.mark.now.name list }
    requires held { AllByRecursion (IsHeld (after renewal.now.change.now)) held.old }
    ensures is { IfOk result (IsViewOf (after renewal.now.change.now) renewal.now.mark.now.name) }
    ensures longer { is_some (inserted_tuple renewal.now.change.now) ≡ true → IfOk result (IsLonger list) }
    ensures held { held.new ≡ held.old }
    ensures wide { IsErrOf result Wide
        → (measures (after renewal.now.change.now) renewal.now.mark.now.name).clash ≡ true }
{
    match renewal.change.step {
        TupleStep::Inserted(tuple) => {
            let tuples = extended::<E>(alloc, renewal, tuple, list, held)?;
            *added = added.saturating_add(1);
            Ok(tuples)
        }
        TupleStep::Deleted(told) => match told {
            Some(gone) => {
                let gone = gone.unpack(alloc)?;
                list_without::<E>(alloc, renewal, &gone, list, held)
            }
            None => anew::<E>(alloc, renewal, held),
        },
    }
}

/// What the plan of one view is evaluated to after the change. What is held stays as it is.
///
/// # Errors
/// `Wide` only where the view clashes over the catalogue as it will be, otherwise out of memory.
pub(crate) fn anew<E: Evaluate>(
    alloc: Global,
    renewal: &Renewal<'_, '_>,
    held: &mut Given,
) -> Result<Tuples, Refused>
    requires change { IsChange (before renewal.now.change.now)
        (after renewal.now.change.now) renewal.now.change.now.name.now (inserted_tuple renewal.now.change.now) }
    requires mark { IsMark (before renewal.now.change.now) renewal.now.mark.now }
    requires held { AllByRecursion (IsHeld (after renewal.now.change.now)) held.old }
    ensures is { IfOk result (IsViewOf (after renewal.now.change.now) renewal.now.mark.now.name) }
    ensures held { held.new ≡ held.old }
    ensures wide { IsErrOf result Wide
        → (measures (after renewal.now.change.now) renewal.now.mark.now.name).clash ≡ true }
{
    planned_view::<E>(
        alloc,
        renewal.change.snapshot,
        &renewal.mark.name,
        &renewal.mark.plan,
        held,
    )
}
