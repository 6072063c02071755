//! The list of a view to which a tuple only adds.
ghost use Rattle.std.specs.Prelude.{◌≡◌, ◌&&◌, not, true, Some, IfOk, IsErrOf, ℕ, List};
ghost use Rattle.std.specs.Str.{bytes_eq};
ghost use Rattle.std.specs.List.{list_any, AllByRecursion};
ghost use Rattle.ded_model.specs.declared.memory.Refused.TheVariants.{Wide};
ghost use Rattle.ded_model.specs.Measure.{measures};
ghost use Rattle.ded_model.specs.PlanForm.{plan_form};
ghost use Rattle.ded_model.specs.Uses.{plan_uses};
ghost use Rattle.ded_database.specs.Marks.{mark_adds, IsMark};
ghost use Rattle.ded_query.specs.Gathering.{IsFront, IsViewOf};
ghost use Rattle.ded_database.specs.Changes.{before, after, IsInsert};
ghost use Rattle.ded_database.specs.Held.{IsHeld};
ghost use Rattle.ded_database.specs.Upkeep.{IsLonger};

use crate::change::Renewal;
use crate::laws;
use ded_algebra::{Evaluate, Given, Relations};
use ded_atoms::reduced;
use ded_keep::{OneTuple, add_tuple, put_behind};
use ded_model::memory::{NoMemory, Refused};
use ded_model::name::Name;
use ded_model::plan::Plan;
use ded_model::tuple::{Tuple, Tuples};
use ded_plan::scanned_names;
use ded_query::{Over, give_names};
use std::alloc::Global;

/// The list of a view after a tuple is inserted that only adds to it: the list before, and behind it what the plan
/// gives for the tuple alone, but for what the list is found to cover. What is held is right over the catalogue as it
/// will be, and stays as it is.
///
/// # Errors
/// `Wide` only where the view clashes over the catalogue as it will be, otherwise out of memory. The list is lost then.
pub(crate) fn extended<E: Evaluate>(
    alloc: Global,
    renewal: &Renewal<'_, '_>,
    tuple: &Tuple,
    list: Tuples,
    held: &mut Given,
) -> Result<Tuples, Refused>
    requires insert { IsInsert (before renewal.now.change.now)
        (after renewal.now.change.now) renewal.now.change.now.name.now tuple.now }
    requires mark { IsMark (before renewal.now.change.now) renewal.now.mark.now }
    requires adds { mark_adds renewal.now.mark.now renewal.now.change.now.name.now ≡ true }
    requires list { IsViewOf (before renewal.now.change.now) renewal.now.mark.now.name list }
    requires held { AllByRecursion (IsHeld (after renewal.now.change.now)) held.old }
    ensures is { IfOk result (IsViewOf (after renewal.now.change.now) renewal.now.mark.now.name) }
    ensures longer { IfOk result (IsLonger list) }
    ensures held { held.new ≡ held.old }
    ensures wide { IsErrOf result Wide
        → (measures (after renewal.now.change.now) renewal.now.mark.now.name).clash ≡ true }
{
    let count = held.count();
    let extended = extended_over::<E>(alloc, renewal, tuple, list, held);
    held.keep_first(count);
    extended
}

/// The list of a view after a tuple is inserted that only adds to it, as [`extended`] gives it. Other views that the
/// plan scans are given behind what is held, and stay there. Other relations are read where they stand.
fn extended_over<E: Evaluate>(
    alloc: Global,
    renewal: &Renewal<'_, '_>,
    tuple: &Tuple,
    list: Tuples,
    held: &mut Given,
) -> Result<Tuples, Refused>
    requires insert { IsInsert (before renewal.now.change.now)
        (after renewal.now.change.now) renewal.now.change.now.name.now tuple.now }
    requires mark { IsMark (before renewal.now.change.now) renewal.now.mark.now }
    requires adds { mark_adds renewal.now.mark.now renewal.now.change.now.name.now ≡ true }
    requires list { IsViewOf (before renewal.now.change.now) renewal.now.mark.now.name list }
    requires held { AllByRecursion (IsHeld (after renewal.now.change.now)) held.old }
    ensures is { IfOk result (IsViewOf (after renewal.now.change.now) renewal.now.mark.now.name) }
    ensures longer { IfOk result (IsLonger list) }
    ensures front { IsFront held.old held.new }
    ensures wide { IsErrOf result Wide
        → (measures (after renewal.now.change.now) renewal.now.mark.now.name).clash ≡ true }
{
    laws::nothing_beside();
    let change = renewal.change;
    let names = other_names(alloc, &renewal.mark.plan, change.name)?;
    give_names::<E>(alloc, change.snapshot, &names, held)?;
    // The others don't reach the relation, so nothing of it is given. This says so.
    let _ = held.take(change.name);
    let Some(heading) = change.snapshot.heading(change.name) else {
        unreachable!()
    };
    let none = Tuples {
        list: Vec::new(alloc),
    };
    let others = Over {
        snapshot: change.snapshot,
        given: &*held,
        hidden: Some(change.name),
    };
    others.formed();
    let one = OneTuple {
        name: change.name,
        heading,
        tuple,
    };
    let added = add_tuple::<E, _>(alloc, &renewal.mark.plan, &one, none, &others)?;
    let more = reduced(alloc, added)?;
    let mut list = list.list;
    put_behind::<E>(alloc, &mut list, more)?;
    Ok(Tuples { list })
}

/// The names that the plan scans, but for the given one.
///
/// # Errors
/// Out of memory.
fn other_names(alloc: Global, plan: &Plan, name: &Name) -> Result<Vec<Name>, NoMemory>
    ensures { IfOk result (λ v. (n : List ℕ) → list_any (bytes_eq n) v.items
        ≡ (plan_uses n (plan_form plan.now) && not (bytes_eq n name.now))) }
{
    let mut others = Vec::new(alloc);
    for scanned in scanned_names(alloc, plan)? {
        if scanned != *name {
            others.push(scanned)?;
        }
    }
    Ok(others)
}
