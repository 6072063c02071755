//! Views given as a whole, by what their goals are evaluated to, and closures and interiors of them. Each view is tried
//! once a question: one that was too wide is remembered.
ghost use Rattle.std.specs.Prelude.{◌≡◌, ◌≤◌, true, false, is_some, is_none, None, IsErrOf, OnOk};
ghost use Rattle.std.specs.List.{AllByRecursion, list_any};
ghost use Rattle.std.specs.Str.{bytes_eq};
ghost use Rattle.ded_model.specs.declared.memory.Refused.TheVariants.{Wide};
ghost use Rattle.ded_model.specs.Entries.{known, entry_of, view_in};
ghost use Rattle.ded_model.specs.Goal.{goal_form};
ghost use Rattle.ded_model.specs.Known.{level_with};
ghost use Rattle.ded_model.specs.Made.{base};
ghost use Rattle.ded_model.specs.Measure.{measures};
ghost use Rattle.ded_catalog.specs.Snapshots.{snapshot_of};
ghost use Rattle.ded_algebra.specs.Given.{has_name};
ghost use Rattle.ded_query.specs.Gathering.{IsGivenOf, IsFront, IsViewGoal};
ghost use Rattle.ded_query.specs.Over.{over_relations};
ghost use Rattle.ded_query.specs.Tried.{TriesMore, IsBelowTried, IsGatheredBy};

use crate::gathering::evaluated;
use crate::made::made;
use crate::near::add;
use crate::strata::Strata;
use crate::tried::Tried;
use crate::views::held_view;
use ded_algebra::{Evaluate, Given};
use ded_atoms::reduced;
use ded_model::goal::Goal;
use ded_model::memory::Refused;
use ded_model::name::Name;

/// Gives those of the names that are views. All are made of defined ones that have at most the level.
///
/// # Errors
/// `Wide` only where one of the names clashes, otherwise out of memory. More may be given then.
#[cycle(evaluated)]
pub(crate) fn give_all<E: Evaluate>(
    strata: &Strata<'_, '_>,
    names: &[Name],
    given: &mut Given,
    tried: &mut Tried,
) -> Result<(), Refused>
    requires defined { AllByRecursion (λ n.
        is_some (known (snapshot_of strata.now.snapshot.now) (base n)) ≡ true) names.now }
    requires levels { AllByRecursion (λ n.
        level_with (known (snapshot_of strata.now.snapshot.now) (base n)) ≤ strata.now.level) names.now }
    requires given { AllByRecursion (IsGivenOf (snapshot_of strata.now.snapshot.now)) given.old }
    requires below { IsBelowTried (snapshot_of strata.now.snapshot.now) given.old tried.old
        (λ m. AllByRecursion (λ n.
        level_with (known (snapshot_of strata.now.snapshot.now) (base n)) ≤ m) names.now) }
    ensures gathered { OnOk result
        (IsGatheredBy (snapshot_of strata.now.snapshot.now) given.old tried.old given.new tried.new) }
    ensures all { OnOk result (AllByRecursion (λ n.
        has_name n (over_relations (snapshot_of strata.now.snapshot.now) None given.new) ≡ true) names.now) }
    ensures left { IsErrOf result Wide
        → IsGatheredBy (snapshot_of strata.now.snapshot.now) given.old tried.old given.new tried.new }
    ensures front { IsFront given.old given.new }
    ensures tried { TriesMore given.old tried.old tried.new }
    ensures wide { IsErrOf result Wide
        → list_any (λ n. (measures (snapshot_of strata.now.snapshot.now) n).clash) names.now ≡ true }
{
    for name in names {
        give::<E>(strata, name, given, tried)?;
    }
    Ok(())
}

/// Gives the name, which is made of a defined one that has at most the level, unless it is a relation or is given
/// already. A view that was tried and isn't given was too wide.
///
/// # Errors
/// `Wide` only where the name clashes, otherwise out of memory. More may be given then.
#[cycle(evaluated)]
pub(crate) fn give<E: Evaluate>(
    strata: &Strata<'_, '_>,
    name: &Name,
    given: &mut Given,
    tried: &mut Tried,
) -> Result<(), Refused>
    requires defined { is_some (known (snapshot_of strata.now.snapshot.now) (base name.now)) ≡ true }
    requires level { level_with (known (snapshot_of strata.now.snapshot.now) (base name.now)) ≤ strata.now.level }
    requires given { AllByRecursion (IsGivenOf (snapshot_of strata.now.snapshot.now)) given.old }
    requires below { IsBelowTried (snapshot_of strata.now.snapshot.now) given.old tried.old
        (λ m. level_with (known (snapshot_of strata.now.snapshot.now) (base name.now)) ≤ m) }
    ensures gathered { OnOk result
        (IsGatheredBy (snapshot_of strata.now.snapshot.now) given.old tried.old given.new tried.new) }
    ensures is { OnOk result
        (has_name name.now (over_relations (snapshot_of strata.now.snapshot.now) None given.new) ≡ true) }
    ensures left { IsErrOf result Wide
        → IsGatheredBy (snapshot_of strata.now.snapshot.now) given.old tried.old given.new tried.new }
    ensures front { IsFront given.old given.new }
    ensures tried { TriesMore given.old tried.old tried.new }
    ensures wide { IsErrOf result Wide
        → (measures (snapshot_of strata.now.snapshot.now) name.now).clash ≡ true }
{
    strata.snapshot.formed();
    if given.has(name) {
        return Ok(());
    }
    if strata.snapshot.is_relation(name) {
        return Ok(());
    }
    let Some(goal) = strata.snapshot.goal(name) else {
        return give_other::<E>(strata, name, given, tried);
    };
    if tried.has(name) {
        return Err(Refused::Wide);
    }
    give_view::<E>(strata, name, goal, given, tried)
}

/// Gives the closure or the interior of what has at most the level, by the tuples of that, which are given first where
/// it is a view. A relation is read where it stands, so nothing is given of it.
///
/// # Errors
/// `Wide` only where the name clashes, otherwise out of memory. More may be given then.
#[cycle(evaluated)]
fn give_other<E: Evaluate>(
    strata: &Strata<'_, '_>,
    name: &Name,
    given: &mut Given,
    tried: &mut Tried,
) -> Result<(), Refused>
    requires view { is_none
        (view_in (entry_of (snapshot_of strata.now.snapshot.now).entries name.now)) ≡ true }
    requires defined { is_some (known (snapshot_of strata.now.snapshot.now) (base name.now)) ≡ true }
    requires level { level_with (known (snapshot_of strata.now.snapshot.now) (base name.now)) ≤ strata.now.level }
    requires given { AllByRecursion (IsGivenOf (snapshot_of strata.now.snapshot.now)) given.old }
    requires below { IsBelowTried (snapshot_of strata.now.snapshot.now) given.old tried.old
        (λ m. level_with (known (snapshot_of strata.now.snapshot.now) (base name.now)) ≤ m) }
    ensures gathered { OnOk result
        (IsGatheredBy (snapshot_of strata.now.snapshot.now) given.old tried.old given.new tried.new) }
    ensures is { OnOk result
        (has_name name.now (over_relations (snapshot_of strata.now.snapshot.now) None given.new) ≡ true) }
    ensures left { IsErrOf result Wide
        → IsGatheredBy (snapshot_of strata.now.snapshot.now) given.old tried.old given.new tried.new }
    ensures front { IsFront given.old given.new }
    ensures tried { TriesMore given.old tried.old tried.new }
    ensures wide { IsErrOf result Wide
        → (measures (snapshot_of strata.now.snapshot.now) name.now).clash ≡ true }
{
    strata.snapshot.formed();
    if strata.snapshot.heading(name).is_some() {
        return Ok(());
    }
    let inner = name.base_name()?;
    give::<E>(strata, &inner, given, tried)?;
    let near = made(strata.alloc, strata.snapshot, name, &inner, given)?;
    Ok(add(strata.snapshot, given, near)?)
}

/// Gives a view, which has at most the level, by its goal. It wasn't tried in this question, and nothing is given under
/// its name.
///
/// # Errors
/// `Wide` only where the view clashes, otherwise out of memory. More may be given then.
#[cycle(evaluated)]
fn give_view<E: Evaluate>(
    strata: &Strata<'_, '_>,
    name: &Name,
    goal: &Goal,
    given: &mut Given,
    tried: &mut Tried,
) -> Result<(), Refused>
    requires view { IsViewGoal (snapshot_of strata.now.snapshot.now) name.now (goal_form goal.now) }
    requires level { level_with (known (snapshot_of strata.now.snapshot.now) name.now) ≤ strata.now.level }
    requires given { AllByRecursion (IsGivenOf (snapshot_of strata.now.snapshot.now)) given.old }
    requires below { IsBelowTried (snapshot_of strata.now.snapshot.now) given.old tried.old
        (λ m. level_with (known (snapshot_of strata.now.snapshot.now) (base name.now)) ≤ m) }
    requires absent { has_name name.now given.old ≡ false }
    requires fresh { list_any (bytes_eq name.now) tried.old ≡ false }
    ensures gathered { OnOk result
        (IsGatheredBy (snapshot_of strata.now.snapshot.now) given.old tried.old given.new tried.new) }
    ensures is { OnOk result (has_name name.now given.new ≡ true) }
    ensures begun { OnOk result (list_any (bytes_eq name.now) tried.new ≡ true) }
    ensures left { IsErrOf result Wide
        → IsGatheredBy (snapshot_of strata.now.snapshot.now) given.old tried.old given.new tried.new }
    ensures noted { IsErrOf result Wide → list_any (bytes_eq name.now) tried.new ≡ true }
    ensures front { IsFront given.old given.new }
    ensures tried { TriesMore given.old tried.old tried.new }
    ensures wide { IsErrOf result Wide
        → (measures (snapshot_of strata.now.snapshot.now) name.now).clash ≡ true }
{
    strata.snapshot.formed();
    tried.begin(name)?;
    let below = Strata {
        alloc: strata.alloc,
        snapshot: strata.snapshot,
        level: strata.level - 1,
    };
    let tuples = evaluated::<E>(&below, goal, given, tried)?;
    let view = held_view(strata.snapshot, name, reduced(strata.alloc, tuples)?)?;
    Ok(add(strata.snapshot, given, view)?)
}
