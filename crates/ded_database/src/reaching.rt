//! What the names in a goal reach.
ghost use Rattle.std.specs.Prelude.{◌≡◌, ◌≤◌, true, is_some, IfOk, OnOk, List, ℕ};
ghost use Rattle.std.specs.Str.{bytes_eq};
ghost use Rattle.std.specs.List.{list_any, AllByRecursion};
ghost use Rattle.ded_model.specs.Catalogue.{Catalogue};
ghost use Rattle.ded_model.specs.Entries.{known};
ghost use Rattle.ded_model.specs.Goal.{goal_form};
ghost use Rattle.ded_model.specs.Known.{level_with};
ghost use Rattle.ded_model.specs.Made.{base};
ghost use Rattle.ded_model.specs.Uses.{goal_uses};
ghost use Rattle.ded_catalog.specs.State.{catalogue_of};
ghost use Rattle.ded_views.specs.Reaching.{reaches};
ghost use Rattle.ded_database.specs.Closed.{has, IsClosed, IsReachedAfter, AreReachedAfter, AreUsedBelow};

use crate::mark::NameReach;
use ded_catalog::Catalogue;
use ded_model::goal::Goal;
use ded_model::limits;
use ded_model::memory::NoMemory;
use ded_model::name::Name;
use ded_plan::used_names;
use std::alloc::Global;

/// The names that a goal uses, each with all names that what it is made of reaches. All of these are defined.
///
/// # Errors
/// Out of memory.
pub(crate) fn uses_of(
    alloc: Global,
    catalogue: &Catalogue,
    goal: &Goal,
) -> Result<Vec<NameReach>, NoMemory>
    requires below { AreUsedBelow (catalogue_of catalogue.now) (goal_form goal.now) 17 }
    ensures used { IfOk result (λ v. (n : List ℕ)
        → goal_uses n (goal_form goal.now) ≡ list_any (λ u. bytes_eq n u.name) v.items) }
    ensures reached { IfOk result (λ v. AllByRecursion (λ u. (n : List ℕ)
        → has u.reached.items n ≡ reaches (catalogue_of catalogue.now) (base u.name) n) v.items) }
{
    let mut uses = Vec::new(alloc);
    for name in used_names(alloc, goal)? {
        let mut reached = Vec::new(alloc);
        add_reached(alloc, catalogue, &name, limits::LEVELS, &mut reached)?;
        uses.push(NameReach { name, reached })?;
    }
    Ok(uses)
}

/// Adds all names that what the name is made of reaches, which is defined and has at most the level.
///
/// # Errors
/// Out of memory. Some may be added then.
#[cycle(reached)]
fn add_reached(
    alloc: Global,
    catalogue: &Catalogue,
    name: &Name,
    level: u32,
    reached: &mut Vec<Name>,
) -> Result<(), NoMemory>
    requires defined { is_some (known (catalogue_of catalogue.now) (base name.now)) ≡ true }
    requires level { level_with (known (catalogue_of catalogue.now) (base name.now)) ≤ level }
    requires closed { IsClosed (catalogue_of catalogue.now) reached.old.items }
    ensures { OnOk result (IsReachedAfter (catalogue_of catalogue.now)
        (base name.now) reached.old.items reached.new.items) }
{
    catalogue.formed();
    let base = name.base_name()?;
    if reached.contains(&base) {
        return Ok(());
    }
    if let Some(goal) = catalogue.goal(&base) {
        add_used(alloc, catalogue, goal, level, reached)?;
    }
    reached.push(base)?;
    Ok(())
}

/// Adds all names that those of the goal reach. They are defined and have lesser levels.
///
/// # Errors
/// Out of memory. Some may be added then.
#[cycle(reached)]
fn add_used(
    alloc: Global,
    catalogue: &Catalogue,
    goal: &Goal,
    level: u32,
    reached: &mut Vec<Name>,
) -> Result<(), NoMemory>
    requires below { AreUsedBelow (catalogue_of catalogue.now) (goal_form goal.now) level }
    requires closed { IsClosed (catalogue_of catalogue.now) reached.old.items }
    ensures { OnOk result (AreReachedAfter (catalogue_of catalogue.now)
        (goal_form goal.now) reached.old.items reached.new.items) }
{
    let names = used_names(alloc, goal)?;
    for name in &names {
        add_reached(alloc, catalogue, name, level - 1, reached)?;
    }
    Ok(())
}
