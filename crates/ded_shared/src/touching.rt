//! The names that a command touches, and those that it changes where it is accepted.
ghost use Rattle.std.specs.Prelude.{◌≡◌, ◌≤◌, ◌||◌, ◌++◌, ◌∷◌, [], ℕ, List, IfOk, OnOk};
ghost use Rattle.std.specs.Str.{bytes_eq};
ghost use Rattle.ded_model.specs.Command.{command_form};
ghost use Rattle.ded_model.specs.Entries.{known, entry_of};
ghost use Rattle.ded_model.specs.Form.{forms, atom_speaks_of};
ghost use Rattle.ded_model.specs.Known.{level_with};
ghost use Rattle.ded_model.specs.Logic.{some_atom_of};
ghost use Rattle.ded_catalog.specs.State.{catalogue_of};
ghost use Rattle.ded_shared.specs.Touching.{touches, uses_name};
ghost use Rattle.ded_shared.specs.Gathering.{AreBelow, AreNamed, IsClosed, Touches, TouchesAll, changed_by};
ghost use Rattle.ded_shared.specs.State.{is_among};

use crate::names::add_all;
use ded_catalog::Catalogue;
use ded_model::command::Command;
use ded_model::formula::Formula;
use ded_model::limits;
use ded_model::memory::NoMemory;
use ded_model::name::Name;
use std::alloc::Global;

/// The names that the command touches over the catalogue.
///
/// # Errors
/// Out of memory.
pub fn touched(
    alloc: Global,
    catalogue: &Catalogue,
    command: &Command,
) -> Result<Vec<Name>, NoMemory>
    ensures { IfOk result (λ ns. (n : List ℕ) → is_among ns.items n
        ≡ touches (catalogue_of catalogue.now) (command_form command.now) n) }
{
    catalogue.formed();
    let named = named(alloc, catalogue, command)?;
    let mut names = Vec::new(alloc);
    touch_all(catalogue, &named, ABOVE_LEVELS, &mut names)?;
    Ok(names)
}

/// One more than the greatest level.
const ABOVE_LEVELS: u32 = limits::LEVELS + 1;

/// The names that the command has, in its formula and beside it. A closure or an interior counts by the name that it is
/// made of.
///
/// # Errors
/// Out of memory.
fn named(alloc: Global, catalogue: &Catalogue, command: &Command) -> Result<Vec<Name>, NoMemory>
    ensures { IfOk result (λ ns. AreNamed (command_form command.now) ns.items) }
{
    match command {
        Command::Header | Command::Dump => Ok(Vec::new(alloc)),
        Command::Insert(name, formulas) => with_spoken(one(alloc, name)?, catalogue, formulas),
        Command::Relation(name, _)
        | Command::Delete(name, _)
        | Command::Drop(name)
        | Command::Keep(name)
        | Command::Show(name)
        | Command::BoxOf(name) => one(alloc, name),
        Command::View(name, _, formula) => with_name(catalogue.spoken_names(formula)?, name),
        Command::Ask(formula) | Command::Query(_, formula) | Command::Explain(_, formula) => {
            catalogue.spoken_names(formula)
        }
        Command::Disjoint(first, second) | Command::Verify(first, second, _) => {
            with_name(one(alloc, first)?, second)
        }
    }
}

/// The names, and behind them those that the formulas speak of.
///
/// # Errors
/// Out of memory.
fn with_spoken(
    mut names: Vec<Name>,
    catalogue: &Catalogue,
    formulas: &[Formula],
) -> Result<Vec<Name>, NoMemory>
    ensures { IfOk result (λ ns. (n : List ℕ) → is_among ns.items n
        ≡ (is_among names.items n || some_atom_of (atom_speaks_of n) (forms formulas.now))) }
{
    for formula in formulas {
        let spoken = catalogue.spoken_names(formula)?;
        add_all(&mut names, &spoken)?;
    }
    Ok(names)
}

/// The name alone.
///
/// # Errors
/// Out of memory.
fn one(alloc: Global, name: &Name) -> Result<Vec<Name>, NoMemory>
    ensures { IfOk result (λ ns. ns.items ≡ name.now ∷ []) }
{
    with_name(Vec::new(alloc), name)
}

/// The names, and behind them one more.
///
/// # Errors
/// Out of memory.
fn with_name(mut names: Vec<Name>, name: &Name) -> Result<Vec<Name>, NoMemory>
    ensures { IfOk result (λ ns. ns.items ≡ names.items ++ name.now ∷ []) }
{
    names.push(name.copy()?)?;
    Ok(names)
}

/// Adds the names that these touch, of which each has a level below this one.
///
/// # Errors
/// Out of memory. Some may be added then.
#[cycle(touch)]
fn touch_all(
    catalogue: &Catalogue,
    these: &[Name],
    level: u32,
    names: &mut Vec<Name>,
) -> Result<(), NoMemory>
    requires below { AreBelow (catalogue_of catalogue.now) these.now level }
    requires closed { IsClosed (catalogue_of catalogue.now) names.old.items }
    ensures { OnOk result (TouchesAll (catalogue_of catalogue.now) these.now names.old.items names.new.items) }
{
    for name in these {
        touch(catalogue, name, level - 1, names)?;
    }
    Ok(())
}

/// Adds the names that this one touches, which has at most the level.
///
/// # Errors
/// Out of memory. Some may be added then.
#[cycle(touch)]
fn touch(
    catalogue: &Catalogue,
    name: &Name,
    level: u32,
    names: &mut Vec<Name>,
) -> Result<(), NoMemory>
    requires level { level_with (known (catalogue_of catalogue.now) name.now) ≤ level }
    requires closed { IsClosed (catalogue_of catalogue.now) names.old.items }
    ensures { OnOk result (Touches (catalogue_of catalogue.now) name.now names.old.items names.new.items) }
{
    catalogue.formed();
    if names.contains(name) {
        return Ok(());
    }
    if let Some(mentions) = catalogue.mentions(name) {
        touch_all(catalogue, mentions, level, names)?;
    }
    names.push(name.copy()?)?;
    Ok(())
}

/// The names that the command changes over the catalogue where it is accepted.
///
/// # Errors
/// Out of memory.
pub fn changed(
    alloc: Global,
    catalogue: &Catalogue,
    command: &Command,
) -> Result<Vec<Name>, NoMemory>
    ensures { IfOk result (λ ns. (n : List ℕ) → is_among ns.items n
        ≡ changed_by (catalogue_of catalogue.now) (command_form command.now) n) }
{
    match command {
        Command::Relation(name, _) | Command::Insert(name, _) | Command::Delete(name, _) => {
            one(alloc, name)
        }
        Command::Drop(name) => with_mentions(alloc, catalogue, name),
        Command::View(name, _, formula) => with_name(catalogue.spoken_names(formula)?, name),
        Command::Header
        | Command::Keep(_)
        | Command::Ask(_)
        | Command::Query(_, _)
        | Command::Show(_)
        | Command::BoxOf(_)
        | Command::Explain(_, _)
        | Command::Dump
        | Command::Disjoint(_, _)
        | Command::Verify(_, _, _) => Ok(Vec::new(alloc)),
    }
}

/// The name, and where it is a view, those that its formula speaks of.
///
/// # Errors
/// Out of memory.
fn with_mentions(alloc: Global, catalogue: &Catalogue, name: &Name) -> Result<Vec<Name>, NoMemory>
    ensures { IfOk result (λ ns. (n : List ℕ) → is_among ns.items n
        ≡ (bytes_eq name.now n || uses_name (entry_of (catalogue_of catalogue.now).entries name.now) n)) }
{
    let mut names = one(alloc, name)?;
    if let Some(mentions) = catalogue.mentions(name) {
        add_all(&mut names, mentions)?;
    }
    Ok(names)
}
