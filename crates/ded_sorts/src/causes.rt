//! The causes of refusals, each over a command and the names that it may use; `columns` has those that columns decide.
ghost use Rattle.std.specs.Prelude.{◌≡◌, IfOk, is_some, is_none};
ghost use Rattle.ded_model.specs.Command.{command_form};
ghost use Rattle.ded_model.specs.Form.{form};
ghost use Rattle.ded_model.specs.Catalogue.{Catalogue};
ghost use Rattle.ded_model.specs.Entries.{known};
ghost use Rattle.ded_model.specs.Known.{uses_unknown};
ghost use Rattle.ded_sorts.specs.Causes as cause;
ghost use Rattle.ded_sorts.specs.Checks.{known_form};
ghost use Rattle.ded_sorts.specs.Facts.{AreFacts};

use crate::atoms::some_atom;
use crate::facts::Facts;
use crate::names::{Known, Names};
use crate::scope::SortScope;
use crate::shape::{has_twice, is_many};
use crate::uses::{Undefined, greatest_level};
use ded_model::command::Command;
use ded_model::formula::Formula;
use ded_model::limits;
use ded_model::memory::NoMemory;

/// Whether a heading with a formula, or a heading alone, has too many columns and quantifiers.
pub(crate) fn has_many(command: &Command) -> bool
    ensures { result ≡ cause.has_many (command_form command.now) }
{
    match command {
        Command::Relation(_, heading) => heading.columns.len() > limits::COLUMNS,
        Command::View(_, heading, formula) => is_many(&heading.columns, formula),
        Command::Query(heading, formula) => is_many(&heading.columns, formula),
        Command::Explain(heading, formula) => is_many(&heading.columns, formula),
        Command::Ask(formula) => is_many(&[], formula),
        Command::Header
        | Command::Insert(_, _)
        | Command::Delete(_, _)
        | Command::Drop(_)
        | Command::Keep(_)
        | Command::Show(_)
        | Command::BoxOf(_)
        | Command::Dump
        | Command::Disjoint(_, _)
        | Command::Verify(_, _, _) => false,
    }
}

/// Whether a heading has one column name twice.
pub(crate) fn names_twice(command: &Command) -> bool
    ensures { result ≡ cause.names_twice (command_form command.now) }
{
    match command {
        Command::Relation(_, heading) => has_twice(&heading.columns),
        Command::View(_, heading, _) => has_twice(&heading.columns),
        Command::Query(heading, _) => has_twice(&heading.columns),
        Command::Explain(heading, _) => has_twice(&heading.columns),
        Command::Header
        | Command::Insert(_, _)
        | Command::Delete(_, _)
        | Command::Drop(_)
        | Command::Keep(_)
        | Command::Ask(_)
        | Command::Show(_)
        | Command::BoxOf(_)
        | Command::Dump
        | Command::Disjoint(_, _)
        | Command::Verify(_, _, _) => false,
    }
}

/// Whether the command, or an atom in its formula, uses a name that isn't defined.
///
/// # Errors
/// Out of memory.
pub(crate) fn names_unknown<N: Names>(
    command: &Command,
    facts: Facts<'_>,
    names: &N,
) -> Result<bool, NoMemory>
    requires { AreFacts (N.catalogue names.now) (command_form command.now) facts }
    ensures { IfOk result (λ b. b ≡ cause.names_unknown (N.catalogue names.now) (command_form command.now)) }
{
    match command {
        Command::Header | Command::Relation(_, _) | Command::Dump => Ok(false),
        Command::Insert(_, _)
        | Command::Delete(_, _)
        | Command::Drop(_)
        | Command::Keep(_)
        | Command::Show(_)
        | Command::BoxOf(_) => Ok(is_undefined(facts.first)),
        Command::Disjoint(_, _) | Command::Verify(_, _, _) => {
            Ok(is_undefined(facts.first) || is_undefined(facts.second))
        }
        Command::View(_, _, formula)
        | Command::Ask(formula)
        | Command::Query(_, formula)
        | Command::Explain(_, formula) => {
            if facts.is_sound {
                Ok(false)
            } else {
                uses_undefined(formula, names)
            }
        }
    }
}

/// Whether a relation or a view is given a name that is defined.
pub(crate) fn takes_name(command: &Command, facts: Facts<'_>) -> bool
    ensures { (c : Catalogue) → AreFacts c (command_form command.now) facts.entry
        → result ≡ cause.takes_name c (command_form command.now) }
{
    match command {
        Command::Relation(_, _) | Command::View(_, _, _) => is_defined(facts.first),
        Command::Header
        | Command::Insert(_, _)
        | Command::Delete(_, _)
        | Command::Drop(_)
        | Command::Keep(_)
        | Command::Ask(_)
        | Command::Query(_, _)
        | Command::Show(_)
        | Command::BoxOf(_)
        | Command::Explain(_, _)
        | Command::Dump
        | Command::Disjoint(_, _)
        | Command::Verify(_, _, _) => false,
    }
}

/// Whether a view is named where a relation has to be, or a relation where a view has to be.
pub(crate) fn names_other_kind(command: &Command, facts: Facts<'_>) -> bool
    ensures { (c : Catalogue) → AreFacts c (command_form command.now) facts.entry
        → result ≡ cause.names_other_kind c (command_form command.now) }
{
    match command {
        Command::Insert(_, _) | Command::Delete(_, _) | Command::Show(_) | Command::BoxOf(_) =>
            is_view(facts.first),
        Command::Keep(_) => is_relation(facts.first),
        Command::Disjoint(_, _) | Command::Verify(_, _, _) => {
            is_view(facts.first) || is_view(facts.second)
        }
        Command::Header
        | Command::Relation(_, _)
        | Command::Drop(_)
        | Command::View(_, _, _)
        | Command::Ask(_)
        | Command::Query(_, _)
        | Command::Explain(_, _)
        | Command::Dump => false,
    }
}

/// Whether the name to be dropped is in the formula of a view.
pub(crate) fn drops_used<N: Names>(command: &Command, names: &N) -> bool
    ensures { result ≡ cause.drops_used (N.catalogue names.now) (command_form command.now) }
{
    match command {
        Command::Drop(name) => names.used(name),
        Command::Header
        | Command::Relation(_, _)
        | Command::Insert(_, _)
        | Command::Delete(_, _)
        | Command::View(_, _, _)
        | Command::Keep(_)
        | Command::Ask(_)
        | Command::Query(_, _)
        | Command::Show(_)
        | Command::BoxOf(_)
        | Command::Explain(_, _)
        | Command::Dump
        | Command::Disjoint(_, _)
        | Command::Verify(_, _, _) => false,
    }
}

/// Whether no present tuple of the relation has the number to be deleted.
pub(crate) fn deletes_none<N: Names>(command: &Command, names: &N) -> bool
    ensures { result ≡ cause.deletes_none (N.catalogue names.now) (command_form command.now) }
{
    match command {
        Command::Delete(name, number) => !names.has_tuple(name, *number),
        Command::Header
        | Command::Relation(_, _)
        | Command::Insert(_, _)
        | Command::Drop(_)
        | Command::View(_, _, _)
        | Command::Keep(_)
        | Command::Ask(_)
        | Command::Query(_, _)
        | Command::Show(_)
        | Command::BoxOf(_)
        | Command::Explain(_, _)
        | Command::Dump
        | Command::Disjoint(_, _)
        | Command::Verify(_, _, _) => false,
    }
}

/// Whether the view would have a level above 16.
///
/// # Errors
/// Out of memory.
pub(crate) fn is_too_high<N: Names>(command: &Command, names: &N) -> Result<bool, NoMemory>
    ensures { IfOk result (λ b. b ≡ cause.is_too_high (N.catalogue names.now) (command_form command.now)) }
{
    match command {
        Command::View(_, _, formula) => Ok(greatest_level(formula, names)? >= limits::LEVELS),
        Command::Header
        | Command::Relation(_, _)
        | Command::Insert(_, _)
        | Command::Delete(_, _)
        | Command::Drop(_)
        | Command::Keep(_)
        | Command::Ask(_)
        | Command::Query(_, _)
        | Command::Show(_)
        | Command::BoxOf(_)
        | Command::Explain(_, _)
        | Command::Dump
        | Command::Disjoint(_, _)
        | Command::Verify(_, _, _) => Ok(false),
    }
}

/// Whether nothing is known of a name.
fn is_undefined(entry: Option<Known<'_>>) -> bool
    ensures { result ≡ is_none (known_form entry.entry) }
{
    entry.is_none()
}

/// Whether something is known of a name.
fn is_defined(entry: Option<Known<'_>>) -> bool
    ensures { result ≡ is_some (known_form entry.entry) }
{
    entry.is_some()
}

/// Whether a name is that of a view.
fn is_view(entry: Option<Known<'_>>) -> bool
    ensures { result ≡ cause.is_view_with (known_form entry.entry) }
{
    match entry {
        None => false,
        Some(entry) => entry.is_view(),
    }
}

/// Whether a name is that of a relation.
fn is_relation(entry: Option<Known<'_>>) -> bool
    ensures { result ≡ cause.is_relation_with (known_form entry.entry) }
{
    match entry {
        None => false,
        Some(entry) => !entry.is_view(),
    }
}

/// Whether an atom of the formula uses a name that isn't defined.
fn uses_undefined<N: Names>(formula: &Formula, names: &N) -> Result<bool, NoMemory>
    ensures { IfOk result (λ b. b ≡ uses_unknown (known (N.catalogue names.now)) (form formula.now)) }
{
    some_atom(&Undefined { names }, &SortScope::Heading(&[]), formula)
}
