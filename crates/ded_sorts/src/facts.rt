//! What a command and the names tell at once of all causes of refusals: what is known of the names that the command
//! gives outside of its formula, each looked up once, and whether no atom of its formula is at fault, found in one pass
//! over it.
ghost use Rattle.std.specs.Prelude.{◌≡◌, IfOk, true};
ghost use Rattle.ded_model.specs.Command.{command_form};
ghost use Rattle.ded_model.specs.Entries.{known};
ghost use Rattle.ded_model.specs.Known.{scope_of, columns_with};
ghost use Rattle.ded_model.specs.Logic.{some_below};
ghost use Rattle.ded_sorts.specs.Causes as cause;
ghost use Rattle.ded_sorts.specs.Checks.{known_form};
ghost use Rattle.ded_sorts.specs.Facts.{AreFacts, IsSound, first_known, second_known, heading_with};

use crate::atoms::{AtomTest, some_atom, some_atom_of};
use crate::names::{Known, Names};
use crate::scope::SortScope;
use crate::sorts::Faulty;
use ded_model::command::Command;
use ded_model::memory::NoMemory;
use ded_model::name::Column;

/// Facts about a command.
#[derive(Clone, Copy)]
pub(crate) struct Facts<'a> {
    /// What is known of the name that it gives, or of the first of two.
    pub(crate) first: Option<Known<'a>>,
    /// What is known of the second of two names.
    pub(crate) second: Option<Known<'a>>,
    /// Whether no atom of its formula uses a name that isn't defined or has another number of columns, an unbound
    /// variable, or a text in the place of a number or the other way round.
    pub(crate) is_sound: bool,
}

impl<'a> Facts<'a> {
    /// The facts about the command over the names.
    ///
    /// # Errors
    /// Out of memory.
    pub(crate) fn of<N: Names>(command: &Command, names: &'a N) -> Result<Facts<'a>, NoMemory>
        ensures { IfOk result (AreFacts (N.catalogue names.now) (command_form command.now)) }
    {
        let first = first_known(command, names);
        let second = second_known(command, names);
        let is_sound = is_sound(command, columns_of(first), names)?;
        Ok(Facts {
            first,
            second,
            is_sound,
        })
    }
}

/// What is known of the name that the command gives outside of its formula, or of the first of two.
fn first_known<'a, N: Names>(command: &Command, names: &'a N) -> Option<Known<'a>>
    ensures { known_form result ≡ first_known (N.catalogue names.now) (command_form command.now) }
{
    match command {
        Command::Relation(name, _)
        | Command::Insert(name, _)
        | Command::Delete(name, _)
        | Command::Drop(name)
        | Command::View(name, _, _)
        | Command::Keep(name)
        | Command::Show(name)
        | Command::BoxOf(name)
        | Command::Disjoint(name, _)
        | Command::Verify(name, _, _) => names.known(name),
        Command::Header
        | Command::Ask(_)
        | Command::Query(_, _)
        | Command::Explain(_, _)
        | Command::Dump => None,
    }
}

/// What is known of the second of the two names that the command gives.
fn second_known<'a, N: Names>(command: &Command, names: &'a N) -> Option<Known<'a>>
    ensures { known_form result ≡ second_known (N.catalogue names.now) (command_form command.now) }
{
    match command {
        Command::Disjoint(_, name) | Command::Verify(_, name, _) => names.known(name),
        Command::Header
        | Command::Relation(_, _)
        | Command::Insert(_, _)
        | Command::Delete(_, _)
        | Command::Drop(_)
        | Command::View(_, _, _)
        | Command::Keep(_)
        | Command::Ask(_)
        | Command::Query(_, _)
        | Command::Show(_)
        | Command::BoxOf(_)
        | Command::Explain(_, _)
        | Command::Dump => None,
    }
}

/// The columns of what is known of a name, none where it isn't defined.
pub(crate) fn columns_of(entry: Option<Known<'_>>) -> &[Column]
    ensures { result.now ≡ columns_with (known_form entry.entry) }
{
    match entry {
        None => &[],
        Some(entry) => entry.columns(),
    }
}

/// Whether no atom of the command's formula is at fault; for an insert, below the columns of its relation.
fn is_sound<N: Names>(command: &Command, columns: &[Column], names: &N) -> Result<bool, NoMemory>
    requires { columns.now ≡ columns_with (first_known (N.catalogue names.now) (command_form command.now)) }
    ensures { IfOk result (λ b. b ≡ true → IsSound (N.catalogue names.now) (command_form command.now)) }
{
    Ok(!some_in_command(&Faulty { names }, command, columns)?)
}

/// Whether some atom of the command's formula passes below its heading; for an insert, below the columns.
pub(crate) fn some_in_command<T: AtomTest>(
    test: &T,
    command: &Command,
    columns: &[Column],
) -> Result<bool, NoMemory>
    ensures { IfOk result (λ b. b ≡ cause.passes_with (cause.formula_in (command_form command.now))
        (some_below (T.passes test.now) (scope_of (heading_with columns.now (command_form command.now))))) }
{
    match command {
        Command::Insert(_, formulas) => some_atom_of(test, &SortScope::Heading(columns), formulas),
        Command::View(_, heading, formula)
        | Command::Query(heading, formula)
        | Command::Explain(heading, formula) => some_atom(
            test,
            &SortScope::Heading(&heading.columns),
            formula,
        ),
        Command::Ask(formula) => some_atom(test, &SortScope::Heading(&[]), formula),
        Command::Header
        | Command::Relation(_, _)
        | Command::Delete(_, _)
        | Command::Drop(_)
        | Command::Keep(_)
        | Command::Show(_)
        | Command::BoxOf(_)
        | Command::Dump
        | Command::Disjoint(_, _)
        | Command::Verify(_, _, _) => Ok(false),
    }
}
