//! The causes of refusals that columns decide: their number, their sorts, and which names stand for one.
ghost use Rattle.std.specs.Prelude.{◌≡◌, IfOk};
ghost use Rattle.ded_model.specs.Command.{command_form};
ghost use Rattle.ded_model.specs.Form.{forms};
ghost use Rattle.ded_model.specs.Catalogue.{Catalogue};
ghost use Rattle.ded_model.specs.Entries.{known};
ghost use Rattle.ded_model.specs.Known.{scope_of, has_other_arity, has_missorted, columns_with};
ghost use Rattle.ded_model.specs.Logic.{some_below_of};
ghost use Rattle.ded_sorts.specs.Causes as cause;
ghost use Rattle.ded_sorts.specs.Checks.{known_form};
ghost use Rattle.ded_sorts.specs.Facts.{AreFacts};

use crate::atoms::some_atom_of;
use crate::facts::{Facts, columns_of, some_in_command};
use crate::names::Names;
use crate::scope::SortScope;
use crate::sorts::{Missorted, RationalInequality, Unbound, do_columns_differ};
use crate::uses::OtherArity;
use ded_model::command::Command;
use ded_model::formula::Formula;
use ded_model::memory::NoMemory;

/// Whether an atom has another number of arguments than its relation or view has columns, or two relations that are set
/// side by side have different numbers of columns.
///
/// # Errors
/// Out of memory.
pub(crate) fn has_wrong_arity<N: Names>(
    command: &Command,
    facts: Facts<'_>,
    names: &N,
) -> Result<bool, NoMemory>
    requires { AreFacts (N.catalogue names.now) (command_form command.now) facts }
    ensures { IfOk result (λ b. b ≡ cause.has_wrong_arity (N.catalogue names.now) (command_form command.now)) }
{
    match command {
        Command::Disjoint(_, _) | Command::Verify(_, _, _) => Ok(do_lengths_differ(facts)),
        Command::Header
        | Command::Relation(_, _)
        | Command::Insert(_, _)
        | Command::Delete(_, _)
        | Command::Drop(_)
        | Command::View(_, _, _)
        | Command::Keep(_)
        | Command::Ask(_)
        | Command::Query(_, _)
        | Command::Show(_)
        | Command::BoxOf(_)
        | Command::Explain(_, _)
        | Command::Dump => has_other_arity(command, facts, names),
    }
}

/// Whether an atom of the command's formula has another number of arguments than its relation or view has columns.
fn has_other_arity<N: Names>(
    command: &Command,
    facts: Facts<'_>,
    names: &N,
) -> Result<bool, NoMemory>
    requires { AreFacts (N.catalogue names.now) (command_form command.now) facts }
    ensures { IfOk result (λ b. b ≡ cause.passes_with (cause.formula_in (command_form command.now))
        (has_other_arity (known (N.catalogue names.now)))) }
{
    if facts.is_sound {
        return Ok(false);
    }
    some_in_command(&OtherArity { names }, command, columns_of(facts.first))
}

/// Whether a variable is in no quantifier round it, not in the heading, and in an insert isn't a column.
///
/// # Errors
/// Out of memory.
pub(crate) fn has_unbound(command: &Command, facts: Facts<'_>) -> Result<bool, NoMemory>
    ensures { (c : Catalogue) → AreFacts c (command_form command.now) facts.entry
        → IfOk result (λ b. b ≡ cause.has_unbound_name c (command_form command.now)) }
{
    if facts.is_sound {
        return Ok(false);
    }
    some_in_command(&Unbound, command, columns_of(facts.first))
}

/// Whether a text stands where a number has to, or a number where a text has to, or `!=` between numbers in an insert,
/// or two relations that are set side by side have different sorts at one place.
///
/// # Errors
/// Out of memory.
pub(crate) fn has_wrong_sort<N: Names>(
    command: &Command,
    facts: Facts<'_>,
    names: &N,
) -> Result<bool, NoMemory>
    requires { AreFacts (N.catalogue names.now) (command_form command.now) facts }
    ensures { IfOk result (λ b. b ≡ cause.has_wrong_sort (N.catalogue names.now) (command_form command.now)) }
{
    match command {
        Command::Disjoint(_, _) | Command::Verify(_, _, _) => Ok(do_headings_differ(facts)),
        Command::Header
        | Command::Relation(_, _)
        | Command::Insert(_, _)
        | Command::Delete(_, _)
        | Command::Drop(_)
        | Command::View(_, _, _)
        | Command::Keep(_)
        | Command::Ask(_)
        | Command::Query(_, _)
        | Command::Show(_)
        | Command::BoxOf(_)
        | Command::Explain(_, _)
        | Command::Dump => Ok(
            has_missorted(command, facts, names)? || has_inequality(command, facts)?,
        ),
    }
}

/// Whether a text stands in the command's formula where a number has to, or a number where a text has to.
fn has_missorted<N: Names>(command: &Command, facts: Facts<'_>, names: &N) -> Result<bool, NoMemory>
    requires { AreFacts (N.catalogue names.now) (command_form command.now) facts }
    ensures { IfOk result (λ b. b ≡ cause.passes_with (cause.formula_in (command_form command.now))
        (has_missorted (known (N.catalogue names.now))
        (cause.heading_in (N.catalogue names.now) (command_form command.now)))) }
{
    if facts.is_sound {
        return Ok(false);
    }
    some_in_command(&Missorted { names }, command, columns_of(facts.first))
}

/// Whether the headings of both names are of different lengths.
fn do_lengths_differ(facts: Facts<'_>) -> bool
    ensures { result ≡ cause.lengths_differ (columns_with (known_form facts.entry.first))
        (columns_with (known_form facts.entry.second)) }
{
    columns_of(facts.first).len() != columns_of(facts.second).len()
}

/// Whether the headings of both names have different sorts at one place.
fn do_headings_differ(facts: Facts<'_>) -> bool
    ensures { result ≡ cause.headings_differ (columns_with (known_form facts.entry.first))
        (columns_with (known_form facts.entry.second)) }
{
    do_columns_differ(columns_of(facts.first), columns_of(facts.second))
}

/// Whether the command is an insert with `!=` between numbers.
fn has_inequality(command: &Command, facts: Facts<'_>) -> Result<bool, NoMemory>
    ensures { (c : Catalogue) → AreFacts c (command_form command.now) facts.entry
        → IfOk result (λ b. b ≡ cause.has_inequality c (command_form command.now)) }
{
    match command {
        Command::Insert(_, formulas) => some_in_insert(formulas, facts),
        Command::Header
        | Command::Relation(_, _)
        | Command::Delete(_, _)
        | Command::Drop(_)
        | Command::View(_, _, _)
        | Command::Keep(_)
        | Command::Ask(_)
        | Command::Query(_, _)
        | Command::Show(_)
        | Command::BoxOf(_)
        | Command::Explain(_, _)
        | Command::Dump
        | Command::Disjoint(_, _)
        | Command::Verify(_, _, _) => Ok(false),
    }
}

/// Whether some comparison of an insert, below the columns of its relation, is `!=` between numbers.
fn some_in_insert(formulas: &Vec<Formula>, facts: Facts<'_>) -> Result<bool, NoMemory>
    ensures { IfOk result (λ b. b ≡ some_below_of cause.is_rational_inequality
        (scope_of (columns_with (known_form facts.entry.first))) (forms formulas.now.items)) }
{
    some_atom_of(
        &RationalInequality,
        &SortScope::Heading(columns_of(facts.first)),
        formulas,
    )
}
