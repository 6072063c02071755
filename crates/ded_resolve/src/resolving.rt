//! Commands by slots.
ghost use Rattle.std.specs.Prelude.{◌≡◌, ◌≢◌, ◌≤◌, false, map, [], length, IfOk, IfErr};
ghost use Rattle.ded_model.specs.Catalogue.{Catalogue};
ghost use Rattle.ded_model.specs.Command.{command_form, insert, view, ask, query, explain};
ghost use Rattle.ded_model.specs.Form.{form, forms};
ghost use Rattle.ded_model.specs.Known.{IsTupleOver, columns_with};
ghost use Rattle.ded_model.specs.LongRows.{has_long_row};
ghost use Rattle.ded_model.specs.Plain.{IsPlainCommand};
ghost use Rattle.ded_model.specs.Slotted.{goal_of, tuple_of};
ghost use Rattle.ded_model.specs.Width.{tuple_length};
ghost use Rattle.ded_model.specs.Goal.{goal_form};
ghost use Rattle.ded_sorts.specs.Checks.{HasNoCause, IsLeastCause, known_form};
ghost use Rattle.ded_resolve.specs.Resolved.{IsResolved};
ghost use Rattle.ded_model.specs.Entries.{columns_in};
ghost use Rattle.ded_resolve.specs.Ready.{IsReady, AreReady};
ghost use Rattle.ded_resolve.specs.Storing.{IsStorable};

use crate::checked::Checked;
use crate::{goal, tuple};
use ded_model::command::{Command, Refusal};
use ded_model::formula::Formula;
use ded_model::goal::Goal;
use ded_model::memory::NoMemory;
use ded_model::name::{Heading, Name};
use ded_model::tuple::Tuple;
use ded_sorts::{Known, Names, check};
use std::alloc::Global;

/// The command by slots, over the names. Each sum of the command has each name once and a denominator above 0, the sums
/// of a comparison are over one denominator, and no row of its formula has a number above 2^63 - 1 in magnitude.
///
/// # Errors
/// The least of the refusals that the command and the names decide; or else `Memory`, where an allocation failed.
pub fn resolve<N: Names>(alloc: Global, command: Command, names: &N) -> Result<Checked, Refusal>
    requires plain { IsPlainCommand (command_form command) }
    requires short { has_long_row (command_form command) ≡ false }
    ensures resolved { IfOk result (λ k. IsResolved (N.catalogue names.now) (command_form command) k) }
    ensures accepted { IfOk result (λ k. HasNoCause (N.catalogue names.now) (command_form command)) }
    ensures stored { IfOk result (λ k. IsStorable (N.catalogue names.now) k) }
    ensures refused { IfErr result (λ r. r ≢ Refusal.Memory
        → IsLeastCause r (N.catalogue names.now) (command_form command)) }
{
    if let Err(refusal) = check(&command, names) {
        drop(command);
        return Err(refusal);
    }
    by_slots(alloc, command, names).map_err(|_| Refusal::Memory)
}

/// The command by slots, where it is accepted over the names.
fn by_slots<N: Names>(alloc: Global, command: Command, names: &N) -> Result<Checked, NoMemory>
    requires plain { IsPlainCommand (command_form command) }
    requires short { has_long_row (command_form command) ≡ false }
    requires accepted { HasNoCause (N.catalogue names.now) (command_form command) }
    ensures resolved { IfOk result (λ k. IsResolved (N.catalogue names.now) (command_form command) k) }
    ensures stored { IfOk result (λ k. IsStorable (N.catalogue names.now) k) }
{
    match command {
        Command::Header => Ok(Checked::Header),
        Command::Relation(name, heading) => Ok(Checked::Relation(name, heading)),
        Command::Insert(name, comparisons) => insertion(alloc, name, comparisons, names),
        Command::Delete(name, number) => Ok(Checked::Delete(name, number)),
        Command::Drop(name) => Ok(Checked::Drop(name)),
        Command::View(name, heading, formula) => view(alloc, name, heading, formula),
        Command::Keep(name) => Ok(Checked::Keep(name)),
        Command::Ask(formula) => question(alloc, formula),
        Command::Query(heading, formula) => query(alloc, heading, formula),
        Command::Show(name) => Ok(Checked::Show(name)),
        Command::BoxOf(name) => Ok(Checked::BoxOf(name)),
        Command::Explain(heading, formula) => explanation(alloc, heading, formula),
        Command::Dump => Ok(Checked::Dump),
        Command::Disjoint(first, second) => Ok(Checked::Disjoint(first, second)),
        Command::Verify(first, second, entries) => Ok(Checked::Verify(first, second, entries)),
    }
}

/// An insert by slots: its tuple, over the columns of the relation.
fn insertion<N: Names>(
    alloc: Global,
    name: Name,
    comparisons: Vec<Formula>,
    names: &N,
) -> Result<Checked, NoMemory>
    requires { AreReady (columns_in (N.catalogue names.now) name) (forms comparisons.items) }
    ensures resolved { IfOk result (λ k. IsResolved (N.catalogue names.now) (insert name (forms comparisons.items)) k) }
    ensures stored { IfOk result (λ k. IsStorable (N.catalogue names.now) k) }
{
    let tuple = tuple_over(alloc, names.known(&name), &comparisons)?;
    Ok(Checked::Insert(name, tuple))
}

/// The normal tuple of comparisons over the columns of what is known of a name, none where it isn't defined. It has
/// numbers of at most 63 digits.
fn tuple_over(
    alloc: Global,
    entry: Option<Known<'_>>,
    comparisons: &[Formula],
) -> Result<Tuple, NoMemory>
    requires few { length (columns_with (known_form entry)) ≤ 16 }
    requires ready { AreReady (columns_with (known_form entry)) (forms comparisons.now) }
    ensures value { IfOk result (λ t. t ≡ tuple_of (columns_with (known_form entry.entry)) (map form comparisons.now)) }
    ensures over { IfOk result (λ t. IsTupleOver (columns_with (known_form entry.entry)) t) }
    ensures short { IfOk result (λ t. tuple_length t ≤ 63) }
{
    match entry {
        Some(Known::Relation(heading) | Known::View(heading, _)) => {
            short_tuple(alloc, heading, comparisons)
        }
        None => {
            let heading = Heading {
                columns: Vec::new(alloc),
            };
            short_tuple(alloc, &heading, comparisons)
        }
    }
}

/// The normal tuple of comparisons over a heading, which has numbers of at most 63 digits.
fn short_tuple(alloc: Global, heading: &Heading, comparisons: &[Formula]) -> Result<Tuple, NoMemory>
    requires few { length heading.now ≤ 16 }
    requires ready { AreReady heading.now (forms comparisons.now) }
    ensures value { IfOk result (λ t. t ≡ tuple_of heading.now (map form comparisons.now)) }
    ensures over { IfOk result (λ t. IsTupleOver heading.now t) }
    ensures short { IfOk result (λ t. tuple_length t ≤ 63) }
{
    tuple(alloc, heading, comparisons)
}

/// A view by slots: its formula as written, and its goal.
fn view(alloc: Global, name: Name, heading: Heading, formula: Formula) -> Result<Checked, NoMemory>
    requires { IsReady heading (form formula) }
    ensures resolved { (c : Catalogue) → IfOk result (λ k. IsResolved c (view name heading (form formula)) k) }
    ensures stored { (c : Catalogue) → IfOk result (λ k. IsStorable c k) }
{
    let goal = ready_goal(alloc, &heading, &formula)?;
    Ok(Checked::View(name, heading, formula, goal))
}

/// A question by slots: the goal of its closed formula.
fn question(alloc: Global, formula: Formula) -> Result<Checked, NoMemory>
    requires { IsReady [] (form formula) }
    ensures resolved { (c : Catalogue) → IfOk result (λ k. IsResolved c (ask (form formula)) k) }
    ensures stored { (c : Catalogue) → IfOk result (λ k. IsStorable c k) }
{
    let heading = Heading {
        columns: Vec::new(alloc),
    };
    Ok(Checked::Ask(goal_only(alloc, &heading, formula)?))
}

/// A query by slots: the goal of its formula.
fn query(alloc: Global, heading: Heading, formula: Formula) -> Result<Checked, NoMemory>
    requires { IsReady heading (form formula) }
    ensures resolved { (c : Catalogue) → IfOk result (λ k. IsResolved c (query heading (form formula)) k) }
    ensures stored { (c : Catalogue) → IfOk result (λ k. IsStorable c k) }
{
    let goal = goal_only(alloc, &heading, formula)?;
    Ok(Checked::Query(heading, goal))
}

/// An explanation of a query by slots: the goal of the formula of the query.
fn explanation(alloc: Global, heading: Heading, formula: Formula) -> Result<Checked, NoMemory>
    requires { IsReady heading (form formula) }
    ensures resolved { (c : Catalogue) → IfOk result (λ k. IsResolved c (explain heading (form formula)) k) }
    ensures stored { (c : Catalogue) → IfOk result (λ k. IsStorable c k) }
{
    let goal = goal_only(alloc, &heading, formula)?;
    Ok(Checked::Explain(heading, goal))
}

/// The goal of a formula over a heading.
fn ready_goal(alloc: Global, heading: &Heading, formula: &Formula) -> Result<Goal, NoMemory>
    requires { IsReady heading.now (form formula.now) }
    ensures { IfOk result (λ g. goal_form g ≡ goal_of heading.now (form formula.now)) }
{
    goal(alloc, heading, formula)
}

/// The goal of a formula over a heading, where the formula isn't wanted any more.
fn goal_only(alloc: Global, heading: &Heading, formula: Formula) -> Result<Goal, NoMemory>
    requires { IsReady heading.now (form formula) }
    ensures { IfOk result (λ g. goal_form g ≡ goal_of heading.now (form formula)) }
{
    let goal = ready_goal(alloc, heading, &formula);
    drop(formula);
    goal
}
