//! Formulas.
ghost use Rattle.std.specs.Prelude.{◌≡◌, ◌++◌, [], OnOk};
ghost use Rattle.ded_model.specs.Form.{form, forms};
ghost use Rattle.ded_model.specs.Goal.{goal_form, goal_forms};
ghost use Rattle.ded_print.specs.Tuples.{column_names};
ghost use Rattle.ded_dump.specs.Formulas.{is_grouped, part_text, whole_text, bound_text, chain_text};

use crate::comparison::put_comparison;
use crate::goals::{below, left, members, right};
use crate::heading::put_column;
use crate::operand::put_member;
use crate::text::Text;
use ded_model::formula::Formula;
use ded_model::goal::Goal;
use ded_model::memory::NoMemory;
use ded_model::name::{Column, Heading};

/// Where a formula stands as a part of another one.
#[derive(Clone, Copy, PartialEq, Eq)]
pub enum Position {
    /// Under `not`, or as a member of an `and`.
    Unit,
    /// As a member of an `or`.
    Both,
    /// On the left of an `implies`.
    Either,
}

/// Whether the formula has parentheses round it in the position.
fn is_grouped(position: Position, formula: &Formula) -> bool
    ensures { result ≡ is_grouped position (form formula.now) }
{
    match formula {
        Formula::And(_) => position == Position::Unit,
        Formula::Or(_) => position != Position::Either,
        Formula::Implies(_, _) => true,
        Formula::True
        | Formula::False
        | Formula::Compare(_, _, _)
        | Formula::Member(_, _)
        | Formula::Not(_)
        | Formula::Exists(_, _)
        | Formula::Forall(_, _) => false,
    }
}

/// Puts a formula that stands by itself. Its goal is of the same shape, and the slots there are called as the places.
///
/// # Errors
/// Out of memory.
#[cycle(formula)]
pub(crate) fn put_formula(
    text: &mut Text,
    places: &Heading,
    formula: &Formula,
    goal: &Goal,
) -> Result<(), NoMemory>
    ensures { OnOk result (text.new ≡ text.old ++ whole_text (column_names places.now)
        (form formula.now) (goal_form goal.now)) }
{
    match formula {
        Formula::True => text.put(b"true"),
        Formula::False => text.put(b"false"),
        Formula::Compare(l, op, r) => put_comparison(text, places, l, *op, r, goal),
        Formula::Member(name, operands) => put_member(text, name, operands),
        Formula::Not(part) => {
            text.put(b"not ")?;
            put_part(text, places, Position::Unit, part, below(goal))
        }
        Formula::And(parts) => {
            put_chain(text, places, Position::Unit, b" and ", parts, members(goal))
        }
        Formula::Or(parts) => {
            put_chain(text, places, Position::Both, b" or ", parts, members(goal))
        }
        Formula::Implies(l, r) => {
            put_part(text, places, Position::Either, l, left(goal))?;
            text.put(b" implies ")?;
            put_formula(text, places, r, right(goal))
        }
        Formula::Exists(column, part) => {
            text.put(b"exists ")?;
            put_bound(text, places, column, part, below(goal))
        }
        Formula::Forall(column, part) => {
            text.put(b"forall ")?;
            put_bound(text, places, column, part, below(goal))
        }
    }
}

/// Puts the variable of a quantifier, and its body between parentheses.
#[cycle(formula)]
fn put_bound(
    text: &mut Text,
    places: &Heading,
    column: &Column,
    body: &Formula,
    goal: &Goal,
) -> Result<(), NoMemory>
    ensures { OnOk result (text.new ≡ text.old ++ bound_text (column_names places.now) column.now
        (form body.now) (goal_form goal.now)) }
{
    put_column(text, column)?;
    text.put(b" (")?;
    put_formula(text, places, body, goal)?;
    text.put(b")")
}

/// Puts a formula that stands in a position.
#[cycle(formula)]
fn put_part(
    text: &mut Text,
    places: &Heading,
    position: Position,
    formula: &Formula,
    goal: &Goal,
) -> Result<(), NoMemory>
    ensures { OnOk result (text.new ≡ text.old ++ part_text (column_names places.now) position
        (form formula.now) (goal_form goal.now)) }
{
    if !is_grouped(position, formula) {
        return put_formula(text, places, formula, goal);
    }
    text.put(b"(")?;
    put_formula(text, places, formula, goal)?;
    text.put(b")")
}

/// Puts the members of an `and` or an `or`, with the connective between them.
#[cycle(formula)]
fn put_chain(
    text: &mut Text,
    places: &Heading,
    position: Position,
    connective: &[u8],
    parts: &Vec<Formula>,
    goals: &[Goal],
) -> Result<(), NoMemory>
    ensures { OnOk result (text.new ≡ text.old ++ chain_text (column_names places.now) position [] connective.now
        (forms parts.now.items) (goal_forms goals.now)) }
{
    let mut lead: &[u8] = b"";
    let mut goals = goals;
    for part in parts {
        let Some((goal, later)) = goals.split_first() else {
            return Ok(());
        };
        text.put(lead)?;
        put_part(text, places, position, part, goal)?;
        lead = connective;
        goals = later;
    }
    Ok(())
}
