//! Headings and formulas that have too many columns and quantifiers, and headings with one name twice.
ghost use Rattle.std.specs.Prelude.{◌≡◌, ◌+◌, ◌<◌, MatchOption};
ghost use Rattle.std.specs.Str.{bytes_eq};
ghost use Rattle.std.specs.List.{list_any};
ghost use Rattle.ded_model.specs.Form.{form, forms};
ghost use Rattle.ded_model.specs.Known as model;
ghost use Rattle.ded_model.specs.Logic.{quantifiers, quantifiers_of};

use ded_model::formula::Formula;
use ded_model::limits;
use ded_model::name::{Column, Name};

/// Whether the heading has more than 16 columns, or its columns and the quantifiers of the formula are together more
/// than 64.
pub(crate) fn is_many(columns: &[Column], formula: &Formula) -> bool
    ensures { result ≡ model.is_many columns.now (form formula.now) }
{
    columns.len() > limits::COLUMNS || room_after(formula, limits::PLACES - columns.len()).is_none()
}

/// Whether two of the columns have one name.
pub(crate) fn has_twice(columns: &[Column]) -> bool
    ensures { result ≡ model.has_twice columns.now }
{
    for (i, column) in columns.iter().enumerate() {
        if are_named(&columns[i + 1..], &column.name) {
            return true;
        }
    }
    false
}

/// Whether one of the columns has the name.
fn are_named(columns: &[Column], name: &Name) -> bool
    ensures { result ≡ list_any (λ c. bytes_eq name.now c.name) columns.now }
{
    columns.iter().any(|column| name.is_same(&column.name))
}

/// How many places are left of `room` after the formula's quantifiers have one each, none where there are too few.
#[cycle(places)]
fn room_after(formula: &Formula, room: usize) -> Option<usize>
    ensures { MatchOption result (room < quantifiers (form formula.now))
        (λ left. left + quantifiers (form formula.now) ≡ room) }
{
    match formula {
        Formula::True | Formula::False | Formula::Compare(_, _, _) | Formula::Member(_, _) => {
            Some(room)
        }
        Formula::Not(part) => room_after(part, room),
        Formula::And(parts) | Formula::Or(parts) => room_after_all(parts, room),
        Formula::Implies(left, right) => room_after(right, room_after(left, room)?),
        Formula::Exists(_, part) | Formula::Forall(_, part) => {
            room_after(part, room.checked_sub(1)?)
        }
    }
}

/// How many places are left of `room` after the quantifiers of all the formulas have one each, none where there are too
/// few.
#[cycle(places)]
fn room_after_all(formulas: &Vec<Formula>, room: usize) -> Option<usize>
    ensures { MatchOption result (room < quantifiers_of (forms formulas.now.items))
        (λ left. left + quantifiers_of (forms formulas.now.items) ≡ room) }
{
    let mut left = room;
    for formula in formulas {
        left = room_after(formula, left)?;
    }
    Some(left)
}
