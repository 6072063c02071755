//! The lines of entries.
ghost use Rattle.std.specs.Prelude.{◌≡◌, ◌++◌, IfOk, OnOk};
ghost use Rattle.ded_model.specs.Form.{form};
ghost use Rattle.ded_model.specs.Goal.{goal_form};
ghost use Rattle.ded_model.specs.Slotted.{goal_of};
ghost use Rattle.ded_dump.specs.Entries.{header_line, relation_line, insert_line, insert_lines, view_line};

use crate::formula::put_formula;
use crate::heading::put_heading;
use crate::naming::places;
use crate::text::Text;
use ded_model::formula::Formula;
use ded_model::goal::Goal;
use ded_model::memory::NoMemory;
use ded_model::name::{Heading, Name};
use ded_model::tuple::Tuple;
use ded_packed::Packed;
use std::alloc::Global;
use std::collections::BTreeMap;

/// The line that says of which version the script is.
///
/// # Errors
/// Out of memory.
pub(crate) fn header_line(alloc: Global) -> Result<Name, NoMemory>
    ensures { IfOk result (λ line. line ≡ header_line) }
{
    let mut text = Text::new(alloc);
    text.put(b"dedale 2;")?;
    Ok(text.into_line())
}

/// The line that defines a relation.
///
/// # Errors
/// Out of memory.
pub(crate) fn relation_line(alloc: Global, name: &Name, heading: &Heading) -> Result<Name, NoMemory>
    ensures { IfOk result (λ line. line ≡ relation_line name.now heading.now) }
{
    let mut text = Text::new(alloc);
    text.put(b"relation ")?;
    text.put_name(name)?;
    put_heading(&mut text, heading)?;
    text.put(b";")?;
    Ok(text.into_line())
}

/// Adds a line for each tuple of a relation, which inserts it.
///
/// # Errors
/// Out of memory.
pub(crate) fn add_inserts(
    alloc: Global,
    lines: &mut Vec<Name>,
    name: &Name,
    heading: &Heading,
    tuples: &BTreeMap<u32, Packed>,
) -> Result<(), NoMemory>
    ensures { OnOk result (lines.new.items ≡ lines.old.items ++ insert_lines name.now heading.now tuples.now.entries) }
{
    for (_, packed) in tuples {
        let tuple = packed.unpack(alloc)?;
        lines.push(insert_line(alloc, name, heading, &tuple)?)?;
    }
    Ok(())
}

/// The line that inserts a tuple.
fn insert_line(
    alloc: Global,
    name: &Name,
    heading: &Heading,
    tuple: &Tuple,
) -> Result<Name, NoMemory>
    ensures { IfOk result (λ line. line ≡ insert_line name.now heading.now tuple.now) }
{
    let mut text = Text::new(alloc);
    text.put(b"insert ")?;
    text.put_name(name)?;
    text.put(b" ")?;
    text.put_tuple(heading, tuple)?;
    text.put(b";")?;
    Ok(text.into_line())
}

/// The line that defines a view, whose formula has the goal.
///
/// # Errors
/// Out of memory.
pub(crate) fn view_line(
    alloc: Global,
    name: &Name,
    heading: &Heading,
    formula: &Formula,
    goal: &Goal,
) -> Result<Name, NoMemory>
    requires { goal_form goal.now ≡ goal_of heading.now (form formula.now) }
    ensures { IfOk result (λ line. line ≡ view_line name.now heading.now (form formula.now)) }
{
    let places = places(heading, formula)?;
    let mut text = Text::new(alloc);
    text.put(b"view ")?;
    text.put_name(name)?;
    put_heading(&mut text, heading)?;
    text.put(b" := ")?;
    put_formula(&mut text, &places, formula, goal)?;
    text.put(b";")?;
    Ok(text.into_line())
}
