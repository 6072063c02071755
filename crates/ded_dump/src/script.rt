//! The lines of catalogues.
ghost use Rattle.std.specs.Prelude.{◌≡◌, ◌++◌, IfOk, OnOk};
ghost use Rattle.ded_model.specs.Entries.{entry_of};
ghost use Rattle.ded_catalog.specs.State.{catalogue_of};
ghost use Rattle.ded_dump.specs.Entries.{dump_lines, lines_under, IsView};

use crate::entries::{add_inserts, header_line, relation_line, view_line};
use ded_catalog::Catalogue;
use ded_model::memory::NoMemory;
use ded_model::name::{Heading, Name};
use std::alloc::Global;

/// The lines of the catalogue: a script that makes it again.
///
/// # Errors
/// Out of memory.
pub fn lines(alloc: Global, catalogue: &Catalogue) -> Result<Vec<Name>, NoMemory>
    ensures { IfOk result (λ lines. lines.items ≡ dump_lines (catalogue_of catalogue.now)) }
{
    catalogue.formed();
    let mut lines = Vec::new(alloc);
    lines.push(header_line(alloc)?)?;
    let names = catalogue.names(alloc)?;
    for name in &names {
        add_entry(alloc, &mut lines, catalogue, name)?;
    }
    Ok(lines)
}

/// Adds the lines of the entry of the name.
fn add_entry(
    alloc: Global,
    lines: &mut Vec<Name>,
    catalogue: &Catalogue,
    name: &Name,
) -> Result<(), NoMemory>
    ensures { OnOk result (lines.new.items ≡ lines.old.items
        ++ lines_under (entry_of (catalogue_of catalogue.now).entries name.now)) }
{
    catalogue.formed();
    let Some(heading) = catalogue.heading(name) else {
        return Ok(());
    };
    match catalogue.stored(name) {
        Some(tuples) => {
            lines.push(relation_line(alloc, name, heading)?)?;
            add_inserts(alloc, lines, name, heading, tuples)
        }
        None => add_view(alloc, lines, catalogue, name, heading),
    }
}

/// Adds the line of a view.
fn add_view(
    alloc: Global,
    lines: &mut Vec<Name>,
    catalogue: &Catalogue,
    name: &Name,
    heading: &Heading,
) -> Result<(), NoMemory>
    requires { IsView (catalogue_of catalogue.now) name.now heading.now }
    ensures { OnOk result (lines.new.items ≡ lines.old.items
        ++ lines_under (entry_of (catalogue_of catalogue.now).entries name.now)) }
{
    if let (Some(formula), Some(goal)) = (catalogue.formula(name), catalogue.goal(name)) {
        lines.push(view_line(alloc, name, heading, formula, goal)?)?;
    }
    Ok(())
}
