//! What there is to be drawn of each tuple.
ghost use Rattle.std.specs.Prelude.{◌≡◌, [], IfOk, OnOk};
ghost use Rattle.ded_print.specs.Tuples.{column_names, tuple_text};
ghost use Rattle.ded_figures.specs.Sights.{label_of, IsSight, AddSights};
ghost use Rattle.ded_model.specs.Catalogue.{tuples_of};

use crate::axes::Axes;
use crate::figure::Figure;
use ded_dump::Text;
use ded_model::memory::{NoMemory, Refused};
use ded_model::name::{Heading, Name};
use ded_model::tuple::{Atom, BothAtom, ThemeAtom, Tuple};
use ded_shapes::{Projection, projected};
use std::alloc::{AllocError, Global};

/// What there is to be drawn of a tuple.
#[derive(Drop)]
pub enum Sight {
    /// Nothing: it holds nowhere.
    Nowhere,
    /// It can't be told, as a number would get too long.
    Wide,
    /// A figure.
    Seen(Figure),
}

/// Adds what there is to be drawn of each of the tuples.
///
/// # Errors
/// Out of memory.
pub fn add_sights(
    alloc: Global,
    sights: &mut Vec<Sight>,
    axes: Axes,
    heading: &Heading,
    tuples: &[Tuple],
) -> Result<(), NoMemory>
    ensures { OnOk result (AddSights axes heading.now tuples.now sights.old.items sights.new.items) }
{
    for tuple in tuples {
        sights.push(sight_of(alloc, axes, heading, tuple)?)?;
    }
    Ok(())
}

/// Adds what there is to be drawn of each of the numbered tuples.
///
/// # Errors
/// Out of memory.
pub fn add_stored_sights(
    alloc: Global,
    sights: &mut Vec<Sight>,
    axes: Axes,
    heading: &Heading,
    stored: &[(u32, Tuple)],
) -> Result<(), NoMemory>
    ensures { OnOk result (AddSights axes heading.now (tuples_of stored.now) sights.old.items sights.new.items) }
{
    for numbered in stored {
        sights.push(sight_of(alloc, axes, heading, &numbered.1)?)?;
    }
    Ok(())
}

/// What there is to be drawn of a tuple.
fn sight_of(alloc: Global, axes: Axes, heading: &Heading, tuple: &Tuple) -> Result<Sight, NoMemory>
    ensures { IfOk result (IsSight axes heading.now tuple.now) }
{
    let label = label_of(alloc, &tuple.atoms)?;
    let title = title_of(alloc, heading, tuple)?;
    match projected(alloc, tuple, axes.x, axes.y) {
        Ok(Projection::Nowhere) => Ok(Sight::Nowhere),
        Ok(Projection::Rows(rows)) => Ok(Sight::Seen(Figure {
            axes,
            rows,
            label,
            title,
        })),
        Err(Refused::Wide) => Ok(Sight::Wide),
        Err(Refused::Memory) => Err(AllocError),
    }
}

/// The tuple as it is printed.
fn title_of(alloc: Global, heading: &Heading, tuple: &Tuple) -> Result<Name, NoMemory>
    ensures { IfOk result (λ n. n ≡ tuple_text (column_names heading.now) tuple.now) }
{
    let mut text = Text::new(alloc);
    text.put_tuple(heading, tuple)?;
    Ok(text.into_line())
}

/// The first text that the atoms give to a column, as a copy.
fn label_of(alloc: Global, atoms: &[Atom]) -> Result<Name, NoMemory>
    ensures { IfOk result (λ n. n ≡ label_of atoms.now) }
{
    Ok(Name {
        bytes: label_in(atoms).to_vec(alloc)?,
    })
}

/// The first text that the atoms give to a column, empty where they give none.
fn label_in(atoms: &[Atom]) -> &[u8]
    ensures { result.now ≡ label_of atoms.now }
{
    match atoms.split_first() {
        Some((BothAtom::Second(ThemeAtom::EqText(_, text)), _)) => text.bytes.as_slice(),
        Some((_, behind)) => label_in(behind),
        None => &[],
    }
}
