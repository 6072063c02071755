//! The parts of a picture: the corners of each figure within the window.
ghost use Rattle.std.specs.Prelude.{◌≡◌, ◌+◌, ◌++◌, ◌∷◌, [], IfOk, IsErrOf, OnOk};
ghost use Rattle.ded_model.specs.declared.memory.Refused.TheVariants.{Wide};
ghost use Rattle.ded_polygon.specs.Corners.{AreCorners, GoAround};
ghost use Rattle.ded_polygon.specs.Windows.{window_rows};
ghost use Rattle.ded_strokes.specs.Bounds.{limits_of};
ghost use Rattle.ded_layers.specs.Layers.{AreCornersWithin};
ghost use Rattle.ded_picture.specs.Parts.{AddsShown, AreAllWithin, AreShown, IsPartOf, IsTooLong, MayShow};

use crate::colours::colour_of;
use ded_figures::{Figure, Sight};
use ded_layers::Part;
use ded_model::memory::{NoMemory, Refused};
use ded_model::name::Name;
use ded_polygon::{Corner, PlaneWindow, cut};
use ded_shapes::shapes;
use ded_strokes::PlanePiece;
use indexmap::IndexSet;
use std::alloc::{AllocError, Global};

/// What is shown of a tuple: its piece with its corners within the window, in the colour of this number, with its
/// title.
#[derive(Drop)]
pub struct Shown {
    pub colour: u32,
    pub title: Name,
    pub part: Part,
}

/// What is shown of tuples, and how many are too long to be shown.
#[derive(Drop)]
pub struct ShownParts {
    pub list: Vec<Shown>,
    pub wide: usize,
}

/// What is shown within the window.
///
/// # Errors
/// Out of memory.
pub fn parts_of(
    alloc: Global,
    sights: &[Sight],
    labels: &IndexSet<Name>,
    window: PlaneWindow,
) -> Result<ShownParts, NoMemory>
    ensures shown { IfOk result (λ parts. AreShown window labels.now.keys sights.now parts.list.items parts.wide) }
    ensures within { IfOk result (λ parts. AreAllWithin window parts.list.items) }
{
    let mut parts = ShownParts {
        list: Vec::new(alloc),
        wide: 0,
    };
    for sight in sights {
        add_part(alloc, &mut parts, sight, labels, window)?;
    }
    Ok(parts)
}

/// Adds what is shown of a tuple.
fn add_part(
    alloc: Global,
    parts: &mut ShownParts,
    sight: &Sight,
    labels: &IndexSet<Name>,
    window: PlaneWindow,
) -> Result<(), NoMemory>
    ensures { OnOk result (AddsShown window labels.now.keys sight.now parts.old.list.items parts.old.wide
        parts.new.list.items parts.new.wide) }
{
    match sight {
        Sight::Nowhere => Ok(()),
        Sight::Wide => {
            count_wide(parts)?;
            Ok(())
        }
        Sight::Seen(figure) => match shown_of(alloc, figure, labels, window)? {
            Some(shown) => {
                push_shown(parts, shown)?;
                Ok(())
            }
            None => {
                count_wide(parts)?;
                Ok(())
            }
        },
    }
}

/// Counts a tuple that is too long.
fn count_wide(parts: &mut ShownParts) -> Result<(), NoMemory>
    ensures list { parts.new.list.items ≡ parts.old.list.items }
    ensures count { OnOk result (parts.new.wide ≡ parts.old.wide + 1) }
{
    match parts.wide.checked_add(1) {
        Some(wide) => {
            parts.wide = wide;
            Ok(())
        }
        None => Err(AllocError),
    }
}

/// Adds what is shown of a tuple.
fn push_shown(parts: &mut ShownParts, shown: Shown) -> Result<(), NoMemory>
    ensures list { OnOk result (parts.new.list.items ≡ parts.old.list.items ++ shown ∷ []) }
    ensures count { parts.new.wide ≡ parts.old.wide }
{
    parts.list.push(shown)?;
    Ok(())
}

/// What is shown of a figure, none where it is too long.
fn shown_of(
    alloc: Global,
    figure: &Figure,
    labels: &IndexSet<Name>,
    window: PlaneWindow,
) -> Result<Option<Shown>, NoMemory>
    ensures { IfOk result (MayShow window labels.now.keys figure.now) }
{
    let colour = colour_of(labels, &figure.label)?;
    let title = figure.title.copy()?;
    match part_of(alloc, figure, window) {
        Ok(part) => Ok(Some(Shown {
            colour,
            title,
            part,
        })),
        Err(Refused::Wide) => Ok(None),
        Err(Refused::Memory) => Err(AllocError),
    }
}

/// The piece of a figure, with its corners within the window.
///
/// # Errors
/// `Wide` only where a number of a row is beyond the exact range; otherwise out of memory.
fn part_of(alloc: Global, figure: &Figure, window: PlaneWindow) -> Result<Part, Refused>
    ensures part { IfOk result (IsPartOf window figure.now) }
    ensures wide { IsErrOf result Wide → IsTooLong figure.now }
{
    let piece = piece_of(alloc, figure)?;
    let corners = corners_within(alloc, figure, window)?;
    Ok(Part { piece, corners })
}

/// The piece of a figure.
///
/// # Errors
/// As [`part_of`].
fn piece_of(alloc: Global, figure: &Figure) -> Result<PlanePiece, Refused>
    ensures piece { IfOk result (λ p. p ≡ limits_of figure.now.axes.x figure.now.axes.y figure.now.rows) }
    ensures wide { IsErrOf result Wide → IsTooLong figure.now }
{
    PlanePiece::new(alloc, &figure.rows, figure.axes.x, figure.axes.y)
}

/// The corners of a figure within the window.
///
/// # Errors
/// As [`part_of`].
fn corners_within(
    alloc: Global,
    figure: &Figure,
    window: PlaneWindow,
) -> Result<Vec<Corner>, Refused>
    ensures corners { IfOk result (λ cs. AreCorners figure.now.axes.x figure.now.axes.y
        (figure.now.rows ++ window_rows figure.now.axes.x figure.now.axes.y window) cs.items) }
    ensures around { IfOk result (λ cs. GoAround figure.now.axes.x figure.now.axes.y
        (figure.now.rows ++ window_rows figure.now.axes.x figure.now.axes.y window) cs.items) }
    ensures within { IfOk result (λ cs. AreCornersWithin window cs.items) }
    ensures wide { IsErrOf result Wide → IsTooLong figure.now }
{
    shapes();
    cut(alloc, &figure.rows, figure.axes.x, figure.axes.y, window)
}
