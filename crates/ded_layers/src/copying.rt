//! The pieces that may have points between the corners of a part.
ghost use Rattle.std.specs.Prelude.{◌≡◌, ◌<◌, ◌++◌, drop, IfOk, OnOk};
ghost use Rattle.ded_polygon.specs.Windows.{Frame};
ghost use Rattle.ded_hull.specs.Entries.{IsComplete};
ghost use Rattle.ded_layers.specs.Layers.{pieces_of, AreCornersWithin, AreAllEnough};
ghost use Rattle.ded_layers.specs.Indexed.{IsIndex, piece_at, pieces_at};

use crate::part::Part;
use crate::query::query;
use ded_hull::Hulls;
use ded_model::memory::NoMemory;
use ded_model::steps::Steps;
use ded_polygon::Corner;
use ded_ranges::Limit;
use ded_strokes::PlanePiece;
use std::alloc::Global;
use std::marker::Brand;
use std::sync::ledger::{Blank, Ledger};

/// How many places of parts the index knows.
const PLACES: usize = 4294967296;

/// Copies of enough of the pieces for all ways between the corners.
///
/// # Errors
/// Out of memory.
pub(crate) fn near_pieces(
    alloc: Global,
    parts: &[Part],
    index: &Hulls,
    corners: &[Corner],
) -> Result<Vec<PlanePiece>, NoMemory>
    ensures { (w : Frame) → AreCornersWithin w corners.now → IsIndex w parts.now index.now.entries
        → IfOk result (λ near. AreAllEnough corners.now near.items (pieces_of parts.now)) }
{
    let limits = query(alloc, corners)?;
    let ids = find(alloc, index, &limits)?;
    let mut near = Vec::new(alloc);
    add_found(&mut near, parts, &ids)?;
    add_from(&mut near, parts, PLACES)?;
    Ok(near)
}

/// Adds copies of the pieces at the places, as far as there are such.
///
/// # Errors
/// Out of memory.
fn add_found(near: &mut Vec<PlanePiece>, parts: &[Part], places: &[u32]) -> Result<(), NoMemory>
    ensures { OnOk result (near.new.items ≡ near.old.items ++ pieces_at (pieces_of parts.now) places.now) }
{
    for place in places {
        add_copy(near, parts, *place as usize)?;
    }
    Ok(())
}

/// Adds copies of the pieces from a place on.
///
/// # Errors
/// Out of memory.
fn add_from(near: &mut Vec<PlanePiece>, parts: &[Part], first: usize) -> Result<(), NoMemory>
    ensures { OnOk result (near.new.items ≡ near.old.items ++ drop first (pieces_of parts.now)) }
{
    for place in first..parts.len() {
        add_copy(near, parts, place)?;
    }
    Ok(())
}

/// Adds a copy of the piece at a place, if there is one.
///
/// # Errors
/// Out of memory.
fn add_copy(near: &mut Vec<PlanePiece>, parts: &[Part], place: usize) -> Result<(), NoMemory>
    ensures { OnOk result (near.new.items ≡ near.old.items ++ piece_at (pieces_of parts.now) place) }
{
    if place < parts.len() {
        let alloc = *near.allocator();
        near.push(parts[place].piece.copy(alloc)?)?;
    }
    Ok(())
}

/// The numbers of the entries in whose reaches the limits may hold, without counting steps.
///
/// # Errors
/// Out of memory.
fn find(alloc: Global, index: &Hulls, limits: &[Limit]) -> Result<Vec<u32>, NoMemory>
    ensures { IfOk result (λ ids. IsComplete limits.now index.now.entries ids.items) }
{
    find_over::<Brand>(alloc, index, limits, Blank::new(1))
}

/// The same, with the steps counted on a new ledger.
///
/// # Errors
/// Out of memory.
fn find_over<L: Ledger>(
    alloc: Global,
    index: &Hulls,
    limits: &[Limit],
    blank: Blank,
) -> Result<Vec<u32>, NoMemory>
    requires name { blank.name ≡ L.name }
    requires parts { blank.parts ≡ L.parts }
    requires some { 0 < L.parts }
    ensures { IfOk result (λ ids. IsComplete limits.now index.now.entries ids.items) }
{
    let mut steps = Steps::<L>::new(blank);
    index.look_up(alloc, limits, &mut steps)
}
