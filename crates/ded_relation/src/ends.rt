//! Reaches of tuples, with the exact bounds of columns that rows only bind together.
//!
//! A row on one column gives an end of that column. Where a column has no end on one side after these, and a row binds
//! it to other columns, its exact bounds over all rows of the tuple are taken, rounded outward. So a slanted region has
//! ends too, and boxes cost no more than before.
ghost use Rattle.std.specs.Prelude.{◌≡◌, length, IfOk};
ghost use Rattle.ded_model.specs.declared.slot.Sort.TheVariants.{Rat};
ghost use Rattle.ded_model.specs.Row.{tuple_holds};
ghost use Rattle.ded_ranges.specs.Reaches.{IsFloor, IsCeil, AreOrdered};
ghost use Rattle.ded_ranges.specs.Tuples.{IsReachOf};
ghost use Rattle.ded_relation.specs.Ends.{IsRangeOf, Tightens};

use ded_linear::Linear;
use ded_model::bound::Bound;
use ded_model::memory::NoMemory;
use ded_model::slot::{Slot, Sort};
use ded_model::tuple::{Atom, BothAtom, Tuple};
use ded_ranges::{Range, Reach, ceil_of, floor_of};
use ded_theme::Theme;
use ded_theory::{Both, Span, Theory};

/// A reach of so many first columns that contains the values of each point of the tuple. No range in it ends before it
/// begins.
///
/// # Errors
/// Out of memory.
pub(crate) fn reach_of(tuple: &Tuple, width: usize) -> Result<Reach, NoMemory>
    ensures values { IfOk result (λ r. IsReachOf r (tuple_holds tuple.now)) }
    ensures width { IfOk result (λ r. length r ≡ width) }
    ensures ends { IfOk result (λ r. AreOrdered r) }
{
    let mut reach = ded_ranges::reach_of(*tuple.atoms.allocator(), tuple, width)?;
    tighten_all(&mut reach, tuple, width)?;
    reach.in_order(width)
}

/// Narrows the ranges of the first columns to the values at points of the tuple.
///
/// # Errors
/// Out of memory.
fn tighten_all(reach: &mut Reach, tuple: &Tuple, width: usize) -> Result<(), NoMemory>
    ensures { IfOk result (λ _. Tightens (tuple_holds tuple.now) reach.old reach.new) }
{
    for place in 0..width {
        if let Ok(number) = u32::try_from(place) {
            tighten(reach, tuple, number)?;
        }
    }
    Ok(())
}

/// Narrows the range of the column to the values at points of the tuple, where an end of it is open and a row binds it
/// to others.
///
/// # Errors
/// Out of memory.
fn tighten(reach: &mut Reach, tuple: &Tuple, number: u32) -> Result<(), NoMemory>
    ensures { IfOk result (λ _. Tightens (tuple_holds tuple.now) reach.old reach.new) }
{
    let slot = Slot {
        number,
        sort: Sort::Rat,
    };
    if is_open(reach.at(number as usize)) && some_binds(&tuple.atoms, slot) {
        reach.narrow(number as usize, range_of(tuple, slot)?);
    }
    Ok(())
}

/// A range that contains the values of the slot at all points of the tuple.
///
/// # Errors
/// Out of memory.
fn range_of(tuple: &Tuple, slot: Slot) -> Result<Range, NoMemory>
    requires { slot.sort ≡ Rat }
    ensures { IfOk result (λ r. IsRangeOf r slot (tuple_holds tuple.now)) }
{
    let alloc = *tuple.atoms.allocator();
    match <Both<Linear, Theme> as Theory>::bounds(alloc, &tuple.atoms, slot)? {
        Span::Exact(low, high) => Ok(between(low, high)),
        Span::Around(low, high) => Ok(between(low, high)),
        Span::Nothing => Ok(between(Bound::Infinite, Bound::Infinite)),
    }
}

/// The range between two bounds, rounded outward.
fn between(low: Bound, high: Bound) -> Range
    ensures low { IsFloor low result.low }
    ensures high { IsCeil high result.high }
{
    Range {
        low: floor_of(low),
        high: ceil_of(high),
    }
}

/// Whether the range has no end on one side.
fn is_open(range: Range) -> bool {
    range.low.is_none() || range.high.is_none()
}

/// Whether some row mentions the slot beside others.
fn some_binds(atoms: &[Atom], slot: Slot) -> bool {
    for atom in atoms {
        if binds(atom, slot) {
            return true;
        }
    }
    false
}

/// Whether the atom is a row that mentions the slot beside others.
fn binds(atom: &Atom, slot: Slot) -> bool {
    match atom {
        BothAtom::First(row) => 1 < row.coefs.list().len() && row.mentions(slot),
        BothAtom::Second(_) => false,
    }
}
