//! The two columns that a picture is drawn over.
ghost use Rattle.std.specs.Prelude.{◌≡◌, IfOk};
ghost use Rattle.ded_figures.specs.Axes.{axes_of, named, first_but, pair, is_rational, is_but, IsRationalSlot};

use ded_atoms::following;
use ded_model::memory::NoMemory;
use ded_model::name::{Column, Heading, Name};
use ded_model::slot::{Slot, Sort};
use std::marker::Model;

/// Which two rational columns of a heading a picture is drawn over. The first one runs to the right, the second one
/// upwards.
#[derive(Drop)]
pub enum Look {
    /// The first two.
    FirstTwo,
    /// Those of these names.
    Named(Name, Name),
    /// That of this name, and the first other one.
    With(Name),
}

/// The slots of two different rational columns: `x` runs to the right, `y` upwards.
#[derive(Clone, Copy, Debug)]
pub struct Axes {
    pub x: Slot,
    pub y: Slot,
}

impl Model for Axes {
    ghost use Rattle.ded_figures.specs.Axes.{Axes, AreAxes};

    ghost Value = { Axes };

    ghost view = { λ a. record { x = a.x; y = a.y } };

    ghost inverse = { λ a. record { x = a.x; y = a.y } };

    ghost invariant = { λ a. AreAxes (record { x = a.x; y = a.y }) };
}

/// The two columns of the heading that are drawn. None where it lacks one of them, or both are the same.
///
/// # Errors
/// Out of memory: a heading has more columns than numbers go.
pub fn axes_of(look: &Look, heading: &Heading) -> Result<Option<Axes>, NoMemory>
    ensures { IfOk result (λ axes. axes ≡ axes_of look.now heading.now) }
{
    let columns = heading.columns.as_slice();
    match look {
        Look::FirstTwo => {
            let x = first_but(None, 0, columns)?;
            let y = first_but(x, 0, columns)?;
            Ok(pair(x, y))
        }
        Look::Named(first, second) => {
            let x = named(first, 0, columns)?;
            let y = named(second, 0, columns)?;
            Ok(pair(x, y))
        }
        Look::With(name) => {
            let x = named(name, 0, columns)?;
            let y = first_but(x, 0, columns)?;
            Ok(pair(x, y))
        }
    }
}

/// The slot of the first rational column of the name, where the first column has this number.
fn named(name: &Name, number: u32, columns: &[Column]) -> Result<Option<Slot>, NoMemory>
    ensures value { IfOk result (λ s. s ≡ named name.now number columns.now) }
    ensures sort { IfOk result IsRationalSlot }
{
    let Some((column, behind)) = columns.split_first() else {
        return Ok(None);
    };
    if is_rational(column) && column.name.is_same(name) {
        return Ok(Some(rational(number)));
    }
    named(name, following(number)?, behind)
}

/// The slot of the first rational column that isn't the given one, where the first column has this number.
fn first_but(other: Option<Slot>, number: u32, columns: &[Column]) -> Result<Option<Slot>, NoMemory>
    ensures value { IfOk result (λ s. s ≡ first_but other number columns.now) }
    ensures sort { IfOk result IsRationalSlot }
{
    let Some((column, behind)) = columns.split_first() else {
        return Ok(None);
    };
    if is_rational(column) && is_but(other, rational(number)) {
        return Ok(Some(rational(number)));
    }
    first_but(other, following(number)?, behind)
}

/// Whether the column is rational.
fn is_rational(column: &Column) -> bool
    ensures { result ≡ is_rational column.now }
{
    match column.sort {
        Sort::Rat => true,
        Sort::Text => false,
    }
}

/// Whether the slot isn't the given one.
fn is_but(other: Option<Slot>, slot: Slot) -> bool
    ensures { result ≡ is_but other slot }
{
    match other {
        Some(other) => !slot.is_same(other),
        None => true,
    }
}

/// The slot of the rational column of this number.
fn rational(number: u32) -> Slot
    ensures { result ≡ record { number = number; sort = Sort.Rat } }
{
    Slot {
        number,
        sort: Sort::Rat,
    }
}

/// Both slots, where there are two and they differ.
fn pair(x: Option<Slot>, y: Option<Slot>) -> Option<Axes>
    requires x { IsRationalSlot x }
    requires y { IsRationalSlot y }
    ensures { result ≡ pair x y }
{
    let (Some(x), Some(y)) = (x, y) else {
        return None;
    };
    if x.is_same(y) {
        return None;
    }
    Some(Axes { x, y })
}
