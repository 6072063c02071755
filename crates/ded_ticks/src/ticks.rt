//! The ticks of a border.
ghost use Rattle.std.specs.Prelude.{◌≡◌, ◌++◌, pos, ◌<ℤ◌, IfOk, OnOk};
ghost use Rattle.ded_num.specs.Length.{IsWithin};
ghost use Rattle.ded_ticks.specs.Ticks.{clock_ticks_of, left_ticks_of, lower_ticks_of, tick_at, ticks_from, ticks_of};

use crate::label::label;
use crate::place::place;
use crate::scale::{Axis, Scale, high, low};
use crate::step::{first_multiple, step};
use ded_model::memory::NoMemory;
use ded_polygon::PlaneWindow;
use ded_svg::Tick;
use std::alloc::Global;

/// The ticks along the lower border of a picture of the window with this width in units: round numbers from its left
/// end to its right end, in ascending order.
///
/// # Errors
/// Out of memory.
pub fn lower_ticks(alloc: Global, window: PlaneWindow, width: u32) -> Result<Vec<Tick>, NoMemory>
    ensures { IfOk result (λ ticks. ticks.items ≡ lower_ticks_of window width) }
{
    ticks(alloc, Axis::Lower, window, width)
}

/// The ticks along the left border of a picture of the window with this height in units: round numbers from its bottom
/// to its top, in ascending order. Places are downwards.
///
/// # Errors
/// Out of memory.
pub fn left_ticks(alloc: Global, window: PlaneWindow, height: u32) -> Result<Vec<Tick>, NoMemory>
    ensures { IfOk result (λ ticks. ticks.items ≡ left_ticks_of window height) }
{
    ticks(alloc, Axis::Left, window, height)
}

/// The ticks along the lower border as in [`lower_ticks`], where its numbers are minutes: round times, with labels as
/// `08:30`.
///
/// # Errors
/// Out of memory.
pub fn clock_ticks(alloc: Global, window: PlaneWindow, width: u32) -> Result<Vec<Tick>, NoMemory>
    ensures { IfOk result (λ ticks. ticks.items ≡ clock_ticks_of window width) }
{
    ticks(alloc, Axis::Clock, window, width)
}

/// The ticks of a border of so many units.
fn ticks(alloc: Global, axis: Axis, window: PlaneWindow, units: u32) -> Result<Vec<Tick>, NoMemory>
    ensures { IfOk result (λ ticks. ticks.items ≡ ticks_of (record { axis = axis; window = window; units = units })) }
{
    let mut ticks = Vec::new(alloc);
    let step = step(axis, window);
    let first = first_multiple(low(axis, window), step);
    let scale = Scale {
        axis,
        window,
        units,
    };
    add_ticks(alloc, &mut ticks, 9, scale, step, first)?;
    Ok(ticks)
}

/// Adds the ticks of a scale from a value on, at most so many.
fn add_ticks(
    alloc: Global,
    ticks: &mut Vec<Tick>,
    left: u32,
    scale: Scale,
    step: i128,
    value: i128,
) -> Result<(), NoMemory>
    requires value { IsWithin 64 value }
    requires step { IsWithin 63 step }
    requires positive { pos 0 <ℤ step }
    ensures { OnOk result (ticks.new.items ≡ ticks.old.items ++ ticks_from left scale step value) }
{
    if left == 0 {
        return Ok(());
    }
    let high = high(scale.axis, scale.window);
    if high < value {
        return Ok(());
    }
    ticks.push(tick(alloc, scale, value)?)?;
    add_ticks(alloc, ticks, left - 1, scale, step, value + step)
}

/// The tick at a value.
fn tick(alloc: Global, scale: Scale, value: i128) -> Result<Tick, NoMemory>
    requires { IsWithin 64 value }
    ensures { IfOk result (λ tick. tick ≡ tick_at scale value) }
{
    Ok(Tick {
        place: place(scale, value),
        label: label(alloc, scale.axis, scale.window, value)?,
    })
}
