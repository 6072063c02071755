//! Colours.
ghost use Rattle.std.specs.Prelude.{◌≡◌, IfOk};
ghost use Rattle.ded_svg.specs.Palette.{hatch, ink, pattern_name, pattern_reference, tint};

use crate::coordinate::put_number;
use crate::element::number_between;
use ded_dump::Text;
use ded_model::memory::NoMemory;
use ded_model::name::Name;
use std::alloc::Global;

/// The colour of this number, for lines.
#[tactic(auto, unfolding(crate::specs::Palette::ink))]
pub(crate) fn ink(colour: u32) -> &'static [u8]
    ensures { result.now ≡ ink colour }
{
    match colour % 8 {
        0 => b"#E69F00",
        1 => b"#56B4E9",
        2 => b"#009E73",
        3 => b"#F0E442",
        4 => b"#0072B2",
        5 => b"#D55E00",
        6 => b"#CC79A7",
        _ => b"#000000",
    }
}

/// Its tint, for the ground of areas.
#[tactic(auto, unfolding(crate::specs::Palette::tint))]
pub(crate) fn tint(colour: u32) -> &'static [u8]
    ensures { result.now ≡ tint colour }
{
    match colour % 8 {
        0 => b"#F5D999",
        1 => b"#BBE1F6",
        2 => b"#99D8C7",
        3 => b"#F9F4B3",
        4 => b"#99C7E0",
        5 => b"#EEBF99",
        6 => b"#EBC9DC",
        _ => b"#BBBBBB",
    }
}

/// Its hatch, in a square of 8 units.
#[tactic(auto, unfolding(crate::specs::Palette::hatch))]
pub(crate) fn hatch(colour: u32) -> &'static [u8]
    ensures { result.now ≡ hatch colour }
{
    match (colour % 8 + colour / 8) % 8 {
        0 => b"M0,0",
        1 => b"M0,8L8,0M-2,2L2,-2M6,10L10,6",
        2 => b"M0,0L8,8M6,-2L10,2M-2,6L2,10",
        3 => b"M0,4H8",
        4 => b"M4,0V8",
        5 => b"M0,4H8M4,0V8",
        6 => b"M0,0L8,8M0,8L8,0",
        _ => b"M1,2H4M5,6H8",
    }
}

/// The name of the pattern of areas of this colour.
///
/// # Errors
/// Out of memory.
pub(crate) fn pattern_name(alloc: Global, colour: u32) -> Result<Name, NoMemory>
    ensures { IfOk result (λ n. n ≡ pattern_name colour) }
{
    let mut text = Text::new(alloc);
    text.put(b"p")?;
    put_number(&mut text, u128::from(colour))?;
    Ok(text.into_line())
}

/// How shapes refer to it.
///
/// # Errors
/// Out of memory.
pub(crate) fn pattern_reference(alloc: Global, colour: u32) -> Result<Name, NoMemory>
    ensures { IfOk result (λ n. n ≡ pattern_reference colour) }
{
    number_between(alloc, b"url(#p", u128::from(colour), b")")
}
