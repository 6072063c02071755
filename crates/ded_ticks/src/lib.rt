//! Ticks: round numbers along the borders of a picture, each with its place and its label.
//!
//! [`lower_ticks`] and [`left_ticks`] give the multiples of a round step within a window, in ascending order;
//! [`clock_ticks`] reads them as minutes, and labels them with times. `specs/Steps.antt` says which steps are round,
//! `specs/Ticks.antt` which ticks a window has. The [`laws`] say that no multiple in the window is left out.
//!
//! It stands on `ded_axes` for places, on `ded_cells` for the texts of values, on `ded_svg` for ticks as data, and on
//! `ded_dump` for texts in memory.
#![tactic(auto)]

mod label;
pub mod laws;
mod place;
mod scale;
mod step;
mod ticks;

pub use ticks::{clock_ticks, left_ticks, lower_ticks};
