//! Tables: answers and stored tuples with a line for each tuple and a cell for each column.
//!
//! A cell says how far the tuple goes in its column: one value, or an interval, exactly. A value is written as a
//! decimal where that has at most 9 digits behind the point, and else as a fraction. Behind the cells stand the atoms
//! that tie columns. `specs/Tables.antt` says what the text of a table is; [`answer_table`] and [`stored_table`] write
//! it. What stands in a cell is told by the exact bounds of the tuple alone (`specs/Extents.antt`): that it is nowhere
//! exactly where the tuple holds nowhere, and that it is wide only where numbers on the way to the bounds may get too
//! long. The [`laws`] say that a decimal is the value.
//!
//! It stands on `ded_atoms` for the bounds of a tuple, on `ded_print` for the texts of rows, and on `ded_dump` for a
//! text in memory.
#![tactic(auto)]

mod decimal;
mod extent;
pub mod laws;
mod line;
mod span;
mod table;
mod theme;

pub use decimal::{put_number, put_value};
pub use extent::{Extent, extent_of};
pub use table::{answer_table, stored_table};
