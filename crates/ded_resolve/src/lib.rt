//! Commands and formulas by slots, over the names that are defined.
//!
//! A formula names its variables. Its [`goal`] has a numbered slot for each: those of the heading's columns first, then
//! one for each quantifier in the order in which they stand. A comparison of sums becomes a normal row, one of texts a
//! text atom; the comparisons of an insert become a normal [`tuple`]. [`resolve`] checks a command, and gives it with
//! its formula as a goal and the comparisons of an insert as a tuple. What it gives is accepted for all that the
//! command and the names decide; the tuple of an insert is over the columns of its relation, with numbers of at most 63
//! digits. A command that isn't accepted is refused for the least of the reasons.
//!
//! It stands on `ded_model`, whose specifications say what the goal of a formula and the tuple of comparisons are, on
//! `ded_sorts` for the checks, on `ded_row` for the normal form of rows, and on `ded_tuple` for the order of atoms.
//! Each goal and each tuple is the value of such a specification; running out of memory is the only reason to give
//! none. `laws` says which formulas meet what the calls ask for, and that the goal of an accepted formula is normal.
#![tactic(auto)]

mod checked;
mod comparisons;
pub mod laws;
mod resolving;
mod scope;
mod slotted;
mod sums;
mod texts;
mod tuples;

pub use checked::Checked;
pub use resolving::resolve;
pub use slotted::goal;
pub use tuples::tuple;
