//! The texts of replies.
//!
//! `specs/` says what the text of each reply is: numbers, rows, tuples, answers, stored tuples, boxes, plans, scripts,
//! certificates, and the replies of one line. The calls here print a reply to a sink: its contents are then exactly
//! that text more, and where it failed a front of the text. No call allocates.
//!
//! It stands on `ded_model` for the data and on `ded_io` for the sink.
#![tactic(auto)]

mod answer;
mod bounds;
mod certificate;
mod count;
mod depth;
mod gathered;
pub mod laws;
mod line;
mod naming;
mod number;
mod part;
mod plan;
mod row;
mod script;
mod stored;
mod theme;
mod tuple;

pub use answer::print_answer;
pub use bounds::print_box;
pub use certificate::print_apart;
pub use line::{print_done, print_meeting, print_number, print_refusal, print_truth};
pub use part::{print_fraction, print_quoted, print_row, print_unlike};
pub use plan::print_plan;
pub use script::print_script;
pub use stored::print_stored;
pub use tuple::print_tuple;
