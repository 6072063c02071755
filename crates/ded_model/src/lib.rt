//! The plain data of the database, and what it means.
//!
//! The modules hold the data that flows from a script to its replies: names and headings, rows and text atoms, formulas
//! and goals, plans, commands, certificates and answers. `specs/` says what the data means: points, when a row, a
//! tuple, a formula, a goal or a plan holds at one, catalogues and the meaning of their names, normal forms, widths and
//! lines. `laws` says that values which `==` tells to be equal are the same. `steps` counts what look-ups take.
//!
//! It stands on `ded_num` for lengths and divisors and on `smallvec`, in which coefficients are kept. Every type that
//! owns memory has `copy`, which gives an equal value, or fails where memory runs out.
#![tactic(auto)]

pub mod answer;
pub mod bound;
pub mod certificate;
pub mod command;
mod equality;
pub mod fault;
pub mod formula;
pub mod goal;
pub mod laws;
pub mod limits;
pub mod memory;
pub mod name;
pub mod plan;
pub mod row;
pub mod slot;
pub mod steps;
pub mod tuple;
