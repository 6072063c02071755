//! What the definitions of `ded_model` come to, as contracts of functions that do nothing: each law is proved once,
//! here.
//!
//! `points`: what holds depends on values alone. `deciding`: every formula, goal and plan over every catalogue holds or
//! fails at every point. `lines`: lines, eliminations and clashes grow with what they are made of, and short lines do
//! not clash. `near`: what is close to a list of tuples or inside of one, and names that are made of others. Beside
//! them worked questions are theorems on the definitions, by computing alone. It stands on `ded_model`, of which it
//! speaks, and on `ded_num` for identities of whole numbers.
#![tactic(auto)]

pub mod deciding;
pub mod lines;
pub mod near;
pub mod points;
