//! Commands by slots.

use ded_model::certificate::Entry;
use ded_model::formula::Formula;
use ded_model::goal::Goal;
use ded_model::name::{Heading, Name};
use ded_model::tuple::Tuple;

/// A command whose names are known and whose formula is by slots.
#[derive(Drop)]
pub enum Checked {
    Header,
    Relation(Name, Heading),
    /// The tuple is the normal one of the comparisons.
    Insert(Name, Tuple),
    Delete(Name, u64),
    Drop(Name),
    /// The formula as written, and its goal.
    View(Name, Heading, Formula, Goal),
    Keep(Name),
    Ask(Goal),
    Query(Heading, Goal),
    Show(Name),
    BoxOf(Name),
    Explain(Heading, Goal),
    Dump,
    Disjoint(Name, Name),
    Verify(Name, Name, Vec<Entry>),
}
