//! Commands, the languages in which they are read, and the causes for which a statement is refused.
use crate::certificate::Entry;
use crate::formula::Formula;
use crate::name::{Heading, Name};

/// The language in which a statement is read. `One` is the plain one, `Two` is to have fractions and decimals. The
/// first statement of a script is read in `Opening`, which is `One` with the header besides.
#[derive(Clone, Copy, PartialEq, Eq, Debug)]
pub enum Language {
    Opening,
    One,
    Two,
}

/// A statement that is spelled.
#[derive(Drop)]
pub enum Command {
    /// The language of the statements that follow is `Two`.
    Header,
    Relation(Name, Heading),
    /// The formulas are comparisons.
    Insert(Name, Vec<Formula>),
    Delete(Name, u64),
    Drop(Name),
    View(Name, Heading, Formula),
    Keep(Name),
    Ask(Formula),
    Query(Heading, Formula),
    Show(Name),
    BoxOf(Name),
    Explain(Heading, Formula),
    /// A script that makes the same catalogue again.
    Dump,
    /// Certificates that two relations have no common point, or a pair of tuples that has one.
    Disjoint(Name, Name),
    /// Whether the entries certify that the two relations have no common point.
    Verify(Name, Name, Vec<Entry>),
}

/// Why a statement is refused, in order of its number from 1.
#[derive(Clone, Copy, PartialEq, Eq, Debug)]
pub enum Refusal {
    LongStatement,
    Unfinished,
    Syntax,
    LongName,
    LongNumber,
    Deep,
    Many,
    Twice,
    Unknown,
    Taken,
    Kind,
    Arity,
    Unbound,
    WrongSort,
    Used,
    NoTuple,
    Full,
    Spent,
    Level,
    Wide,
    Memory,
}
