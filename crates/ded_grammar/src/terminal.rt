//! What a formula is made of, in the order in which it is written.
use ded_model::formula::Formula;
use ded_model::name::Column;

/// What a quantifier says.
#[derive(Clone, Copy, PartialEq, Eq, Debug)]
pub enum Quantifier {
    Exists,
    Forall,
}

/// A sign between formulas, a quantifier with its variable, or a formula that has no formula inside.
#[derive(Drop)]
pub enum Terminal {
    Not,
    And,
    Or,
    Implies,
    Open,
    Close,
    Bind(Quantifier, Column),
    Atom(Formula),
}
