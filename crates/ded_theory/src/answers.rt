//! What a theory answers of a conjunction.

use ded_model::bound::Bound;

/// What eliminating a slot leaves of a conjunction.
#[derive(Drop)]
pub enum Eliminated<A> {
    /// Nothing satisfies it.
    Never,
    /// A conjunction without the slot.
    Conj(Vec<A>),
}

/// Whether something satisfies a conjunction.
#[derive(Clone, Copy, PartialEq, Eq, Debug)]
pub enum Verdict {
    /// No point satisfies it.
    Empty,
    /// Some point satisfies it.
    Inhabited,
    /// Neither is known: the numbers got too long.
    Unknown,
}

/// Between which values a slot stands in a conjunction.
#[derive(Clone, Copy, Debug)]
pub enum Span {
    /// No point satisfies it.
    Nothing,
    /// The greatest lower and the least upper bound, each with whether it is attained.
    Exact(Bound, Bound),
    /// A lower and an upper bound of all points that satisfy it, as the numbers got too long for the exact ones.
    Around(Bound, Bound),
}
