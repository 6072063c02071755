//! Fractions, and the bounds of a column.
ghost use Rattle.std.specs.Prelude.{◌≡◌, IfOk};

use crate::memory::NoMemory;
use std::marker::Model;

/// A fraction. The denominator is above 0, and both numbers have at most 127 binary digits.
#[derive(Clone, Copy, Debug)]
pub struct Frac {
    pub num: i128,
    pub den: i128,
}

impl Model for Frac {
    ghost use Rattle.ded_model.specs.Bound.{Fraction};

    ghost Value = { Fraction };

    ghost use Rattle.ded_model.specs.Bound.{IsFraction};

    ghost view = { λ f. record { num = f.num; den = f.den } };

    ghost inverse = { λ f. record { num = f.num; den = f.den } };

    ghost invariant = { λ f. IsFraction (record { num = f.num; den = f.den }) };
}

/// One end of an interval: none, a value that is not attained, or one that is.
#[derive(Clone, Copy, Debug)]
pub enum Bound {
    Infinite,
    Excluded(Frac),
    Included(Frac),
}

/// Lower and upper bounds, one pair for each rational column in order. Contracts see the list.
#[derive(Drop)]
pub struct Spans {
    pub list: Vec<(Bound, Bound)>,
}

impl Model for Spans {
    ghost use Rattle.std.specs.Prelude.{List};
    ghost use Rattle.ded_model.specs.declared.bound.Bound.{Bound};

    ghost Value = { List (Bound × Bound) };

    ghost view = { λ s. s.list.items };
}

/// The reply to a question for the bounds of a relation.
#[derive(Drop)]
pub enum BoxReply {
    /// The relation holds at no point.
    Nowhere,
    /// It holds somewhere, and no column is rational.
    NoRational,
    /// The bounds of each rational column.
    Spans(Spans),
}

impl Spans {
    /// An equal list.
    ///
    /// # Errors
    /// Out of memory.
    pub fn copy(&self) -> Result<Spans, NoMemory>
        ensures { IfOk result (λ s. s ≡ self.now) }
    {
        Ok(Spans {
            list: self.list.clone()?,
        })
    }
}

impl BoxReply {
    /// An equal reply.
    ///
    /// # Errors
    /// Out of memory.
    pub fn copy(&self) -> Result<BoxReply, NoMemory>
        ensures { IfOk result (λ r. r ≡ self.now) }
    {
        match self {
            BoxReply::Nowhere => Ok(BoxReply::Nowhere),
            BoxReply::NoRational => Ok(BoxReply::NoRational),
            BoxReply::Spans(spans) => Ok(BoxReply::Spans(spans.copy()?)),
        }
    }
}
