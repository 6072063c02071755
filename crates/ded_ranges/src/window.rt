//! Windows: what is asked of the values of columns.
ghost use Rattle.std.specs.Prelude.{◌≡◌, ℕ, ℤ, true, [], IfOk};
ghost use Rattle.ded_ranges.specs.Boxes.{StaysAround, IsAround};
ghost use Rattle.ded_ranges.specs.Limits.{is_met, are_met, may_meet, may_hold};
ghost use Rattle.ded_ranges.specs.Reaches.{Lies};
ghost use Rattle.ded_ranges.specs.Tuples.{IsReachOf};
ghost use Rattle.ded_ranges.specs.Windows.{is_within};

use crate::limit::Limit;
use crate::reach::Reach;
use crate::term::narrow_to_term;
use ded_model::limits::PLACES;
use ded_model::memory::NoMemory;
use ded_model::name::Name;
use std::alloc::Global;

/// Limits that the values of columns meet, and texts that stand in columns, all by the numbers of the columns.
#[derive(Drop)]
pub struct Window {
    pub limits: Vec<Limit>,
    pub texts: Vec<(usize, Name)>,
}

impl Window {
    /// The window that asks nothing.
    pub fn everything(alloc: Global) -> Window
        ensures limits { result.limits.items ≡ [] }
        ensures texts { result.texts.items ≡ [] }
    {
        Window {
            limits: Vec::new(alloc),
            texts: Vec::new(alloc),
        }
    }

    /// A reach that contains the values of each point in the window. Limits of one term give its ends.
    ///
    /// # Errors
    /// Out of memory.
    pub fn reach(&self, alloc: Global) -> Result<Reach, NoMemory>
        ensures { IfOk result (λ r. IsReachOf r (is_within self.now)) }
    {
        box_of(alloc, &self.limits)
    }
}

/// A reach that contains all values at which the limits are met, and overlaps each reach in which they may hold. Limits
/// of one term give its ends.
///
/// # Errors
/// Out of memory.
pub(crate) fn box_of(alloc: Global, limits: &[Limit]) -> Result<Reach, NoMemory>
    ensures lies { IfOk result (λ r. (v : ℕ → ℤ) (den : ℕ) → are_met v den limits.now ≡ true → Lies r v den) }
    ensures around { IfOk result (λ r. IsAround r limits.now) }
{
    let mut reach = Reach::everywhere(alloc, width_of(limits))?;
    narrow_by(&mut reach, limits);
    Ok(reach)
}

/// How many of the first columns the limits of one term speak of.
fn width_of(limits: &[Limit]) -> usize {
    let mut width = 0;
    for limit in limits {
        if limit.terms.len() == 1 && limit.terms[0].0 < PLACES {
            width = width.max(limit.terms[0].0 + 1);
        }
    }
    width
}

/// Narrows the reach to the values at which each limit of one term is met.
fn narrow_by(reach: &mut Reach, limits: &[Limit])
    ensures lies { (v : ℕ → ℤ) (den : ℕ) → Lies reach.old v den → are_met v den limits.now ≡ true
        → Lies reach.new v den }
    ensures around { StaysAround (λ rs. may_hold rs limits.now) reach.old reach.new }
{
    for i in 0..limits.len() {
        narrow_by_limit(reach, &limits[i]);
    }
}

/// Narrows the reach to the values at which the limit is met, if it has one term.
fn narrow_by_limit(reach: &mut Reach, limit: &Limit)
    ensures lies { (v : ℕ → ℤ) (den : ℕ) → Lies reach.old v den → is_met v den limit.now ≡ true → Lies reach.new v den }
    ensures around { StaysAround (λ rs. may_meet rs limit.now) reach.old reach.new }
{
    if limit.terms.len() == 1 {
        let (place, a) = limit.terms[0];
        narrow_to_term(reach, place, a, limit.constant, limit.op);
    }
}
