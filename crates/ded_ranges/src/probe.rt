//! Probes: limits that are asked of many reaches.
//!
//! Most reaches that a look-up meets don't overlap the box of the limits of one term. They are told apart by codes of
//! ends alone, and only for the others sums of products are made.
ghost use Rattle.std.specs.Prelude.{◌≡◌, true, length, IfOk};
ghost use Rattle.ded_ranges.specs.Boxes.{overlap, overlaps};
ghost use Rattle.ded_ranges.specs.Limits.{may_hold};

use crate::limit::{Limit, may_hold, others_may_hold};
use crate::reach::{Range, Reach};
use crate::window::box_of;
use ded_model::memory::NoMemory;
use std::alloc::Global;
use std::marker::Model;

/// Limits with a box that overlaps each reach in which they may hold. Contracts see the limits.
#[derive(Drop)]
pub struct Probe<'a> {
    limits: &'a [Limit],
    around: Reach,
}

impl<'a> Model for Probe<'a> {
    ghost use Rattle.std.specs.Prelude.{List};
    ghost use Rattle.ded_ranges.specs.declared.limit.Limit.{Limit};
    ghost use Rattle.ded_ranges.specs.Boxes.{IsAround};

    ghost Value = { List Limit };

    ghost view = { λ p. p.limits.now };

    ghost invariant = { λ p. IsAround p.around p.limits.now };
}

impl<'a> Probe<'a> {
    /// The probe of the limits.
    ///
    /// # Errors
    /// Out of memory.
    pub fn new(alloc: Global, limits: &'a [Limit]) -> Result<Probe<'a>, NoMemory>
        ensures { IfOk result (λ p. p ≡ limits.now) }
    {
        let around = box_of(alloc, limits)?;
        Ok(Probe { limits, around })
    }

    /// Whether all limits may hold in the reach.
    pub fn may_hold(&self, reach: &Reach) -> bool
        ensures { result ≡ may_hold reach.now self.now }
    {
        overlaps(self.around.ranges(), reach.ranges()) && may_hold(reach, self.limits)
    }

    /// Whether all limits may hold in the reach: as far as the box and the limits of several terms tell, and for
    /// certain where it has one range.
    pub fn may_pass(&self, reach: &Reach) -> bool
        ensures sound { may_hold reach.now self.now ≡ true → result ≡ true }
        ensures exact { length reach.now ≡ 1 → result ≡ may_hold reach.now self.now }
    {
        if reach.ranges().len() == 1 {
            self.may_hold(reach)
        } else {
            overlaps(self.around.ranges(), reach.ranges()) && others_may_hold(reach, self.limits)
        }
    }
}

/// Whether the ranges overlap place by place, as far as both lists have them.
fn overlaps(ranges: &[Range], others: &[Range]) -> bool
    ensures { result ≡ overlaps ranges.now others.now }
{
    for i in 0..ranges.len().min(others.len()) {
        if !overlap(ranges[i], others[i]) {
            return false;
        }
    }
    true
}

/// Whether neither range ends before the other begins.
fn overlap(a: Range, b: Range) -> bool
    ensures { result ≡ overlap a b }
{
    a.low.is_up_to(b.high) && b.low.is_up_to(a.high)
}
