//! Entries, and the order in which they stand.
ghost use Rattle.std.specs.Prelude.{◌≡◌};
ghost use Rattle.ded_box.specs.Intervals.{IsPositive, has_value};
ghost use Rattle.ded_box.specs.Boxes.{AreIntervals};
ghost use Rattle.ded_index.specs.Entries.{first_of};
ghost use Rattle.ded_index.specs.Orders.{sound, sound_fraction, fraction_order, low_order, entry_order};

use ded_box::{BoundBox, may_meet};
use ded_model::bound::{Bound, Frac};
use ded_num::cmp_frac;
use std::cmp::Ordering;

/// A box under a number.
#[derive(Drop)]
pub struct BoxEntry {
    pub id: u32,
    pub bounds: BoundBox,
}

/// The first interval of a box, all values where there is none.
pub(crate) fn first_interval(bounds: &BoundBox) -> (Bound, Bound)
    ensures value { result ≡ first_of bounds.now }
    ensures sound { AreIntervals bounds.now }
{
    match bounds.spans() {
        [first, ..] => *first,
        [] => (Bound::Infinite, Bound::Infinite),
    }
}

/// Whether some value lies in the first interval.
pub(crate) fn is_full(bounds: &BoundBox) -> bool
    ensures value { result ≡ has_value (first_of bounds.now) }
    ensures sound { AreIntervals bounds.now }
{
    let (low, high) = first_interval(bounds);
    may_meet(&low, &high)
}

/// The order of two entries by the low ends of their first intervals.
pub(crate) fn order(a: &BoxEntry, b: &BoxEntry) -> Ordering
    ensures { result ≡ entry_order a.now b.now }
{
    low_order(first_interval(&a.bounds).0, first_interval(&b.bounds).0)
}

/// The order of two lower bounds. One that is attained begins before one with the same fraction that isn't.
fn low_order(a: Bound, b: Bound) -> Ordering
    ensures { result ≡ low_order (sound a) (sound b) }
{
    match a {
        Bound::Infinite => match b {
            Bound::Infinite => Ordering::Equal,
            _ => Ordering::Less,
        },
        Bound::Excluded(f) => match b {
            Bound::Infinite => Ordering::Greater,
            Bound::Excluded(g) => fraction_order(f, g),
            Bound::Included(g) => fraction_order(f, g).then(Ordering::Greater),
        },
        Bound::Included(f) => match b {
            Bound::Infinite => Ordering::Greater,
            Bound::Excluded(g) => fraction_order(f, g).then(Ordering::Less),
            Bound::Included(g) => fraction_order(f, g),
        },
    }
}

/// The order of two fractions.
fn fraction_order(f: Frac, g: Frac) -> Ordering
    ensures { result ≡ fraction_order (sound_fraction f) (sound_fraction g) }
{
    compare(f, g)
}

/// The order of two fractions, of which it is then known that their denominators are above 0.
fn compare(f: Frac, g: Frac) -> Ordering
    ensures value { result ≡ fraction_order f g }
    ensures first { IsPositive f }
    ensures second { IsPositive g }
{
    cmp_frac(f.num, f.den, g.num, g.den)
}
