//! Comparisons of bounds, and intervals that share a value.
ghost use Rattle.std.specs.Prelude.{◌≡◌};
ghost use Rattle.ded_model.specs.declared.bound.Bound.TheVariants.{Excluded, Included};
ghost use Rattle.ded_model.specs.Bound.{is_outside};
ghost use Rattle.ded_box.specs.Intervals.{HasPositive, IsInterval, end_of, narrower, wider, may_meet, intervals_meet};

use ded_model::bound::{Bound, Frac};
use ded_num::cmp_frac;
use std::cmp::Ordering;

/// A side of an interval.
#[derive(Clone, Copy)]
pub enum Side {
    Lower,
    Upper,
}

/// The narrower of two bounds on the side: it lets through what both let through.
pub fn narrower(side: Side, a: Bound, b: Bound) -> Bound
    ensures { result ≡ narrower (end_of side) a b }
{
    match a {
        Bound::Infinite => b,
        Bound::Excluded(f) => narrower_than_excluded(side, f, b),
        Bound::Included(f) => narrower_than_included(side, f, b),
    }
}

/// The narrower of two bounds on the side, the first of which is at `f` and isn't attained.
fn narrower_than_excluded(side: Side, f: Frac, b: Bound) -> Bound
    ensures { result ≡ narrower (end_of side) (Excluded f) b }
{
    match b {
        Bound::Excluded(g) if is_outside(side, f, g) => Bound::Excluded(g),
        Bound::Included(g) if is_outside(side, f, g) => Bound::Included(g),
        _ => Bound::Excluded(f),
    }
}

/// The narrower of two bounds on the side, the first of which is at `f` and is attained.
fn narrower_than_included(side: Side, f: Frac, b: Bound) -> Bound
    ensures { result ≡ narrower (end_of side) (Included f) b }
{
    match b {
        Bound::Excluded(g) if !is_outside(side, g, f) => Bound::Excluded(g),
        Bound::Included(g) if !is_outside(side, g, f) => Bound::Included(g),
        _ => Bound::Included(f),
    }
}

/// The wider of two bounds on the side: it lets through what one of them lets through.
pub fn wider(side: Side, a: Bound, b: Bound) -> Bound
    ensures { result ≡ wider (end_of side) a b }
{
    match a {
        Bound::Infinite => Bound::Infinite,
        Bound::Excluded(f) => wider_than_excluded(side, f, b),
        Bound::Included(f) => wider_than_included(side, f, b),
    }
}

/// The wider of two bounds on the side, the first of which is at `f` and isn't attained.
fn wider_than_excluded(side: Side, f: Frac, b: Bound) -> Bound
    ensures { result ≡ wider (end_of side) (Excluded f) b }
{
    match b {
        Bound::Infinite => Bound::Infinite,
        Bound::Excluded(g) if is_outside(side, g, f) => Bound::Excluded(g),
        Bound::Included(g) if !is_outside(side, f, g) => Bound::Included(g),
        _ => Bound::Excluded(f),
    }
}

/// The wider of two bounds on the side, the first of which is at `f` and is attained.
fn wider_than_included(side: Side, f: Frac, b: Bound) -> Bound
    ensures { result ≡ wider (end_of side) (Included f) b }
{
    match b {
        Bound::Infinite => Bound::Infinite,
        Bound::Excluded(g) if is_outside(side, g, f) => Bound::Excluded(g),
        Bound::Included(g) if is_outside(side, g, f) => Bound::Included(g),
        _ => Bound::Included(f),
    }
}

/// Whether some value is within both a lower and an upper bound.
pub fn may_meet(lower: &Bound, upper: &Bound) -> bool
    ensures { result ≡ may_meet lower.now upper.now }
{
    match lower {
        Bound::Infinite => true,
        Bound::Excluded(f) => match upper {
            Bound::Infinite => true,
            Bound::Excluded(g) => is_outside(Side::Lower, *f, *g),
            Bound::Included(g) => is_outside(Side::Lower, *f, *g),
        },
        Bound::Included(f) => match upper {
            Bound::Infinite => true,
            Bound::Excluded(g) => is_outside(Side::Lower, *f, *g),
            Bound::Included(g) => !is_outside(Side::Lower, *g, *f),
        },
    }
}

/// Whether some value lies in both intervals.
pub fn intervals_meet(a: &(Bound, Bound), b: &(Bound, Bound)) -> bool
    ensures { result ≡ intervals_meet a.now b.now }
{
    may_meet(&a.0, &a.1) && may_meet(&b.0, &b.1) && may_meet(&a.0, &b.1) && may_meet(&b.0, &a.1)
}

/// Whether `f` lies further out than `g` on the side.
fn is_outside(side: Side, f: Frac, g: Frac) -> bool
    ensures { result ≡ is_outside (end_of side) f g }
{
    let order = cmp_frac(f.num, f.den, g.num, g.den);
    match side {
        Side::Lower => order == Ordering::Less,
        Side::Upper => order == Ordering::Greater,
    }
}

/// An equal interval, of whose fractions it is then known that their denominators are above 0.
pub fn checked(interval: &(Bound, Bound)) -> (Bound, Bound)
    ensures same { result ≡ interval.now }
    ensures intervals { IsInterval result }
{
    (checked_bound(interval.0), checked_bound(interval.1))
}

/// An equal bound, of whose fraction it is then known that its denominator is above 0.
fn checked_bound(bound: Bound) -> Bound
    ensures same { result ≡ bound }
    ensures positive { HasPositive bound }
{
    match bound {
        Bound::Infinite => Bound::Infinite,
        Bound::Excluded(f) => Bound::Excluded(Frac {
            num: f.num,
            den: f.den,
        }),
        Bound::Included(f) => Bound::Included(Frac {
            num: f.num,
            den: f.den,
        }),
    }
}
