//! Boxes.
ghost use Rattle.std.specs.Prelude.{◌≡◌, ◌↔◌, IsTrue, IfOk, length};
ghost use Rattle.ded_box.specs.Boxes.{AreIntervals, Shared, IsCover, boxes_meet, has_values, hull, hulls};

use crate::interval::{Side, checked, intervals_meet, may_meet, wider};
use ded_model::bound::Bound;
use ded_model::memory::NoMemory;
use std::alloc::Global;
use std::marker::Model;

/// An interval for each column, as its lower and its upper bound. Contracts see the list.
#[derive(Drop)]
pub struct BoundBox {
    list: Vec<(Bound, Bound)>,
}

impl Model for BoundBox {
    ghost use Rattle.std.specs.Prelude.{List};
    ghost use Rattle.ded_model.specs.declared.bound.Bound.{Bound};
    ghost use Rattle.ded_box.specs.Boxes.{AreIntervals};

    ghost Value = { List (Bound × Bound) };

    ghost view = { λ b. b.list.items };

    ghost invariant = { λ b. AreIntervals b.list.items };
}

impl BoundBox {
    /// The box with these intervals, in order.
    ///
    /// # Errors
    /// Out of memory.
    pub fn new(alloc: Global, spans: &[(Bound, Bound)]) -> Result<BoundBox, NoMemory>
        ensures { IfOk result (λ b. b ≡ spans.now) }
    {
        let mut list = Vec::with_capacity(alloc, spans.len())?;
        for span in spans {
            list.push(checked(span))?;
        }
        Ok(BoundBox { list })
    }

    /// The intervals. It does not allocate.
    pub fn spans(&self) -> &[(Bound, Bound)]
        ensures spans { result.now ≡ self.now }
        ensures intervals { AreIntervals self.now }
    {
        &self.list
    }

    /// An equal box.
    ///
    /// # Errors
    /// Out of memory.
    pub fn copy(&self) -> Result<BoundBox, NoMemory>
        ensures { IfOk result (λ b. b ≡ self.now) }
    {
        Ok(BoundBox {
            list: self.list.clone()?,
        })
    }
}

/// Whether some list of values lies in both boxes. It does not allocate.
pub fn meets(a: &BoundBox, b: &BoundBox) -> bool
    ensures value { result ≡ boxes_meet a.now b.now }
    ensures shared { IsTrue result ↔ Shared a.now b.now }
{
    all_meet(a.spans(), b.spans())
}

/// Whether there are as many intervals in both lists, and each shares a value with that of the other list.
fn all_meet(a: &[(Bound, Bound)], b: &[(Bound, Bound)]) -> bool
    ensures { result ≡ boxes_meet a.now b.now }
{
    if a.len() != b.len() {
        return false;
    }
    for i in 0..a.len() {
        if !intervals_meet(&a[i], &b[i]) {
            return false;
        }
    }
    true
}

/// The least box that contains both.
///
/// # Errors
/// Out of memory.
pub fn cover(alloc: Global, a: &BoundBox, b: &BoundBox) -> Result<BoundBox, NoMemory>
    requires { length a.now ≡ length b.now }
    ensures cover { IfOk result (λ c. IsCover a.now b.now c) }
    ensures length { IfOk result (λ c. length c ≡ length a.now) }
{
    let (first, second) = (a.spans(), b.spans());
    if !are_full(first) {
        return b.copy();
    }
    if !are_full(second) {
        return a.copy();
    }
    Ok(BoundBox {
        list: hulls(alloc, first, second)?,
    })
}

/// At each place the least interval that contains the intervals of both lists, as far as both lists go; none of them is
/// empty.
///
/// # Errors
/// Out of memory.
pub fn hulls(
    alloc: Global,
    first: &[(Bound, Bound)],
    second: &[(Bound, Bound)],
) -> Result<Vec<(Bound, Bound)>, NoMemory>
    ensures { IfOk result (λ v. v.items ≡ hulls first.now second.now) }
{
    let mut list = Vec::with_capacity(alloc, first.len())?;
    for (i, span) in first.iter().enumerate() {
        if i < second.len() {
            list.push(hull(span, &second[i]))?;
        }
    }
    Ok(list)
}

/// Whether none of the intervals is empty.
fn are_full(spans: &[(Bound, Bound)]) -> bool
    ensures { result ≡ has_values spans.now }
{
    spans.iter().all(|span| may_meet(&span.0, &span.1))
}

/// The least interval that contains both intervals, where none of them is empty.
fn hull(a: &(Bound, Bound), b: &(Bound, Bound)) -> (Bound, Bound)
    ensures { result ≡ hull a.now b.now }
{
    (wider(Side::Lower, a.0, b.0), wider(Side::Upper, a.1, b.1))
}
