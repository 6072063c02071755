//! Boxes: products of intervals, as bounds on the values of several columns at once.
//!
//! A [`BoundBox`] has an interval for each column, and a list of values lies in it where each value lies in its
//! interval. Two boxes meet exactly where some list of values lies in both, and the cover of two boxes is the least box
//! that contains both. An interval may be empty; nothing lies in such a box, so it meets no other, and its cover with
//! another is the other.
//!
//! The comparisons of single bounds that this takes are here as well: the narrower and the wider of two bounds, and
//! whether a lower and an upper bound leave a value between them. All are exact, by the order of fractions of
//! `ded_num`.
#![tactic(auto)]

mod bound_box;
mod interval;

pub use bound_box::{BoundBox, cover, hulls, meets};
pub use interval::{Side, checked, intervals_meet, may_meet, narrower, wider};
