//! Points with rational values, as data.

use ded_model::slot::Slot;

/// A point: the numbers of some slots, over one denominator. Any other slot has 0.
#[derive(Drop)]
pub struct Witness {
    pub values: Vec<(Slot, i128)>,
    pub denominator: i128,
}
