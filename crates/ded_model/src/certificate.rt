//! Certificates: what shows of pairs of tuples that they have no common point.
use std::marker::Model;

/// Numbers by which the rows of two tuples are multiplied, one for each row in stored order, those of the first tuple
/// before those of the second. Each has at most 127 binary digits. Contracts see the list.
#[derive(Drop)]
pub struct Multipliers {
    pub list: Vec<i128>,
}

impl Model for Multipliers {
    ghost use Rattle.std.specs.Prelude.{List, ℤ};

    ghost Value = { List ℤ };

    ghost use Rattle.std.specs.List.{AllByRecursion};
    ghost use Rattle.ded_num.specs.Length.{IsShort};

    ghost view = { λ m. m.list.items };

    ghost invariant = { λ m. AllByRecursion IsShort m.list.items };
}

/// Why two tuples have no common point: no texts fit both, or a sum of multiples of their rows holds nowhere.
#[derive(Drop)]
pub enum Proof {
    Text,
    Multipliers(Multipliers),
}

/// A proof for two tuples, each named by its number.
#[derive(Drop)]
pub struct Entry {
    pub first: u64,
    pub second: u64,
    pub proof: Proof,
}
