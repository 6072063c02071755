//! The walk along two lists of coefficients, slot by slot.
ghost use Rattle.std.specs.Prelude.{◌+◌, ◌<◌, ◌≤◌, ◌⊎◌, drop, length};
ghost use Rattle.ded_model.specs.Coefs.{AreCoefs};
ghost use Rattle.ded_row.specs.Merging.{IsFirst};

use ded_model::slot::Slot;

/// A slot, its coefficient in each of two lists, 0 where it has none, and the places after it.
#[derive(Clone, Copy)]
pub struct Next {
    pub slot: Slot,
    pub a: i128,
    pub b: i128,
    pub i: usize,
    pub j: usize,
}

/// The first slot that stands in one of the lists from the places `i` and `j` on.
pub fn next_slot(xs: &[(Slot, i128)], i: usize, ys: &[(Slot, i128)], j: usize) -> Next
    requires xs { AreCoefs xs.now }
    requires ys { AreCoefs ys.now }
    requires place_i { i ≤ length xs.now }
    requires place_j { j ≤ length ys.now }
    requires more { (i < length xs.now) ⊎ (j < length ys.now) }
    ensures first { IsFirst (drop i xs.now) (drop j ys.now) result.slot result.a result.b (drop result.i xs.now)
        (drop result.j ys.now) }
    ensures place_i { (i ≤ result.i) × (result.i ≤ length xs.now) }
    ensures place_j { (j ≤ result.j) × (result.j ≤ length ys.now) }
    ensures more { i + j < result.i + result.j }
{
    if i == xs.len() {
        return Next {
            slot: ys[j].0,
            a: 0,
            b: ys[j].1,
            i,
            j: j + 1,
        };
    }
    if j == ys.len() || xs[i].0.number < ys[j].0.number {
        return Next {
            slot: xs[i].0,
            a: xs[i].1,
            b: 0,
            i: i + 1,
            j,
        };
    }
    if ys[j].0.number < xs[i].0.number {
        return Next {
            slot: ys[j].0,
            a: 0,
            b: ys[j].1,
            i,
            j: j + 1,
        };
    }
    Next {
        slot: xs[i].0,
        a: xs[i].1,
        b: ys[j].1,
        i: i + 1,
        j: j + 1,
    }
}
