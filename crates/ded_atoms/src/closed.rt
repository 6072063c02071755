//! Tuples without slots.
ghost use Rattle.std.specs.Prelude.{◌≡◌, false};
ghost use Rattle.ded_model.specs.declared.slot.Slot.{Slot};
ghost use Rattle.ded_model.specs.Point.{Point};
ghost use Rattle.ded_model.specs.Row.{tuple_holds, tuple_mentions, tuples_hold, tuples_mention};

use ded_model::tuple::Tuple;

/// Whether the tuples, which mention no slot, hold; they do so everywhere or nowhere. It does not allocate.
pub fn holds_everywhere(tuples: &[Tuple]) -> bool
    requires closed { (s : Slot) → tuples_mention tuples.now s ≡ false }
    ensures { (p : Point) → tuples_hold tuples.now p ≡ result }
{
    for tuple in tuples {
        if holds(tuple) {
            return true;
        }
    }
    false
}

/// Whether the tuple, which mentions no slot, holds: its only atom could be `0 < 0`.
fn holds(tuple: &Tuple) -> bool
    requires { (s : Slot) → tuple_mentions tuple.now s ≡ false }
    ensures { (p : Point) → tuple_holds tuple.now p ≡ result }
{
    tuple.atoms.is_empty()
}
