//! Combinations of rows that are all at most 0.
ghost use Rattle.std.specs.Prelude.{◌≡◌, true};
ghost use Rattle.ded_cert.specs.Tracing.{is_weak_row};

use ded_elimination::Mixing;
use ded_model::memory::Refused;
use ded_model::row::Row;
use ded_model::slot::Slot;

/// The combination of any two rows by `<=`, which is one again unless it has no slot.
pub(crate) struct Weak {}

impl Mixing for Weak {
    ghost rows = { λ r. is_weak_row r ≡ true };

    ghost decides = { ⊥ };

    fn mix(r1: &Row, r2: &Row, slot: Slot) -> Result<Row, Refused> {
        ded_row::mix(r1, r2, slot)
    }
}
