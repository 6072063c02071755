//! Rows over other slots.
ghost use Rattle.std.specs.Prelude.{◌≡◌, ◌<◌, IfOk, true, []};
ghost use Rattle.ded_model.specs.declared.slot.Slot.{Slot};
ghost use Rattle.ded_model.specs.Point.{Point};
ghost use Rattle.ded_model.specs.Coefs.{AreCoefs};
ghost use Rattle.ded_model.specs.Row.{row_holds, row_mentions};
ghost use Rattle.ded_model.specs.Normal.{IsNormalRow, normal_row};
ghost use Rattle.ded_model.specs.Lines.{row_lines};
ghost use Rattle.ded_model.specs.Renaming.{renamed, renamed_onto, IsOneToOne, KeepsSorts, IsRenamedPoint, mapped_lines};
ghost use Rattle.ded_row.specs.Renaming.{renamed_row};

use crate::lowest::normal;
use ded_model::memory::NoMemory;
use ded_model::row::{Coefs, Row};
use ded_model::slot::{Slot, renamed};

/// The normal form of the row with each slot replaced as the pairs say; a slot that no pair names stays. The pairs are
/// one to one on the row's slots and keep their sorts. The result holds at a point exactly where the row does at a
/// point that has the same numbers at the slots before. Its lines are the row's over the new slots.
///
/// # Errors
/// Out of memory.
pub fn rename(row: &Row, map: &[(Slot, Slot)]) -> Result<Row, NoMemory>
    requires one { IsOneToOne map.now (row_mentions row.now) }
    requires sorts { KeepsSorts map.now (row_mentions row.now) }
    ensures value { IfOk result (λ r. r ≡ normal_row (renamed_row map.now row.now)) }
    ensures normal { IfOk result (λ r. IsNormalRow r) }
    ensures alike { IfOk result (λ r. (p q : Point) → 0 < p.den → IsRenamedPoint map.now (row_mentions row.now) p q
        → row_holds r q ≡ row_holds row.now p) }
    ensures mentions { IfOk result (λ r. (s : Slot) → row_mentions row.now s ≡ true
        → row_mentions r (renamed map.now s) ≡ true) }
    ensures lines { IfOk result (λ r. row_lines r ≡ mapped_lines map.now (row_lines row.now)) }
    ensures only { IfOk result (λ r. (t : Slot) → row_mentions r t ≡ true
        → (s : Slot) × (row_mentions row.now s ≡ true) × (renamed map.now s ≡ t)) }
{
    let coefs = renamed_coefs(row, map)?;
    Ok(normal(Row {
        coefs,
        constant: row.constant,
        op: row.op,
    }))
}

/// The coefficients of the row, each at the slot that the pairs put in the place of its own.
fn renamed_coefs(row: &Row, map: &[(Slot, Slot)]) -> Result<Coefs, NoMemory>
    requires sorts { KeepsSorts map.now (row_mentions row.now) }
    ensures value { IfOk result (λ cs. cs ≡ renamed_onto map.now [] row.now.coefs) }
    ensures coefs { AreCoefs row.now.coefs }
{
    let mut coefs = Coefs::new(row.coefs.allocator());
    for (slot, a) in row.coefs.list() {
        coefs.put(renamed(map, *slot), *a)?;
    }
    Ok(coefs)
}
