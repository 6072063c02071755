//! Combinations of two rows in which a slot falls out.
ghost use Rattle.std.specs.Prelude.{◌≡◌, ◌<◌, ◌++◌, ◌∷◌, [], ◌⊎◌, ◌+ℤ◌, ◌*ℤ◌, ◌||◌, neg_ℤ, true, false, IfOk, OnOk};
ghost use Rattle.std.specs.Prelude.{IsErrOf};
ghost use Rattle.ded_num.specs.Length.{IsShort};
ghost use Rattle.ded_model.specs.declared.slot.Slot.{Slot};
ghost use Rattle.ded_model.specs.declared.slot.Sort.TheVariants.{Rat};
ghost use Rattle.ded_model.specs.Point.{Point};
ghost use Rattle.ded_model.specs.Coefs.{AllBelow, AreCoefs, coef_at, nonzero};
ghost use Rattle.ded_model.specs.Row.{row_holds, row_mentions};
ghost use Rattle.ded_model.specs.Normal.{IsNormalRow};
ghost use Rattle.ded_model.specs.Lines.{row_lines, combination, lines_clash};
ghost use Rattle.ded_row.specs.Mixing.{BoundsAbove, BoundsBelow, factor, join_op, mixed_coefs, mixed_row, mix_of};
ghost use Rattle.ded_row.specs.Mixing.{sum_is_long, coefs_are_long};

use crate::lowest::normal;
use crate::merging::{Next, next_slot};
use ded_model::memory::Refused;
use ded_model::row::{Coefs, Row, RowOp};
use ded_model::slot::Slot;
use ded_num::checked_mix;

/// Adds the two rows, each times the size of the other's coefficient of the slot, so that the slot falls out, and gives
/// the normal form of the sum. The first row bounds the slot from above, the second one from below; an equality counts
/// with either sign.
///
/// # Errors
/// `Wide` only where a product or a sum of them is too long at another slot or at the constant, otherwise out of
/// memory. Where one is too long, no row is given.
pub fn mix(r1: &Row, r2: &Row, slot: Slot) -> Result<Row, Refused>
    requires above { BoundsAbove r1.now.op (coef_at r1.now.coefs slot) }
    requires below { BoundsBelow r2.now.op (coef_at r2.now.coefs slot) }
    ensures value { IfOk result (λ r. r ≡ mix_of slot r1.now r2.now) }
    ensures normal { IfOk result (λ r. IsNormalRow r) }
    ensures holds { IfOk result (λ r. (p : Point) → 0 < p.den → row_holds r1.now p ≡ true → row_holds r2.now p ≡ true
        → row_holds r p ≡ true) }
    ensures without { IfOk result (λ r. row_mentions r slot ≡ false) }
    ensures over { IfOk result (λ r. (t : Slot) → row_mentions r t ≡ true
        → (row_mentions r1.now t ≡ true) ⊎ (row_mentions r2.now t ≡ true)) }
    ensures line { IfOk result (λ r. row_lines r ≡ combination slot r1.now r2.now) }
    ensures short { IfOk result (λ r. lines_clash slot r1.now r2.now ≡ false) }
    ensures wide { IsErrOf result Refused.Wide → lines_clash slot r1.now r2.now ≡ true }
{
    let a = r1.coefs.at(slot);
    let b = r2.coefs.at(slot);
    let sum = combined(r1, factor(a, b), r2, turned_factor(b, a), slot)?;
    Ok(normal(sum))
}

/// The magnitude of `b`, with the sign of `a`: what the one row is multiplied by.
fn factor(a: i128, b: i128) -> i128
    requires { IsShort b }
    ensures { result ≡ factor a b }
{
    if a > 0 { b.abs() } else { -b.abs() }
}

/// The magnitude of `a`, with the sign that `b` hasn't: what the other row is multiplied by.
fn turned_factor(b: i128, a: i128) -> i128
    requires { IsShort a }
    ensures { result ≡ factor (neg_ℤ b) a }
{
    if b < 0 { a.abs() } else { -a.abs() }
}

/// The sum of `k` times the first row and `m` times the second, without the slot.
fn combined(r1: &Row, k: i128, r2: &Row, m: i128, slot: Slot) -> Result<Row, Refused>
    ensures value { IfOk result (λ r. r ≡ mixed_row slot k r1.now m r2.now) }
    ensures short { IfOk result (λ r. (coefs_are_long slot k r1.now.coefs m r2.now.coefs
        || sum_is_long k r1.now.constant m r2.now.constant) ≡ false) }
    ensures wide { IsErrOf result Refused.Wide → (coefs_are_long slot k r1.now.coefs m r2.now.coefs
        || sum_is_long k r1.now.constant m r2.now.constant) ≡ true }
{
    let none = Coefs::new(r1.coefs.allocator());
    let coefs = combined_coefs(none, r1.coefs.list(), k, r2.coefs.list(), m, slot)?;
    let Some(constant) = checked_mix(k, r1.constant, m, r2.constant) else {
        return Err(Refused::Wide);
    };
    Ok(Row {
        coefs,
        constant,
        op: joined(r1.op, r2.op),
    })
}

/// The op of a sum of two rows, from their ops.
fn joined(a: RowOp, b: RowOp) -> RowOp
    ensures { result ≡ join_op a b }
{
    match (a, b) {
        (RowOp::Zero, _) => b,
        (RowOp::Below, _) | (_, RowOp::Below) => RowOp::Below,
        _ => RowOp::AtMost,
    }
}

/// The sum of `k` times the first list of coefficients and `m` times the second, without the slot. It is put into
/// `out`, in which nothing is yet.
fn combined_coefs(
    mut out: Coefs,
    xs: &[(Slot, i128)],
    k: i128,
    ys: &[(Slot, i128)],
    m: i128,
    slot: Slot,
) -> Result<Coefs, Refused>
    requires none { out ≡ [] }
    requires xs { AreCoefs xs.now }
    requires ys { AreCoefs ys.now }
    ensures value { IfOk result (λ cs. cs ≡ mixed_coefs slot k xs.now m ys.now) }
    ensures short { IfOk result (λ cs. coefs_are_long slot k xs.now m ys.now ≡ false) }
    ensures wide { IsErrOf result Refused.Wide → coefs_are_long slot k xs.now m ys.now ≡ true }
{
    let mut i = 0;
    let mut j = 0;
    while i < xs.len() || j < ys.len() {
        let next = next_slot(xs, i, ys, j);
        if !next.slot.is_same(slot) {
            push_sum(&mut out, k, m, next)?;
        }
        i = next.i;
        j = next.j;
    }
    Ok(out)
}

/// Adds `k` times the one coefficient and `m` times the other of the next slot at the end, unless the sum is 0.
fn push_sum(out: &mut Coefs, k: i128, m: i128, next: Next) -> Result<(), Refused>
    requires rational { next.slot.sort ≡ Rat }
    requires last { AllBelow next.slot.number out.old }
    ensures ok { OnOk result (out.new ≡ out.old ++ nonzero ((next.slot, k *ℤ next.a +ℤ m *ℤ next.b) ∷ [])) }
    ensures short { OnOk result (sum_is_long k next.a m next.b ≡ false) }
    ensures wide { IsErrOf result Refused.Wide → sum_is_long k next.a m next.b ≡ true }
{
    let Some(a) = checked_mix(k, next.a, m, next.b) else {
        return Err(Refused::Wide);
    };
    if a != 0 {
        out.push(next.slot, a)?;
    }
    Ok(())
}
