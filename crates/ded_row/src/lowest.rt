//! Rows in lowest numbers.
ghost use Rattle.std.specs.Prelude.{◌≡◌, pos, map, [], ◌∷◌};
ghost use Rattle.ded_num.specs.Length.{IsShort};
ghost use Rattle.ded_num.specs.Gcd.{gcd_all};
ghost use Rattle.ded_model.specs.Coefs.{AreCoefs};
ghost use Rattle.ded_model.specs.Normal.{IsNormalRow, normal_row, constant_row, divisor_of};

use ded_model::row::{Coefs, Row, RowOp};
use ded_model::slot::Slot;
use ded_num::{gcd, quotient};

/// The normal form of a row: its numbers divided by their greatest common divisor, an equality with a positive first
/// coefficient, and a row without coefficients as `0 = 0` or `0 < 0`. It does not allocate.
pub fn normal(row: Row) -> Row
    ensures value { result ≡ normal_row row }
    ensures normal { IsNormalRow result }
{
    let Row {
        mut coefs,
        constant,
        op,
    } = row;
    if coefs.list().is_empty() {
        return truth_row(coefs, op.meets_zero(constant));
    }
    let by = divisor(op, constant, coefs.list());
    coefs.divide(by);
    Row {
        coefs,
        constant: quotient(constant, by),
        op,
    }
}

/// The row that holds everywhere, or nowhere. It is handed an empty list of coefficients.
pub fn truth_row(coefs: Coefs, holds: bool) -> Row
    requires { coefs ≡ [] }
    ensures { result ≡ constant_row holds }
{
    Row {
        coefs,
        constant: 0,
        op: if holds { RowOp::Zero } else { RowOp::Below },
    }
}

/// What a row with these numbers is divided by.
fn divisor(op: RowOp, constant: i128, coefs: &[(Slot, i128)]) -> i128
    requires short { IsShort constant }
    requires coefs { AreCoefs coefs.now }
    ensures { result ≡ divisor_of op constant coefs.now }
{
    match coefs {
        [] => 1,
        [first, ..] => {
            let size = common_divisor(constant, coefs);
            match op {
                RowOp::Zero if first.1 < 0 => -size,
                _ => size,
            }
        }
    }
}

/// The greatest common divisor of the constant and all coefficients.
fn common_divisor(constant: i128, coefs: &[(Slot, i128)]) -> i128
    requires short { IsShort constant }
    requires coefs { AreCoefs coefs.now }
    ensures value { result ≡ pos (gcd_all (constant ∷ map (λ c. c.1) coefs.now)) }
    ensures short { IsShort result }
{
    let mut size = gcd(0, constant);
    for coef in coefs {
        size = gcd(size, coef.1);
    }
    size
}
