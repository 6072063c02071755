//! Arguments whose normal rows have a number above 2^63 - 1 in magnitude.
//!
//! The row of an argument that is a sum says that a variable has the sum's value. Its numbers are the sum's constant,
//! the sum's denominator and the sum's coefficients, up to signs.
ghost use Rattle.std.specs.Prelude.{◌≡◌, ◌∷◌, unsigned_abs};
ghost use Rattle.std.specs.List.{list_any};
ghost use Rattle.ded_num.specs.Gcd.{gcd_from, gcd_all};
ghost use Rattle.ded_num.specs.Length.{IsShort};
ghost use Rattle.ded_model.specs.Sum.{ArePartsWithin};
ghost use Rattle.ded_model.specs.LongRows.{coefficients, is_long_over, is_long_row, is_long_argument};
ghost use Rattle.ded_syntax.specs.Marks.{is_marked, is_unfit_argument};

use crate::long::is_long_over;
use ded_model::formula::{Operand, Term};
use ded_model::limits;
use ded_model::name::Name;
use ded_num::gcd;

/// The greatest common divisor, up to its sign, of a number and of the coefficients of the parts.
fn divisor_of_coefficients(first: i128, parts: &[(Name, i128)]) -> i128
    requires short { IsShort first }
    requires within { ArePartsWithin 112 parts.now }
    ensures value { unsigned_abs result ≡ gcd_from (unsigned_abs first) (coefficients parts.now) }
    ensures short { IsShort result }
{
    let mut by = first;
    for part in parts {
        by = gcd(by, part.1);
    }
    by
}

/// The greatest common divisor of the constant, the denominator and the coefficients of a sum.
fn sum_divisor(term: &Term) -> u128
    ensures { result ≡ gcd_all (term.now.constant ∷ term.now.over ∷ coefficients term.now.parts) }
{
    let by = gcd(gcd(0, term.constant), term.over);
    divisor_of_coefficients(by, &term.parts.list).unsigned_abs()
}

/// Whether a coefficient of the parts is above 2^63 - 1 in magnitude when it is divided by the divisor.
fn some_long_part(by: u128, parts: &[(Name, i128)]) -> bool
    ensures { result ≡ list_any (is_long_over by) (coefficients parts.now) }
{
    for part in parts {
        if is_long_over(by, part.1) {
            return true;
        }
    }
    false
}

/// Whether the normal row that says that a variable has the value of the sum has a number above 2^63 - 1 in magnitude.
fn is_long_sum(term: &Term) -> bool
    ensures { result ≡ is_long_row (term.now.over ∷ coefficients term.now.parts) term.now.constant }
{
    let by = sum_divisor(term);
    is_long_over(by, term.constant)
        || is_long_over(by, term.over)
        || some_long_part(by, &term.parts.list)
}

/// Whether the operand is a sum whose normal row as an argument has a number above 2^63 - 1 in magnitude.
fn is_long_argument(operand: &Operand) -> bool
    ensures { result ≡ is_long_argument operand.now }
{
    match operand {
        Operand::Sum(term) => is_long_sum(term),
        Operand::Single(_) | Operand::Quoted(_) => false,
    }
}

/// Whether the operand is a sum over 2^63 or more.
pub fn is_marked(operand: &Operand) -> bool
    ensures { result ≡ is_marked operand.now }
{
    match operand {
        Operand::Sum(term) => term.over.unsigned_abs() >= u128::from(limits::TOO_GREAT),
        Operand::Single(_) | Operand::Quoted(_) => false,
    }
}

/// Whether one of the operands is a sum over 2^63 or more, or one whose normal row as an argument has a number above
/// 2^63 - 1 in magnitude.
pub fn some_unfit_argument(operands: &[Operand]) -> bool
    ensures { result ≡ list_any is_unfit_argument operands.now }
{
    for operand in operands {
        if is_marked(operand) || is_long_argument(operand) {
            return true;
        }
    }
    false
}
