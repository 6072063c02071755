//! Exact division modulo 2 ^ 128.

/// A positive number, by which numbers are divided that it divides.
#[derive(Clone, Copy)]
pub(crate) struct Divisor {
    /// How often it is divided by 2.
    zeros: u32,
    /// What is left, times this, is 1 modulo 2 ^ 128.
    inverse: i128,
}

impl Divisor {
    pub fn new(number: i128) -> Divisor {
        let zeros = number.trailing_zeros();
        Divisor {
            zeros,
            inverse: inverse(number.wrapping_shr(zeros)),
        }
    }

    /// The quotient, where it is that many digits shorter than 128.
    pub fn quotient(self, number: i128) -> i128 {
        let quotient = number.wrapping_shr(self.zeros).wrapping_mul(self.inverse);
        if self.zeros == 0 {
            quotient
        } else {
            quotient.wrapping_shl(self.zeros).wrapping_shr(self.zeros)
        }
    }
}

/// The inverse of an odd number modulo 2 ^ 128, after Newton: each step doubles the digits that are right.
fn inverse(odd: i128) -> i128 {
    let mut inverse = odd.wrapping_mul(3) ^ 2;
    for _ in 0..5 {
        inverse = inverse.wrapping_mul(2_i128.wrapping_sub(odd.wrapping_mul(inverse)));
    }
    inverse
}
