//! Common divisors, and division.

ghost use Rattle.std.specs.Prelude.{◌≡◌, ◌≢◌, int_div, ◌^◌, ◌<◌, ℤ, pos, negsuc, ◌≤ℤ◌, unsigned_abs};
ghost use Rattle.std.specs.Int.{IsGcd};
ghost use Rattle.ded_num.specs.Gcd.{nat_gcd};
ghost use Rattle.ded_num.specs.Length.{IsShort};

/// The greatest common divisor of two numbers with magnitudes of at most 127 binary digits; 0 for two zeros.
pub fn gcd(a: i128, b: i128) -> i128
    requires short_a { IsShort a }
    requires short_b { IsShort b }
    ensures value { result ≡ pos (nat_gcd (unsigned_abs a) (unsigned_abs b)) }
    ensures greatest { IsGcd (unsigned_abs a) (unsigned_abs b) (unsigned_abs result) }
    ensures not_negative { pos 0 ≤ℤ result }
    ensures short { IsShort result }
{
    gcd_of(a.unsigned_abs(), b.unsigned_abs()) as i128
}

/// The greatest common divisor of two magnitudes of at most 127 binary digits, by Euclid's steps.
fn gcd_of(a: u128, b: u128) -> u128
    requires short_a { a < 2 ^ 127 }
    requires short_b { b < 2 ^ 127 }
    ensures value { IsGcd a b result }
    ensures short { result < 2 ^ 127 }
{
    let mut x = a;
    let mut y = b;
    while y != 0 {
        let rest = x % y;
        x = y;
        y = rest;
    }
    x
}

/// The quotient, rounded toward zero.
pub fn quotient(a: i128, by: i128) -> i128
    requires nonzero { by ≢ pos 0 }
    // the least `i128` has no negative among them
    requires short { by ≡ negsuc 0 → IsShort a }
    ensures { result ≡ int_div a by }
{
    a / by
}
