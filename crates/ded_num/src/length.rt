//! How long a number is.

ghost use Rattle.std.specs.Prelude.{◌≡◌};
ghost use Rattle.ded_num.specs.Length.{length_of};

/// The count of binary digits of the magnitude; 0 for 0, and 128 for `i128::MIN`.
pub fn bits(a: i128) -> u32
    ensures { result ≡ length_of a }
{
    let magnitude = a.unsigned_abs();
    if magnitude == 0 {
        0
    } else {
        magnitude.ilog2() + 1
    }
}
