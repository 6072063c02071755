//! Products and differences that are known to be short.
ghost use Rattle.std.specs.Prelude.{◌≡◌, ◌*ℤ◌, ◌-ℤ◌};
ghost use Rattle.ded_axes.specs.Places.{rise};
ghost use Rattle.ded_num.specs.Length.{IsShort, IsWithin};

/// The product.
pub(crate) fn product(a: i128, b: i128) -> i128
    requires { IsShort (a *ℤ b) }
    ensures { result ≡ a *ℤ b }
{
    a * b
}

/// The difference.
pub(crate) fn difference(a: i128, b: i128) -> i128
    requires { IsShort (a -ℤ b) }
    ensures { result ≡ a -ℤ b }
{
    a - b
}

/// How far `z1 / d1` is above `z2 / d2`, in units of `1 / (d1 * d2)`.
pub(crate) fn rise(z1: i128, d1: i128, z2: i128, d2: i128) -> i128
    requires first { IsShort (z1 *ℤ d2) }
    requires second { IsShort (z2 *ℤ d1) }
    requires whole { IsShort (z1 *ℤ d2 -ℤ z2 *ℤ d1) }
    ensures { result ≡ rise z1 d1 z2 d2 }
{
    difference(product(z1, d2), product(z2, d1))
}

/// How far the first number is below the second, times a denominator.
pub(crate) fn extent(low: i128, high: i128, den: i128) -> i128
    requires low { IsWithin 62 low }
    requires high { IsWithin 62 high }
    requires whole { IsWithin 126 ((high -ℤ low) *ℤ den) }
    ensures { result ≡ (high -ℤ low) *ℤ den }
{
    (high - low) * den
}
