//! Sums and products that are known to be short.
ghost use Rattle.std.specs.Prelude.{◌≡◌, ◌+ℤ◌, ◌-ℤ◌, ◌*ℤ◌};
ghost use Rattle.ded_num.specs.Length.{IsShort};

/// The product.
pub(crate) fn product(a: i128, b: i128) -> i128
    requires { IsShort (a *ℤ b) }
    ensures { result ≡ a *ℤ b }
{
    a * b
}

/// The sum.
pub(crate) fn sum(a: i128, b: i128) -> i128
    requires { IsShort (a +ℤ b) }
    ensures { result ≡ a +ℤ b }
{
    a + b
}

/// The difference.
fn difference(a: i128, b: i128) -> i128
    requires { IsShort (a -ℤ b) }
    ensures { result ≡ a -ℤ b }
{
    a - b
}

/// `a * b - c * d`.
pub(crate) fn cross(a: i128, b: i128, c: i128, d: i128) -> i128
    requires first { IsShort (a *ℤ b) }
    requires second { IsShort (c *ℤ d) }
    requires whole { IsShort (a *ℤ b -ℤ c *ℤ d) }
    ensures { result ≡ a *ℤ b -ℤ c *ℤ d }
{
    difference(product(a, b), product(c, d))
}
