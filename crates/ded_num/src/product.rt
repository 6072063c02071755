//! Sums of two products, as far as they are short.

ghost use Rattle.std.specs.Prelude.{◌<◌, ℤ, ◌+ℤ◌, ◌*ℤ◌};
ghost use Rattle.std.specs.Option.{SomeIff};
ghost use Rattle.ded_num.specs.Length.{IsShort};

/// `a * x + b * y`, or `None` exactly where one of the two products or the sum has more than 127 binary digits.
pub fn checked_mix(a: i128, x: i128, b: i128, y: i128) -> Option<i128>
    ensures { SomeIff result
        (IsShort (a *ℤ x) × IsShort (b *ℤ y) × IsShort (a *ℤ x +ℤ b *ℤ y)) (a *ℤ x +ℤ b *ℤ y) }
{
    let left = short_product(a, x)?;
    let right = short_product(b, y)?;
    short_sum(left, right)
}

/// `a * x`, unless it has more than 127 binary digits: with factors of one word each, which most are, it hasn't.
pub fn short_product(a: i128, x: i128) -> Option<i128>
    ensures { SomeIff result (IsShort (a *ℤ x)) (a *ℤ x) }
{
    match (i64::try_from(a), i64::try_from(x)) {
        (Ok(a), Ok(x)) => Some(i128::from(a) * i128::from(x)),
        _ => long_product(a, x),
    }
}

/// `a * x`, unless it has more than 127 binary digits.
fn long_product(a: i128, x: i128) -> Option<i128>
    ensures { SomeIff result (IsShort (a *ℤ x)) (a *ℤ x) }
{
    match a.checked_mul(x) {
        Some(product) if product != i128::MIN => Some(product),
        _ => None,
    }
}

/// `a + b`, unless it has more than 127 binary digits.
pub fn short_sum(a: i128, b: i128) -> Option<i128>
    ensures { SomeIff result (IsShort (a +ℤ b)) (a +ℤ b) }
{
    match a.checked_add(b) {
        Some(sum) if sum != i128::MIN => Some(sum),
        _ => None,
    }
}
