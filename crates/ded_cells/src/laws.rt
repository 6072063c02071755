//! Laws of what tables say. Each is the contract of a function that does nothing.
ghost use Rattle.std.specs.Prelude.{◌≡◌, ◌<◌, ◌*◌, ◌^◌, ℕ, true, length};
ghost use Rattle.std.specs.List.{AllByRecursion};
ghost use Rattle.ded_cells.specs.Decimals.{digits_behind, digits_number, has_decimal, IsDigit};

/// The digits behind the point of a decimal are its value: read as one number, over the power of ten of how many they
/// are, they are the rest over the denominator. Each is a decimal digit.
pub fn decimals()
    ensures value { (r d : ℕ) → r < d → has_decimal d ≡ true
        → digits_number 0 (digits_behind 9 r d) * d ≡ r * 10 ^ length (digits_behind 9 r d) }
    ensures digits { (r d : ℕ) → r < d → AllByRecursion IsDigit (digits_behind 9 r d) }
{}
