//! Powers of ten.
ghost use Rattle.std.specs.Prelude.{◌≡◌, ◌≤◌, ◌<◌, ◌^◌, pos, ◌<ℤ◌};
ghost use Rattle.ded_num.specs.Length.{IsWithin};

/// This power of ten.
pub(crate) fn power(exponent: u32) -> i128
    requires { exponent ≤ 9 }
    ensures value { result ≡ pos (10 ^ exponent) }
    ensures short { IsWithin 30 result }
    ensures positive { pos 0 <ℤ result }
{
    magnitude(exponent) as i128
}

/// The same without a sign.
#[tactic(auto, using(crate::proofs::Exponents::above_zero))]
fn magnitude(exponent: u32) -> u128
    requires { exponent ≤ 9 }
    ensures value { result ≡ 10 ^ exponent }
    ensures short { result < 2 ^ 30 }
    ensures positive { 0 < result }
{
    10_u128.pow(exponent)
}
