//! Bytes, words and numbers at the front of bytes.
ghost use Rattle.std.specs.Prelude.{◌≡◌, ◌≤◌, length, Some, None, IfSome, IfNone};
ghost use Rattle.ded_lex.specs.Lexemes.{digit_byte, word_byte};
ghost use Rattle.ded_lex.specs.Fronts.{word_rest};
ghost use Rattle.ded_readback.specs.Reading.{behind, digits_from, integer_at, behind_line, with_digit};

/// What stands behind the prefix, or none where the bytes don't begin with it.
#[tactic(auto, using(crate::proofs::Prefixes::behind_there, crate::proofs::Prefixes::behind_absent))]
pub(crate) fn behind<'a>(bytes: &'a [u8], prefix: &[u8]) -> Option<&'a [u8]>
    ensures some { IfSome result (λ rest. behind prefix.now bytes.now ≡ Some rest.now) }
    ensures none { IfNone result (behind prefix.now bytes.now ≡ None) }
{
    bytes.strip_prefix(prefix)
}

/// How many bytes of a word stand in front.
pub(crate) fn word_length(bytes: &[u8]) -> usize
    ensures value { result ≡ word_rest bytes.now }
    ensures within { result ≤ length bytes.now }
{
    for (i, byte) in bytes.iter().enumerate() {
        if !is_word_byte(*byte) {
            return i;
        }
    }
    bytes.len()
}

/// The number of the digits in front, as far as 128 bits hold it, and what stands behind them.
pub(crate) fn digits(bytes: &[u8]) -> (u128, &[u8])
    ensures { (result.0, result.1.now) ≡ digits_from 0 bytes.now }
{
    let mut value = 0u128;
    for (i, byte) in bytes.iter().enumerate() {
        if !is_digit(*byte) {
            return (value, &bytes[i..]);
        }
        value = with_digit(value, *byte);
    }
    (value, &[])
}

/// Whether the number in front is negative, its magnitude as far as 128 bits hold it, and what stands behind it.
pub(crate) fn integer(bytes: &[u8]) -> (bool, u128, &[u8])
    ensures { (result.0, result.1, result.2.now) ≡ integer_at bytes.now }
{
    match behind(bytes, b"-") {
        Some(rest) => {
            let (value, rest) = digits(rest);
            (true, value, rest)
        }
        None => {
            let (value, rest) = digits(bytes);
            (false, value, rest)
        }
    }
}

/// What stands behind the first line, which is nothing where no line feed ends it.
pub(crate) fn behind_line(bytes: &[u8]) -> &[u8]
    ensures { result.now ≡ behind_line bytes.now }
{
    for (i, byte) in bytes.iter().enumerate() {
        if *byte == b'\n' {
            return &bytes[i + 1..];
        }
    }
    &[]
}

/// The number with one more digit behind its digits, as far as 128 bits hold it.
fn with_digit(value: u128, byte: u8) -> u128
    ensures { result ≡ with_digit value byte }
{
    value
        .saturating_mul(10)
        .saturating_add(u128::from(byte.saturating_sub(b'0')))
}

/// Whether the byte is a digit.
fn is_digit(byte: u8) -> bool
    ensures { result ≡ digit_byte byte }
{
    matches!(byte, b'0'..=b'9')
}

/// Whether the byte is a letter, a digit or `_`.
fn is_word_byte(byte: u8) -> bool
    ensures { result ≡ word_byte byte }
{
    matches!(byte, b'A'..=b'Z' | b'a'..=b'z' | b'_' | b'0'..=b'9')
}
