//! Kinds of bytes.
ghost use Rattle.std.specs.Prelude.{◌≡◌};
ghost use Rattle.ded_lex.specs.Gaps.{blank_byte};
ghost use Rattle.ded_lex.specs.Lexemes.{digit_byte, letter_byte, word_byte, text_byte};

/// Whether the byte is a space, a tab, a line feed or a carriage return.
pub fn is_blank_byte(byte: u8) -> bool
    ensures { result ≡ blank_byte byte }
{
    byte == b' ' || byte == b'\t' || byte == b'\n' || byte == b'\r'
}

/// Whether the byte is a digit.
pub fn is_digit(byte: u8) -> bool
    ensures { result ≡ digit_byte byte }
{
    matches!(byte, b'0'..=b'9')
}

/// Whether the byte is a letter or `_`.
pub fn is_letter(byte: u8) -> bool
    ensures { result ≡ letter_byte byte }
{
    matches!(byte, b'A'..=b'Z' | b'a'..=b'z' | b'_')
}

/// Whether the byte is a letter, a digit or `_`.
pub fn is_word_byte(byte: u8) -> bool
    ensures { result ≡ word_byte byte }
{
    is_letter(byte) || is_digit(byte)
}

/// Whether the byte may stand between quotes.
pub fn is_text_byte(byte: u8) -> bool
    ensures { result ≡ text_byte byte }
{
    matches!(byte, 32..=126 | 128..=255)
}
