//! Whether texts are the same.
ghost use Rattle.std.specs.Prelude.{◌≡◌};
ghost use Rattle.std.specs.Str.{bytes_eq};

/// Whether the text is the word. Most other texts are told by their first byte, before all bytes are compared.
pub fn is_word(text: &[u8], word: &[u8]) -> bool
    ensures { result ≡ bytes_eq text.now word.now }
{
    match (text.first(), word.first()) {
        (Some(byte), Some(wanted)) if *byte != *wanted => false,
        _ => text == word,
    }
}
