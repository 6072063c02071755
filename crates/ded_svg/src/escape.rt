//! Texts in markup.
ghost use Rattle.std.specs.Prelude.{◌≡◌, ◌++◌, OnOk, chars, flat_map};
ghost use Rattle.ded_svg.specs.Escaping.{character_text, escape, is_written, plain_text};

use ded_dump::Text;
use ded_model::memory::NoMemory;
use std::alloc::Global;
use std::string::String;

/// Puts any bytes as a text of markup: what a reader sees of it are the characters of the bytes, with U+FFFD for each
/// invalid sequence, for each control character, and for the two others that XML forbids.
///
/// # Errors
/// Out of memory.
pub(crate) fn put_escaped(alloc: Global, text: &mut Text, bytes: &[u8]) -> Result<(), NoMemory>
    ensures { OnOk result (text.new ≡ text.old ++ escape bytes.now) }
{
    let valid = String::from_utf8_lossy(alloc, bytes)?;
    put_characters(text, valid.as_str())
}

/// Puts the characters of a text.
fn put_characters(text: &mut Text, characters: &str) -> Result<(), NoMemory>
    ensures { OnOk result (text.new ≡ text.old ++ flat_map character_text (chars characters.now)) }
{
    for c in characters.chars() {
        put_character(text, c)?;
    }
    Ok(())
}

/// Puts a character, as an entity where it has one.
fn put_character(text: &mut Text, c: char) -> Result<(), NoMemory>
    ensures { OnOk result (text.new ≡ text.old ++ character_text c) }
{
    match c {
        '&' => text.put(b"&amp;"),
        '<' => text.put(b"&lt;"),
        '>' => text.put(b"&gt;"),
        '"' => text.put(b"&quot;"),
        '\'' => text.put(b"&apos;"),
        _ => put_plain(text, c),
    }
}

/// Puts a character without an entity.
fn put_plain(text: &mut Text, c: char) -> Result<(), NoMemory>
    ensures { OnOk result (text.new ≡ text.old ++ plain_text c) }
{
    if !is_written(c) {
        return text.put(b"\xEF\xBF\xBD");
    }
    let mut buffer = [0; 4];
    text.put(c.encode_utf8(&mut buffer).as_bytes())
}

/// Whether a character is written at all.
fn is_written(c: char) -> bool
    ensures { result ≡ is_written c }
{
    !c.is_control() && c != '\u{FFFE}' && c != '\u{FFFF}'
}
