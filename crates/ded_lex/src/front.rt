//! The gap or token with which bytes begin.
ghost use Rattle.std.specs.Prelude.{◌≡◌, ◌≤◌, ◌<◌, ◌+◌, length, IfSome, false};
ghost use Rattle.ded_lex.specs.Fronts.{word_rest, number_rest, fraction_rest, decimal_rest, quoted_rest, line_length};
ghost use Rattle.ded_lex.specs.Fronts.{begins_with, sign_rest, front_with, numeral_front, front_of};

use crate::byte::{is_blank_byte, is_digit, is_letter, is_text_byte, is_word_byte};
use crate::token::TokenKind;

/// The gap or token with which bytes begin: the kind of a token, or none for a gap, and its length.
#[derive(Clone, Copy, Debug)]
pub struct Front {
    pub kind: Option<TokenKind>,
    pub length: usize,
}

/// How many bytes of a word follow its first letter.
fn word_rest(after: &[u8]) -> usize
    ensures value { result ≡ word_rest after.now }
    ensures within { result ≤ length after.now }
{
    for (i, byte) in after.iter().enumerate() {
        if !is_word_byte(*byte) {
            return i;
        }
    }
    after.len()
}

/// How many digits of a number follow its first one, or none where a letter, `_` or a point follows them.
#[tactic(auto, using(crate::proofs::Counting::plus_longer))]
fn number_rest(after: &[u8]) -> Option<usize>
    ensures value { result ≡ number_rest after.now }
    ensures within { IfSome result (λ n. n ≤ length after.now) }
{
    for (i, byte) in after.iter().enumerate() {
        if is_letter(*byte) || *byte == b'.' {
            return None;
        }
        if !is_digit(*byte) {
            return Some(i);
        }
    }
    Some(after.len())
}

/// How many digits follow a point, or none where there are none, or a letter, `_` or a point follows them.
fn fraction_rest(after: &[u8]) -> Option<usize>
    ensures value { result ≡ fraction_rest after.now }
    ensures within { IfSome result (λ n. n ≤ length after.now) }
{
    match after.split_first() {
        Some((first, digits)) if is_digit(*first) => Some(number_rest(digits)? + 1),
        _ => None,
    }
}

/// How many bytes of a decimal follow its first digit, or none where no point between digits follows it.
#[tactic(auto, using(crate::proofs::Counting::plus_longer, crate::proofs::Counting::plus_zero))]
fn decimal_rest(after: &[u8]) -> Option<usize>
    ensures value { result ≡ decimal_rest after.now }
    ensures within { IfSome result (λ n. n ≤ length after.now) }
{
    for (i, byte) in after.iter().enumerate() {
        if is_digit(*byte) {
            continue;
        }
        if *byte != b'.' {
            return None;
        }
        return Some(fraction_rest(&after[i + 1..])? + i + 1);
    }
    None
}

/// How many bytes of a quoted text follow its first quote, or none where the text doesn't end or holds a control
/// character.
#[tactic(auto, using(crate::proofs::Counting::plus_longer, crate::proofs::Counting::plus_zero))]
fn quoted_rest(after: &[u8]) -> Option<usize>
    ensures value { result ≡ quoted_rest false after.now }
    ensures within { IfSome result (λ n. n ≤ length after.now) }
{
    let mut closed = false;
    for (i, byte) in after.iter().enumerate() {
        if *byte == b'\'' {
            closed = !closed;
            continue;
        }
        if closed {
            return Some(i);
        }
        if !is_text_byte(*byte) {
            return None;
        }
    }
    if closed { Some(after.len()) } else { None }
}

/// How many bytes there are up to the first line feed and with it, or to the end where there is none.
fn line_length(bytes: &[u8]) -> usize
    ensures value { result ≡ line_length bytes.now }
    ensures within { result ≤ length bytes.now }
{
    for (i, byte) in bytes.iter().enumerate() {
        if *byte == b'\n' {
            return i + 1;
        }
    }
    bytes.len()
}

/// Whether the bytes begin with the byte.
fn begins_with(bytes: &[u8], byte: u8) -> bool
    ensures { result ≡ begins_with byte bytes.now }
{
    match bytes.split_first() {
        Some((first, _)) => *first == byte,
        None => false,
    }
}

/// How many bytes of a sign follow its first one, or none where no sign begins with the byte.
fn sign_rest(byte: u8, after: &[u8]) -> Option<usize>
    ensures value { result ≡ sign_rest byte after.now }
    ensures within { IfSome result (λ n. n ≤ length after.now) }
{
    match byte {
        b'(' | b')' | b'{' | b'}' | b',' | b'=' | b'+' | b'*' | b'/' | b'-' => Some(0),
        b':' | b'<' | b'>' => Some(if begins_with(after, b'=') { 1 } else { 0 }),
        b'!' if begins_with(after, b'=') => Some(1),
        _ => None,
    }
}

/// The gap or token of the kind, given how many bytes of it follow the first one; none where that is none.
fn front_with(kind: Option<TokenKind>, rest: Option<usize>) -> Option<Front>
    requires { IfSome rest (λ n. n < 4294967296) }
    ensures { result ≡ front_with kind rest }
{
    match rest {
        Some(rest) => Some(Front {
            kind,
            length: rest + 1,
        }),
        None => None,
    }
}

/// The number or decimal behind whose first digit these bytes stand, or none where that is none.
fn numeral_front(after: &[u8]) -> Option<Front>
    requires { length after.now < 4294967295 }
    ensures value { result ≡ numeral_front after.now (number_rest after.now) }
    ensures within { IfSome result (λ front. (0 < front.length) × (front.length ≤ length after.now + 1)) }
{
    match number_rest(after) {
        Some(rest) => front_with(Some(TokenKind::Number), Some(rest)),
        None => front_with(Some(TokenKind::Decimal), decimal_rest(after)),
    }
}

/// The gap or token with which the bytes begin, or none where they begin with neither.
pub fn front_of(bytes: &[u8]) -> Option<Front>
    requires { length bytes.now < 4294967296 }
    ensures value { result ≡ front_of bytes.now }
    ensures within { IfSome result (λ front. (0 < front.length) × (front.length ≤ length bytes.now)) }
{
    let Some((byte, after)) = bytes.split_first() else {
        return None;
    };
    if is_blank_byte(*byte) {
        return front_with(None, Some(0));
    }
    if is_letter(*byte) {
        return front_with(Some(TokenKind::Word), Some(word_rest(after)));
    }
    if is_digit(*byte) {
        return numeral_front(after);
    }
    if *byte == b'\'' {
        return front_with(Some(TokenKind::Quoted), quoted_rest(after));
    }
    if *byte == b'-' && begins_with(after, b'-') {
        return front_with(None, Some(line_length(after)));
    }
    front_with(Some(TokenKind::Sign), sign_rest(*byte, after))
}
