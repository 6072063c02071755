//! The tag of a statement, and what stands behind it.
ghost use Rattle.std.specs.Prelude.{◌≡◌, ◌≤◌, ◌↔◌, ℕ, List, Some, true, min, length, drop, MatchOption, codes};
ghost use Rattle.ded_lex.specs.Tokens.{AreTokens, lexeme, token_text};
ghost use Rattle.ded_lex.specs.Lexemes.{Sign, Word};
ghost use Rattle.ded_terminals.specs.Symbols.{number_of};
ghost use Rattle.ded_shared.specs.Tags.{HasTag, IsSessionOf, IsWord};
ghost use Rattle.ded_shared.specs.TagTokens.{AreTokensIn, AreTokensOf};
ghost use Rattle.ded_shared.specs.Verbs.{verb_word};
ghost use Rattle.ded_shared.specs.declared.tag.Verb.{Verb as VerbForm};

use ded_lex::{Token, TokenKind};

/// The greatest number of a session.
pub const SESSIONS: u32 = 64;

/// The number of a session, 1 to 64, and what stands behind the colon that follows it.
#[derive(Clone, Copy)]
pub struct Tag<'a> {
    pub session: u32,
    /// The bytes behind the colon.
    pub rest: &'a [u8],
    /// All bytes of the statement.
    pub bytes: &'a [u8],
    /// The tokens behind the colon, which say where they stand among all bytes.
    pub tokens: &'a [Token],
}

/// What stands behind a tag, where it is no command.
#[derive(Clone, Copy, Debug, PartialEq, Eq)]
pub enum Verb {
    Begin,
    Commit,
    Abort,
}

/// The least number that is too great for a session and for all that digits behind it make of it.
const TOO_GREAT: u32 = SESSIONS + 1;

/// The number for which digits stand, or 65 where it is above that.
fn value_of(digits: &[u8]) -> u32
    ensures { result ≡ min (number_of digits.now) 65 }
{
    let mut value: u32 = 0;
    for byte in digits {
        value = (value * 10 + u32::from(byte.saturating_sub(b'0'))).min(TOO_GREAT);
    }
    value
}

/// The bytes of a token.
fn text(bytes: &[u8], token: Token) -> &[u8]
    requires order { token.start ≤ token.end }
    requires within { token.end ≤ length bytes.now }
    ensures { result.now ≡ token_text bytes.now token }
{
    &bytes[token.start as usize..token.end as usize]
}

/// The number of the session for which the token stands, where it is a number from 1 to 64.
fn session_of(bytes: &[u8], token: Token) -> Option<u32>
    requires order { token.start ≤ token.end }
    requires within { token.end ≤ length bytes.now }
    ensures { MatchOption result ((k : ℕ) → IsSessionOf k (lexeme bytes.now token)
        → ⊥) (λ k. IsSessionOf k (lexeme bytes.now token)) }
{
    let value = match token.kind {
        TokenKind::Number => value_of(text(bytes, token)),
        _ => return None,
    };
    if 1 <= value && value <= SESSIONS {
        Some(value)
    } else {
        None
    }
}

/// Whether the token is a colon.
fn is_colon(bytes: &[u8], token: Token) -> bool
    requires order { token.start ≤ token.end }
    requires within { token.end ≤ length bytes.now }
    ensures { (result ≡ true) ↔ (lexeme bytes.now token ≡ Sign (codes ":")) }
{
    token.kind == TokenKind::Sign && text(bytes, token) == b":".as_slice()
}

/// The tag with which the bytes begin, of which these are the tokens, where they begin with one.
pub fn tag_of<'a>(bytes: &'a [u8], list: &'a [Token]) -> Option<Tag<'a>>
    requires tokens { AreTokens bytes.now list.now }
    requires short { length bytes.now ≤ 65536 }
    ensures { MatchOption result
        ((k : ℕ) (rest : List ℕ) → HasTag bytes.now k rest → ⊥)
        (λ tag. HasTag bytes.now tag.session tag.rest.now × (length tag.rest.now ≤ 65536)
        × AreTokensOf tag.rest.now tag.bytes.now tag.tokens.now) }
{
    let number = *list.get(0)?;
    let colon = *list.get(1)?;
    let session = session_of(bytes, number)?;
    if !is_colon(bytes, colon) {
        return None;
    }
    Some(Tag {
        session,
        rest: behind(bytes, colon),
        bytes,
        tokens: behind_tag(list),
    })
}

/// The tokens behind the first two.
fn behind_tag(list: &[Token]) -> &[Token]
    requires { 2 ≤ length list.now }
    ensures { result.now ≡ drop 2 list.now }
{
    &list[2..]
}

/// The bytes behind a token.
fn behind(bytes: &[u8], token: Token) -> &[u8]
    requires { token.end ≤ length bytes.now }
    ensures { result.now ≡ drop token.end bytes.now }
{
    &bytes[token.end as usize..]
}

/// The word that the token is, where it is one of those of transactions.
fn verb_at(bytes: &[u8], token: Token) -> Option<Verb>
    requires order { token.start ≤ token.end }
    requires within { token.end ≤ length bytes.now }
    ensures { (verb : VerbForm) → (result ≡ Some verb) ↔ (lexeme bytes.now token ≡ Word (verb_word verb)) }
{
    if token.kind != TokenKind::Word {
        return None;
    }
    let word = text(bytes, token);
    if word == b"begin".as_slice() {
        Some(Verb::Begin)
    } else if word == b"commit".as_slice() {
        Some(Verb::Commit)
    } else if word == b"abort".as_slice() {
        Some(Verb::Abort)
    } else {
        None
    }
}

/// The word of transactions that the tokens are, where they are one and nothing else.
pub fn verb_of(bytes: &[u8], tokens: &[Token]) -> Option<Verb>
    requires { AreTokensIn bytes.now tokens.now }
    ensures { (rest : List ℕ) → AreTokensOf rest bytes.now tokens.now → (verb : VerbForm) → (result ≡ Some verb)
        ↔ IsWord (verb_word verb) rest }
{
    if tokens.len() != 1 {
        return None;
    }
    verb_at(bytes, tokens[0])
}
