//! What the reader sees of the tokens of bytes.
ghost use Rattle.std.specs.Prelude.{◌≡◌, ◌≤◌, ◌<◌, ◌^◌, ℕ, List, map, IfOk};
ghost use Rattle.std.specs.List.{list_any};
ghost use Rattle.ded_lex.specs.Tokens.{lexeme, token_text};
ghost use Rattle.ded_terminals.specs.Literals.{capped};
ghost use Rattle.ded_terminals.specs.Symbols.{symbol, sum_sign, other_sign, slash_symbol, sign_symbol, decimal_symbol};
ghost use Rattle.ded_terminals.specs.Symbols.{number_from};
ghost use Rattle.ded_terminals.specs.Items.{capped_of, seen, symbols, is_long_name, is_long_literal};

use crate::decimal::decimal_of;
use crate::same::is_word;
use crate::word::word_item;
use ded_lex::{Token, TokenKind};
use ded_model::command::Language;
use ded_model::formula::CompareOp;
use ded_model::limits;
use ded_model::memory::NoMemory;
use std::alloc::Global;

/// A reserved word.
#[derive(Clone, Copy, Debug, PartialEq, Eq)]
pub enum Keyword {
    Dedale,
    Relation,
    Text,
    Insert,
    Delete,
    Drop,
    View,
    Keep,
    Ask,
    Query,
    Show,
    BoxOf,
    Explain,
    Dump,
    Disjoint,
    Verify,
    And,
    Or,
    Not,
    Implies,
    Exists,
    Forall,
    True,
    False,
    Closure,
    Interior,
    /// One that stands in no command.
    Unused,
}

/// A token as the reader sees it. What names, numbers and texts say stands in the bytes.
#[derive(Clone, Copy, Debug, PartialEq, Eq)]
pub enum Item {
    Word(Keyword),
    Name(Token),
    Number(Token),
    Decimal(Token),
    Quoted(Token),
    Plus,
    Minus,
    Times,
    Slash,
    Open,
    Close,
    OpenBrace,
    CloseBrace,
    Comma,
    Colon,
    Define,
    Relation(CompareOp),
}

/// What is left to read of a statement: its bytes, and the items that stand behind those that are read.
#[derive(Clone, Copy, Debug)]
pub struct Rest<'a> {
    pub bytes: &'a [u8],
    pub items: &'a [Item],
}

/// The bytes of a token, as far as there are any.
pub fn text(bytes: &[u8], token: Token) -> &[u8]
    ensures { result.now ≡ token_text bytes.now token }
{
    let rest = match bytes.get(token.start as usize..) {
        Some(rest) => rest,
        None => return &[],
    };
    let count = token.end.saturating_sub(token.start) as usize;
    match rest.get(..count) {
        Some(text) => text,
        None => rest,
    }
}

/// The number for which digits stand, or 2^63, the least that is too great for a command, where it is above that.
pub fn value_of(digits: &[u8]) -> u64
    ensures { result ≡ capped_of digits.now }
{
    value_behind(0, digits)
}

/// The number for which the digits stand behind those that stand for the value, or 2^63 where it is above that.
pub(crate) fn value_behind(value: u64, digits: &[u8]) -> u64
    requires { value ≤ 2 ^ 63 }
    ensures { result ≡ capped (number_from value digits.now) }
{
    let mut value = value;
    for byte in digits {
        value = value
            .saturating_mul(10)
            .saturating_add(u64::from(byte.saturating_sub(b'0')))
            .min(limits::TOO_GREAT);
    }
    value
}

/// The item of a sign in sums or between the sides of a comparison, or the other item where the text isn't such a sign.
fn sum_sign(other: Item, text: &[u8]) -> Item
    ensures { (bytes : List ℕ) → seen bytes result ≡ sum_sign (seen bytes other) text.now }
{
    if is_word(text, b"+") {
        Item::Plus
    } else if is_word(text, b"-") {
        Item::Minus
    } else if is_word(text, b"*") {
        Item::Times
    } else if is_word(text, b"<") {
        Item::Relation(CompareOp::Less)
    } else if is_word(text, b"<=") {
        Item::Relation(CompareOp::LessEq)
    } else if is_word(text, b"=") {
        Item::Relation(CompareOp::Equal)
    } else if is_word(text, b"!=") {
        Item::Relation(CompareOp::NotEqual)
    } else if is_word(text, b">=") {
        Item::Relation(CompareOp::GreaterEq)
    } else if is_word(text, b">") {
        Item::Relation(CompareOp::Greater)
    } else {
        other
    }
}

/// The item of a parenthesis, a brace, or a sign between parts. That of any other text stands in no command.
fn other_sign(text: &[u8]) -> Item
    ensures { (bytes : List ℕ) → seen bytes result ≡ other_sign text.now }
{
    if is_word(text, b"(") {
        Item::Open
    } else if is_word(text, b")") {
        Item::Close
    } else if is_word(text, b"{") {
        Item::OpenBrace
    } else if is_word(text, b"}") {
        Item::CloseBrace
    } else if is_word(text, b",") {
        Item::Comma
    } else if is_word(text, b":") {
        Item::Colon
    } else if is_word(text, b":=") {
        Item::Define
    } else {
        Item::Word(Keyword::Unused)
    }
}

/// The item of the sign of quotients, which stands in commands of language 2 alone.
fn slash(language: Language) -> Item
    ensures { (bytes : List ℕ) → seen bytes result ≡ slash_symbol language }
{
    match language {
        Language::Two => Item::Slash,
        Language::Opening | Language::One => Item::Word(Keyword::Unused),
    }
}

/// The item of a sign.
fn sign_item(text: &[u8], language: Language) -> Item
    ensures { (bytes : List ℕ) → seen bytes result ≡ sign_symbol language text.now }
{
    let other = if is_word(text, b"/") {
        slash(language)
    } else {
        other_sign(text)
    };
    sum_sign(other, text)
}

/// The item of a decimal, which stands in commands of language 2 alone.
fn decimal_item(bytes: &[u8], token: Token, language: Language) -> Item
    ensures { seen bytes.now result ≡ decimal_symbol language (token_text bytes.now token) }
{
    match language {
        Language::Two => Item::Decimal(token),
        Language::Opening | Language::One => Item::Word(Keyword::Unused),
    }
}

/// The item of a token.
pub fn item_of(bytes: &[u8], token: Token, language: Language) -> Item
    ensures { seen bytes.now result ≡ symbol language (lexeme bytes.now token) }
{
    match token.kind {
        TokenKind::Word => word_item(bytes, token, language),
        TokenKind::Number => Item::Number(token),
        TokenKind::Decimal => decimal_item(bytes, token, language),
        TokenKind::Sign => sign_item(text(bytes, token), language),
        TokenKind::Quoted => Item::Quoted(token),
    }
}

/// What the tokens are in the language, one item for each.
///
/// # Errors
/// Out of memory.
pub fn items_of(
    alloc: Global,
    bytes: &[u8],
    tokens: &[Token],
    language: Language,
) -> Result<Vec<Item>, NoMemory>
    ensures { IfOk result (λ items. symbols bytes.now items.items
        ≡ map (symbol language) (map (lexeme bytes.now) tokens.now)) }
{
    let mut items = Vec::with_capacity(alloc, tokens.len())?;
    for token in tokens {
        items.push(item_of(bytes, *token, language))?;
    }
    Ok(items)
}

/// Whether the item is a name of more than 64 bytes.
fn is_long_name(bytes: &[u8], item: Item) -> bool
    ensures { result ≡ is_long_name (seen bytes.now item) }
{
    match item {
        Item::Name(token) => text(bytes, token).len() > limits::NAME_BYTES,
        _ => false,
    }
}

/// Whether a name among the items has more than 64 bytes.
pub fn has_long_name(bytes: &[u8], items: &[Item]) -> bool
    ensures { result ≡ list_any is_long_name (symbols bytes.now items.now) }
{
    for item in items {
        if is_long_name(bytes, *item) {
            return true;
        }
    }
    false
}

/// Whether the item is a number above 2^63 - 1, or a decimal whose digits without the point or power of ten is above
/// that.
fn is_long_literal(bytes: &[u8], item: Item) -> bool
    ensures { result ≡ is_long_literal (seen bytes.now item) }
{
    match item {
        Item::Number(token) => value_of(text(bytes, token)) >= limits::TOO_GREAT,
        Item::Decimal(token) => {
            let (number, power) = decimal_of(text(bytes, token));
            number >= limits::TOO_GREAT || power >= limits::TOO_GREAT
        }
        _ => false,
    }
}

/// Whether a number among the items is above 2^63 - 1.
pub fn has_long_literal(bytes: &[u8], items: &[Item]) -> bool
    ensures { result ≡ list_any is_long_literal (symbols bytes.now items.now) }
{
    for item in items {
        if is_long_literal(bytes, *item) {
            return true;
        }
    }
    false
}
