//! Words: those that are reserved, and names.
ghost use Rattle.std.specs.Prelude.{◌≡◌, ℕ, List};
ghost use Rattle.ded_lex.specs.Tokens.{token_text};
ghost use Rattle.ded_terminals.specs.Symbols.{formula_word, command_word, is_unused, unused_word, dedale_symbol};
ghost use Rattle.ded_terminals.specs.Symbols.{dump_symbol, language_word, word_symbol};
ghost use Rattle.ded_terminals.specs.Items.{seen};
ghost use Rattle.ded_terminals.specs.Reserved.{may_be_reserved};

use crate::item::{Item, Keyword, text};
use crate::same::is_word;
use ded_lex::Token;
use ded_model::command::Language;

/// The item of a word that is reserved in formulas or headings, or the other item where the text isn't such a word.
fn formula_word(other: Item, text: &[u8]) -> Item
    ensures { (bytes : List ℕ) → seen bytes result ≡ formula_word (seen bytes other) text.now }
{
    if is_word(text, b"and") {
        Item::Word(Keyword::And)
    } else if is_word(text, b"or") {
        Item::Word(Keyword::Or)
    } else if is_word(text, b"not") {
        Item::Word(Keyword::Not)
    } else if is_word(text, b"implies") {
        Item::Word(Keyword::Implies)
    } else if is_word(text, b"exists") {
        Item::Word(Keyword::Exists)
    } else if is_word(text, b"forall") {
        Item::Word(Keyword::Forall)
    } else if is_word(text, b"true") {
        Item::Word(Keyword::True)
    } else if is_word(text, b"false") {
        Item::Word(Keyword::False)
    } else if is_word(text, b"closure") {
        Item::Word(Keyword::Closure)
    } else if is_word(text, b"interior") {
        Item::Word(Keyword::Interior)
    } else if is_word(text, b"text") {
        Item::Word(Keyword::Text)
    } else {
        other
    }
}

/// The item of a word with which a command begins, or the other item where the text isn't such a word.
fn command_word(other: Item, text: &[u8]) -> Item
    ensures { (bytes : List ℕ) → seen bytes result ≡ command_word (seen bytes other) text.now }
{
    if is_word(text, b"relation") {
        Item::Word(Keyword::Relation)
    } else if is_word(text, b"insert") {
        Item::Word(Keyword::Insert)
    } else if is_word(text, b"delete") {
        Item::Word(Keyword::Delete)
    } else if is_word(text, b"drop") {
        Item::Word(Keyword::Drop)
    } else if is_word(text, b"view") {
        Item::Word(Keyword::View)
    } else if is_word(text, b"keep") {
        Item::Word(Keyword::Keep)
    } else if is_word(text, b"ask") {
        Item::Word(Keyword::Ask)
    } else if is_word(text, b"query") {
        Item::Word(Keyword::Query)
    } else if is_word(text, b"show") {
        Item::Word(Keyword::Show)
    } else if is_word(text, b"box") {
        Item::Word(Keyword::BoxOf)
    } else if is_word(text, b"explain") {
        Item::Word(Keyword::Explain)
    } else if is_word(text, b"disjoint") {
        Item::Word(Keyword::Disjoint)
    } else if is_word(text, b"verify") {
        Item::Word(Keyword::Verify)
    } else {
        other
    }
}

/// Whether the word is reserved and stands in no command.
fn is_unused(text: &[u8]) -> bool
    ensures { result ≡ is_unused text.now }
{
    is_word(text, b"begin") || is_word(text, b"commit") || is_word(text, b"abort")
}

/// The item of a reserved word that stands in no command, or the other item where the text isn't such a word.
fn unused_word(other: Item, text: &[u8]) -> Item
    ensures { (bytes : List ℕ) → seen bytes result ≡ unused_word (seen bytes other) text.now }
{
    if is_unused(text) {
        Item::Word(Keyword::Unused)
    } else {
        other
    }
}

/// The item of the header's word, which stands in commands of the opening language alone.
fn dedale(language: Language) -> Item
    ensures { (bytes : List ℕ) → seen bytes result ≡ dedale_symbol language }
{
    match language {
        Language::Opening => Item::Word(Keyword::Dedale),
        Language::One | Language::Two => Item::Word(Keyword::Unused),
    }
}

/// The item of the word of dumps, which stands in commands of language 2 alone.
fn dump(language: Language) -> Item
    ensures { (bytes : List ℕ) → seen bytes result ≡ dump_symbol language }
{
    match language {
        Language::Two => Item::Word(Keyword::Dump),
        Language::Opening | Language::One => Item::Word(Keyword::Unused),
    }
}

/// The item of a word that stands in commands of one language alone, or the other item where the text isn't such a
/// word.
fn language_word(language: Language, other: Item, text: &[u8]) -> Item
    ensures { (bytes : List ℕ) → seen bytes result ≡ language_word language (seen bytes other) text.now }
{
    if is_word(text, b"dedale") {
        dedale(language)
    } else if is_word(text, b"dump") {
        dump(language)
    } else {
        other
    }
}

/// Whether the word may be a reserved one: these have 2 to 8 bytes and begin with a small letter.
fn may_be_reserved(text: &[u8]) -> bool
    ensures { result ≡ may_be_reserved text.now }
{
    match text.first() {
        Some(byte) => *byte >= b'a' && *byte <= b'v' && text.len() >= 2 && text.len() <= 8,
        None => false,
    }
}

/// The item of a word: a reserved word, or a name. Most names are told by their first byte or their length.
pub fn word_item(bytes: &[u8], token: Token, language: Language) -> Item
    ensures { seen bytes.now result ≡ word_symbol language (token_text bytes.now token) }
{
    let text = text(bytes, token);
    if !may_be_reserved(text) {
        return Item::Name(token);
    }
    let other = language_word(language, unused_word(Item::Name(token), text), text);
    formula_word(command_word(other, text), text)
}
