//! Whether bytes spell the header.
ghost use Rattle.std.specs.Prelude.{◌≡◌, ◌≤◌, ◌<◌, ◌+◌, ◌↔◌, true, Some, length};
ghost use Rattle.ded_lex.specs.Fronts.{front_tokens};
ghost use Rattle.ded_syntax.specs.Headers.{is_dedale, is_two, header_step, header_walk, opening_symbols};
ghost use Rattle.ded_terminals.specs.Items.{seen};
ghost use Rattle.ded_syntax.specs.Spelling.{IsHeader};

use ded_lex::{Front, Token, front_of};
use ded_model::command::Language;
use ded_terminals::item::{Item, Keyword, item_of, text, value_of};

/// How much of the header is read.
#[derive(Clone, Copy, Debug, PartialEq, Eq)]
pub enum Progress {
    Nothing,
    /// Its word.
    Named,
    /// Its word and its number.
    Whole,
}

/// Whether the item is the word of the header.
fn is_dedale(bytes: &[u8], item: Item) -> bool
    ensures { result ≡ is_dedale (seen bytes.now item) }
{
    match item {
        Item::Word(Keyword::Dedale) => true,
        _ => false,
    }
}

/// Whether the item is a number of value 2.
fn is_two(bytes: &[u8], item: Item) -> bool
    ensures { result ≡ is_two (seen bytes.now item) }
{
    match item {
        Item::Number(digits) => value_of(text(bytes, digits)) == 2,
        _ => false,
    }
}

/// How much of the header is read with one more item, or none where the item doesn't go on with it.
fn with_item(progress: Progress, bytes: &[u8], item: Item) -> Option<Progress>
    ensures { result ≡ header_step progress (seen bytes.now item) }
{
    match progress {
        Progress::Nothing if is_dedale(bytes, item) => Some(Progress::Named),
        Progress::Named if is_two(bytes, item) => Some(Progress::Whole),
        Progress::Nothing | Progress::Named | Progress::Whole => None,
    }
}

/// How much of the header is read with the front at this place, or none where that doesn't go on with it.
fn with_front(progress: Progress, bytes: &[u8], front: Front, at: usize) -> Option<Progress>
    requires { at + front.length < 4294967296 }
    ensures { result ≡ header_walk (Some progress)
        (opening_symbols bytes.now (front_tokens front.kind at (at + front.length))) }
{
    let Some(kind) = front.kind else {
        return Some(progress);
    };
    let token = Token {
        kind,
        start: at as u32,
        end: (at + front.length) as u32,
    };
    with_item(progress, bytes, item_of(bytes, token, Language::Opening))
}

/// Whether the bytes spell the header of a script in language 2. It doesn't allocate.
pub fn is_header(bytes: &[u8]) -> bool
    requires { length bytes.now ≤ 65536 }
    ensures { (result ≡ true) ↔ IsHeader bytes.now }
{
    let mut progress = Progress::Nothing;
    let mut at = 0;
    while at < bytes.len() {
        let Some(front) = front_of(&bytes[at..]) else {
            return false;
        };
        let Some(next) = with_front(progress, bytes, front, at) else {
            return false;
        };
        progress = next;
        at += front.length;
    }
    match progress {
        Progress::Whole => true,
        Progress::Nothing | Progress::Named => false,
    }
}
