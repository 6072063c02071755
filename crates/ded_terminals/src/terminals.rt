//! The terminals of a formula.
ghost use Rattle.std.specs.Prelude.{◌≡◌, ◌≤◌, ◌<◌, length, Some, None, IfSome, IfNone, IfOk, IfErr};
ghost use Rattle.ded_model.specs.declared.fault.ParseFault.TheVariants.{NotRead};
ghost use Rattle.ded_grammar.specs.Forms.{terminal_form, terminal_forms};
ghost use Rattle.ded_terminals.specs.Items.{left};
ghost use Rattle.ded_terminals.specs.Literals.{capped_reader};
ghost use Rattle.ded_terminals.specs.AtomReading.{keyword_at, parenthesis_at, word_terminal, quantifier_of, word_at};
ghost use Rattle.ded_terminals.specs.AtomReading.{begins_member, atom_at, as_leaf, terminal_by_parenthesis};
ghost use Rattle.ded_terminals.specs.AtomReading.{terminal_at, terminals_at};

use crate::atom::{atom, column};
use crate::item::{Item, Keyword, Rest};
use ded_grammar::{Quantifier, Terminal};
use ded_model::fault::ParseFault;
use ded_model::formula::Formula;
use std::alloc::Global;

/// The reserved word with which the rest begins, and what stands behind it; none where the rest begins with no such
/// word.
pub fn keyword(rest: Rest<'_>) -> Option<(Keyword, Rest<'_>)>
    ensures some { IfSome result (λ x. keyword_at (left rest.entry) ≡ Some (x.0, left x.1)) }
    ensures none { IfNone result (keyword_at (left rest.entry) ≡ None) }
    ensures low { IfSome result (λ x. length (left x.1) < length (left rest.entry)) }
{
    match rest.items {
        [Item::Word(word), items @ ..] => Some((*word, Rest { items, ..rest })),
        _ => None,
    }
}

/// The parenthesis with which the rest begins, and what stands behind it; none where the rest begins with no
/// parenthesis.
fn parenthesis(rest: Rest<'_>) -> Option<(Terminal, Rest<'_>)>
    ensures some { IfSome result (λ x. parenthesis_at (left rest.entry) ≡ Some (terminal_form x.0, left x.1)) }
    ensures none { IfNone result (parenthesis_at (left rest.entry) ≡ None) }
    ensures low { IfSome result (λ x. length (left x.1) < length (left rest.entry)) }
{
    match rest.items {
        [Item::Open, items @ ..] => Some((Terminal::Open, Rest { items, ..rest })),
        [Item::Close, items @ ..] => Some((Terminal::Close, Rest { items, ..rest })),
        _ => None,
    }
}

/// The terminal that a reserved word is by itself, or none where it isn't one.
fn word_terminal(word: Keyword) -> Option<Terminal>
    ensures some { IfSome result (λ p. word_terminal word ≡ Some (terminal_form p)) }
    ensures none { IfNone result (word_terminal word ≡ None) }
{
    match word {
        Keyword::Not => Some(Terminal::Not),
        Keyword::And => Some(Terminal::And),
        Keyword::Or => Some(Terminal::Or),
        Keyword::Implies => Some(Terminal::Implies),
        Keyword::True => Some(Terminal::Atom(Formula::True)),
        Keyword::False => Some(Terminal::Atom(Formula::False)),
        _ => None,
    }
}

/// The quantifier that a reserved word is, or none where it isn't one.
fn quantifier_of(word: Keyword) -> Option<Quantifier>
    ensures some { IfSome result (λ q. quantifier_of word ≡ Some q) }
    ensures none { IfNone result (quantifier_of word ≡ None) }
{
    match word {
        Keyword::Exists => Some(Quantifier::Exists),
        Keyword::Forall => Some(Quantifier::Forall),
        _ => None,
    }
}

/// The terminal that begins with the reserved word, behind which the rest stands, and what stands behind the terminal.
fn word(alloc: Global, word: Keyword, rest: Rest<'_>) -> Result<(Terminal, Rest<'_>), ParseFault>
    ensures read { IfOk result (λ x. word_at word (left rest.entry) ≡ Some (terminal_form x.0, left x.1)) }
    ensures unread { IfErr result (λ e. e ≡ NotRead → word_at word (left rest.entry) ≡ None) }
    ensures low { IfOk result (λ x. length (left x.1) ≤ length (left rest.entry)) }
{
    if let Some(terminal) = word_terminal(word) {
        return Ok((terminal, rest));
    }
    let Some(quantifier) = quantifier_of(word) else {
        return Err(ParseFault::NotRead);
    };
    let (column, behind) = column(alloc, rest)?;
    Ok((Terminal::Bind(quantifier, column), behind))
}

/// Whether the name of a member begins with the word.
fn begins_member(word: Keyword) -> bool
    ensures { result ≡ begins_member word }
{
    match word {
        Keyword::Closure | Keyword::Interior => true,
        _ => false,
    }
}

/// The comparison or the member with which the rest begins, as a terminal, and what stands behind it.
fn leaf(alloc: Global, rest: Rest<'_>) -> Result<(Terminal, Rest<'_>), ParseFault>
    requires few { length (left rest) ≤ 65536 }
    ensures read { IfOk result (λ x. as_leaf (atom_at capped_reader (left rest.entry))
        ≡ Some (terminal_form x.0, left x.1)) }
    ensures unread { IfErr result (λ e. e ≡ NotRead → as_leaf (atom_at capped_reader (left rest.entry)) ≡ None) }
    ensures low { IfOk result (λ x. length (left x.1) < length (left rest.entry)) }
{
    let (formula, behind) = atom(alloc, rest)?;
    Ok((Terminal::Atom(formula), behind))
}

/// The terminal with which the rest begins, where that is no reserved word, and what stands behind it.
fn other(alloc: Global, rest: Rest<'_>) -> Result<(Terminal, Rest<'_>), ParseFault>
    requires few { length (left rest) ≤ 65536 }
    ensures read { IfOk result (λ x. terminal_by_parenthesis capped_reader (left rest.entry)
        (parenthesis_at (left rest.entry)) ≡ Some (terminal_form x.0, left x.1)) }
    ensures unread { IfErr result (λ e. e ≡ NotRead
        → terminal_by_parenthesis capped_reader (left rest.entry) (parenthesis_at (left rest.entry)) ≡ None) }
    ensures low { IfOk result (λ x. length (left x.1) < length (left rest.entry)) }
{
    if let Some(found) = parenthesis(rest) {
        return Ok(found);
    }
    leaf(alloc, rest)
}

/// The terminal with which the rest begins, and what stands behind it.
fn terminal(alloc: Global, rest: Rest<'_>) -> Result<(Terminal, Rest<'_>), ParseFault>
    requires few { length (left rest) ≤ 65536 }
    ensures read { IfOk result (λ x. terminal_at capped_reader (left rest.entry) ≡ Some (terminal_form x.0, left x.1)) }
    ensures unread { IfErr result (λ e. e ≡ NotRead → terminal_at capped_reader (left rest.entry) ≡ None) }
    ensures low { IfOk result (λ x. length (left x.1) < length (left rest.entry)) }
{
    match keyword(rest) {
        Some((first, behind)) => {
            if begins_member(first) {
                leaf(alloc, rest)
            } else {
                word(alloc, first, behind)
            }
        }
        None => other(alloc, rest),
    }
}

/// The terminals that all items are.
///
/// # Errors
/// `NotRead` only where the items aren't terminals, otherwise out of memory.
pub fn terminals(alloc: Global, items: Rest<'_>) -> Result<Vec<Terminal>, ParseFault>
    requires few { length (left items) ≤ 65536 }
    ensures read { IfOk result (λ list. terminals_at capped_reader (left items.entry)
        ≡ Some (terminal_forms list.items)) }
    ensures unread { IfErr result (λ e. e ≡ NotRead → terminals_at capped_reader (left items.entry) ≡ None) }
{
    let mut list = Vec::new(alloc);
    let mut rest = items;
    // Each terminal has an item at least.
    for _ in 0..items.items.len() {
        if rest.items.is_empty() {
            return Ok(list);
        }
        let (next, behind) = terminal(alloc, rest)?;
        list.push(next)?;
        rest = behind;
    }
    if !rest.items.is_empty() {
        return Err(ParseFault::NotRead);
    }
    Ok(list)
}
