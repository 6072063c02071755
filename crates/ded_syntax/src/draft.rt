//! Commands up to the tree of their formula.
ghost use Rattle.std.specs.Prelude.{◌≡◌, ◌≤◌, ◌<◌, length, map, Some, None, IfSome, IfNone, IfOk, IfErr};
ghost use Rattle.ded_model.specs.declared.fault.ParseFault.TheVariants.{NotRead};
ghost use Rattle.ded_model.specs.Command.{command_form};
ghost use Rattle.ded_model.specs.Form.{form};
ghost use Rattle.ded_terminals.specs.Items.{left};
ghost use Rattle.ded_terminals.specs.Literals.{capped_reader};
ghost use Rattle.ded_terminals.specs.AtomReading.{brace_at};
ghost use Rattle.ded_syntax.specs.CommandReading.{plain, ended, open_at, columns_at, heading_at, empty_at};
ghost use Rattle.ded_syntax.specs.CommandReading.{open_brace_at, forms_at, braces_at, colon_at, define_at, formed_at};
ghost use Rattle.ded_syntax.specs.DraftViews.{seen_head, seen_draft};

use ded_grammar::Terminal;
use ded_model::command::Command;
use ded_model::fault::ParseFault;
use ded_model::formula::Formula;
use ded_model::name::{Column, Heading, Name};
use ded_terminals::atom::{column, comma, comparison};
use ded_terminals::item::{Item, Rest};
use ded_terminals::terminals::terminals;
use std::alloc::Global;

/// What stands before the formula of a command.
#[derive(Drop)]
pub enum Head {
    View(Name, Heading),
    Ask,
    Query(Heading),
    Explain(Heading),
}

/// A command without a formula, or with the terminals of one.
#[derive(Drop)]
pub enum Draft {
    Plain(Command),
    Formed(Head, Vec<Terminal>),
}

/// What stands behind an opening parenthesis; none where the rest begins with no such item.
fn open(rest: Rest<'_>) -> Option<Rest<'_>>
    ensures some { IfSome result (λ x. open_at (left rest.entry) ≡ Some (left x)) }
    ensures none { IfNone result (open_at (left rest.entry) ≡ None) }
    ensures low { IfSome result (λ x. length (left x) < length (left rest.entry)) }
{
    match rest.items {
        [Item::Open, items @ ..] => Some(Rest { items, ..rest }),
        _ => None,
    }
}

/// The columns of a heading, up to the closing parenthesis, and what stands behind that.
fn columns(alloc: Global, items: Rest<'_>) -> Result<(Vec<Column>, Rest<'_>), ParseFault>
    ensures read { IfOk result (λ x. columns_at (left items.entry) ≡ Some (x.0.items, left x.1)) }
    ensures unread { IfErr result (λ e. e ≡ NotRead → columns_at (left items.entry) ≡ None) }
    ensures low { IfOk result (λ x. length (left x.1) < length (left items.entry)) }
{
    let mut list = Vec::new(alloc);
    let mut rest = items;
    // Each column has an item at least.
    for _ in 0..items.items.len() {
        let (next, after) = column(alloc, rest)?;
        list.push(next)?;
        let Some((goes_on, behind)) = comma(after) else {
            return Err(ParseFault::NotRead);
        };
        if !goes_on {
            return Ok((list, behind));
        }
        rest = behind;
    }
    Err(ParseFault::NotRead)
}

/// The heading with which the rest begins, in parentheses, and what stands behind it.
///
/// # Errors
/// `NotRead` only where the rest begins with no heading, otherwise out of memory.
pub fn heading(alloc: Global, rest: Rest<'_>) -> Result<(Heading, Rest<'_>), ParseFault>
    ensures read { IfOk result (λ x. heading_at (left rest.entry) ≡ Some (x.0, left x.1)) }
    ensures unread { IfErr result (λ e. e ≡ NotRead → heading_at (left rest.entry) ≡ None) }
    ensures low { IfOk result (λ x. length (left x.1) < length (left rest.entry)) }
{
    let Some(rest) = open(rest) else {
        return Err(ParseFault::NotRead);
    };
    let (columns, rest) = columns(alloc, rest)?;
    Ok((Heading { columns }, rest))
}

/// What stands behind two braces with nothing in them; none where the rest begins otherwise.
pub fn empty(rest: Rest<'_>) -> Option<Rest<'_>>
    ensures some { IfSome result (λ x. empty_at (left rest.entry) ≡ Some (left x)) }
    ensures none { IfNone result (empty_at (left rest.entry) ≡ None) }
    ensures low { IfSome result (λ x. length (left x) < length (left rest.entry)) }
{
    match rest.items {
        [Item::OpenBrace, Item::CloseBrace, items @ ..] => Some(Rest { items, ..rest }),
        _ => None,
    }
}

/// What stands behind an opening brace; none where the rest begins with no such item.
pub fn open_brace(rest: Rest<'_>) -> Option<Rest<'_>>
    ensures some { IfSome result (λ x. open_brace_at (left rest.entry) ≡ Some (left x)) }
    ensures none { IfNone result (open_brace_at (left rest.entry) ≡ None) }
    ensures low { IfSome result (λ x. length (left x) < length (left rest.entry)) }
{
    match rest.items {
        [Item::OpenBrace, items @ ..] => Some(Rest { items, ..rest }),
        _ => None,
    }
}

/// What stands behind an item of a list in braces: true behind a comma, where another item is to come, and false behind
/// the closing brace; then the rest behind that. None where the rest begins with neither.
pub fn brace(rest: Rest<'_>) -> Option<(bool, Rest<'_>)>
    ensures some { IfSome result (λ x. brace_at (left rest.entry) ≡ Some (x.0, left x.1)) }
    ensures none { IfNone result (brace_at (left rest.entry) ≡ None) }
    ensures low { IfSome result (λ x. length (left x.1) < length (left rest.entry)) }
{
    match rest.items {
        [Item::Comma, items @ ..] => Some((true, Rest { items, ..rest })),
        [Item::CloseBrace, items @ ..] => Some((false, Rest { items, ..rest })),
        _ => None,
    }
}

/// The comparisons of an insert, up to the closing brace, and what stands behind that.
fn comparisons(alloc: Global, items: Rest<'_>) -> Result<(Vec<Formula>, Rest<'_>), ParseFault>
    requires few { length (left items) ≤ 65536 }
    ensures read { IfOk result (λ x. forms_at capped_reader (left items.entry) ≡ Some (map form x.0.items, left x.1)) }
    ensures unread { IfErr result (λ e. e ≡ NotRead → forms_at capped_reader (left items.entry) ≡ None) }
{
    let mut list = Vec::new(alloc);
    let mut rest = items;
    // Each comparison has an item at least.
    for _ in 0..items.items.len() {
        let (next, after) = comparison(alloc, rest)?;
        list.push(next)?;
        let Some((goes_on, behind)) = brace(after) else {
            return Err(ParseFault::NotRead);
        };
        if !goes_on {
            return Ok((list, behind));
        }
        rest = behind;
    }
    Err(ParseFault::NotRead)
}

/// The comparisons, if any, in the braces with which the rest begins, and what stands behind the braces.
///
/// # Errors
/// `NotRead` only where the rest begins with no braces that are empty or have comparisons in them, otherwise out of
/// memory.
pub fn braces(alloc: Global, rest: Rest<'_>) -> Result<(Vec<Formula>, Rest<'_>), ParseFault>
    requires few { length (left rest) ≤ 65536 }
    ensures read { IfOk result (λ x. braces_at capped_reader (left rest.entry) ≡ Some (map form x.0.items, left x.1)) }
    ensures unread { IfErr result (λ e. e ≡ NotRead → braces_at capped_reader (left rest.entry) ≡ None) }
{
    if let Some(rest) = empty(rest) {
        return Ok((Vec::new(alloc), rest));
    }
    let Some(rest) = open_brace(rest) else {
        return Err(ParseFault::NotRead);
    };
    comparisons(alloc, rest)
}

/// What stands behind a colon; none where the rest begins with no such item.
pub fn colon(rest: Rest<'_>) -> Option<Rest<'_>>
    ensures some { IfSome result (λ x. colon_at (left rest.entry) ≡ Some (left x)) }
    ensures none { IfNone result (colon_at (left rest.entry) ≡ None) }
    ensures low { IfSome result (λ x. length (left x) < length (left rest.entry)) }
{
    match rest.items {
        [Item::Colon, items @ ..] => Some(Rest { items, ..rest }),
        _ => None,
    }
}

/// What stands behind the sign `:=` of a definition; none where the rest begins with no such item.
pub fn define(rest: Rest<'_>) -> Option<Rest<'_>>
    ensures some { IfSome result (λ x. define_at (left rest.entry) ≡ Some (left x)) }
    ensures none { IfNone result (define_at (left rest.entry) ≡ None) }
    ensures low { IfSome result (λ x. length (left x) < length (left rest.entry)) }
{
    match rest.items {
        [Item::Define, items @ ..] => Some(Rest { items, ..rest }),
        _ => None,
    }
}

/// The draft of a command without a formula, where nothing stands behind it.
///
/// # Errors
/// `NotRead` only where something stands behind the command.
pub fn ended(command: Command, rest: Rest<'_>) -> Result<Draft, ParseFault>
    ensures read { IfOk result (λ d. ended (plain (command_form command)) (left rest.entry) ≡ Some (seen_draft d)) }
    ensures unread { IfErr result (λ e. e ≡ NotRead → ended (plain (command_form command)) (left rest.entry) ≡ None) }
{
    if rest.items.is_empty() {
        Ok(Draft::Plain(command))
    } else {
        drop(command);
        Err(ParseFault::NotRead)
    }
}

/// The draft of a head and the terminals of the formula behind it.
///
/// # Errors
/// `NotRead` only where what stands behind the head isn't terminals of a formula, otherwise out of memory.
pub fn formed(alloc: Global, head: Head, rest: Rest<'_>) -> Result<Draft, ParseFault>
    requires few { length (left rest) ≤ 65536 }
    ensures read { IfOk result (λ d. formed_at capped_reader (seen_head head) (left rest.entry) ≡ Some (seen_draft d)) }
    ensures unread { IfErr result (λ e. e ≡ NotRead
        → formed_at capped_reader (seen_head head) (left rest.entry) ≡ None) }
{
    Ok(Draft::Formed(head, terminals(alloc, rest)?))
}
