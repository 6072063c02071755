//! What a statement is, up to the tree of its formula.
ghost use Rattle.std.specs.Prelude.{◌≡◌, ◌≤◌, length, Some, None, IfOk, IfErr};
ghost use Rattle.ded_model.specs.declared.fault.ParseFault.TheVariants.{NotRead};
ghost use Rattle.ded_terminals.specs.Items.{left};
ghost use Rattle.ded_terminals.specs.Literals.{capped_reader};
ghost use Rattle.ded_syntax.specs.CommandReading.{query_head, explain_head, last_name, header_draft, relation_draft};
ghost use Rattle.ded_syntax.specs.CommandReading.{insert_draft, delete_draft, disjoint_draft, verify_draft, view_draft};
ghost use Rattle.ded_syntax.specs.CommandReading.{over_draft, draft_behind, draft_at};
ghost use Rattle.ded_syntax.specs.DraftViews.{seen_draft};

use crate::certificate::certificate;
use crate::draft::{Draft, Head, braces, colon, define, ended, formed, heading};
use ded_model::command::Command;
use ded_model::fault::ParseFault;
use ded_model::name::Name;
use ded_terminals::item::{Keyword, Rest, value_of};
use ded_terminals::operand::name_of;
use ded_terminals::side::{name, number};
use ded_terminals::terminals::keyword;
use std::alloc::Global;

/// The name with which the rest begins, where nothing stands behind it.
fn last_name(alloc: Global, rest: Rest<'_>) -> Result<Name, ParseFault>
    ensures read { IfOk result (λ n. last_name (left rest.entry) ≡ Some n) }
    ensures unread { IfErr result (λ e. e ≡ NotRead → last_name (left rest.entry) ≡ None) }
{
    match name(rest) {
        Some((name, rest)) if rest.items.is_empty() => Ok(name_of(alloc, name)?),
        _ => Err(ParseFault::NotRead),
    }
}

/// The draft of the header, whose word `dedale` stands before the rest.
fn header(rest: Rest<'_>) -> Result<Draft, ParseFault>
    ensures read { IfOk result (λ d. header_draft (left rest.entry) ≡ Some (seen_draft d)) }
    ensures unread { IfErr result (λ e. e ≡ NotRead → header_draft (left rest.entry) ≡ None) }
{
    match number(rest) {
        Some((digits, rest)) if value_of(digits) == 2 => ended(Command::Header, rest),
        _ => Err(ParseFault::NotRead),
    }
}

/// The draft of a command whose word `relation` stands before the rest.
fn relation(alloc: Global, rest: Rest<'_>) -> Result<Draft, ParseFault>
    ensures read { IfOk result (λ d. relation_draft (left rest.entry) ≡ Some (seen_draft d)) }
    ensures unread { IfErr result (λ e. e ≡ NotRead → relation_draft (left rest.entry) ≡ None) }
{
    let Some((name, rest)) = name(rest) else {
        return Err(ParseFault::NotRead);
    };
    let (heading, rest) = heading(alloc, rest)?;
    let name = name_of(alloc, name)?;
    ended(Command::Relation(name, heading), rest)
}

/// The draft of a command whose word `insert` stands before the rest.
fn insert(alloc: Global, rest: Rest<'_>) -> Result<Draft, ParseFault>
    requires few { length (left rest) ≤ 65536 }
    ensures read { IfOk result (λ d. insert_draft capped_reader (left rest.entry) ≡ Some (seen_draft d)) }
    ensures unread { IfErr result (λ e. e ≡ NotRead → insert_draft capped_reader (left rest.entry) ≡ None) }
{
    let Some((name, rest)) = name(rest) else {
        return Err(ParseFault::NotRead);
    };
    let (formulas, rest) = braces(alloc, rest)?;
    let name = name_of(alloc, name)?;
    ended(Command::Insert(name, formulas), rest)
}

/// The draft of a command whose word `delete` stands before the rest.
fn delete(alloc: Global, rest: Rest<'_>) -> Result<Draft, ParseFault>
    ensures read { IfOk result (λ d. delete_draft capped_reader (left rest.entry) ≡ Some (seen_draft d)) }
    ensures unread { IfErr result (λ e. e ≡ NotRead → delete_draft capped_reader (left rest.entry) ≡ None) }
{
    let Some((name, rest)) = name(rest) else {
        return Err(ParseFault::NotRead);
    };
    let Some((digits, rest)) = number(rest) else {
        return Err(ParseFault::NotRead);
    };
    let name = name_of(alloc, name)?;
    ended(Command::Delete(name, value_of(digits)), rest)
}

/// The draft of a command whose word `disjoint` stands before the rest.
fn disjoint(alloc: Global, rest: Rest<'_>) -> Result<Draft, ParseFault>
    ensures read { IfOk result (λ d. disjoint_draft (left rest.entry) ≡ Some (seen_draft d)) }
    ensures unread { IfErr result (λ e. e ≡ NotRead → disjoint_draft (left rest.entry) ≡ None) }
{
    let Some((first, rest)) = name(rest) else {
        return Err(ParseFault::NotRead);
    };
    let Some((second, rest)) = name(rest) else {
        return Err(ParseFault::NotRead);
    };
    let (first, second) = (name_of(alloc, first)?, name_of(alloc, second)?);
    ended(Command::Disjoint(first, second), rest)
}

/// The draft of a command whose word `verify` stands before the rest.
fn verify(alloc: Global, rest: Rest<'_>) -> Result<Draft, ParseFault>
    ensures read { IfOk result (λ d. verify_draft capped_reader (left rest.entry) ≡ Some (seen_draft d)) }
    ensures unread { IfErr result (λ e. e ≡ NotRead → verify_draft capped_reader (left rest.entry) ≡ None) }
{
    let Some((first, rest)) = name(rest) else {
        return Err(ParseFault::NotRead);
    };
    let Some((second, rest)) = name(rest) else {
        return Err(ParseFault::NotRead);
    };
    let (entries, rest) = certificate(alloc, rest)?;
    let (first, second) = (name_of(alloc, first)?, name_of(alloc, second)?);
    ended(Command::Verify(first, second, entries), rest)
}

/// The draft of a command whose word `view` stands before the rest.
fn view(alloc: Global, rest: Rest<'_>) -> Result<Draft, ParseFault>
    requires few { length (left rest) ≤ 65536 }
    ensures read { IfOk result (λ d. view_draft capped_reader (left rest.entry) ≡ Some (seen_draft d)) }
    ensures unread { IfErr result (λ e. e ≡ NotRead → view_draft capped_reader (left rest.entry) ≡ None) }
{
    let Some((name, rest)) = name(rest) else {
        return Err(ParseFault::NotRead);
    };
    let (heading, rest) = heading(alloc, rest)?;
    let Some(rest) = define(rest) else {
        return Err(ParseFault::NotRead);
    };
    let name = name_of(alloc, name)?;
    formed(alloc, Head::View(name, heading), rest)
}

/// The draft of a command whose word `query` stands before the rest.
fn query(alloc: Global, rest: Rest<'_>) -> Result<Draft, ParseFault>
    requires few { length (left rest) ≤ 65536 }
    ensures read { IfOk result (λ d. over_draft capped_reader query_head (left rest.entry) ≡ Some (seen_draft d)) }
    ensures unread { IfErr result (λ e. e ≡ NotRead → over_draft capped_reader query_head (left rest.entry) ≡ None) }
{
    let (heading, rest) = heading(alloc, rest)?;
    let Some(rest) = colon(rest) else {
        return Err(ParseFault::NotRead);
    };
    formed(alloc, Head::Query(heading), rest)
}

/// The draft of a command whose word `explain` stands before the rest.
fn explain(alloc: Global, rest: Rest<'_>) -> Result<Draft, ParseFault>
    requires few { length (left rest) ≤ 65536 }
    ensures read { IfOk result (λ d. over_draft capped_reader explain_head (left rest.entry) ≡ Some (seen_draft d)) }
    ensures unread { IfErr result (λ e. e ≡ NotRead → over_draft capped_reader explain_head (left rest.entry) ≡ None) }
{
    let (heading, rest) = heading(alloc, rest)?;
    let Some(rest) = colon(rest) else {
        return Err(ParseFault::NotRead);
    };
    formed(alloc, Head::Explain(heading), rest)
}

/// The draft of the command that begins with the word and goes on with the rest.
fn behind(alloc: Global, word: Keyword, rest: Rest<'_>) -> Result<Draft, ParseFault>
    requires few { length (left rest) ≤ 65536 }
    ensures read { IfOk result (λ d. draft_behind capped_reader word (left rest.entry) ≡ Some (seen_draft d)) }
    ensures unread { IfErr result (λ e. e ≡ NotRead → draft_behind capped_reader word (left rest.entry) ≡ None) }
{
    match word {
        Keyword::Dedale => header(rest),
        Keyword::Relation => relation(alloc, rest),
        Keyword::Insert => insert(alloc, rest),
        Keyword::Delete => delete(alloc, rest),
        Keyword::Drop => Ok(Draft::Plain(Command::Drop(last_name(alloc, rest)?))),
        Keyword::Keep => Ok(Draft::Plain(Command::Keep(last_name(alloc, rest)?))),
        Keyword::Show => Ok(Draft::Plain(Command::Show(last_name(alloc, rest)?))),
        Keyword::BoxOf => Ok(Draft::Plain(Command::BoxOf(last_name(alloc, rest)?))),
        Keyword::Dump => ended(Command::Dump, rest),
        Keyword::View => view(alloc, rest),
        Keyword::Ask => formed(alloc, Head::Ask, rest),
        Keyword::Query => query(alloc, rest),
        Keyword::Explain => explain(alloc, rest),
        Keyword::Disjoint => disjoint(alloc, rest),
        Keyword::Verify => verify(alloc, rest),
        _ => Err(ParseFault::NotRead),
    }
}

/// The draft of the command that all items spell.
///
/// # Errors
/// `NotRead` only where the items spell no draft, otherwise out of memory.
pub fn draft(alloc: Global, items: Rest<'_>) -> Result<Draft, ParseFault>
    requires few { length (left items) ≤ 65536 }
    ensures read { IfOk result (λ d. draft_at capped_reader (left items.entry) ≡ Some (seen_draft d)) }
    ensures unread { IfErr result (λ e. e ≡ NotRead → draft_at capped_reader (left items.entry) ≡ None) }
{
    match keyword(items) {
        Some((word, rest)) => behind(alloc, word, rest),
        None => Err(ParseFault::NotRead),
    }
}
