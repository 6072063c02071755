//! Comparisons, members and columns.
ghost use Rattle.std.specs.Prelude.{◌≡◌, ◌≤◌, ◌<◌, ◌++◌, codes, length, Some, None, IfSome, IfNone, IfOk, IfErr};
ghost use Rattle.ded_model.specs.declared.fault.ParseFault.TheVariants.{NotRead};
ghost use Rattle.ded_model.specs.Form.{form};
ghost use Rattle.ded_terminals.specs.Items.{left};
ghost use Rattle.ded_terminals.specs.Literals.{capped_reader};
ghost use Rattle.ded_terminals.specs.Atoms.{name_of};
ghost use Rattle.ded_terminals.specs.AtomReading.{relation_at, compare_at, comma_at, argument_at, operands_at};
ghost use Rattle.ded_terminals.specs.AtomReading.{enclosed_at, named_at, called_at, atom_at, sort_at, column_at};
ghost use Rattle.ded_terminals.specs.Views.{seen_name};

use crate::item::{Item, Keyword, Rest, text};
use crate::operand::{argument_of, name_of, operands_of};
use crate::side::{name, read_side};
use ded_model::fault::ParseFault;
use ded_model::formula::{CompareOp, Formula, Operand, Operands};
use ded_model::memory::NoMemory;
use ded_model::name::{Column, Name};
use ded_model::slot::Sort;
use std::alloc::Global;

/// The sign of a comparison, and what stands behind it; none where the rest begins with no such sign.
fn relation(rest: Rest<'_>) -> Option<(CompareOp, Rest<'_>)>
    ensures some { IfSome result (λ x. relation_at (left rest.entry) ≡ Some (x.0, left x.1)) }
    ensures none { IfNone result (relation_at (left rest.entry) ≡ None) }
    ensures low { IfSome result (λ x. length (left x.1) < length (left rest.entry)) }
{
    match rest.items {
        [Item::Relation(op), items @ ..] => Some((*op, Rest { items, ..rest })),
        _ => None,
    }
}

/// The comparison with which the rest begins, and what stands behind it.
///
/// # Errors
/// `NotRead` only where the rest begins with no comparison, otherwise out of memory.
pub fn comparison(alloc: Global, rest: Rest<'_>) -> Result<(Formula, Rest<'_>), ParseFault>
    requires few { length (left rest) ≤ 65536 }
    ensures read { IfOk result (λ x. compare_at capped_reader (left rest.entry) ≡ Some (form x.0, left x.1)) }
    ensures unread { IfErr result (λ e. e ≡ NotRead → compare_at capped_reader (left rest.entry) ≡ None) }
    ensures low { IfOk result (λ x. length (left x.1) < length (left rest.entry)) }
{
    let (left, rest) = read_side(alloc, rest)?;
    let Some((op, rest)) = relation(rest) else {
        return Err(ParseFault::NotRead);
    };
    let (right, rest) = read_side(alloc, rest)?;
    let (left, right) = operands_of(alloc, &left, &right)?;
    Ok((Formula::Compare(left, op, right), rest))
}

/// What stands behind an item of a list in parentheses: true behind a comma, where another item is to come, and false
/// behind the closing parenthesis; then the rest behind that. None where the rest begins with neither.
pub fn comma(rest: Rest<'_>) -> Option<(bool, Rest<'_>)>
    ensures some { IfSome result (λ x. comma_at (left rest.entry) ≡ Some (x.0, left x.1)) }
    ensures none { IfNone result (comma_at (left rest.entry) ≡ None) }
    ensures low { IfSome result (λ x. length (left x.1) < length (left rest.entry)) }
{
    match rest.items {
        [Item::Comma, items @ ..] => Some((true, Rest { items, ..rest })),
        [Item::Close, items @ ..] => Some((false, Rest { items, ..rest })),
        _ => None,
    }
}

/// The operand of a member with which the rest begins, and what stands behind it.
fn argument(alloc: Global, rest: Rest<'_>) -> Result<(Operand, Rest<'_>), ParseFault>
    requires few { length (left rest) ≤ 65536 }
    ensures read { IfOk result (λ x. argument_at capped_reader (left rest.entry) ≡ Some (x.0, left x.1)) }
    ensures unread { IfErr result (λ e. e ≡ NotRead → argument_at capped_reader (left rest.entry) ≡ None) }
    ensures low { IfOk result (λ x. length (left x.1) < length (left rest.entry)) }
{
    let (side, rest) = read_side(alloc, rest)?;
    Ok((argument_of(alloc, &side)?, rest))
}

/// The operands of a member, up to the closing parenthesis, and what stands behind that.
fn operands(alloc: Global, items: Rest<'_>) -> Result<(Vec<Operand>, Rest<'_>), ParseFault>
    requires few { length (left items) ≤ 65536 }
    ensures read { IfOk result (λ x. operands_at capped_reader (left items.entry) ≡ Some (x.0.items, left x.1)) }
    ensures unread { IfErr result (λ e. e ≡ NotRead → operands_at capped_reader (left items.entry) ≡ None) }
    ensures low { IfOk result (λ x. length (left x.1) < length (left items.entry)) }
{
    let mut list = Vec::new(alloc);
    let mut rest = items;
    // Each operand has an item at least.
    for _ in 0..items.items.len() {
        let (next, after) = argument(alloc, rest)?;
        list.push(next)?;
        let Some((goes_on, behind)) = comma(after) else {
            return Err(ParseFault::NotRead);
        };
        if !goes_on {
            return Ok((list, behind));
        }
        rest = behind;
    }
    Err(ParseFault::NotRead)
}

/// What a member is of: the relation or view of the name in it, or its closure or its interior.
#[derive(Clone, Copy, Debug)]
pub enum Naming {
    Itself,
    Closure,
    Interior,
}

/// How a member is named, with the name in parentheses with which the rest begins, and what stands behind these; none
/// where the rest begins otherwise.
fn enclosed(naming: Naming, rest: Rest<'_>) -> Option<(Naming, &[u8], Rest<'_>)>
    ensures naming { IfSome result (λ x. x.0 ≡ naming) }
    ensures some { IfSome result (λ x. enclosed_at (left rest.entry) ≡ Some (x.1.now, left x.2)) }
    ensures none { IfNone result (enclosed_at (left rest.entry) ≡ None) }
    ensures low { IfSome result (λ x. length (left x.2) < length (left rest.entry)) }
{
    match rest.items {
        [Item::Open, Item::Name(name), Item::Close, items @ ..] => Some((
            naming,
            text(rest.bytes, *name),
            Rest { items, ..rest },
        )),
        _ => None,
    }
}

/// The name of a member with which the rest begins, by the name in it, and what stands behind it; none where the rest
/// begins with no such name.
fn named(rest: Rest<'_>) -> Option<(Naming, &[u8], Rest<'_>)>
    ensures some { IfSome result (λ x. named_at (left rest.entry) ≡ Some (seen_name x.0 x.1.now, left x.2)) }
    ensures none { IfNone result (named_at (left rest.entry) ≡ None) }
    ensures low { IfSome result (λ x. length (left x.2) < length (left rest.entry)) }
{
    match rest.items {
        [Item::Name(name), items @ ..] => Some((
            Naming::Itself,
            text(rest.bytes, *name),
            Rest { items, ..rest },
        )),
        [Item::Word(Keyword::Closure), items @ ..] => {
            enclosed(Naming::Closure, Rest { items, ..rest })
        }
        [Item::Word(Keyword::Interior), items @ ..] => {
            enclosed(Naming::Interior, Rest { items, ..rest })
        }
        _ => None,
    }
}

/// The name of a member before an opening parenthesis, by the name in it, and what stands behind both; none where the
/// rest begins otherwise.
fn called(rest: Rest<'_>) -> Option<(Naming, &[u8], Rest<'_>)>
    ensures some { IfSome result (λ x. called_at (left rest.entry) ≡ Some (seen_name x.0 x.1.now, left x.2)) }
    ensures none { IfNone result (called_at (left rest.entry) ≡ None) }
    ensures low { IfSome result (λ x. length (left x.2) < length (left rest.entry)) }
{
    let Some((naming, name, behind)) = named(rest) else {
        return None;
    };
    match behind.items {
        [Item::Open, items @ ..] => Some((naming, name, Rest { items, ..behind })),
        _ => None,
    }
}

/// The name between a front and a closing parenthesis.
fn made_name(alloc: Global, front: &[u8], name: &[u8]) -> Result<Name, NoMemory>
    ensures { IfOk result (λ n. n ≡ front.now ++ (name.now ++ codes ")")) }
{
    let mut bytes = front.to_vec(alloc)?;
    bytes.extend_from_slice(name)?;
    bytes.push(b')')?;
    Ok(Name { bytes })
}

/// The name of a member, by the name in it.
///
/// # Errors
/// Out of memory.
fn member_name(alloc: Global, naming: Naming, name: &[u8]) -> Result<Name, NoMemory>
    ensures { IfOk result (λ n. n ≡ name_of (seen_name naming name.now)) }
{
    match naming {
        Naming::Itself => name_of(alloc, name),
        Naming::Closure => made_name(alloc, b"closure(", name),
        Naming::Interior => made_name(alloc, b"interior(", name),
    }
}

/// The comparison or the member with which the rest begins, and what stands behind it.
///
/// # Errors
/// `NotRead` only where the rest begins with neither, otherwise out of memory.
pub(crate) fn atom(alloc: Global, rest: Rest<'_>) -> Result<(Formula, Rest<'_>), ParseFault>
    requires few { length (left rest) ≤ 65536 }
    ensures read { IfOk result (λ x. atom_at capped_reader (left rest.entry) ≡ Some (form x.0, left x.1)) }
    ensures unread { IfErr result (λ e. e ≡ NotRead → atom_at capped_reader (left rest.entry) ≡ None) }
    ensures low { IfOk result (λ x. length (left x.1) < length (left rest.entry)) }
{
    let Some((naming, name, behind)) = called(rest) else {
        return comparison(alloc, rest);
    };
    let (list, behind) = operands(alloc, behind)?;
    let name = member_name(alloc, naming, name)?;
    Ok((Formula::Member(name, Operands { list }), behind))
}

/// The sort of a column whose name stands before, text where the word `text` follows and rational otherwise, and what
/// stands behind it.
fn sort(rest: Rest<'_>) -> (Sort, Rest<'_>)
    ensures read { sort_at (left rest.entry) ≡ (result.0, left result.1) }
    ensures low { length (left result.1) ≤ length (left rest.entry) }
{
    match rest.items {
        [Item::Word(Keyword::Text), items @ ..] => (Sort::Text, Rest { items, ..rest }),
        _ => (Sort::Rat, rest),
    }
}

/// The column with which the rest begins, and what stands behind it.
///
/// # Errors
/// `NotRead` only where the rest begins with no column, otherwise out of memory.
pub fn column(alloc: Global, rest: Rest<'_>) -> Result<(Column, Rest<'_>), ParseFault>
    ensures read { IfOk result (λ x. column_at (left rest.entry) ≡ Some (x.0, left x.1)) }
    ensures unread { IfErr result (λ e. e ≡ NotRead → column_at (left rest.entry) ≡ None) }
    ensures low { IfOk result (λ x. length (left x.1) < length (left rest.entry)) }
{
    let Some((name, behind)) = name(rest) else {
        return Err(ParseFault::NotRead);
    };
    let (sort, behind) = sort(behind);
    let name = name_of(alloc, name)?;
    Ok((Column { name, sort }, behind))
}
