//! Text atoms.
ghost use Rattle.std.specs.Prelude.{◌≡◌, [], Some, None, false, IfSome, IfNone, IfOk, IfErr};
ghost use Rattle.ded_model.specs.declared.slot.Sort.TheVariants.{Text};
ghost use Rattle.ded_model.specs.Point.{AllBytes};
ghost use Rattle.ded_model.specs.Normal.{IsNormalTheme};
ghost use Rattle.ded_model.specs.declared.fault.ParseFault.TheVariants.{NotRead};
ghost use Rattle.ded_readback.specs.Reading.{unquoted, equality_at, text_atom, text_at, slots_atom, slots_at, theme_at};

use crate::bytes::behind;
use crate::slot::slot;
use ded_model::fault::ParseFault;
use ded_model::name::{Column, Name};
use ded_model::slot::{Slot, Sort};
use ded_model::tuple::ThemeAtom;
use std::alloc::Global;

/// The text up to its closing quote, where the opening one is behind, and what stands behind it.
fn unquoted(alloc: Global, bytes: &[u8]) -> Result<(Name, &[u8]), ParseFault>
    ensures read { IfOk result (λ x. unquoted [] false bytes.now ≡ Some (x.0, x.1.now)) }
    ensures unread { IfErr result (λ e. e ≡ NotRead → unquoted [] false bytes.now ≡ None) }
    ensures bytes { IfOk result (λ x. AllBytes x.0) }
{
    let mut text = Vec::new(alloc);
    let mut closed = false;
    for (i, byte) in bytes.iter().enumerate() {
        // A byte that is no quote, or the second of two quotes.
        if (*byte == b'\'') == closed {
            text.push(*byte)?;
            closed = false;
            continue;
        }
        if closed {
            return Ok((Name { bytes: text }, &bytes[i..]));
        }
        closed = true;
    }
    if !closed {
        return Err(ParseFault::NotRead);
    }
    Ok((Name { bytes: text }, &[]))
}

/// Whether the sign in front is that of an equality, or of its negation, and what stands behind it; none where the
/// bytes begin with neither.
fn equality(bytes: &[u8]) -> Option<(bool, &[u8])>
    ensures some { IfSome result (λ x. equality_at bytes.now ≡ Some (x.0, x.1.now)) }
    ensures none { IfNone result (equality_at bytes.now ≡ None) }
{
    if let Some(rest) = behind(bytes, b" = ") {
        return Some((true, rest));
    }
    let rest = behind(bytes, b" != ")?;
    Some((false, rest))
}

/// The text atom of a slot and a text, which are equal or not.
fn text_atom(equal: bool, slot: Slot, text: Name) -> ThemeAtom
    ensures { result ≡ text_atom equal slot text }
{
    if equal {
        return ThemeAtom::EqText(slot, text);
    }
    ThemeAtom::NeText(slot, text)
}

/// The text atom of two slots, which are equal or not; none where the right one isn't a text slot of greater number.
fn slots_atom(equal: bool, left: Slot, right: Slot) -> Option<ThemeAtom>
    requires { left.sort ≡ Text }
    ensures value { result ≡ slots_atom equal left right }
    ensures normal { IfSome result IsNormalTheme }
{
    if right.sort != Sort::Text || left.number >= right.number {
        return None;
    }
    if equal {
        return Some(ThemeAtom::EqSlot(left, right));
    }
    Some(ThemeAtom::NeSlot(left, right))
}

/// The text atom of a slot and a quoted text, whose opening quote is behind, and what stands behind it.
fn with_text<'a>(
    alloc: Global,
    slot: Slot,
    equal: bool,
    bytes: &'a [u8],
) -> Result<(ThemeAtom, &'a [u8]), ParseFault>
    requires { slot.sort ≡ Text }
    ensures read { IfOk result (λ x. text_at equal slot bytes.now ≡ Some (x.0, x.1.now)) }
    ensures unread { IfErr result (λ e. e ≡ NotRead → text_at equal slot bytes.now ≡ None) }
    ensures normal { IfOk result (λ x. IsNormalTheme x.0) }
{
    let (text, rest) = unquoted(alloc, bytes)?;
    Ok((text_atom(equal, slot, text), rest))
}

/// The text atom of the left slot and the one that is named in front, and what stands behind it; none where they make
/// no atom.
fn with_slot<'a>(
    columns: &[Column],
    left: Slot,
    equal: bool,
    bytes: &'a [u8],
) -> Option<(ThemeAtom, &'a [u8])>
    requires { left.sort ≡ Text }
    ensures some { IfSome result (λ x. slots_at columns.now equal left bytes.now ≡ Some (x.0, x.1.now)) }
    ensures none { IfNone result (slots_at columns.now equal left bytes.now ≡ None) }
    ensures normal { IfSome result (λ x. IsNormalTheme x.0) }
{
    let (right, rest) = slot(columns, bytes)?;
    let atom = slots_atom(equal, left, right)?;
    Some((atom, rest))
}

/// The text atom that begins with this slot, and what stands behind it.
///
/// # Errors
/// `NotRead` only where the slot and the bytes behind it begin with no text atom, otherwise out of memory.
pub(crate) fn theme<'a>(
    alloc: Global,
    columns: &[Column],
    slot: Slot,
    bytes: &'a [u8],
) -> Result<(ThemeAtom, &'a [u8]), ParseFault>
    requires { slot.sort ≡ Text }
    ensures read { IfOk result (λ x. theme_at columns.now slot bytes.now ≡ Some (x.0, x.1.now)) }
    ensures unread { IfErr result (λ e. e ≡ NotRead → theme_at columns.now slot bytes.now ≡ None) }
    ensures normal { IfOk result (λ x. IsNormalTheme x.0) }
{
    let Some((equal, rest)) = equality(bytes) else {
        return Err(ParseFault::NotRead);
    };
    if let Some(quoted) = behind(rest, b"'") {
        return with_text(alloc, slot, equal, quoted);
    }
    match with_slot(columns, slot, equal, rest) {
        Some(read) => Ok(read),
        None => Err(ParseFault::NotRead),
    }
}
