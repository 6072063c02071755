//! Atoms, tuples and lists of tuples.
ghost use Rattle.std.specs.Prelude.{◌≡◌, [], false, codes, length, Some, None, IfSome, IfNone, IfOk, IfErr};
ghost use Rattle.std.specs.List.{AllByRecursion};
ghost use Rattle.ded_model.specs.declared.tuple.BothAtom.TheVariants.{First};
ghost use Rattle.ded_model.specs.Normal.{constant_row};
ghost use Rattle.ded_tuple.specs.TrueRows.{IsNormalOrTrue};
ghost use Rattle.ded_model.specs.declared.fault.ParseFault.TheVariants.{NotRead};
ghost use Rattle.ded_readback.specs.Reading.{behind, false_at, atom_at, separated, next_atom, atoms_from, tuple_at};
ghost use Rattle.ded_readback.specs.Reading.{tuples_at, answer_at};

use crate::bytes::{behind, behind_line};
use crate::row::row;
use crate::terms::term;
use crate::theme::theme;
use ded_model::fault::ParseFault;
use ded_model::name::Column;
use ded_model::row::{Coefs, Row, RowOp};
use ded_model::slot::Sort;
use ded_model::tuple::{Atom, BothAtom, Tuple};
use ded_row::normal;
use ded_tuple::normal_tuple;
use std::alloc::Global;

/// The row `0 < 0`.
#[tactic(auto, unfolding(ded_model::specs::Normal::normal_row))]
fn false_row(alloc: Global) -> Row
    ensures value { result ≡ constant_row false }
    ensures normal { IsNormalOrTrue (First result) }
{
    let row = normal(Row {
        coefs: Coefs::new(alloc),
        constant: 0,
        op: RowOp::Below,
    });
    let _ = row.coefs.list();
    row
}

/// The row `0 < 0` as an atom, and what stands behind it; none where the bytes begin otherwise.
fn falsehood(alloc: Global, bytes: &[u8]) -> Option<(Atom, &[u8])>
    ensures some { IfSome result (λ x. false_at (behind (codes "0 < 0") bytes.now) ≡ Some (x.0, x.1.now)) }
    ensures none { IfNone result (false_at (behind (codes "0 < 0") bytes.now) ≡ None) }
    ensures normal { IfSome result (λ x. IsNormalOrTrue x.0) }
{
    let rest = behind(bytes, b"0 < 0")?;
    Some((BothAtom::First(false_row(alloc)), rest))
}

/// The atom in front, and what stands behind it.
fn atom<'a>(
    alloc: Global,
    columns: &[Column],
    bytes: &'a [u8],
) -> Result<(Atom, &'a [u8]), ParseFault>
    ensures read { IfOk result (λ x. atom_at columns.now bytes.now ≡ Some (x.0, x.1.now)) }
    ensures unread { IfErr result (λ e. e ≡ NotRead → atom_at columns.now bytes.now ≡ None) }
    ensures normal { IfOk result (λ x. IsNormalOrTrue x.0) }
{
    let Some((first, rest)) = term(columns, false, bytes) else {
        return falsehood(alloc, bytes).ok_or(ParseFault::NotRead);
    };
    if first.slot.sort == Sort::Text {
        let (atom, rest) = theme(alloc, columns, first.slot, rest)?;
        return Ok((BothAtom::Second(atom), rest));
    }
    let (row, rest) = row(alloc, columns, first, rest)?;
    Ok((BothAtom::First(row), rest))
}

/// What stands behind a blank, or behind a comma and a blank; none where the bytes begin with neither.
fn separated(bytes: &[u8]) -> Option<&[u8]>
    ensures some { IfSome result (λ rest. separated bytes.now ≡ Some rest.now) }
    ensures none { IfNone result (separated bytes.now ≡ None) }
{
    if let Some(rest) = behind(bytes, b", ") {
        return Some(rest);
    }
    behind(bytes, b" ")
}

/// The atom behind a blank, or behind a comma and a blank, and what stands behind it.
fn next_atom<'a>(
    alloc: Global,
    columns: &[Column],
    bytes: &'a [u8],
) -> Result<(Atom, &'a [u8]), ParseFault>
    ensures read { IfOk result (λ x. next_atom columns.now bytes.now ≡ Some (x.0, x.1.now)) }
    ensures unread { IfErr result (λ e. e ≡ NotRead → next_atom columns.now bytes.now ≡ None) }
    ensures normal { IfOk result (λ x. IsNormalOrTrue x.0) }
{
    let Some(rest) = separated(bytes) else {
        return Err(ParseFault::NotRead);
    };
    atom(alloc, columns, rest)
}

/// The atoms up to the closing brace and the end of the line, and what stands behind that.
fn atoms<'a>(
    alloc: Global,
    columns: &[Column],
    bytes: &'a [u8],
) -> Result<(Vec<Atom>, &'a [u8]), ParseFault>
    ensures read { IfOk result (λ x. atoms_from columns.now (length bytes.now) [] bytes.now
        ≡ Some (x.0.items, x.1.now)) }
    ensures unread { IfErr result (λ e. e ≡ NotRead → atoms_from columns.now (length bytes.now) [] bytes.now ≡ None) }
    ensures normal { IfOk result (λ x. AllByRecursion IsNormalOrTrue x.0.items) }
{
    let mut atoms = Vec::new(alloc);
    let mut rest = bytes;
    // Each atom has a byte at least.
    for _ in 0..bytes.len() {
        if let Some(after) = behind(rest, b" }\n") {
            return Ok((atoms, after));
        }
        let (atom, after) = next_atom(alloc, columns, rest)?;
        atoms.push(atom)?;
        rest = after;
    }
    Err(ParseFault::NotRead)
}

/// The tuple behind its opening brace, up to the end of the line, and what stands behind that.
fn tuple<'a>(
    alloc: Global,
    columns: &[Column],
    bytes: &'a [u8],
) -> Result<(Tuple, &'a [u8]), ParseFault>
    ensures read { IfOk result (λ x. tuple_at columns.now bytes.now ≡ Some (x.0, x.1.now)) }
    ensures unread { IfErr result (λ e. e ≡ NotRead → tuple_at columns.now bytes.now ≡ None) }
{
    let (atoms, rest) = atoms(alloc, columns, bytes)?;
    let tuple = normal_tuple(alloc, atoms)?;
    Ok((tuple, rest))
}

/// The tuples on the lines behind the first one. The first line, and what stands behind the tuples, isn't looked at.
///
/// # Errors
/// `NotRead` only where what stands behind the first line doesn't begin with tuples, otherwise out of memory.
pub(crate) fn answer_tuples(
    alloc: Global,
    columns: &[Column],
    bytes: &[u8],
) -> Result<Vec<Tuple>, ParseFault>
    ensures read { IfOk result (λ list. answer_at columns.now bytes.now ≡ Some list.items) }
    ensures unread { IfErr result (λ e. e ≡ NotRead → answer_at columns.now bytes.now ≡ None) }
{
    tuples(alloc, columns, behind_line(bytes))
}

/// The tuples on the lines in front that begin with a brace.
fn tuples(alloc: Global, columns: &[Column], bytes: &[u8]) -> Result<Vec<Tuple>, ParseFault>
    ensures read { IfOk result (λ list. tuples_at columns.now bytes.now ≡ Some list.items) }
    ensures unread { IfErr result (λ e. e ≡ NotRead → tuples_at columns.now bytes.now ≡ None) }
{
    let mut tuples = Vec::new(alloc);
    let mut rest = bytes;
    // Each tuple has a byte at least.
    for _ in 0..bytes.len() {
        let Some(inner) = behind(rest, b"{") else {
            return Ok(tuples);
        };
        let (tuple, after) = tuple(alloc, columns, inner)?;
        tuples.push(tuple)?;
        rest = after;
    }
    Err(ParseFault::NotRead)
}
