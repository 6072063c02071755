//! Pieces of a difference.
ghost use Rattle.std.specs.Prelude.{◌≡◌, false, not, ◌&&◌, [], ◌∷◌, IfOk};
ghost use Rattle.std.specs.List.{AllByRecursion};
ghost use Rattle.ded_model.specs.Cell.{conj_holds, HoldsNowhere};
ghost use Rattle.ded_complement.specs.Pieces.{IsAmong, AreAmong, IsMadeOf, IsMore};

use crate::shortening::with_last;
use ded_genrel::{GenRel, copy_conj};
use ded_model::memory::NoMemory;
use ded_model::tuple::Negated;
use ded_theory::{Theory, Verdict};
use std::alloc::Global;

/// Sets pieces of what satisfies the piece and not the conjunction at the end: for each atom what satisfies those
/// before it and not the atom. An atom that the piece implies gives none, and isn't added to it.
///
/// # Errors
/// Out of memory.
pub(crate) fn push_outside<T: Theory>(
    out: &mut GenRel<T>,
    piece: Vec<T::Atom>,
    conj: &[T::Atom],
) -> Result<(), NoMemory>
    requires normal { AllByRecursion T.normal piece.items }
    requires normal_conj { AllByRecursion T.normal conj.now }
    ensures { IfOk result (λ _. IsMore T.holds T.mentions T.lines T.cell
        (λ atoms. IsMadeOf T.mentions T.lines T.cell atoms piece.items
        × AreAmong atoms conj.now) (λ p. conj_holds T.holds piece.items p
        && not (conj_holds T.holds conj.now p)) out.old out.new) }
{
    let Some((last, others)) = conj.split_last() else {
        return Ok(());
    };
    let alloc = *piece.allocator();
    let mut rest = piece;
    for atom in others {
        if push_negated(out, copy_conj::<T>(alloc, &rest)?, atom)? {
            rest.push(T::copy(atom)?)?;
        }
    }
    push_negated(out, rest, last)?;
    Ok(())
}

/// Sets pieces of what satisfies the rest and not the atom at the end. Returns whether there are any.
fn push_negated<T: Theory>(
    out: &mut GenRel<T>,
    rest: Vec<T::Atom>,
    atom: &T::Atom,
) -> Result<bool, NoMemory>
    requires normal { AllByRecursion T.normal rest.items }
    requires normal_atom { T.normal atom.now }
    ensures more { IfOk result (λ _. IsMore T.holds T.mentions T.lines T.cell
        (λ atoms. IsMadeOf T.mentions T.lines T.cell atoms rest.items
        × IsAmong atoms atom.now) (λ p. conj_holds T.holds rest.items p && not (T.holds atom.now p)) out.old out.new) }
    ensures dropped { IfOk result (λ kept. kept ≡ false
        → HoldsNowhere (λ p. conj_holds T.holds rest.items p && not (T.holds atom.now p))) }
{
    match T::negate(atom)? {
        Negated::One(only) => push_with(out, rest, only),
        Negated::Two(first, second) => {
            let alloc = *rest.allocator();
            let kept_first = push_with(out, copy_conj::<T>(alloc, &rest)?, first)?;
            let kept_second = push_with(out, rest, second)?;
            Ok(kept_first || kept_second)
        }
    }
}

/// Sets the rest with one more atom at the end where it may hold somewhere. Returns whether it was set.
fn push_with<T: Theory>(
    out: &mut GenRel<T>,
    rest: Vec<T::Atom>,
    last: T::Atom,
) -> Result<bool, NoMemory>
    requires normal { AllByRecursion T.normal rest.items }
    requires normal_last { T.normal last }
    ensures more { IfOk result (λ _. IsMore T.holds T.mentions T.lines T.cell
        (λ atoms. IsMadeOf T.mentions T.lines T.cell atoms rest.items
        × IsMadeOf T.mentions T.lines T.cell atoms (last ∷ [])) (λ p. conj_holds T.holds rest.items p
        && T.holds last p) out.old out.new) }
    ensures dropped { IfOk result (λ kept. kept ≡ false
        → HoldsNowhere (λ p. conj_holds T.holds rest.items p && T.holds last p)) }
{
    let piece = with_last::<T>(rest, last)?;
    push_piece(out, piece)
}

/// Sets the piece at the end where it may hold somewhere. Returns whether it was set.
fn push_piece<T: Theory>(out: &mut GenRel<T>, piece: Vec<T::Atom>) -> Result<bool, NoMemory>
    requires normal { AllByRecursion T.normal piece.items }
    ensures more { IfOk result (λ _. IsMore T.holds T.mentions T.lines T.cell
        (λ atoms. IsMadeOf T.mentions T.lines T.cell atoms piece.items)
        (conj_holds T.holds piece.items) out.old out.new) }
    ensures dropped { IfOk result (λ kept. kept ≡ false → HoldsNowhere (conj_holds T.holds piece.items)) }
{
    let alloc = *piece.allocator();
    match T::refute(alloc, &piece)? {
        Verdict::Empty => Ok(false),
        _ => {
            out.push(piece)?;
            Ok(true)
        }
    }
}
