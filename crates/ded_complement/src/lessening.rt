//! Pieces without the points of a conjunction.
ghost use Rattle.std.specs.Prelude.{◌≡◌, true, not, ◌&&◌, List, IfOk};
ghost use Rattle.std.specs.List.{AllByRecursion};
ghost use Rattle.ded_model.specs.declared.slot.Slot.{Slot};
ghost use Rattle.ded_model.specs.Cell.{conj_holds, HoldsSomewhere, HoldsNowhere};
ghost use Rattle.ded_theory.specs.Conjunctions.{IsWide};
ghost use Rattle.ded_genrel.specs.Lists.{conjs_hold};
ghost use Rattle.ded_genrel.specs.Rounds.{AreRational, IsRound};
ghost use Rattle.ded_complement.specs.Boxed.{conjs_in, IsBoxed, AreBoxed};
ghost use Rattle.ded_complement.specs.Pieces.{AreAmong, IsMadeOf, ArePieces, IsMore};

use crate::boxed::{Boxed, push_boxed};
use crate::pieces::push_outside;
use ded_box::meets;
use ded_genrel::{GenRel, both_conjs};
use ded_model::memory::NoMemory;
use ded_model::slot::Slot;
use ded_theory::{Theory, Verdict};
use std::alloc::Global;

/// The pieces without the points of the conjunction.
///
/// # Errors
/// Out of memory.
pub(crate) fn without<T: Theory>(
    alloc: Global,
    pieces: Vec<Boxed<T::Atom>>,
    conj: &Boxed<T::Atom>,
    slots: &[Slot],
) -> Result<Vec<Boxed<T::Atom>>, NoMemory>
    requires rational { AreRational slots.now }
    requires boxed { AreBoxed T.holds T.normal slots.now pieces.items }
    requires boxed_conj { IsBoxed T.holds T.normal slots.now conj.now }
    ensures is { IfOk result (λ out. (atoms : List T.Atom)
        → ArePieces T.holds T.mentions T.lines T.cell atoms (conjs_hold T.holds (conjs_in pieces.items))
        (conjs_in pieces.items) → AreAmong atoms conj.now.conj.items
        → ArePieces T.holds T.mentions T.lines T.cell atoms (λ p. conjs_hold T.holds (conjs_in pieces.items) p
        && not (conj_holds T.holds conj.now.conj.items p)) (conjs_in out.items)) }
    ensures boxed { IfOk result (λ out. AreBoxed T.holds T.normal slots.now out.items) }
{
    let mut out = Vec::with_capacity(alloc, pieces.len())?;
    for piece in pieces {
        push_without::<T>(&mut out, piece, conj, slots)?;
    }
    Ok(out)
}

/// Sets the piece without the points of the conjunction at the end: the piece itself where they share none.
fn push_without<T: Theory>(
    out: &mut Vec<Boxed<T::Atom>>,
    piece: Boxed<T::Atom>,
    conj: &Boxed<T::Atom>,
    slots: &[Slot],
) -> Result<(), NoMemory>
    requires rational { AreRational slots.now }
    requires boxed { AreBoxed T.holds T.normal slots.now out.old.items }
    requires boxed_piece { IsBoxed T.holds T.normal slots.now piece }
    requires boxed_conj { IsBoxed T.holds T.normal slots.now conj.now }
    ensures is { IfOk result (λ _. IsMore T.holds T.mentions T.lines T.cell
        (λ atoms. IsMadeOf T.mentions T.lines T.cell atoms piece.conj.items × AreAmong atoms conj.now.conj.items
        × ((IsWide T.mentions T.lines atoms → ⊥) → HoldsSomewhere (conj_holds T.holds piece.conj.items)))
        (λ p. conj_holds T.holds piece.conj.items p && not (conj_holds T.holds conj.now.conj.items p))
        (conjs_in out.old.items) (conjs_in out.new.items)) }
    ensures boxed { IfOk result (λ _. AreBoxed T.holds T.normal slots.now out.new.items) }
{
    let alloc = *out.allocator();
    if are_apart::<T>(alloc, &piece, conj)? {
        out.push(piece)?;
        return Ok(());
    }
    let mut parts = GenRel::<T>::new(alloc);
    push_outside(&mut parts, piece.conj, &conj.conj)?;
    push_boxed(out, parts, slots)
}

/// Whether it is plain that no point satisfies both conjunctions: the boxes share no value, or the atoms together are
/// refuted.
fn are_apart<T: Theory>(
    alloc: Global,
    one: &Boxed<T::Atom>,
    other: &Boxed<T::Atom>,
) -> Result<bool, NoMemory>
    requires normal { AllByRecursion T.normal one.now.conj.items }
    requires normal_other { AllByRecursion T.normal other.now.conj.items }
    ensures { IfOk result (λ apart. apart ≡ true → (ss : List Slot)
        → IsRound T.holds ss one.now.conj.items one.now.bounds
        → IsRound T.holds ss other.now.conj.items other.now.bounds
        → HoldsNowhere (λ p. conj_holds T.holds one.now.conj.items p && conj_holds T.holds other.now.conj.items p)) }
{
    if !meets(&one.bounds, &other.bounds) {
        return Ok(true);
    }
    let shared = both_conjs::<T>(alloc, &one.conj, &other.conj)?;
    match T::refute(alloc, &shared)? {
        Verdict::Empty => Ok(true),
        _ => Ok(false),
    }
}
