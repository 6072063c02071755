//! A theory of numbers and a theory of texts together.
ghost use Rattle.std.specs.Prelude.{◌≡◌, ◌||◌, true, IfOk, IsErrOf};
ghost use Rattle.std.specs.List.{AllByRecursion};
ghost use Rattle.ded_model.specs.declared.slot.Sort.TheVariants.{Rat, Text};
ghost use Rattle.ded_model.specs.declared.memory.Refused.TheVariants.{Wide};
ghost use Rattle.ded_model.specs.Lines.{clash_at};
ghost use Rattle.ded_theory.specs.Conjunctions.{conj_lines};
ghost use Rattle.ded_theory.specs.Eliminations.{IsElimination};
ghost use Rattle.ded_theory.specs.Verdicts.{joined_verdict, joined_span};
ghost use Rattle.ded_theory.specs.KindLaws.{kinds_respect, kinds_tell, kinds_owned, kinds_fixed, kinds_line_slots};
ghost use Rattle.ded_theory.specs.Both.{by_kind, IsByKind, firsts, seconds, first_pieces, second_pieces};

use crate::answers::{Eliminated, Span, Verdict};
use crate::theory::{OfNumbers, OfTexts, Theory};
use ded_model::memory::{NoMemory, Refused};
use ded_model::name::Name;
use ded_model::slot::{Slot, Sort};
use ded_model::tuple::{BothAtom, Negated};
use std::alloc::Global;
use std::marker::PhantomData;

/// The theory whose atoms are those of two theories: a conjunction is split, each part is handed to its theory, and the
/// answers are put together. The texts come first, as they are cheap to refute: where nothing satisfies them, the
/// numbers are not looked at. It decides every conjunction where both theories do.
pub struct Both<A: OfNumbers, B: OfTexts> {
    pub parts: PhantomData<(A, B)>,
}

impl<A: OfNumbers, B: OfTexts> Theory for Both<A, B> {
    type Atom = BothAtom<A::Atom, B::Atom>;

    ghost holds = { by_kind A.holds B.holds };

    ghost mentions = { by_kind A.mentions B.mentions };

    ghost cell = { by_kind A.cell B.cell };

    ghost lines = { by_kind A.lines B.lines };

    ghost fixed = { by_kind A.fixed B.fixed };

    ghost normal = { IsByKind A.normal B.normal };

    ghost owned = { λ s. A.owned s || B.owned s };

    ghost decides = { A.decides × B.decides };

    fn owns(sort: Sort) -> bool {
        A::owns(sort) || B::owns(sort)
    }

    fn copy(atom: &BothAtom<A::Atom, B::Atom>) -> Result<BothAtom<A::Atom, B::Atom>, NoMemory> {
        match atom {
            BothAtom::First(first) => Ok(BothAtom::First(A::copy(first)?)),
            BothAtom::Second(second) => Ok(BothAtom::Second(B::copy(second)?)),
        }
    }

    fn rename(
        atom: &BothAtom<A::Atom, B::Atom>,
        map: &[(Slot, Slot)],
    ) -> Result<BothAtom<A::Atom, B::Atom>, NoMemory> {
        match atom {
            BothAtom::First(first) => Ok(BothAtom::First(A::rename(first, map)?)),
            BothAtom::Second(second) => Ok(BothAtom::Second(B::rename(second, map)?)),
        }
    }

    fn negate(
        atom: &BothAtom<A::Atom, B::Atom>,
    ) -> Result<Negated<BothAtom<A::Atom, B::Atom>>, NoMemory> {
        match atom {
            BothAtom::First(first) => Ok(first_pieces(A::negate(first)?)),
            BothAtom::Second(second) => Ok(second_pieces(B::negate(second)?)),
        }
    }

    fn implies(one: &BothAtom<A::Atom, B::Atom>, other: &BothAtom<A::Atom, B::Atom>) -> bool {
        match (one, other) {
            (BothAtom::First(one), BothAtom::First(other)) => A::implies(one, other),
            (BothAtom::Second(one), BothAtom::Second(other)) => B::implies(one, other),
            _ => false,
        }
    }

    fn fixes(atom: &BothAtom<A::Atom, B::Atom>) -> Option<(Slot, &Name)> {
        match atom {
            BothAtom::First(first) => A::fixes(first),
            BothAtom::Second(second) => B::fixes(second),
        }
    }

    fn eliminate(
        alloc: Global,
        atoms: &[BothAtom<A::Atom, B::Atom>],
        slot: Slot,
    ) -> Result<Eliminated<BothAtom<A::Atom, B::Atom>>, Refused> {
        match slot.sort {
            Sort::Rat => eliminate_first::<A, B>(alloc, atoms, slot),
            Sort::Text => eliminate_second::<A, B>(alloc, atoms, slot),
        }
    }

    fn refute(alloc: Global, atoms: &[BothAtom<A::Atom, B::Atom>]) -> Result<Verdict, NoMemory> {
        let second = B::refute(alloc, &second_part::<A, B>(alloc, atoms)?)?;
        if let Verdict::Empty = second {
            return Ok(Verdict::Empty);
        }
        let first = A::refute(alloc, &first_part::<A, B>(alloc, atoms)?)?;
        Ok(joined_verdict(first, second))
    }

    fn bounds(
        alloc: Global,
        atoms: &[BothAtom<A::Atom, B::Atom>],
        slot: Slot,
    ) -> Result<Span, NoMemory> {
        let verdict = B::refute(alloc, &second_part::<A, B>(alloc, atoms)?)?;
        if let Verdict::Empty = verdict {
            return Ok(Span::Nothing);
        }
        let span = A::bounds(alloc, &first_part::<A, B>(alloc, atoms)?, slot)?;
        Ok(joined_span(span, verdict))
    }

    ghost respects = { kinds_respect A.holds B.holds A.mentions B.mentions A.respects B.respects };

    ghost cells_tell = { kinds_tell A.holds B.holds A.cell B.cell A.cells_tell B.cells_tell };

    ghost owned_slots = { kinds_owned A.mentions B.mentions A.normal B.normal A.owned B.owned
        A.owned_slots B.owned_slots };

    ghost fixed_holds = { kinds_fixed A.holds B.holds A.fixed B.fixed A.fixed_holds B.fixed_holds };

    ghost line_slots = { kinds_line_slots A.mentions B.mentions A.lines B.lines A.line_slots B.line_slots };
}

/// The pieces, each as an atom of the first kind.
fn first_pieces<A: Drop, B: Drop>(pieces: Negated<A>) -> Negated<BothAtom<A, B>>
    ensures { result ≡ first_pieces pieces }
{
    match pieces {
        Negated::One(only) => Negated::One(BothAtom::First(only)),
        Negated::Two(one, other) => Negated::Two(BothAtom::First(one), BothAtom::First(other)),
    }
}

/// The pieces, each as an atom of the second kind.
fn second_pieces<A: Drop, B: Drop>(pieces: Negated<B>) -> Negated<BothAtom<A, B>>
    ensures { result ≡ second_pieces pieces }
{
    match pieces {
        Negated::One(only) => Negated::One(BothAtom::Second(only)),
        Negated::Two(one, other) => Negated::Two(BothAtom::Second(one), BothAtom::Second(other)),
    }
}

/// Eliminates a slot from the atoms of the first kind and keeps those of the second.
fn eliminate_first<A: OfNumbers, B: OfTexts>(
    alloc: Global,
    atoms: &[BothAtom<A::Atom, B::Atom>],
    slot: Slot,
) -> Result<Eliminated<BothAtom<A::Atom, B::Atom>>, Refused>
    requires normal { AllByRecursion (IsByKind A.normal B.normal) atoms.now }
    requires sort { slot.sort ≡ Rat }
    ensures is { IfOk result (λ e. IsElimination (by_kind A.holds B.holds) (by_kind A.mentions B.mentions)
        (by_kind A.lines B.lines) (IsByKind A.normal B.normal) atoms.now slot e) }
    ensures wide { IsErrOf result Wide → clash_at slot (conj_lines (by_kind A.lines B.lines) atoms.now) ≡ true }
    ensures never_wide { A.decides → IsErrOf result Wide → ⊥ }
{
    let first = first_part::<A, B>(alloc, atoms)?;
    match A::eliminate(alloc, &first, slot)? {
        Eliminated::Never => Ok(Eliminated::Never),
        Eliminated::Conj(first) => {
            let second = second_part::<A, B>(alloc, atoms)?;
            Ok(Eliminated::Conj(joined(alloc, first, second)?))
        }
    }
}

/// Eliminates a slot from the atoms of the second kind and keeps those of the first.
fn eliminate_second<A: OfNumbers, B: OfTexts>(
    alloc: Global,
    atoms: &[BothAtom<A::Atom, B::Atom>],
    slot: Slot,
) -> Result<Eliminated<BothAtom<A::Atom, B::Atom>>, Refused>
    requires normal { AllByRecursion (IsByKind A.normal B.normal) atoms.now }
    requires sort { slot.sort ≡ Text }
    ensures is { IfOk result (λ e. IsElimination (by_kind A.holds B.holds) (by_kind A.mentions B.mentions)
        (by_kind A.lines B.lines) (IsByKind A.normal B.normal) atoms.now slot e) }
    ensures wide { IsErrOf result Wide → clash_at slot (conj_lines (by_kind A.lines B.lines) atoms.now) ≡ true }
    ensures never_wide { B.decides → IsErrOf result Wide → ⊥ }
{
    let second = second_part::<A, B>(alloc, atoms)?;
    match B::eliminate(alloc, &second, slot)? {
        Eliminated::Never => Ok(Eliminated::Never),
        Eliminated::Conj(second) => {
            let first = first_part::<A, B>(alloc, atoms)?;
            Ok(Eliminated::Conj(joined(alloc, first, second)?))
        }
    }
}

/// Copies of the atoms of the first kind.
fn first_part<A: OfNumbers, B: OfTexts>(
    alloc: Global,
    atoms: &[BothAtom<A::Atom, B::Atom>],
) -> Result<Vec<A::Atom>, NoMemory>
    ensures { IfOk result (λ v. v.items ≡ firsts atoms.now) }
{
    let mut part = Vec::new(alloc);
    for atom in atoms {
        if let BothAtom::First(first) = atom {
            part.push(A::copy(first)?)?;
        }
    }
    Ok(part)
}

/// Copies of the atoms of the second kind.
fn second_part<A: OfNumbers, B: OfTexts>(
    alloc: Global,
    atoms: &[BothAtom<A::Atom, B::Atom>],
) -> Result<Vec<B::Atom>, NoMemory>
    ensures { IfOk result (λ v. v.items ≡ seconds atoms.now) }
{
    let mut part = Vec::new(alloc);
    for atom in atoms {
        if let BothAtom::Second(second) = atom {
            part.push(B::copy(second)?)?;
        }
    }
    Ok(part)
}

/// The atoms of both kinds, the second ones first.
fn joined<A: Drop, B: Drop>(
    alloc: Global,
    first: Vec<A>,
    second: Vec<B>,
) -> Result<Vec<BothAtom<A, B>>, NoMemory>
    ensures first { IfOk result (λ v. firsts v.items ≡ first.items) }
    ensures second { IfOk result (λ v. seconds v.items ≡ second.items) }
{
    let mut atoms = Vec::with_capacity(alloc, first.len())?;
    for atom in second {
        atoms.push(BothAtom::Second(atom))?;
    }
    for atom in first {
        atoms.push(BothAtom::First(atom))?;
    }
    Ok(atoms)
}

/// The verdict on a conjunction, from those on its parts.
pub fn joined_verdict(first: Verdict, second: Verdict) -> Verdict
    ensures { result ≡ joined_verdict first second }
{
    match (first, second) {
        (Verdict::Empty, _) | (_, Verdict::Empty) => Verdict::Empty,
        (Verdict::Inhabited, other) => other,
        (Verdict::Unknown, _) => Verdict::Unknown,
    }
}

/// The bounds of a slot in a conjunction, from those in the part that mentions it and the verdict on the other.
pub fn joined_span(span: Span, verdict: Verdict) -> Span
    ensures { result ≡ joined_span span verdict }
{
    match (span, verdict) {
        (_, Verdict::Empty) => Span::Nothing,
        (Span::Exact(lower, upper), Verdict::Unknown) => Span::Around(lower, upper),
        (span, _) => span,
    }
}
