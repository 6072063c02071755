//! What a theory is.
ghost use Rattle.std.specs.Prelude.{◌≡◌, ◌<◌, ◌↔◌, ℕ, ℤ, List, Bool, true, false, not, IsTrue, IfOk, IsErrOf};
ghost use Rattle.std.specs.Prelude.{Option, Some, option_map};
ghost use Rattle.std.specs.List.{AllByRecursion};
ghost use Rattle.ded_model.specs.declared.slot.Slot.{Slot};
ghost use Rattle.ded_model.specs.declared.slot.Sort.{Sort};
ghost use Rattle.ded_model.specs.declared.slot.Sort.TheVariants.{Rat, Text};
ghost use Rattle.ded_model.specs.declared.memory.Refused.TheVariants.{Wide};
ghost use Rattle.ded_model.specs.Point.{slot, same_slot, Point, IsPoint, IsSameAt, text_at};
ghost use Rattle.ded_model.specs.Row.{row_mentions};
ghost use Rattle.ded_model.specs.Cell.{conj_holds};
ghost use Rattle.ded_model.specs.Lines.{Line, In, IsSubset, elim_at, clash_at};
ghost use Rattle.ded_model.specs.Negation.{EachPiece, some_piece_holds, both_pieces_hold};
ghost use Rattle.ded_model.specs.Renaming.{renamed, IsOneToOne, KeepsSorts, IsRenamedPoint, mapped_lines};
ghost use Rattle.ded_theory.specs.Conjunctions.{conj_mentions, conj_lines};
ghost use Rattle.ded_theory.specs.Eliminations.{eliminated_atoms, eliminated_holds, SomeExtension};
ghost use Rattle.ded_theory.specs.declared.answers.Verdict.TheVariants.{Unknown};
ghost use Rattle.ded_theory.specs.Verdicts.{IsVerdict, IsSpan, IsAround};

use crate::answers::{Eliminated, Span, Verdict};
use ded_model::memory::{NoMemory, Refused};
use ded_model::name::Name;
use ded_model::slot::{Slot, Sort};
use ded_model::tuple::Negated;
use std::alloc::Global;

/// A kind of atoms, what they mean, and what can be done with conjunctions of them.
///
/// Every call that takes atoms needs them in normal form, and gives such atoms.
pub trait Theory {
    /// The atoms.
    type Atom: Drop;

    /// Whether an atom holds at a point.
    ghost holds: { Self.Atom → Point → Bool };

    /// Whether an atom mentions a slot.
    ghost mentions: { Self.Atom → Slot → Bool };

    /// What an atom tells points apart by.
    ghost cell: { Self.Atom → Point → ℤ };

    /// The lines of an atom; those of a conjunction are those of its atoms.
    ghost lines: { Self.Atom → List Line };

    /// The text slot to which an atom gives one text, and that text.
    ghost fixed: { Self.Atom → Option (Slot × List ℕ) };

    /// Whether an atom is in normal form.
    ghost normal: { Self.Atom → Type 0 };

    /// Whether the atoms may mention slots of a sort.
    ghost owned: { Sort → Bool };

    /// Whether the theory decides every conjunction, whatever its numbers: no elimination is `Wide`, no verdict
    /// `Unknown`, and no bounds are `Around`.
    ghost decides: { Type 0 };

    /// Whether the atoms may mention slots of the sort. It does not allocate.
    fn owns(sort: Sort) -> bool
        ensures { result ≡ owned sort };

    /// An equal atom.
    ///
    /// # Errors
    /// Out of memory.
    fn copy(atom: &Self::Atom) -> Result<Self::Atom, NoMemory>
        ensures { IfOk result (λ a. a ≡ atom.now) };

    /// The normal form of the atom with each slot replaced as the pairs say; a slot that no pair names stays. The pairs
    /// are one to one on the atom's slots and keep their sorts. The result holds at a point exactly where the atom does
    /// at a point that has the same values at the slots before, and has the atom's lines over the new slots.
    ///
    /// # Errors
    /// Out of memory.
    fn rename(atom: &Self::Atom, map: &[(Slot, Slot)]) -> Result<Self::Atom, NoMemory>
        requires normal { normal atom.now }
        requires one { IsOneToOne map.now (mentions atom.now) }
        requires sorts { KeepsSorts map.now (mentions atom.now) }
        ensures holds { IfOk result (λ a. (p q : Point) → 0 < p.den → IsRenamedPoint map.now (mentions atom.now) p q
            → holds a q ≡ holds atom.now p) }
        ensures normal { IfOk result normal }
        ensures slots { IfOk result (λ a. (t : Slot) → mentions a t ≡ true
            → (s : Slot) × (mentions atom.now s ≡ true) × (renamed map.now s ≡ t)) }
        ensures lines { IfOk result (λ a. lines a ≡ mapped_lines map.now (lines atom.now)) };

    /// The negation of the atom: pieces that exclude each other and hold together exactly where the atom doesn't. They
    /// mention its slots alone, have its lines, and tell apart no points of one cell of the atom.
    ///
    /// # Errors
    /// Out of memory.
    fn negate(atom: &Self::Atom) -> Result<Negated<Self::Atom>, NoMemory>
        requires normal { normal atom.now }
        ensures holds { IfOk result (λ n. (p : Point) → 0 < p.den
            → some_piece_holds holds n p ≡ not (holds atom.now p)) }
        ensures disjoint { IfOk result (λ n. (p : Point) → 0 < p.den → both_pieces_hold holds n p ≡ false) }
        ensures normal { IfOk result (λ n. EachPiece normal n) }
        ensures slots { IfOk result (λ n. EachPiece (λ a. (s : Slot) → mentions a s ≡ true
            → mentions atom.now s ≡ true) n) }
        ensures lines { IfOk result (λ n. EachPiece (λ a. lines a ≡ lines atom.now) n) }
        ensures cells { IfOk result (λ n. EachPiece (λ a. (p q : Point) → cell atom.now p ≡ cell atom.now q
            → cell a p ≡ cell a q) n) };

    /// Whether it is plain that the one atom holds only where the other one does. It does not allocate.
    fn implies(one: &Self::Atom, other: &Self::Atom) -> bool
        ensures { result ≡ true → (p : Point) → 0 < p.den → holds one.now p ≡ true → holds other.now p ≡ true };

    /// The text slot to which the atom gives one text, and that text, where it does. It does not allocate.
    fn fixes(atom: &Self::Atom) -> Option<(Slot, &Name)>
        ensures { option_map (λ f. (f.0, f.1.now)) result ≡ fixed atom.now };

    /// A conjunction that holds at a point exactly where some extension of the point at the slot satisfies all the
    /// atoms; `Never` holds nowhere. It doesn't mention the slot and mentions no new one, and its lines are among those
    /// that the elimination makes of the atoms' lines. So its numbers have at most 2b + 1 digits where the atoms' have
    /// at most b.
    ///
    /// # Errors
    /// `Wide` only where two lines of the atoms clash at the slot, so only where a number has more than 63 digits, and
    /// never of a theory that decides; otherwise out of memory.
    fn eliminate(
        alloc: Global,
        atoms: &[Self::Atom],
        slot: Slot,
    ) -> Result<Eliminated<Self::Atom>, Refused>
        requires normal { AllByRecursion normal atoms.now }
        ensures holds { IfOk result (λ e. (p : Point) → IsPoint p → IsTrue (eliminated_holds holds e p)
            ↔ SomeExtension slot (conj_holds holds atoms.now) p) }
        ensures normal { IfOk result (λ e. AllByRecursion normal (eliminated_atoms e)) }
        ensures slots { IfOk result (λ e. (s : Slot) → conj_mentions mentions (eliminated_atoms e) s ≡ true
            → (same_slot s slot ≡ false) × (conj_mentions mentions atoms.now s ≡ true)) }
        ensures lines { IfOk result (λ e. IsSubset (conj_lines lines (eliminated_atoms e))
            (elim_at slot (conj_lines lines atoms.now))) }
        ensures wide { IsErrOf result Wide → clash_at slot (conj_lines lines atoms.now) ≡ true }
        ensures never_wide { decides → IsErrOf result Wide → ⊥ };

    /// Whether some point satisfies all the atoms. `Unknown` only where the atoms are wide: with b the greatest length
    /// of their numbers and k the count of rational slots that they mention, only where (b + 1) * 2^k is above 128. A
    /// theory that decides never gives it.
    ///
    /// # Errors
    /// Out of memory.
    fn refute(alloc: Global, atoms: &[Self::Atom]) -> Result<Verdict, NoMemory>
        requires normal { AllByRecursion normal atoms.now }
        ensures verdict { IfOk result (λ v. IsVerdict holds mentions lines atoms.now v) }
        ensures decided { decides → IfOk result (λ v. v ≡ Unknown → ⊥) };

    /// The exact bounds of a rational slot over all points that satisfy the atoms, `Nothing` where none does. `Around`
    /// only where the atoms are wide, as `Unknown` of [`Theory::refute`].
    ///
    /// # Errors
    /// Out of memory.
    fn bounds(alloc: Global, atoms: &[Self::Atom], slot: Slot) -> Result<Span, NoMemory>
        requires normal { AllByRecursion normal atoms.now }
        requires rational { slot.sort ≡ Rat }
        ensures span { IfOk result (λ s. IsSpan holds mentions lines atoms.now slot s) }
        ensures exact { decides → IfOk result (λ s. IsAround s → ⊥) };

    /// An atom holds alike at two points that have the same values at the slots that it mentions.
    ghost respects: { (a : Self.Atom) (p q : Point) → 0 < p.den → 0 < q.den
        → ((s : Slot) → mentions a s ≡ true → IsSameAt p q (slot s)) → holds a p ≡ holds a q };

    /// An atom holds alike at two points of one cell.
    ghost cells_tell: { (a : Self.Atom) (p q : Point) → cell a p ≡ cell a q → holds a p ≡ holds a q };

    /// An atom in normal form mentions only slots of sorts that the theory owns.
    ghost owned_slots: { (a : Self.Atom) (s : Slot) → normal a → mentions a s ≡ true → owned s.sort ≡ true };

    /// Where an atom holds, the slot that it fixes has its text.
    ghost fixed_holds: { (a : Self.Atom) (s : Slot) (t : List ℕ) (p : Point) → fixed a ≡ Some (s, t)
        → holds a p ≡ true → text_at p (slot s) ≡ t };

    /// The lines of an atom mention only slots that it mentions.
    ghost line_slots: { (a : Self.Atom) (l : Line) (s : Slot) → In l (lines a) → row_mentions l s ≡ true
        → mentions a s ≡ true };
}

/// A theory of numbers: it owns the rational slots and no text slot.
pub trait OfNumbers: Theory {
    ghost numbers: { Self.owned Rat ≡ true };

    ghost no_texts: { Self.owned Text ≡ false };
}

/// A theory of texts: it owns the text slots and no rational slot.
pub trait OfTexts: Theory {
    ghost texts: { Self.owned Text ≡ true };

    ghost no_numbers: { Self.owned Rat ≡ false };
}
