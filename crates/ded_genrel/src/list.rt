//! Generalized relations.
ghost use Rattle.std.specs.Prelude.{◌≡◌, true, List, [], ◌∷◌, ◌++◌, IfOk, OnErr, IsErrOf};
ghost use Rattle.std.specs.List.{AllByRecursion};
ghost use Rattle.ded_model.specs.declared.memory.Refused.TheVariants.{Wide};
ghost use Rattle.ded_model.specs.Renaming.{IsOneToOne, KeepsSorts};
ghost use Rattle.ded_theory.specs.declared.answers.Verdict.TheVariants.{Unknown};
ghost use Rattle.ded_genrel.specs.Lists.{conjs_of, AreNormal, conjs_hold, conjs_mention, conjs_lines, conjs_clash};
ghost use Rattle.ded_genrel.specs.Lists.{pairs_with, pairs};
ghost use Rattle.ded_genrel.specs.Operations.{IsUnion, IsMeet, IsProjection, IsRenaming, IsInhabitedPart, IsVerdictOn};

use crate::conjunction::{both_conjs, copy_conj, renamed_conj};
use ded_model::memory::{NoMemory, Refused};
use ded_model::slot::Slot;
use ded_theory::{Eliminated, Theory, Verdict};
use std::alloc::Global;
use std::marker::Model;

/// A list of conjunctions of atoms in normal form; it holds at a point where one of them does. Contracts see the list
/// of the lists of atoms.
#[derive(Drop)]
pub struct GenRel<T: Theory> {
    pub conjs: Vec<Vec<T::Atom>>,
}

impl<T: Theory> Model for GenRel<T> {
    ghost Value = { List (List T.Atom) };

    ghost view = { λ r. conjs_of r.conjs.items };

    ghost invariant = { λ r. AreNormal T.normal (conjs_of r.conjs.items) };
}

impl<T: Theory> GenRel<T> {
    /// The empty list, which holds nowhere. It does not allocate.
    pub fn new(alloc: Global) -> Self
        ensures { result ≡ [] }
    {
        GenRel {
            conjs: Vec::new(alloc),
        }
    }

    /// The conjunctions. It does not allocate.
    pub fn list(&self) -> &[Vec<T::Atom>]
        ensures list { conjs_of result.now ≡ self.now }
        ensures normal { AreNormal T.normal (conjs_of result.now) }
    {
        &self.conjs
    }

    /// Sets one more conjunction at the end.
    ///
    /// # Errors
    /// Out of memory; the list is as it was then.
    pub fn push(&mut self, conj: Vec<T::Atom>) -> Result<(), NoMemory>
        requires normal { AllByRecursion T.normal conj.items }
        ensures pushed { IfOk result (λ _. self.new ≡ self.old ++ conj.items ∷ []) }
        ensures unchanged { OnErr result (self.new ≡ self.old) }
    {
        self.conjs.push(conj)?;
        Ok(())
    }

    /// An equal list.
    ///
    /// # Errors
    /// Out of memory.
    pub fn copy(&self) -> Result<Self, NoMemory>
        ensures { IfOk result (λ r. r ≡ self.now) }
    {
        let mut out = GenRel::new(*self.conjs.allocator());
        out.push_copies(self.list())?;
        Ok(out)
    }

    /// The conjunctions of this list, then those of the other: it holds where one of the lists does.
    ///
    /// # Errors
    /// Out of memory.
    pub fn union(&self, other: &Self) -> Result<Self, NoMemory>
        ensures list { IfOk result (λ r. r ≡ self.now ++ other.now) }
        ensures is { IfOk result (λ r. IsUnion T.holds T.mentions T.lines self.now other.now r) }
    {
        let mut out = self.copy()?;
        out.push_copies(other.list())?;
        Ok(out)
    }

    /// Each conjunction of this list together with each of the other: it holds where both lists do.
    ///
    /// # Errors
    /// Out of memory.
    pub fn meet(&self, other: &Self) -> Result<Self, NoMemory>
        ensures list { IfOk result (λ r. r ≡ pairs self.now other.now) }
        ensures is { IfOk result (λ r. IsMeet T.holds T.mentions T.lines self.now other.now r) }
    {
        let mut out = GenRel::new(*self.conjs.allocator());
        for conj in self.list() {
            out.push_pairs(conj, other)?;
        }
        Ok(out)
    }

    /// A list that holds at a point exactly where this one holds at some extension of the point at the slot. It doesn't
    /// mention the slot and mentions no new one. The lines of each conjunction are among those that the elimination
    /// makes of the lines of one of this list.
    ///
    /// # Errors
    /// `Wide` only where two lines of one conjunction clash at the slot, and never over a theory that decides;
    /// otherwise out of memory.
    pub fn project(&self, slot: Slot) -> Result<Self, Refused>
        ensures is { IfOk result (λ r. IsProjection T.holds T.mentions T.lines self.now slot r) }
        ensures wide { IsErrOf result Wide → conjs_clash T.lines slot self.now ≡ true }
        ensures never_wide { T.decides → IsErrOf result Wide → ⊥ }
    {
        let alloc = *self.conjs.allocator();
        let mut out = GenRel::new(alloc);
        for conj in self.list() {
            if let Eliminated::Conj(atoms) = T::eliminate(alloc, conj, slot)? {
                out.push(atoms)?;
            }
        }
        Ok(out)
    }

    /// The list with each slot replaced as the pairs say; a slot that no pair names stays. The pairs are one to one on
    /// the slots that the list mentions and keep their sorts. The result holds at a point exactly where the list does
    /// at a point that has the same values at the slots before, and has the list's lines over the new slots.
    ///
    /// # Errors
    /// Out of memory.
    pub fn rename(&self, map: &[(Slot, Slot)]) -> Result<Self, NoMemory>
        requires one { IsOneToOne map.now (conjs_mention T.mentions self.now) }
        requires sorts { KeepsSorts map.now (conjs_mention T.mentions self.now) }
        ensures { IfOk result (λ r. IsRenaming map.now (conjs_hold T.holds self.now) (conjs_hold T.holds r)
            (conjs_mention T.mentions self.now) (conjs_mention T.mentions r) (conjs_lines T.lines self.now)
            (conjs_lines T.lines r)) }
    {
        let alloc = *self.conjs.allocator();
        let mut out = GenRel::new(alloc);
        for conj in self.list() {
            out.push(renamed_conj::<T>(alloc, conj, map)?)?;
        }
        Ok(out)
    }

    /// Whether the list holds somewhere. `Unknown` only where some conjunction is wide, and never over a theory that
    /// decides.
    ///
    /// # Errors
    /// Out of memory.
    pub fn is_empty(&self, alloc: Global) -> Result<Verdict, NoMemory>
        ensures verdict { IfOk result (λ v. IsVerdictOn T.holds T.mentions T.lines self.now v) }
        ensures decided { T.decides → IfOk result (λ v. v ≡ Unknown → ⊥) }
    {
        let mut verdict = Verdict::Empty;
        for conj in self.list() {
            match T::refute(alloc, conj)? {
                Verdict::Empty => {}
                Verdict::Inhabited => return Ok(Verdict::Inhabited),
                Verdict::Unknown => verdict = Verdict::Unknown,
            }
        }
        Ok(verdict)
    }

    /// The list without conjunctions that no point satisfies: each that is kept is wide or holds somewhere.
    ///
    /// # Errors
    /// Out of memory.
    pub fn inhabited(self) -> Result<Self, NoMemory>
        ensures { IfOk result (λ r. IsInhabitedPart T.holds T.mentions T.lines self r) }
    {
        let mut out = GenRel::new(*self.conjs.allocator());
        for conj in self.conjs {
            out.push_inhabited(conj)?;
        }
        Ok(out)
    }

    /// Sets the conjunctions of another list at the end.
    ///
    /// # Errors
    /// Out of memory.
    pub fn append(&mut self, more: Self) -> Result<(), NoMemory>
        ensures { IfOk result (λ _. self.new ≡ self.old ++ more) }
    {
        for conj in more.conjs {
            self.push(conj)?;
        }
        Ok(())
    }

    /// Sets the conjunction at the end, unless no point satisfies it.
    fn push_inhabited(&mut self, conj: Vec<T::Atom>) -> Result<(), NoMemory>
        requires { AllByRecursion T.normal conj.items }
        ensures { IfOk result (λ _. (conjs : List (List T.Atom))
            → IsInhabitedPart T.holds T.mentions T.lines conjs self.old
            → IsInhabitedPart T.holds T.mentions T.lines (conjs ++ conj.items ∷ []) self.new) }
    {
        match T::refute(*self.conjs.allocator(), &conj)? {
            Verdict::Empty => Ok(()),
            _ => self.push(conj),
        }
    }

    /// Sets copies of the conjunctions at the end.
    fn push_copies(&mut self, conjs: &[Vec<T::Atom>]) -> Result<(), NoMemory>
        requires normal { AreNormal T.normal (conjs_of conjs.now) }
        ensures { IfOk result (λ _. self.new ≡ self.old ++ conjs_of conjs.now) }
    {
        let alloc = *self.conjs.allocator();
        for conj in conjs {
            self.push(copy_conj::<T>(alloc, conj)?)?;
        }
        Ok(())
    }

    /// Sets the conjunction together with each one of the other list at the end.
    fn push_pairs(&mut self, conj: &[T::Atom], other: &Self) -> Result<(), NoMemory>
        requires normal { AllByRecursion T.normal conj.now }
        ensures { IfOk result (λ _. self.new ≡ self.old ++ pairs_with conj.now other.now) }
    {
        let alloc = *self.conjs.allocator();
        for more in other.list() {
            self.push(both_conjs::<T>(alloc, conj, more)?)?;
        }
        Ok(())
    }
}
