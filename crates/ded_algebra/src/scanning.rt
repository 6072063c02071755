//! What the arguments of an atom are scanned at.
ghost use Rattle.std.specs.Prelude.{◌≡◌, ◌+◌, ◌≤◌, ◌<◌, List, [], ◌∷◌, ◌++◌, map, IfOk, OnOk};
ghost use Rattle.ded_model.specs.declared.slot.Sort.TheVariants.{Text};
ghost use Rattle.ded_model.specs.declared.goal.Place.{Place};
ghost use Rattle.ded_model.specs.Normal.{IsNormalAtom};
ghost use Rattle.ded_model.specs.PlanForm.{plan_form};
ghost use Rattle.ded_model.specs.Scanned.{above_place, same_atom};
ghost use Rattle.ded_algebra.specs.Compile.{row_plan};
ghost use Rattle.ded_algebra.specs.Compiled.{IsByteText};
ghost use Rattle.ded_algebra.specs.Gathering.{gathered, IsApart};

use crate::arguments::{argument_row, quoted, same_row};
use ded_model::goal::Place;
use ded_model::memory::NoMemory;
use ded_model::plan::Plan;
use ded_model::slot::{Slot, Sort, stands_in};
use ded_model::tuple::{Atom, BothAtom, ThemeAtom, Tuple};
use std::alloc::{AllocError, Global};

/// The slots of the arguments so far, the new ones among them, the plans of the atoms that tie these, and the number of
/// the next new slot.
#[derive(Drop)]
pub struct Scanning {
    pub slots: Vec<Slot>,
    pub fresh: Vec<Slot>,
    pub ties: Vec<Plan>,
    pub next: u64,
}

impl Scanning {
    /// One argument more: at its own slot where it has one that doesn't stand there yet, else at a new one.
    ///
    /// # Errors
    /// Out of memory, also where no slot has the number.
    pub fn add(&mut self, alloc: Global, place: &Place) -> Result<(), NoMemory>
        requires above { above_place place.now ≤ self.old.next }
        requires apart { IsApart self.old.next self.old.slots.items }
        ensures gathered { OnOk result ((ts : List Place) → gathered self.new ts ≡ gathered self.old (place.now ∷ ts)) }
        ensures apart { OnOk result (IsApart self.new.next self.new.slots.items) }
        ensures next { OnOk result (self.old.next ≤ self.new.next) }
        ensures bytes { OnOk result (IsByteText place.now) }
    {
        match place {
            Place::At(slot) if !stands_in(&self.slots, *slot) => Ok(self.slots.push(*slot)?),
            Place::At(slot) => {
                let fresh = self.fresh_slot(slot.sort)?;
                self.tie(alloc, fresh, same_atom(alloc, fresh, *slot)?)
            }
            Place::Value(sum) => {
                let fresh = self.fresh_slot(Sort::Rat)?;
                self.tie(alloc, fresh, BothAtom::First(argument_row(fresh, sum)?))
            }
            Place::Quoted(text) => {
                let fresh = self.fresh_slot(Sort::Text)?;
                self.tie(
                    alloc,
                    fresh,
                    BothAtom::Second(ThemeAtom::EqText(fresh, quoted(alloc, &text.bytes)?)),
                )
            }
        }
    }

    /// The next new slot, with the sort.
    fn fresh_slot(&self, sort: Sort) -> Result<Slot, NoMemory>
        ensures { IfOk result (λ s. s ≡ record { number = self.now.next; sort = sort }) }
    {
        match u32::try_from(self.next) {
            Ok(number) => Ok(Slot { number, sort }),
            Err(_) => Err(AllocError),
        }
    }

    /// Adds a new slot with the atom that ties it to its value.
    fn tie(&mut self, alloc: Global, fresh: Slot, atom: Atom) -> Result<(), NoMemory>
        requires next { fresh.number ≡ self.old.next }
        requires normal { IsNormalAtom atom }
        requires apart { IsApart self.old.next self.old.slots.items }
        ensures slots { OnOk result (self.new.slots.items ≡ self.old.slots.items ++ fresh ∷ []) }
        ensures fresh { OnOk result (self.new.fresh.items ≡ self.old.fresh.items ++ fresh ∷ []) }
        ensures ties { OnOk result (map plan_form self.new.ties.items
            ≡ map plan_form self.old.ties.items ++ row_plan atom ∷ []) }
        ensures next { OnOk result (self.new.next ≡ self.old.next + 1) }
        ensures apart { OnOk result (IsApart self.new.next self.new.slots.items) }
    {
        let tie = rows_of(alloc, atom)?;
        self.slots.push(fresh)?;
        self.fresh.push(fresh)?;
        self.ties.push(tie)?;
        self.next += 1;
        Ok(())
    }
}

/// The atom that says that a new slot has the value of another one of its sort.
fn same_atom(alloc: Global, fresh: Slot, slot: Slot) -> Result<Atom, NoMemory>
    requires sort { fresh.sort ≡ slot.sort }
    requires above { slot.number < fresh.number }
    ensures value { IfOk result (λ a. a ≡ same_atom fresh.number slot.sort slot) }
    ensures normal { IfOk result IsNormalAtom }
{
    match slot.sort {
        Sort::Rat => Ok(BothAtom::First(same_row(alloc, fresh, slot)?)),
        Sort::Text => Ok(BothAtom::Second(ThemeAtom::EqSlot(slot, fresh))),
    }
}

/// The plan of the points at which the atom holds.
///
/// # Errors
/// Out of memory.
pub fn rows_of(alloc: Global, atom: Atom) -> Result<Plan, NoMemory>
    requires { IsNormalAtom atom }
    ensures { IfOk result (λ p. plan_form p ≡ row_plan atom) }
{
    let mut atoms = Vec::new(alloc);
    atoms.push(atom)?;
    Ok(Plan::Rows(Tuple { atoms }))
}
