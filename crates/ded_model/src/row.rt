//! Rows: sums of coefficients times slots, plus a constant, compared with zero.
ghost use Rattle.std.specs.Prelude.{◌≡◌, ◌≢◌, ◌<◌, false, [], ◌∷◌, ◌++◌, pos, IfOk, OnOk, OnErr, length, slice_set};
ghost use Rattle.ded_num.specs.Length.{IsShort};
ghost use Rattle.ded_model.specs.declared.slot.Slot.{Slot};
ghost use Rattle.ded_model.specs.declared.slot.Sort.TheVariants.{Rat};
ghost use Rattle.ded_model.specs.Coefs.{AllBelow, AreCoefs, coef_at, with_coef, place_of, is_taken};
ghost use Rattle.ded_model.specs.Normal.{coefs_over, DivideWhole};
ghost use Rattle.ded_model.specs.Row.{row_mentions, sign_meets};

use crate::memory::NoMemory;
use crate::slot::Slot;
use ded_num::quotient;
use smallvec::SmallVec;
use std::alloc::Global;
use std::marker::Model;

/// How a sum is compared with zero: equal, at most, or below.
#[derive(Clone, Copy, PartialEq, Eq, Hash, Debug)]
pub enum RowOp {
    Zero,
    AtMost,
    Below,
}

impl RowOp {
    /// Whether the number is 0, at most 0, or below 0, as the sign says.
    pub fn meets_zero(self, sum: i128) -> bool
        ensures { result ≡ sign_meets self sum }
    {
        match self {
            RowOp::Zero => sum == 0,
            RowOp::AtMost => sum <= 0,
            RowOp::Below => sum < 0,
        }
    }
}

/// The coefficients of a row: rational slots with ascending numbers, each with a number that is not 0 and has at most
/// 127 binary digits. Contracts see the list of the pairs. Up to two stand in the value itself.
#[derive(Drop)]
pub struct Coefs {
    list: SmallVec<(Slot, i128), 2>,
}

impl Model for Coefs {
    ghost use Rattle.std.specs.Prelude.{List, ℤ};
    ghost use Rattle.ded_model.specs.declared.slot.Slot.{Slot};

    ghost Value = { List (Slot × ℤ) };

    ghost use Rattle.ded_model.specs.Coefs.{AreCoefs};

    ghost view = { λ c. c.list.items };

    ghost invariant = { λ c. AreCoefs c.list.items };
}

/// A linear constraint: the sum of the coefficients times the values of their slots, plus the constant, is equal to,
/// at most or below zero. The constant has at most 127 binary digits.
#[derive(Drop)]
pub struct Row {
    pub coefs: Coefs,
    pub constant: i128,
    pub op: RowOp,
}

impl Model for Row {
    ghost use Rattle.ded_model.specs.Constraint.{LinearConstraint};

    ghost Value = { LinearConstraint };

    ghost use Rattle.ded_num.specs.Length.{IsShort};

    ghost view = { λ r. record { coefs = r.coefs; constant = r.constant; op = r.op } };

    ghost invariant = { λ r. IsShort r.constant };
}

impl Coefs {
    /// No coefficients.
    pub fn new(alloc: Global) -> Coefs
        ensures { result ≡ [] }
    {
        Coefs {
            list: SmallVec::new(alloc),
        }
    }

    /// The coefficient of the slot, 0 where it has none.
    pub fn at(&self, slot: Slot) -> i128
        ensures value { result ≡ coef_at self.now slot }
        ensures short { IsShort result }
    {
        coef_in(self.list(), slot)
    }

    /// The pairs of a slot and its coefficient. It does not allocate.
    pub fn list(&self) -> &[(Slot, i128)]
        ensures value { result.now ≡ self.now }
        ensures coefs { AreCoefs self.now }
    {
        let _ = &self.list; // for its invariant
        self.list.as_slice()
    }

    /// Sets the coefficient of a rational slot. 0 takes it away.
    ///
    /// # Errors
    /// Out of memory; nothing is changed then.
    pub fn put(&mut self, slot: Slot, a: i128) -> Result<(), NoMemory>
        requires rational { slot.sort ≡ Rat }
        requires short { IsShort a }
        ensures ok { OnOk result (self.new ≡ with_coef slot a self.old) }
        ensures err { OnErr result (self.new ≡ self.old) }
    {
        let place = find(self.list(), slot);
        if !place.taken {
            return self.insert_at(place.at, slot, a);
        }
        if a == 0 {
            let _ = self.list.remove(place.at);
        } else {
            set_entry(self.list.as_mut_slice(), place.at, (slot, a));
        }
        Ok(())
    }

    /// Inserts the coefficient of a slot that has none, at the place where the slot would have to stand; 0 is left out.
    fn insert_at(&mut self, at: usize, slot: Slot, a: i128) -> Result<(), NoMemory>
        requires rational { slot.sort ≡ Rat }
        requires short { IsShort a }
        requires place { at ≡ place_of slot self.old }
        requires absent { is_taken slot self.old ≡ false }
        ensures ok { OnOk result (self.new ≡ with_coef slot a self.old) }
        ensures err { OnErr result (self.new ≡ self.old) }
    {
        if a != 0 {
            self.list.insert(at, (slot, a))?;
        }
        Ok(())
    }

    /// The allocator that the coefficients are kept by.
    pub fn allocator(&self) -> Global {
        *self.list.allocator()
    }

    /// Adds a coefficient that is not 0 at the end, of a rational slot above all others.
    ///
    /// # Errors
    /// Out of memory; nothing is changed then.
    pub fn push(&mut self, slot: Slot, a: i128) -> Result<(), NoMemory>
        requires rational { slot.sort ≡ Rat }
        requires short { IsShort a }
        requires nonzero { a ≢ pos 0 }
        requires last { AllBelow slot.number self.old }
        ensures ok { OnOk result (self.new ≡ self.old ++ (slot, a) ∷ []) }
        ensures err { OnErr result (self.new ≡ self.old) }
    {
        self.list.push((slot, a))?;
        Ok(())
    }

    /// Divides each coefficient by a number that divides them all. It does not allocate.
    pub fn divide(&mut self, by: i128)
        requires nonzero { by ≢ pos 0 }
        requires whole { DivideWhole by self.old }
        ensures { self.new ≡ coefs_over by self.old }
    {
        divide_all(self.list.as_mut_slice(), by);
    }

    /// Equal coefficients.
    ///
    /// # Errors
    /// Out of memory.
    pub fn copy(&self) -> Result<Coefs, NoMemory>
        ensures { IfOk result (λ c. c ≡ self.now) }
    {
        Ok(Coefs {
            list: SmallVec::from_slice(*self.list.allocator(), self.list.as_slice())?,
        })
    }
}

impl Row {
    /// Whether the row mentions the slot.
    #[tactic(auto, unfolding(crate::specs::Row::row_mentions))]
    pub fn mentions(&self, slot: Slot) -> bool
        ensures { result ≡ row_mentions self.now slot }
    {
        self.coefs.list().iter().any(|entry| entry.0.is_same(slot))
    }

    /// An equal row.
    ///
    /// # Errors
    /// Out of memory.
    pub fn copy(&self) -> Result<Row, NoMemory>
        ensures { IfOk result (λ r. r ≡ self.now) }
    {
        Ok(Row {
            coefs: self.coefs.copy()?,
            constant: self.constant,
            op: self.op,
        })
    }
}

/// Where a slot stands in a list, or would have to stand.
#[derive(Clone, Copy)]
struct SlotPlace {
    /// The first place whose slot has no lesser number.
    at: usize,
    /// Whether the slot stands there.
    taken: bool,
}

/// The place of a slot in a list of pairs, and whether the slot stands there.
fn find(list: &[(Slot, i128)], slot: Slot) -> SlotPlace
    ensures at { result.at ≡ place_of slot list.now }
    ensures taken { result.taken ≡ is_taken slot list.now }
{
    let mut at = 0;
    while at < list.len() && list[at].0.number < slot.number {
        at += 1;
    }
    SlotPlace {
        at,
        taken: at < list.len() && list[at].0.is_same(slot),
    }
}

/// The coefficient of the slot in a list of pairs, 0 where it has none.
fn coef_in(list: &[(Slot, i128)], slot: Slot) -> i128
    requires { AreCoefs list.now }
    ensures value { result ≡ coef_at list.now slot }
    ensures short { IsShort result }
{
    for (entry_slot, a) in list {
        if entry_slot.is_same(slot) {
            return *a;
        }
    }
    0
}

/// Puts a pair at a place of the list.
fn set_entry(list: &mut [(Slot, i128)], at: usize, entry: (Slot, i128))
    requires { at < length list.old }
    ensures { list.new ≡ slice_set list.old at entry }
{
    list[at] = entry;
}

/// Divides each coefficient of the list by the number.
fn divide_all(list: &mut [(Slot, i128)], by: i128)
    requires nonzero { by ≢ pos 0 }
    requires short { AreCoefs list.old }
    ensures { list.new ≡ coefs_over by list.old }
{
    for entry in list.iter_mut() {
        entry.1 = quotient(entry.1, by);
    }
}
