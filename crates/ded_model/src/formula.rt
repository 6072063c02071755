//! Formulas as the user writes them: variables by their names.
ghost use Rattle.std.specs.Prelude.{◌≡◌, ◌<ℤ◌, pos, IfOk};
ghost use Rattle.ded_num.specs.Length.{IsWithin};
ghost use Rattle.ded_model.specs.Form.{form, forms, uses, atom_uses, speaks_of, atom_speaks_of};
ghost use Rattle.ded_model.specs.Logic.{some_atom_of};
ghost use Rattle.ded_model.specs.LongRows.{denominator_of};

use crate::memory::NoMemory;
use crate::name::{Column, Name};
use std::marker::Model;

/// The sign of a comparison.
#[derive(Clone, Copy, PartialEq, Eq, Debug)]
pub enum CompareOp {
    Less,
    LessEq,
    Equal,
    NotEqual,
    GreaterEq,
    Greater,
}

/// Names with their coefficients, in order of first occurrence. Contracts see the list of the pairs.
#[derive(Drop)]
pub struct Parts {
    pub list: Vec<(Name, i128)>,
}

impl Model for Parts {
    ghost use Rattle.std.specs.Prelude.{List, ℕ, ℤ};

    ghost Value = { List (List ℕ × ℤ) };

    ghost view = { λ p. p.list.items };
}

/// A sum of names with coefficients and a constant, all of it over a common denominator of at least 1. All numbers
/// have at most 112 binary digits.
#[derive(Drop)]
pub struct Term {
    pub parts: Parts,
    pub constant: i128,
    pub over: i128,
}

impl Model for Term {
    ghost use Rattle.ded_model.specs.Sum.{Sum};

    ghost Value = { Sum };

    ghost use Rattle.ded_model.specs.Sum.{IsSum};

    ghost view = { λ t. record { parts = t.parts; constant = t.constant; over = t.over } };

    ghost invariant = { λ t. IsSum (record { parts = t.parts; constant = t.constant; over = t.over }) };
}

/// What is compared, or given to a relation: one name, a sum, or a quoted text.
#[derive(Drop)]
pub enum Operand {
    Single(Name),
    Sum(Term),
    Quoted(Name),
}

/// The denominator of a comparison of two operands: that of its sums, which are over one, and 1 where neither is a sum.
pub fn denominator(left: &Operand, right: &Operand) -> i128
    ensures value { result ≡ denominator_of left.now right.now }
    ensures within { IsWithin 112 result }
    ensures positive { pos 0 <ℤ result }
{
    match (left, right) {
        (Operand::Sum(term), _) | (_, Operand::Sum(term)) => term.over,
        _ => 1,
    }
}

/// The operands of an atom, in order. Contracts see the list.
#[derive(Drop)]
pub struct Operands {
    pub list: Vec<Operand>,
}

impl Model for Operands {
    ghost use Rattle.std.specs.Prelude.{List};
    ghost use Rattle.ded_model.specs.declared.formula.Operand.{Operand};

    ghost Value = { List Operand };

    ghost view = { λ p. p.list.items };
}

/// A first-order formula over comparisons and atoms of named relations and views.
#[derive(Drop)]
pub enum Formula {
    True,
    False,
    Compare(Operand, CompareOp, Operand),
    Member(Name, Operands),
    Not(Box<Formula>),
    And(Vec<Formula>),
    Or(Vec<Formula>),
    Implies(Box<Formula>, Box<Formula>),
    Exists(Column, Box<Formula>),
    Forall(Column, Box<Formula>),
}

impl Parts {
    /// Equal parts.
    ///
    /// # Errors
    /// Out of memory.
    pub fn copy(&self) -> Result<Parts, NoMemory>
        ensures { IfOk result (λ p. p ≡ self.now) }
    {
        let mut list = Vec::with_capacity(*self.list.allocator(), self.list.len())?;
        for part in &self.list {
            list.push((part.0.copy()?, part.1))?;
        }
        Ok(Parts { list })
    }
}

impl Term {
    /// An equal sum.
    ///
    /// # Errors
    /// Out of memory.
    pub fn copy(&self) -> Result<Term, NoMemory>
        ensures { IfOk result (λ t. t ≡ self.now) }
    {
        Ok(Term {
            parts: self.parts.copy()?,
            constant: self.constant,
            over: self.over,
        })
    }
}

impl Operand {
    /// An equal operand.
    ///
    /// # Errors
    /// Out of memory.
    pub fn copy(&self) -> Result<Operand, NoMemory>
        ensures { IfOk result (λ t. t ≡ self.now) }
    {
        match self {
            Operand::Single(name) => Ok(Operand::Single(name.copy()?)),
            Operand::Sum(term) => Ok(Operand::Sum(term.copy()?)),
            Operand::Quoted(text) => Ok(Operand::Quoted(text.copy()?)),
        }
    }
}

impl Operands {
    /// Equal operands.
    ///
    /// # Errors
    /// Out of memory.
    pub fn copy(&self) -> Result<Operands, NoMemory>
        ensures { IfOk result (λ ts. ts ≡ self.now) }
    {
        let mut list = Vec::with_capacity(*self.list.allocator(), self.list.len())?;
        for operand in &self.list {
            list.push(operand.copy()?)?;
        }
        Ok(Operands { list })
    }
}

impl Formula {
    /// A formula that stands for the same.
    ///
    /// # Errors
    /// Out of memory.
    #[cycle(copy)]
    pub fn copy(&self) -> Result<Formula, NoMemory>
        ensures { IfOk result (λ f. form f ≡ form self.now) }
    {
        match self {
            Formula::True => Ok(Formula::True),
            Formula::False => Ok(Formula::False),
            Formula::Compare(left, op, right) => {
                Ok(Formula::Compare(left.copy()?, *op, right.copy()?))
            }
            Formula::Member(name, operands) => Ok(Formula::Member(name.copy()?, operands.copy()?)),
            Formula::Not(part) => Ok(Formula::Not(copy_boxed(part)?)),
            Formula::And(parts) => Ok(Formula::And(copy_formulas(parts)?)),
            Formula::Or(parts) => Ok(Formula::Or(copy_formulas(parts)?)),
            Formula::Implies(left, right) => {
                Ok(Formula::Implies(copy_boxed(left)?, copy_boxed(right)?))
            }
            Formula::Exists(column, part) => {
                Ok(Formula::Exists(column.copy()?, copy_boxed(part)?))
            }
            Formula::Forall(column, part) => {
                Ok(Formula::Forall(column.copy()?, copy_boxed(part)?))
            }
        }
    }

    /// Whether an atom of the formula has the name.
    #[cycle(uses)]
    pub fn uses(&self, name: &Name) -> bool
        ensures { result ≡ uses name.now (form self.now) }
    {
        match self {
            Formula::True | Formula::False | Formula::Compare(_, _, _) => false,
            Formula::Member(member, _) => name.is_same(member),
            Formula::Not(part) | Formula::Exists(_, part) | Formula::Forall(_, part) => {
                part.uses(name)
            }
            Formula::And(parts) | Formula::Or(parts) => some_uses(parts, name),
            Formula::Implies(left, right) => left.uses(name) || right.uses(name),
        }
    }

    /// Whether an atom of the formula is of the name, of its closure or of its interior.
    #[cycle(speaks)]
    pub fn speaks_of(&self, name: &Name) -> bool
        ensures { result ≡ speaks_of name.now (form self.now) }
    {
        match self {
            Formula::True | Formula::False | Formula::Compare(_, _, _) => false,
            Formula::Member(member, _) => member.is_made_of(name),
            Formula::Not(part) | Formula::Exists(_, part) | Formula::Forall(_, part) => {
                part.speaks_of(name)
            }
            Formula::And(parts) | Formula::Or(parts) => some_speaks_of(parts, name),
            Formula::Implies(left, right) => left.speaks_of(name) || right.speaks_of(name),
        }
    }
}

/// A formula that stands for the same, in a box of its own.
///
/// # Errors
/// Out of memory.
#[cycle(copy)]
fn copy_boxed(part: &Box<Formula>) -> Result<Box<Formula>, NoMemory>
    ensures { IfOk result (λ f. form f.value ≡ form part.now.value) }
{
    Ok(Box::new(*Box::allocator(part), part.copy()?)?)
}

/// Formulas that stand for the same, one for each.
///
/// # Errors
/// Out of memory.
#[cycle(copy)]
fn copy_formulas(parts: &Vec<Formula>) -> Result<Vec<Formula>, NoMemory>
    ensures { IfOk result (λ fs. forms fs.items ≡ forms parts.now.items) }
{
    let mut copies = Vec::with_capacity(*parts.allocator(), parts.len())?;
    for part in parts {
        copies.push(part.copy()?)?;
    }
    Ok(copies)
}

/// Whether an atom of one of the formulas has the name.
#[cycle(uses)]
fn some_uses(parts: &Vec<Formula>, name: &Name) -> bool
    ensures { result ≡ some_atom_of (atom_uses name.now) (forms parts.now.items) }
{
    for part in parts {
        if part.uses(name) {
            return true;
        }
    }
    false
}

/// Whether an atom of one of the formulas is of the name, of its closure or of its interior.
#[cycle(speaks)]
fn some_speaks_of(parts: &Vec<Formula>, name: &Name) -> bool
    ensures { result ≡ some_atom_of (atom_speaks_of name.now) (forms parts.now.items) }
{
    for part in parts {
        if part.speaks_of(name) {
            return true;
        }
    }
    false
}
