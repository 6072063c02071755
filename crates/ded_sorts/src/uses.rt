//! Uses of names in atoms: of undefined names, with another number of arguments, and of which level.
ghost use Rattle.std.specs.Prelude.{◌≡◌, IfOk};
ghost use Rattle.ded_model.specs.Form.{form, forms};
ghost use Rattle.ded_model.specs.Known.{is_unknown_atom, is_arity_atom, atom_level, level_with};
ghost use Rattle.ded_model.specs.Logic.{greatest, greatest_of};
ghost use Rattle.ded_model.specs.Entries.{known};
ghost use Rattle.ded_model.specs.Made.{base};

use crate::atoms::AtomTest;
use crate::names::{Names, known_base};
use crate::scope::SortScope;
use ded_model::formula::{CompareOp, Formula, Operand, Operands};
use ded_model::memory::NoMemory;
use ded_model::name::Name;

/// Passes atoms of a name that isn't defined.
#[derive(Drop)]
pub(crate) struct Undefined<'a, N> {
    pub(crate) names: &'a N,
}

impl<N: Names> AtomTest for Undefined<'_, N> {
    ghost passes = { λ s scope a. is_unknown_atom (known (N.catalogue s.names.now)) a };

    fn on_comparison(
        &self,
        _: &SortScope<'_>,
        _: &Operand,
        _: CompareOp,
        _: &Operand,
    ) -> Result<bool, NoMemory> {
        Ok(false)
    }

    fn on_member(&self, _: &SortScope<'_>, name: &Name, _: &Operands) -> Result<bool, NoMemory> {
        Ok(known_base(self.names, name)?.is_none())
    }
}

/// Passes atoms of a defined name that have another number of arguments than it has columns.
#[derive(Drop)]
pub(crate) struct OtherArity<'a, N> {
    pub(crate) names: &'a N,
}

impl<N: Names> AtomTest for OtherArity<'_, N> {
    ghost passes = { λ s scope a. is_arity_atom (known (N.catalogue s.names.now)) a };

    fn on_comparison(
        &self,
        _: &SortScope<'_>,
        _: &Operand,
        _: CompareOp,
        _: &Operand,
    ) -> Result<bool, NoMemory> {
        Ok(false)
    }

    fn on_member(
        &self,
        _: &SortScope<'_>,
        name: &Name,
        operands: &Operands,
    ) -> Result<bool, NoMemory> {
        match known_base(self.names, name)? {
            None => Ok(false),
            Some(entry) => Ok(operands.list.len() != entry.columns().len()),
        }
    }
}

/// The level of the name that the name is made of, 0 where that isn't defined.
fn level_of_name<N: Names>(name: &Name, names: &N) -> Result<u32, NoMemory>
    ensures { IfOk result (λ n. n ≡ level_with (known (N.catalogue names.now) (base name.now))) }
{
    match known_base(names, name)? {
        None => Ok(0),
        Some(entry) => Ok(entry.level()),
    }
}

/// The greatest level of the names that the formula uses, 0 where it uses none.
///
/// # Errors
/// Out of memory.
#[cycle(levels)]
pub(crate) fn greatest_level<N: Names>(formula: &Formula, names: &N) -> Result<u32, NoMemory>
    ensures { IfOk result (λ n. n ≡ greatest (atom_level (known (N.catalogue names.now))) (form formula.now)) }
{
    match formula {
        Formula::True | Formula::False | Formula::Compare(_, _, _) => Ok(0),
        Formula::Member(name, _) => level_of_name(name, names),
        Formula::Not(part) | Formula::Exists(_, part) | Formula::Forall(_, part) => {
            greatest_level(part, names)
        }
        Formula::And(parts) => greatest_level_of(parts, names),
        Formula::Or(parts) => greatest_level_of(parts, names),
        Formula::Implies(left, right) => {
            let level = greatest_level(left, names)?;
            Ok(greatest_level(right, names)?.max(level))
        }
    }
}

/// The greatest level of the names that the formulas use, 0 where they use none.
#[cycle(levels)]
fn greatest_level_of<N: Names>(formulas: &Vec<Formula>, names: &N) -> Result<u32, NoMemory>
    ensures { IfOk result (λ n. n ≡ greatest_of (atom_level (known (N.catalogue names.now)))
        (forms formulas.now.items)) }
{
    let mut level = 0;
    for formula in formulas {
        level = greatest_level(formula, names)?.max(level);
    }
    Ok(level)
}
