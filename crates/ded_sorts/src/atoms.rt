//! Tests of the atoms of a formula, each below the columns and quantifiers around it.
ghost use Rattle.std.specs.Prelude.{◌≡◌, IfOk};
ghost use Rattle.ded_model.specs.Form.{form, forms};
ghost use Rattle.ded_model.specs.Logic.{some_below, some_below_of};
ghost use Rattle.ded_sorts.specs.Scopes.{scope_form};

use crate::scope::SortScope;
use ded_model::formula::{CompareOp, Formula, Operand, Operands};
use ded_model::memory::NoMemory;
use ded_model::name::Name;

/// A test of atoms in their scope.
pub(crate) trait AtomTest {
    ghost use Rattle.std.specs.Prelude.{Bool};
    ghost use Rattle.ded_model.specs.Form.{FormAtom, compare, member};
    ghost use Rattle.ded_model.specs.Logic as logic;

    /// Which atoms pass.
    ghost passes: { Self → logic.Scope → FormAtom → Bool };

    /// Whether the comparison passes.
    ///
    /// # Errors
    /// Out of memory.
    fn on_comparison(
        &self,
        scope: &SortScope<'_>,
        left: &Operand,
        op: CompareOp,
        right: &Operand,
    ) -> Result<bool, NoMemory>
        ensures { IfOk result (λ b. b ≡ passes self.now (scope_form scope.now) (compare left.now op right.now)) };

    /// Whether the atom of a relation or a view passes.
    ///
    /// # Errors
    /// Out of memory.
    fn on_member(
        &self,
        scope: &SortScope<'_>,
        name: &Name,
        operands: &Operands,
    ) -> Result<bool, NoMemory>
        ensures { IfOk result (λ b. b ≡ passes self.now (scope_form scope.now) (member name.now operands.now)) };
}

/// Whether some atom of the formula passes, below the scope.
///
/// # Errors
/// Out of memory.
#[cycle(atoms)]
pub(crate) fn some_atom<T: AtomTest>(
    test: &T,
    scope: &SortScope<'_>,
    formula: &Formula,
) -> Result<bool, NoMemory>
    ensures { IfOk result (λ b. b ≡ some_below (T.passes test.now) (scope_form scope.now) (form formula.now)) }
{
    match formula {
        Formula::True | Formula::False => Ok(false),
        Formula::Compare(left, op, right) => test.on_comparison(scope, left, *op, right),
        Formula::Member(name, operands) => test.on_member(scope, name, operands),
        Formula::Not(part) => some_atom(test, scope, part),
        Formula::And(parts) | Formula::Or(parts) => some_atom_of(test, scope, parts),
        Formula::Implies(left, right) => {
            Ok(some_atom(test, scope, left)? || some_atom(test, scope, right)?)
        }
        Formula::Exists(column, part) | Formula::Forall(column, part) => {
            some_atom(test, &SortScope::Within(column, scope), part)
        }
    }
}

/// Whether some atom of some of the formulas passes, below the scope.
///
/// # Errors
/// Out of memory.
#[cycle(atoms)]
pub(crate) fn some_atom_of<T: AtomTest>(
    test: &T,
    scope: &SortScope<'_>,
    formulas: &Vec<Formula>,
) -> Result<bool, NoMemory>
    ensures { IfOk result (λ b. b ≡ some_below_of (T.passes test.now) (scope_form scope.now)
        (forms formulas.now.items)) }
{
    for formula in formulas {
        if some_atom(test, scope, formula)? {
            return Ok(true);
        }
    }
    Ok(false)
}
