//! Normal tuples of comparisons.
ghost use Rattle.std.specs.Prelude.{◌≡◌, ◌<◌, ◌^◌, false, map, length, IfOk, OnOk};
ghost use Rattle.ded_model.specs.Logic.{every_of, some_below};
ghost use Rattle.ded_model.specs.Form.{form, forms};
ghost use Rattle.ded_model.specs.Goal.{goal_form};
ghost use Rattle.ded_model.specs.Normal.{IsNormalTuple, constant_row, ordered_atoms};
ghost use Rattle.ded_model.specs.Known.{has_unbound, scope_of, IsTupleOver};
ghost use Rattle.ded_model.specs.Slotted.{goal_atoms, goal_below, comparison_atoms, tuple_of};
ghost use Rattle.ded_model.specs.Plain.{IsPlain};
ghost use Rattle.ded_resolve.specs.Tuples.{is_missorted_comparison, IsNormalComparison, found, AreNormalAtoms};
ghost use Rattle.ded_resolve.specs.Tuples.{IsFitting, AreFitting};
ghost use Rattle.ded_tuple.specs.Places.{placed};

use crate::comparisons::comparison;
use crate::scope::Scope;
use ded_model::formula::Formula;
use ded_model::goal::Goal;
use ded_model::memory::NoMemory;
use ded_model::name::Heading;
use ded_model::row::{Coefs, Row, RowOp};
use ded_model::tuple::{Atom, BothAtom, Tuple};
use ded_tuple::{is_true, put};
use std::alloc::Global;

/// The normal tuple of comparisons over a heading. Each variable is a column of the heading, each sum has each name
/// once, the sums of a comparison are over one denominator, and no text stands where a number has to, or a number where
/// a text has to. What has no atom, as `!=` between numbers, is left out.
///
/// # Errors
/// Out of memory.
pub fn tuple(alloc: Global, heading: &Heading, comparisons: &[Formula]) -> Result<Tuple, NoMemory>
    requires few { length heading.now < 2 ^ 32 }
    requires plain { IsPlain (every_of (forms comparisons.now)) }
    requires bound { has_unbound heading.now (every_of (forms comparisons.now)) ≡ false }
    requires sorted { some_below is_missorted_comparison (scope_of heading.now)
        (every_of (forms comparisons.now)) ≡ false }
    ensures value { IfOk result (λ t. t ≡ tuple_of heading.now (map form comparisons.now)) }
    ensures over { IfOk result (λ t. IsTupleOver heading.now t) }
{
    let scope = Scope::new(alloc, heading)?;
    gather(alloc, &scope, comparisons)
}

/// The normal tuple of comparisons in a scope.
fn gather(alloc: Global, scope: &Scope, comparisons: &[Formula]) -> Result<Tuple, NoMemory>
    requires { AreFitting scope.now (forms comparisons.now) }
    ensures value { IfOk result (λ t. t ≡ ordered_atoms (comparison_atoms scope.now (map form comparisons.now))) }
    ensures normal { IfOk result (λ t. IsNormalTuple t) }
{
    let mut tuple = Tuple {
        atoms: Vec::new(alloc),
    };
    let mut at = comparisons.len();
    while at > 0 {
        at -= 1;
        add(alloc, scope, &mut tuple, &comparisons[at])?;
    }
    Ok(tuple)
}

/// Puts the atom of a comparison at its place, if it has one.
fn add(
    alloc: Global,
    scope: &Scope,
    tuple: &mut Tuple,
    comparison: &Formula,
) -> Result<(), NoMemory>
    requires fitting { IsFitting scope.now (form comparison.now) }
    requires normal { IsNormalTuple tuple.old }
    ensures place { OnOk result (tuple.new ≡ placed
        (goal_atoms (goal_below scope.now 0 (form comparison.now))) tuple.old) }
    ensures normal { OnOk result (IsNormalTuple tuple.new) }
{
    match atom(alloc, scope, comparison)? {
        Some(atom) => put(tuple, atom),
        None => Ok(()),
    }
}

/// The atom of a comparison: none where it is true, the false row where it is false.
fn atom(alloc: Global, scope: &Scope, formula: &Formula) -> Result<Option<Atom>, NoMemory>
    requires { IsFitting scope.now (form formula.now) }
    ensures atoms { IfOk result (λ a. found a ≡ goal_atoms (goal_below scope.now 0 (form formula.now))) }
    ensures normal { IfOk result (λ a. AreNormalAtoms (found a)) }
{
    match formula {
        Formula::Compare(left, op, right) => {
            Ok(goal_atom(alloc, comparison(alloc, scope, left, *op, right)?))
        }
        Formula::False => Ok(goal_atom(alloc, Goal::False)),
        _ => Ok(None),
    }
}

/// The atom of a goal, if it is a single one and not true everywhere.
fn goal_atom(alloc: Global, goal: Goal) -> Option<Atom>
    ensures atoms { found result ≡ goal_atoms (goal_form goal) }
    ensures normal { IsNormalComparison (goal_form goal) → AreNormalAtoms (found result) }
{
    match goal {
        Goal::Linear(row) => {
            if is_true(&row) {
                None
            } else {
                Some(BothAtom::First(row))
            }
        }
        Goal::Theme(atom) => Some(BothAtom::Second(atom)),
        Goal::False => Some(BothAtom::First(falsehood(alloc))),
        _ => None,
    }
}

/// The row that holds nowhere.
fn falsehood(alloc: Global) -> Row
    ensures { result ≡ constant_row false }
{
    Row {
        coefs: Coefs::new(alloc),
        constant: 0,
        op: RowOp::Below,
    }
}
