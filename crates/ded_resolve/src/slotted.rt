//! Formulas by slots.
ghost use Rattle.std.specs.Prelude.{◌≡◌, ◌+◌, ◌<◌, ◌^◌, ◌∷◌, false, IfOk, OnOk, length};
ghost use Rattle.ded_model.specs.Point.{name};
ghost use Rattle.ded_model.specs.Logic.{quantifiers, quantifiers_of, some_below};
ghost use Rattle.ded_model.specs.Form.{form, forms};
ghost use Rattle.ded_model.specs.Goal.{goal_form, goal_forms};
ghost use Rattle.ded_model.specs.Known.{has_unbound, scope_of};
ghost use Rattle.ded_model.specs.Slotted.{goal_of, goal_below, goals_below};
ghost use Rattle.ded_model.specs.Plain.{IsPlain};
ghost use Rattle.ded_resolve.specs.TextSums.{has_text_sum};
ghost use Rattle.ded_resolve.specs.Readable.{IsReadable, AreReadable};

use crate::comparisons::{comparison, places};
use crate::scope::Scope;
use ded_model::formula::Formula;
use ded_model::goal::Goal;
use ded_model::memory::NoMemory;
use ded_model::name::{Column, Heading};
use ded_model::slot::Slot;
use std::alloc::Global;

/// The goal of a formula over a heading, none for a closed one. Each variable of the formula is a column of the heading
/// or bound by a quantifier, each sum has each name once, the sums of a comparison are over one denominator, and no sum
/// has a text variable.
///
/// # Errors
/// Out of memory.
pub fn goal(alloc: Global, heading: &Heading, formula: &Formula) -> Result<Goal, NoMemory>
    requires plain { IsPlain (form formula.now) }
    requires bound { has_unbound heading.now (form formula.now) ≡ false }
    requires sorted { some_below has_text_sum (scope_of heading.now) (form formula.now) ≡ false }
    requires few { length heading.now + quantifiers (form formula.now) < 2 ^ 32 }
    ensures { IfOk result (λ g. goal_form g ≡ goal_of heading.now (form formula.now)) }
{
    let mut scope = Scope::new(alloc, heading)?;
    let mut next = heading.columns.len() as u32;
    read(alloc, &mut scope, &mut next, formula)
}

/// The goal of a formula in a scope. Its quantifiers have the numbers from the next one on, which is moved past them.
/// The scope stays as it is.
#[cycle(read)]
fn read<'a>(
    alloc: Global,
    scope: &mut Scope<'a>,
    next: &mut u32,
    formula: &'a Formula,
) -> Result<Goal, NoMemory>
    requires { IsReadable scope.old next.old (form formula.now) }
    ensures goal { IfOk result (λ g. goal_form g ≡ goal_below scope.old next.old (form formula.now)) }
    ensures next { OnOk result (next.new ≡ next.old + quantifiers (form formula.now)) }
    ensures scope { OnOk result (scope.new ≡ scope.old) }
{
    match formula {
        Formula::True => Ok(Goal::True),
        Formula::False => Ok(Goal::False),
        Formula::Compare(left, op, right) => comparison(alloc, scope, left, *op, right),
        Formula::Member(name, operands) => {
            Ok(Goal::Member(name.copy()?, places(alloc, scope, operands)?))
        }
        Formula::Not(part) => {
            let part = read(alloc, scope, next, part)?;
            Ok(Goal::Not(Box::new(alloc, part)?))
        }
        Formula::And(parts) => Ok(Goal::And(read_all(alloc, scope, next, parts)?)),
        Formula::Or(parts) => Ok(Goal::Or(read_all(alloc, scope, next, parts)?)),
        Formula::Implies(left, right) => {
            let left = read(alloc, scope, next, left)?;
            let right = read(alloc, scope, next, right)?;
            Ok(Goal::Implies(Box::new(alloc, left)?, Box::new(alloc, right)?))
        }
        Formula::Exists(column, part) => {
            let slot = quantify(scope, next, column)?;
            let part = read(alloc, scope, next, part)?;
            scope.unbind();
            Ok(Goal::Exists(slot, Box::new(alloc, part)?))
        }
        Formula::Forall(column, part) => {
            let slot = quantify(scope, next, column)?;
            let part = read(alloc, scope, next, part)?;
            scope.unbind();
            Ok(Goal::Forall(slot, Box::new(alloc, part)?))
        }
    }
}

/// The goals of formulas, one for each.
#[cycle(read)]
fn read_all<'a>(
    alloc: Global,
    scope: &mut Scope<'a>,
    next: &mut u32,
    parts: &'a Vec<Formula>,
) -> Result<Vec<Goal>, NoMemory>
    requires { AreReadable scope.old next.old (forms parts.now.items) }
    ensures goals { IfOk result (λ gs. goal_forms gs.items ≡ goals_below scope.old next.old (forms parts.now.items)) }
    ensures next { OnOk result (next.new ≡ next.old + quantifiers_of (forms parts.now.items)) }
    ensures scope { OnOk result (scope.new ≡ scope.old) }
{
    let mut goals = Vec::with_capacity(alloc, parts.len())?;
    for part in parts {
        goals.push(read(alloc, scope, next, part)?)?;
    }
    Ok(goals)
}

/// Binds the variable of a quantifier to the next slot. Returns the slot.
fn quantify<'a>(scope: &mut Scope<'a>, next: &mut u32, column: &'a Column) -> Result<Slot, NoMemory>
    requires { next.old + 1 < 2 ^ 32 }
    ensures slot { IfOk result (λ s. s ≡ record { number = next.old; sort = column.now.sort }) }
    ensures next { OnOk result (next.new ≡ next.old + 1) }
    ensures scope { OnOk result (scope.new ≡ (
      name column.now.name,
      record { number = next.old; sort = column.now.sort },
    ) ∷ scope.old) }
{
    let slot = Slot {
        number: *next,
        sort: column.sort,
    };
    *next += 1;
    scope.bind(&column.name, slot)?;
    Ok(slot)
}
