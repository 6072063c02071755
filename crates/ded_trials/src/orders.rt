//! Plans of order rows with numbers that are too long to be multiplied.
ghost use Rattle.std.specs.Prelude.{◌≡◌, IfOk};
ghost use Rattle.ded_model.specs.declared.slot.Sort.TheVariants.{Rat};
ghost use Rattle.ded_model.specs.Logic.{exists};
ghost use Rattle.ded_model.specs.PlanForm.{plan_form};
ghost use Rattle.ded_model.specs.Point.{slot};

use crate::joins::union;
use crate::texts::{X, is_written, read};
use ded_algebra::Given;
use ded_atoms::Atoms;
use ded_eval::eval;
use ded_genrel::GenRel;
use ded_model::memory::{NoMemory, Refused};
use ded_model::plan::Plan;
use std::alloc::Global;
use std::test::Fail;

/// Order rows that bound `x` by fractions of numbers of 101 digits, and what is left of them without `x`. Which of two
/// fractions is less is told by products of 202 digits.
const PROJECTED: [(&str, &str); 3] = [
    (
        "{ 1267650600228229401496703205379*x > 1267650600228229401496703205377, 1267650600228229401496703205377*x < 1267650600228229401496703205379 }\n",
        "{ }\n",
    ),
    (
        "{ 1267650600228229401496703205377*x > 1267650600228229401496703205379, 1267650600228229401496703205379*x < 1267650600228229401496703205377 }\n",
        "",
    ),
    (
        "{ 1267650600228229401496703205379*x > 1267650600228229401496703205377, x - y < 0, 1267650600228229401496703205377*x < 1267650600228229401496703205379 }\n",
        "{ 1267650600228229401496703205379*y > 1267650600228229401496703205377 }\n",
    ),
];

/// Rows of which one is no order row.
const REFUSED: &str =
    "{ 1267650600228229401496703205379*x > 1267650600228229401496703205377, x + y < 0, 1267650600228229401496703205377*x < 1267650600228229401496703205379 }\n";

/// The plan without `x`.
fn without_x(alloc: Global, plan: Plan) -> Result<Plan, NoMemory>
    ensures { IfOk result (λ p. plan_form p ≡ exists Rat (slot (record { number = 0; sort = Rat })) (plan_form plan)) }
{
    Ok(Plan::Project(X, Box::new(alloc, plan)?))
}

/// What the tuples are evaluated to without `x`.
fn projected(alloc: Global, lines: &str) -> Result<Result<GenRel<Atoms>, Refused>, Fail> {
    let plan = without_x(alloc, union(alloc, &read(alloc, lines)?.tuples.list)?)?;
    Ok(eval(alloc, &plan, &Given::new(alloc)))
}

/// Whether the tuples are evaluated without `x` to those that the other lines spell; none where that is refused as too
/// wide.
fn is_projected(alloc: Global, lines: &str, wanted: &str) -> Result<Option<bool>, Fail> {
    match projected(alloc, lines)? {
        Ok(list) => Ok(Some(is_written(alloc, list, wanted)?)),
        Err(Refused::Wide) => Ok(None),
        Err(Refused::Memory) => Err("no memory".into()),
    }
}

/// Plans of order rows alone are never refused as too wide, and others are.
#[test]
fn order_rows_are_decided(rt: HostRuntime) -> Result<(), Fail> {
    for (lines, wanted) in PROJECTED {
        assert_eq!(rt; is_projected(rt.alloc(), lines, wanted)?, Some(true));
    }
    assert_eq!(rt; is_projected(rt.alloc(), REFUSED, "")?, None);
    Ok(())
}
