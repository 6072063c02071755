//! Verdicts on systems of many rows over three to five slots, and whether the first slot has values there. The expected
//! ones are another solver's.
ghost use Rattle.std.specs.Prelude.{IfOk};
ghost use Rattle.ded_readback.specs.Plain.{IsPlainHeading};

use crate::texts::{X, column, conj, list_of, read_over};
use ded_atoms::Atoms;
use ded_model::memory::NoMemory;
use ded_model::name::Heading;
use ded_model::slot::Sort;
use ded_model::tuple::Tuple;
use ded_theory::{Span, Theory, Verdict};
use std::alloc::Global;
use std::test::Fail;

/// A conjunction, and whether it holds somewhere.
type System = (&'static str, Verdict);

/// Dense rows, equalities, half-spaces that touch in a point, of which one row may be strict, a thin open cone, and
/// rows with numbers that are too long for a search by minors.
const SYSTEMS: [System; 16] = [
    (
        "{ 8*v - 6*w - 6*x >= -101, 6*v - 5*w - x >= -53, 4*v - 9*w - 8*x >= -85, 2*v + 2*w + 7*x <= 41 }\n",
        Verdict::Inhabited,
    ),
    (
        "{ 8*v - 9*w - 9*x >= -111, 7*v + 2*w + 4*x >= 61, 4*v + 9*w + 7*x >= 132, 7*v + w + 9*x <= 96, 8*v - 7*w + 2*x <= -12, 8*v + 7*w - 5*x <= 77 }\n",
        Verdict::Inhabited,
    ),
    (
        "{ 8*v + 8*w + 3*x >= -1, 7*v + 6*w + x >= -11, 3*v + 7*w - 2*x >= 37, 3*v + 3*w + 3*x <= 5, 3*v + 9*w - 9*x <= 61, 6*v + 8*w - 3*x <= 17, 8*v - 9*w - 3*x < -124, 8*v + 5*w + 9*x <= -38 }\n",
        Verdict::Empty,
    ),
    (
        "{ 9*v - 6*w - x + 4*y >= -5, 5*v - w - 4*x + 3*y >= 13, 2*v - 3*w + 9*x + 5*y >= -48, 2*v - 9*w + 5*x + 2*y >= -67, v - 6*w + x + 6*y >= -81, v - 7*w + 2*x - 2*y > -41, 5*v - 6*w + 4*x - 3*y < 8, 5*v - w + 7*x + 3*y <= 12, 6*v - 7*w - 8*x - 6*y <= 47, 7*v + w + x + 5*y <= 37 }\n",
        Verdict::Inhabited,
    ),
    (
        "{ 8*v + 2*w - 6*x + 4*y >= 91, 8*v - 7*w - 2*x + 7*y >= 45, 5*v + 4*w - 7*x - 5*y >= 79, v + 5*w + 6*x - 9*y >= -38, 2*v - 5*w - 9*x - 5*y <= 45, 4*v + 9*w - 5*x + 3*y <= 91, 5*v + 9*w - 7*x + 4*y <= 120, 6*v + 9*w + 7*x - y <= 3, 7*v - 4*w - x - y <= 34, 8*v - 5*w + 2*x + 8*y <= 25, 9*v - 3*w + 2*x + 6*y < 37, 9*v + 9*w - x + 8*y <= 92 }\n",
        Verdict::Empty,
    ),
    (
        "{ 8*v + 7*w - 7*x + y >= 19, 6*v + 2*w - x - 2*y > 8, 4*v + 4*w + 3*x + 9*y > 91, 3*v + 9*w + 8*x - 8*y >= 94, 3*v + 5*w + 7*x - 6*y > 63, v + 8*w + 3*x + y > 83, v + 5*w + x + 7*y > 69, 2*v - w - x + y <= -4, 2*v + 2*w - 4*x + 4*y < 19, 3*v + 2*w + 2*x + 3*y <= 52, 3*v + 8*w - 9*x + 7*y < 37, 4*v - 7*w - 6*x - 5*y <= -98, 7*v - 9*w - x - 6*y <= -73, 9*v + 8*w - 7*x + 2*y <= 46 }\n",
        Verdict::Inhabited,
    ),
    (
        "{ 6*v + 6*w + 8*x - 4*y + z >= 52, 3*v - 6*w - 4*x + 5*y + 5*z >= 23, 2*v - 8*w + 8*x - 6*y - 6*z > 91, v + 5*w - 4*x - 9*y - 9*z >= -90, 8*w + 8*x >= 15, w + 2*y + 8*z >= 38, 7*x - 7*z <= 15, 7*x <= 58, w - 3*x - 7*y - 8*z <= -56, 5*w + 8*x - 4*y + 5*z <= 86, 2*v - 3*w - 6*x - 7*y <= -3, 3*v - 9*x <= -62, 4*v + 5*w - 2*x <= -43, 7*v - 7*x + 4*y + 9*z <= -8 }\n",
        Verdict::Empty,
    ),
    (
        "{ 8*v + 9*w - 4*x + 5*y - 7*z >= 104, 3*v + w - 8*x - 2*y + 8*z >= 34, 3*v - 8*w - 8*x - 9*y + z > 56, v + 2*w - 7*x + 3*y + z < 9, 3*v - 5*w - 4*x - 5*y + 6*z = 23, 6*v - 9*w + 6*x - 6*y + 4*z <= 28, 7*v - 6*w - 4*x - 5*y + 6*z = 52, 7*v + 4*w - 8*x - 7*y - 6*z < 182, 8*v + 3*w + x + 2*y + 9*z = 47 }\n",
        Verdict::Inhabited,
    ),
    (
        "{ 9*v + 6*w - 2*x - 4*y > 25, 3*v + 5*w + 5*x + 6*y >= 48, 2*v + 7*w + 9*x - y > 48, v + 2*w + 7*x - 2*y = 8, v + 3*w + x - y = 30, 3*v - 6*w - 3*x + 4*y = -32, 4*v - 7*w - 5*x + 4*y = -22, 6*v - 3*w + x - 2*y = 42 }\n",
        Verdict::Empty,
    ),
    (
        "{ v + w - 6*x + 8*y >= -19, 2*x - 2*y = 3, v - w - 5*x + 3*y = 1, v + w - 5*x - 3*y = 47, v + w - 3*x - 5*y = 51, v + 4*w - 3*x + 3*y <= 9, 5*v + w - x - 4*y = 53, 6*v - 4*w + 9*x - 4*y <= -50 }\n",
        Verdict::Empty,
    ),
    (
        "{ 8*v + 3*w - 6*x >= -11, 7*v - 5*w + 9*x >= -98, 4*v + 4*w + x >= -16, 4*v - 15*w + 6*x >= -119, 3*v + 4*w + 3*x >= -7, v - w + 3*x <= -22, v + 6*w - 4*x <= 52, 3*v - 2*w + 3*x <= -37 }\n",
        Verdict::Inhabited,
    ),
    (
        "{ 8*v + 3*w - 6*x >= -11, 7*v - 5*w + 9*x >= -98, 4*v + 4*w + x >= -16, 4*v - 15*w + 6*x > -119, 3*v + 4*w + 3*x >= -7, v - w + 3*x <= -22, v + 6*w - 4*x <= 52, 3*v - 2*w + 3*x <= -37 }\n",
        Verdict::Empty,
    ),
    (
        "{ 4*v - 2*w - 2*x + 3*y + z >= 1, 4*v - 3*w - 3*x + 2*y - z >= -4, 2*v - 2*x - y - 2*z >= -2, 2*v - x - 2*y - 3*z <= 4, 3*v + w - 3*x + 3*y <= -9, 6*v + w - x - y - 5*z <= 22, 11*v - 20*w - 8*x + 10*y + 4*z <= -12 }\n",
        Verdict::Inhabited,
    ),
    (
        "{ 4*v - 2*w - 2*x + 3*y + z >= 1, 4*v - 3*w - 3*x + 2*y - z >= -4, 2*v - 2*x - y - 2*z >= -2, 2*v - x - 2*y - 3*z <= 4, 3*v + w - 3*x + 3*y < -9, 6*v + w - x - y - 5*z <= 22, 11*v - 20*w - 8*x + 10*y + 4*z <= -12 }\n",
        Verdict::Empty,
    ),
    (
        "{ 1000*v - w > 0, w + y > -1, w - 1000*x > 0, x > -1, w + y < 0, v < 0 }\n",
        Verdict::Inhabited,
    ),
    (
        "{ 1267650600228229401496703205376*v - 1267650600228229401496703205377*w >= 1, 1267650600228229401496703205376*w - 3*z >= 1, 1267650600228229401496703205376*w - 1267650600228229401496703205377*x >= 1, 1267650600228229401496703205376*x - 7*z > 1, 1267650600228229401496703205376*x - 1267650600228229401496703205377*y >= 1, 1267650600228229401496703205376*y - 1267650600228229401496703205377*z >= 1 }\n",
        Verdict::Inhabited,
    ),
];

/// The columns of the systems.
fn heading(alloc: Global) -> Result<Heading, NoMemory>
    ensures { IfOk result (λ h. IsPlainHeading h) }
{
    let mut columns = Vec::new(alloc);
    columns.push(column(alloc, b'v', Sort::Rat)?)?;
    columns.push(column(alloc, b'w', Sort::Rat)?)?;
    columns.push(column(alloc, b'x', Sort::Rat)?)?;
    columns.push(column(alloc, b'y', Sort::Rat)?)?;
    columns.push(column(alloc, b'z', Sort::Rat)?)?;
    Ok(Heading { columns })
}

/// What the theory says of a system.
fn verdict(alloc: Global, line: &str) -> Result<Verdict, Fail> {
    let answer = read_over(alloc, &heading(alloc)?, line)?;
    Ok(list_of(alloc, &answer)?.is_empty(alloc)?)
}

/// Systems of many rows get the verdicts that they should.
#[test]
fn systems_are_told(rt: HostRuntime) -> Result<(), Fail> {
    for (line, wanted) in &SYSTEMS {
        assert_eq!(rt; verdict(rt.alloc(), line)?, *wanted, "{line}");
    }
    Ok(())
}

/// Whether the first column has some value where the tuple holds.
fn has_values(alloc: Global, tuple: &Tuple) -> Result<bool, NoMemory> {
    let atoms = conj(alloc, tuple)?;
    match <Atoms as Theory>::bounds(alloc, &atoms, X) {
        Ok(Span::Nothing) => Ok(false),
        Ok(Span::Exact(_, _) | Span::Around(_, _)) => Ok(true),
        Err(error) => Err(error),
    }
}

/// The same of each tuple of the line.
fn have_values(alloc: Global, line: &str) -> Result<bool, Fail> {
    for tuple in &read_over(alloc, &heading(alloc)?, line)?.tuples.list {
        if !has_values(alloc, tuple)? {
            return Ok(false);
        }
    }
    Ok(true)
}

/// A column has bounds exactly in the systems that hold somewhere.
#[test]
fn systems_have_bounds(rt: HostRuntime) -> Result<(), Fail> {
    for (line, wanted) in &SYSTEMS {
        assert_eq!(rt;
            have_values(rt.alloc(), line)?,
            *wanted == Verdict::Inhabited,
            "{line}"
        );
    }
    Ok(())
}
