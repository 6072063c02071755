//! Verdicts on numbers that get too long: replies don't tell these apart from exact ones.
use crate::texts::{X, conj, is_written, list, read};
use ded_atoms::Atoms;
use ded_genrel::GenRel;
use ded_model::bound::Bound;
use ded_model::memory::{NoMemory, Refused};
use ded_model::tuple::Tuple;
use ded_theory::{Span, Theory, Verdict};
use std::alloc::Global;
use std::test::Fail;

/// What kind of bounds there are.
#[derive(Clone, Copy, Debug, PartialEq, Eq)]
enum BoundKind {
    Nothing,
    Exact,
    /// No end is known, as numbers get too long for the exact ones.
    Open,
    /// Some end is known, and not whether it is the exact one.
    Around,
}

/// A list of one conjunction or none, whether it holds somewhere, what bounds `x` has in the conjunction, and what is
/// left without `x`: nothing where numbers get too long.
type VerdictCase = (
    &'static str,
    Verdict,
    Option<BoundKind>,
    Option<&'static str>,
);

const CASES: [VerdictCase; 8] = [
    ("", Verdict::Empty, None, Some("")),
    (
        "{ }\n",
        Verdict::Inhabited,
        Some(BoundKind::Exact),
        Some("{ }\n"),
    ),
    (
        "{ x > 0, x < 0 }\n",
        Verdict::Empty,
        Some(BoundKind::Nothing),
        Some(""),
    ),
    (
        "{ n = 'a', x = 1 }\n",
        Verdict::Inhabited,
        Some(BoundKind::Exact),
        Some("{ n = 'a' }\n"),
    ),
    (
        "{ 1267650600228229401496703205376*x <= -1 }\n",
        Verdict::Inhabited,
        Some(BoundKind::Exact),
        Some("{ }\n"),
    ),
    (
        "{ 1267650600228229401496703205379*x + 1267650600228229401496703205375*y >= 1, 1267650600228229401496703205376*x + 1267650600228229401496703205377*y <= -1 }\n",
        Verdict::Unknown,
        Some(BoundKind::Open),
        None,
    ),
    (
        "{ 1267650600228229401496703205376*x + y = 0, 1267650600228229401496703205376*x + 1267650600228229401496703205377*y <= 0 }\n",
        Verdict::Unknown,
        Some(BoundKind::Open),
        None,
    ),
    (
        "{ x - y = 0, 1267650600228229401496703205376*x + y = 0, 1267650600228229401496703205377*x <= -3 }\n",
        Verdict::Empty,
        Some(BoundKind::Nothing),
        Some("{ y = 0, 1267650600228229401496703205377*y <= -3 }\n"),
    ),
];

/// The kind of the bounds of `x` over a conjunction.
fn kind_over(alloc: Global, tuple: &Tuple) -> Result<BoundKind, NoMemory> {
    let atoms = conj(alloc, tuple)?;
    match <Atoms as Theory>::bounds(alloc, &atoms, X) {
        Ok(Span::Nothing) => Ok(BoundKind::Nothing),
        Ok(Span::Exact(_, _)) => Ok(BoundKind::Exact),
        Ok(Span::Around(Bound::Infinite, Bound::Infinite)) => Ok(BoundKind::Open),
        Ok(Span::Around(_, _)) => Ok(BoundKind::Around),
        Err(error) => Err(error),
    }
}

/// The same over the last one of the lines.
fn last_kind(alloc: Global, lines: &str) -> Result<Option<BoundKind>, Fail> {
    let mut last = None;
    for tuple in &read(alloc, lines)?.tuples.list {
        last = Some(kind_over(alloc, tuple)?);
    }
    Ok(last)
}

/// Whether that is left of a list without `x`, nothing where numbers get too long.
fn leaves(alloc: Global, list: &GenRel<Atoms>, wanted: Option<&str>) -> Result<bool, Fail> {
    match (list.project(X), wanted) {
        (Ok(left), Some(lines)) => is_written(alloc, left, lines),
        (Err(Refused::Wide), None) => Ok(true),
        _ => Ok(false),
    }
}

/// The verdict and the bounds, and whether the right conjunction is left.
fn seen(alloc: Global, case: &VerdictCase) -> Result<(Verdict, Option<BoundKind>, bool), Fail> {
    let list = list(alloc, case.0)?;
    Ok((
        list.is_empty(alloc)?,
        last_kind(alloc, case.0)?,
        leaves(alloc, &list, case.3)?,
    ))
}

/// Where numbers get too long, nothing is said that isn't so.
#[test]
fn long_numbers_leave_verdicts_open(rt: HostRuntime) -> Result<(), Fail> {
    for case in &CASES {
        let seen = seen(rt.alloc(), case)?;
        assert_eq!(rt; seen, (case.1, case.2, true), "{}", case.0);
    }
    Ok(())
}
