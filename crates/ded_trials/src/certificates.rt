//! Certificates of pairs of tuples, and that they are checked.
use crate::texts::read;
use ded_cert::{Outcome, certify, check};
use ded_model::certificate::Proof;
use ded_model::memory::Refused;
use ded_model::tuple::Tuple;
use std::alloc::Global;
use std::test::Fail;

/// What is answered of a pair.
#[derive(Clone, Copy, Debug, PartialEq, Eq)]
enum PairAnswer {
    Common,
    /// A certificate by texts, which is checked.
    Texts,
    /// A certificate by numbers that sum to so much, which is checked.
    Numbers(u128),
    /// A certificate that isn't accepted.
    Refuted,
    Wide,
}

/// Two tuples, and what is answered of them.
type Pair = (&'static str, PairAnswer);

/// Rows that touch, cross and miss each other, equalities, texts, and numbers that are too long.
const PAIRS: [Pair; 13] = [
    ("{ }\n{ }\n", PairAnswer::Common),
    ("{ x < 1 }\n{ x >= 1 }\n", PairAnswer::Numbers(2)),
    ("{ x <= 1 }\n{ x >= 1 }\n", PairAnswer::Common),
    ("{ x = 1 }\n{ x = 2 }\n", PairAnswer::Numbers(2)),
    ("{ 2*x = 1 }\n{ 3*x = 1 }\n", PairAnswer::Numbers(5)),
    ("{ n = 'a' }\n{ n = 'b' }\n", PairAnswer::Texts),
    (
        "{ n = 'a', x < 0 }\n{ n = 'b', x > 0 }\n",
        PairAnswer::Texts,
    ),
    (
        "{ n = 'a', x < 0 }\n{ n != 'b', x > 0 }\n",
        PairAnswer::Numbers(2),
    ),
    (
        "{ n = 'a', x < 1 }\n{ n != 'b', x > 0 }\n",
        PairAnswer::Common,
    ),
    (
        "{ x - y <= 1, x + y <= 1 }\n{ x > 1 }\n",
        PairAnswer::Numbers(4),
    ),
    (
        "{ x >= 0, 3*x + 2*y <= 6 }\n{ x - y > -3, y >= 3 }\n",
        PairAnswer::Numbers(9),
    ),
    (
        "{ x >= 0, 3*x + 2*y <= 6 }\n{ x - y >= -3, y >= 3 }\n",
        PairAnswer::Common,
    ),
    (
        "{ 1267650600228229401496703205379*x + 1267650600228229401496703205375*y >= 1 }\n{ 1267650600228229401496703205376*x + 1267650600228229401496703205377*y <= -1 }\n",
        PairAnswer::Wide,
    ),
];

/// What is answered of two tuples, and whether it is checked.
fn certified(alloc: Global, first: &Tuple, second: &Tuple) -> Result<PairAnswer, Fail> {
    match certify(alloc, first, second) {
        Ok(Outcome::Common) => Ok(PairAnswer::Common),
        Ok(Outcome::Apart(proof)) => checked(alloc, first, second, &proof),
        Err(Refused::Wide) => Ok(PairAnswer::Wide),
        Err(Refused::Memory) => Err(Fail::from(std::alloc::AllocError)),
    }
}

/// What is answered where a certificate was found.
fn checked(
    alloc: Global,
    first: &Tuple,
    second: &Tuple,
    proof: &Proof,
) -> Result<PairAnswer, Fail> {
    match (check(alloc, first, second, proof), proof) {
        (Ok(true), Proof::Text) => Ok(PairAnswer::Texts),
        (Ok(true), Proof::Multipliers(numbers)) => Ok(PairAnswer::Numbers(sum(&numbers.list))),
        _ => Ok(PairAnswer::Refuted),
    }
}

/// The sum of the magnitudes.
fn sum(numbers: &[i128]) -> u128 {
    let mut sum = 0_u128;
    for number in numbers {
        sum = sum.saturating_add(number.unsigned_abs());
    }
    sum
}

/// What is answered of the two tuples that the lines spell.
fn answer_of(alloc: Global, lines: &str) -> Result<Option<PairAnswer>, Fail> {
    let tuples = read(alloc, lines)?.tuples.list;
    match tuples.as_slice() {
        [first, second] => Ok(Some(certified(alloc, first, second)?)),
        _ => Ok(None),
    }
}

/// Pairs get the certificates that they should, and these are accepted.
#[test]
fn certificates_are_checked(rt: HostRuntime) -> Result<(), Fail> {
    for (lines, wanted) in &PAIRS {
        assert_eq!(rt; answer_of(rt.alloc(), lines)?, Some(*wanted), "{lines}");
    }
    Ok(())
}
