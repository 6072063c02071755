//! Operations on lists of conjunctions, whose results were worked out by hand.
use crate::texts::{X, conj, is_written, list, read};
use ded_atoms::Atoms;
use ded_complement::{complement, minus};
use ded_genrel::GenRel;
use ded_join::join;
use ded_model::memory::NoMemory;
use ded_reduce::{Reduced, reduce};
use std::alloc::Global;
use std::test::Fail;

/// What is done with two lists. Some operations leave the second one out.
#[derive(Clone, Copy, Debug)]
enum Operation {
    Copy,
    Union,
    Meet,
    /// Joined by the bounds of `x`.
    Join,
    Complement,
    Minus,
}

/// Two lists, and what an operation makes of them.
const RESULTS: [(Operation, &str, &str, &str); 12] = [
    (Operation::Copy, "", "", ""),
    (
        Operation::Copy,
        "{ }\n{ n = 'a', x <= 1 }\n",
        "",
        "{ }\n{ n = 'a', x <= 1 }\n",
    ),
    (Operation::Union, "", "", ""),
    (
        Operation::Union,
        "{ x = 1 }\n",
        "{ n = 'a' }\n{ }\n",
        "{ x = 1 }\n{ n = 'a' }\n{ }\n",
    ),
    (Operation::Meet, "{ x = 1 }\n", "", ""),
    (
        Operation::Meet,
        "{ x >= 0 }\n{ n = 'a' }\n",
        "{ x <= 1 }\n{ n = 'b' }\n",
        "{ x >= 0, x <= 1 }\n{ n = 'b', x >= 0 }\n{ n = 'a', x <= 1 }\n{ n = 'a', n = 'b' }\n",
    ),
    (
        Operation::Join,
        "{ x = 5 }\n{ x >= 0, x <= 1 }\n",
        "{ y = 0, x = 1 }\n{ x >= 5 }\n{ x < 0 }\n",
        "{ x >= 5, x = 5 }\n{ x >= 0, y = 0, x = 1, x <= 1 }\n",
    ),
    (Operation::Complement, "", "", "{ }\n"),
    (Operation::Complement, "{ }\n", "", ""),
    (
        Operation::Complement,
        "{ x >= 0, x <= 1 }\n",
        "",
        "{ x < 0 }\n{ x >= 0, x > 1 }\n",
    ),
    (
        Operation::Minus,
        "{ x <= 4 }\n",
        "{ x < 4 }\n",
        "{ x >= 4, x <= 4 }\n",
    ),
    (Operation::Minus, "{ x < 4 }\n", "{ x <= 4 }\n", ""),
];

/// What the operation makes of the lists.
fn made(
    alloc: Global,
    operation: Operation,
    first: &GenRel<Atoms>,
    second: &GenRel<Atoms>,
) -> Result<GenRel<Atoms>, NoMemory> {
    match operation {
        Operation::Copy => first.copy(),
        Operation::Union => first.union(second),
        Operation::Meet => first.meet(second),
        Operation::Join => join(alloc, first, second, &[X]),
        Operation::Complement => complement::<Atoms>(alloc, first),
        Operation::Minus => minus::<Atoms>(alloc, first, second),
    }
}

/// Whether the operation makes that of lists.
fn makes(
    alloc: Global,
    operation: Operation,
    first: &str,
    second: &str,
    wanted: &str,
) -> Result<bool, Fail> {
    let (first, second) = (list(alloc, first)?, list(alloc, second)?);
    is_written(alloc, made(alloc, operation, &first, &second)?, wanted)
}

/// Conjunctions, and what is left of each that holds somewhere without superfluous atoms.
const REDUCED: [(&str, &str); 3] = [
    ("{ x <= 5, x <= 4 }\n", "{ x <= 4 }\n"),
    ("{ x > 0, x < 0 }\n{ x >= 0, x > 1 }\n", "{ x > 1 }\n"),
    ("{ n = 'a', n != 'b' }\n", "{ n = 'a' }\n"),
];

/// What is left of the conjunctions that the lines spell.
fn reduced(alloc: Global, lines: &str) -> Result<GenRel<Atoms>, Fail> {
    let mut out = GenRel::new(alloc);
    for tuple in &read(alloc, lines)?.tuples.list {
        if let Reduced::Kept(atoms) = reduce::<Atoms>(alloc, &conj(alloc, tuple)?)? {
            out.push(atoms)?;
        }
    }
    Ok(out)
}

/// Each operation makes what was worked out by hand.
#[test]
fn lists_are_made(rt: HostRuntime) -> Result<(), Fail> {
    for (operation, first, second, wanted) in RESULTS {
        let as_wanted = makes(rt.alloc(), operation, first, second, wanted)?;
        assert!(rt; as_wanted, "{operation:?} of {first} and {second}");
    }
    for (lines, wanted) in REDUCED {
        let left = reduced(rt.alloc(), lines)?;
        assert!(rt; is_written(rt.alloc(), left, wanted)?, "{lines}");
    }
    Ok(())
}
