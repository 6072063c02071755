//! Boxes that touch or don't, alone and in an index that is changed.
ghost use Rattle.std.specs.Prelude.{◌≡◌, IfOk, length};

use ded_box::{BoundBox, cover, meets};
use ded_index::BoxIndex;
use ded_model::bound::{Bound, Frac};
use ded_model::memory::NoMemory;
use std::alloc::Global;
use std::test::Fail;

/// An end of an interval: a whole number, and whether it is attained.
type BoxEnd = (i8, bool);

/// The ends of an interval.
type Ends = (BoxEnd, BoxEnd);

/// The end as a bound.
fn bound(end: BoxEnd) -> Bound {
    let fraction = Frac {
        num: i128::from(end.0),
        den: 1,
    };
    if end.1 {
        Bound::Included(fraction)
    } else {
        Bound::Excluded(fraction)
    }
}

/// The box of one interval.
fn one(alloc: Global, ends: Ends) -> Result<BoundBox, NoMemory>
    ensures { IfOk result (λ b. length b ≡ 1) }
{
    BoundBox::new(alloc, &[(bound(ends.0), bound(ends.1))])
}

/// The box of a closed interval.
fn closed(alloc: Global, low: i8, high: i8) -> Result<BoundBox, NoMemory> {
    one(alloc, ((low, true), (high, true)))
}

/// Whether the bound is that end.
fn is_end(bound: &Bound, end: BoxEnd) -> bool {
    match bound {
        Bound::Included(f) => f.den == 1 && f.num == i128::from(end.0) && end.1,
        Bound::Excluded(f) => f.den == 1 && f.num == i128::from(end.0) && !end.1,
        Bound::Infinite => false,
    }
}

/// Whether the box has one interval, with these ends.
fn is_one(bounds: &BoundBox, ends: Ends) -> bool {
    match bounds.spans() {
        [(low, high)] => is_end(low, ends.0) && is_end(high, ends.1),
        _ => false,
    }
}

/// Two intervals, whether they meet, and the least interval round both.
const PAIRS: [(Ends, Ends, bool, Ends); 6] = [
    (
        ((0, true), (1, true)),
        ((1, true), (2, true)),
        true,
        ((0, true), (2, true)),
    ),
    (
        ((0, true), (1, false)),
        ((1, true), (2, true)),
        false,
        ((0, true), (2, true)),
    ),
    (
        ((0, true), (1, true)),
        ((3, false), (4, false)),
        false,
        ((0, true), (4, false)),
    ),
    (
        ((0, false), (4, true)),
        ((0, true), (4, false)),
        true,
        ((0, true), (4, true)),
    ),
    (
        ((9, true), (8, true)),
        ((3, false), (4, false)),
        false,
        ((3, false), (4, false)),
    ),
    (
        ((1, false), (1, false)),
        ((0, true), (2, true)),
        false,
        ((0, true), (2, true)),
    ),
];

/// Whether the intervals meet so, and have that cover, in both orders.
fn are_related(alloc: Global, pair: &(Ends, Ends, bool, Ends)) -> Result<bool, NoMemory> {
    let (first, second) = (one(alloc, pair.0)?, one(alloc, pair.1)?);
    Ok(
        meets(&first, &second) == pair.2
            && meets(&second, &first) == pair.2
            && is_one(&cover(alloc, &first, &second)?, pair.3)
            && is_one(&cover(alloc, &second, &first)?, pair.3),
    )
}

/// Boxes meet and are covered as their intervals are.
#[test]
fn intervals_touch(rt: HostRuntime) -> Result<(), Fail> {
    for pair in &PAIRS {
        assert!(rt;
            are_related(rt.alloc(), pair)?,
            "{:?} and {:?}",
            pair.0,
            pair.1
        );
    }
    Ok(())
}

/// An index of the intervals from 0 to 1 and from 2 to 3, of the point 1 as number 7, and of an empty interval as
/// number 8.
fn index(alloc: Global) -> Result<BoxIndex, NoMemory> {
    let boxes = vec![in alloc; closed(alloc, 0, 1)?, closed(alloc, 2, 3)?]?;
    let mut index = BoxIndex::build(alloc, &boxes)?;
    index.insert(7, &closed(alloc, 1, 1)?)?;
    index.insert(8, &closed(alloc, 2, 1)?)?;
    Ok(index)
}

/// Whether the window from `low` to `high` finds these numbers.
fn finds(
    alloc: Global,
    index: &BoxIndex,
    low: i8,
    high: i8,
    numbers: &[u32],
) -> Result<bool, NoMemory> {
    let found = index.find(alloc, &closed(alloc, low, high)?)?;
    Ok(found.as_slice() == numbers)
}

/// What is taken out in turn, whether it is there, and what the window from 1 to 2 finds then.
const REMOVED: &[(u32, bool, &[u32])] = &[
    (9, false, &[0, 1, 7]),
    (0, true, &[1, 7]),
    (0, false, &[1, 7]),
    (8, true, &[1, 7]),
    (7, true, &[1]),
];

/// Look-ups find what was inserted and not removed.
#[test]
fn an_index_follows_changes(rt: HostRuntime) -> Result<(), Fail> {
    let alloc = rt.alloc();
    let mut index = index(alloc)?;
    for (number, is_there, numbers) in REMOVED {
        assert_eq!(rt; index.remove(*number), *is_there, "{number}");
        assert!(rt; finds(alloc, &index, 1, 2, numbers)?, "without {number}");
    }
    assert!(rt; finds(alloc, &index, 2, 1, &[])?);
    Ok(())
}
