//! Which part a join begins with.
ghost use Rattle.std.specs.Prelude.{◌≡◌, ◌<◌, length, IfOk, IfSome};
ghost use Rattle.ded_model.specs.Logic.{AllAtomsOf};
ghost use Rattle.ded_model.specs.PlanForm.{plan_forms};
ghost use Rattle.ded_algebra.specs.Evaluation.{IsScannable};
ghost use Rattle.ded_eval.specs.Joining.{place_of, IsPlace};

use crate::beside::is_rows;
use crate::lookups::near_count;
use ded_algebra::Relations;
use ded_atoms::OfTuples;
use ded_model::memory::NoMemory;
use ded_model::plan::Plan;
use std::alloc::Global;

/// A join begins with the second part where that has at most one of so many tuples that the first one has: then the
/// first one may be looked up for few.
const SECOND_FIRST_AT_ONE_OF: usize = 4;

/// From how many tuples of the first part on a join may begin with the second: with fewer the order matters little.
const SECOND_FIRST_FROM: usize = 64;

/// The place of the part that the join of the parts begins with. It is that of the second one that isn't rows, where it
/// has far fewer tuples in the window than the first one, each of them being of one relation; and else the first place.
///
/// # Errors
/// Out of memory.
pub(crate) fn front_part<T: OfTuples, R: Relations>(
    alloc: Global,
    parts: &Vec<Plan>,
    relations: &R,
    window: &[T::Atom],
) -> Result<usize, NoMemory>
    requires { AllAtomsOf (IsScannable T.reads (R.catalogue relations.now)) (plan_forms parts.now.items) }
    ensures { IfOk result (IsPlace (length parts.now.items)) }
{
    let Some((first, second)) = first_two(parts) else {
        return Ok(0);
    };
    let Some(many) = near_count::<T, R>(alloc, &parts[first], relations, window)? else {
        return Ok(0);
    };
    let Some(few) = near_count::<T, R>(alloc, &parts[second], relations, window)? else {
        return Ok(0);
    };
    if many >= SECOND_FIRST_FROM && few <= many / SECOND_FIRST_AT_ONE_OF {
        Ok(second)
    } else {
        Ok(0)
    }
}

/// The places of the first two parts that aren't rows.
fn first_two(parts: &Vec<Plan>) -> Option<(usize, usize)>
    ensures { IfSome result (λ t. (t.0 < length parts.now.items) × (t.1 < length parts.now.items)) }
{
    let mut first = None;
    for place in 0..parts.len() {
        if is_rows(&parts[place]) {
            continue;
        }
        match first {
            None => first = Some(place),
            Some(first) => return Some((first, place)),
        }
    }
    None
}

/// The place, of so many, of the part that is joined as the i-th: the one at the front and the first one change places.
pub(crate) fn place_of(front: usize, i: usize, count: usize) -> usize
    requires front { IsPlace count front }
    requires inside { i < count }
    ensures value { result ≡ place_of front i }
    ensures inside { result < count }
{
    if i == 0 {
        front
    } else if i == front {
        0
    } else {
        i
    }
}
