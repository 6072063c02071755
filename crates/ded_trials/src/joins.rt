//! How many pairs joins meet: by the bounds of a slot near ones alone, and never all of two long lists.
ghost use Rattle.std.specs.Prelude.{◌≡◌, IfOk};
ghost use Rattle.ded_model.specs.Catalogue.{Catalogue};
ghost use Rattle.ded_model.specs.Logic.{atom};
ghost use Rattle.ded_model.specs.PlanForm.{plan_form, rows};
ghost use Rattle.ded_algebra.specs.Evaluation.{IsAnyAtom, IsEvaluable};

use crate::texts::{X, are_written, list, read};
use ded_algebra::Given;
use ded_eval::{Engine, eval_counted};
use ded_join::{join_counted, join_inhabited};
use ded_keep::refresh;
use ded_model::memory::{NoMemory, Refused};
use ded_model::plan::Plan;
use ded_model::tuple::Tuple;
use std::alloc::{AllocError, Global};
use std::test::Fail;

/// Three of the six pairs are apart, and one of the others holds nowhere.
const FIRST: &str = "{ x >= 0, x <= 1 }\n{ x = 5 }\n";

const SECOND: &str = "{ y = 0, x <= 1 }\n{ x >= 5 }\n{ y > 0, y < 0 }\n";

/// What joins give: how many conjunctions, and how many pairs were met.
type Counts = [(usize, u64); 4];

/// What the joins of the lists give by the bounds of `x` and without, each as it is and without what holds nowhere.
fn counts(alloc: Global) -> Result<Counts, Fail> {
    let (first, second) = (list(alloc, FIRST)?, list(alloc, SECOND)?);
    let mut met = [0; 4];
    let near = join_counted(alloc, &first, &second, &[X], &mut met[0])?
        .list()
        .len();
    let all = join_counted(alloc, &first, &second, &[], &mut met[1])?
        .list()
        .len();
    let near_kept = join_inhabited(alloc, &first, &second, &[X], &mut met[2])?
        .list()
        .len();
    let all_kept = join_inhabited(alloc, &first, &second, &[], &mut met[3])?
        .list()
        .len();
    Ok([
        (near, met[0]),
        (all, met[1]),
        (near_kept, met[2]),
        (all_kept, met[3]),
    ])
}

/// Joins by the bounds of `x` meet near pairs alone.
#[test]
fn joins_are_counted(rt: HostRuntime) -> Result<(), Fail> {
    assert_eq!(rt; counts(rt.alloc())?, [(2, 2), (6, 6), (2, 2), (2, 6)]);
    Ok(())
}

/// The plan of a tuple.
fn row(tuple: &Tuple) -> Result<Plan, NoMemory>
    ensures { IfOk result (λ p. plan_form p ≡ atom (rows tuple.now)) }
{
    Ok(Plan::Rows(tuple.copy()?))
}

/// The union of tuples.
pub(crate) fn union(alloc: Global, tuples: &[Tuple]) -> Result<Plan, NoMemory>
    ensures { IfOk result (λ p. (c : Catalogue) → IsEvaluable IsAnyAtom c (plan_form p)) }
{
    let mut parts = Vec::new(alloc);
    for tuple in tuples {
        parts.push(row(tuple)?)?;
    }
    Ok(Plan::Union(parts))
}

/// The union of tuples, joined with itself.
fn twice(alloc: Global, tuples: &[Tuple]) -> Result<Plan, NoMemory>
    ensures { IfOk result (λ p. (c : Catalogue) → IsEvaluable IsAnyAtom c (plan_form p)) }
{
    let mut parts = Vec::new(alloc);
    parts.push(union(alloc, tuples)?)?;
    parts.push(union(alloc, tuples)?)?;
    Ok(Plan::Join(parts))
}

/// A hundred intervals that are apart, as lines.
fn intervals(alloc: Global) -> Result<String, NoMemory> {
    let mut lines = String::new(alloc);
    for i in 0..100u32 {
        let line = format!(in alloc; "{{ x >= {}, x <= {} }}\n", 10 * i, 10 * i + 1)?;
        lines.push_str(&line)?;
    }
    Ok(lines)
}

/// What a refused evaluation lacked; no plan here clashes.
fn lack(_refused: Refused) -> NoMemory {
    AllocError
}

/// How many conjunctions and met pairs the evaluation of a hundred intervals joined with themselves has, and whether a
/// list that is made of it for a kept view is the intervals again.
fn evaluated(alloc: Global) -> Result<(usize, u64, bool), Fail> {
    let lines = intervals(alloc)?;
    let plan = twice(alloc, &read(alloc, &lines)?.tuples.list)?;
    let given = Given::new(alloc);
    let mut met = 0;
    let list = eval_counted(alloc, &plan, &given, &mut met).map_err(lack)?;
    let kept = refresh::<Engine, Given>(alloc, &plan, &given).map_err(lack)?;
    Ok((
        list.list().len(),
        met,
        are_written(alloc, &kept.list, &lines)?,
    ))
}

/// How many conjunctions the union of tuples is evaluated to.
fn united(alloc: Global, lines: &str) -> Result<usize, Fail> {
    let plan = union(alloc, &read(alloc, lines)?.tuples.list)?;
    let mut met = 0;
    let list = eval_counted(alloc, &plan, &Given::new(alloc), &mut met).map_err(lack)?;
    Ok(list.list().len())
}

/// Joins in a plan meet near pairs alone, and unions have equal conjunctions once.
#[test]
fn plans_are_evaluated(rt: HostRuntime) -> Result<(), Fail> {
    assert_eq!(rt; evaluated(rt.alloc())?, (100, 100, true));
    assert_eq!(rt; united(rt.alloc(), "{ x = 1 }\n{ x = 1 }\n")?, 1);
    Ok(())
}
