//! The evaluation as tuples.

use crate::finding::found;
use crate::meeting::met;
use crate::over_atoms::{eval, eval_within};
use ded_algebra::{Evaluate, Relations, everywhere, nowhere};
use ded_atoms::{Atoms, tuples};
use ded_model::memory::{NoMemory, Refused};
use ded_model::plan::Plan;
use ded_model::tuple::{Tuple, Tuples};
use ded_theory::Verdict;
use std::alloc::Global;

/// Evaluates plans by [`eval`], and within tuples by [`eval_within`].
pub struct Engine {}

impl Evaluate for Engine {
    fn evaluate<R: Relations>(
        alloc: Global,
        plan: &Plan,
        relations: &R,
    ) -> Result<Tuples, Refused> {
        match found::<Atoms, R>(alloc, plan, relations)? {
            Verdict::Inhabited => Ok(everywhere(alloc)?),
            Verdict::Empty => Ok(nowhere(alloc)),
            Verdict::Unknown => {
                let list = eval(alloc, plan, relations)?;
                Ok(tuples(alloc, list)?)
            }
        }
    }

    fn evaluate_within<R: Relations>(
        alloc: Global,
        plan: &Plan,
        relations: &R,
        within: &Tuple,
    ) -> Result<Tuples, Refused> {
        let list = eval_within(alloc, plan, relations, within)?;
        Ok(tuples(alloc, list)?)
    }

    fn meet(alloc: Global, first: &Tuple, second: &Tuple) -> Result<Option<Tuple>, NoMemory> {
        met(alloc, first, second)
    }
}
