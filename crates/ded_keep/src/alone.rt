//! One tuple alone under a name, and other relations as they are given.
ghost use Rattle.std.specs.Prelude.{◌≡◌, ◌&&◌, not, true, is_none, None, IfOk, IsErrOf};
ghost use Rattle.ded_model.specs.declared.memory.Refused.TheVariants.{Wide};
ghost use Rattle.ded_model.specs.Entries.{entry_of};
ghost use Rattle.ded_model.specs.Lines.{tuples_lines};
ghost use Rattle.ded_model.specs.Measure.{stored_measures, plan_clashes};
ghost use Rattle.ded_model.specs.PlanForm.{plan_form};
ghost use Rattle.ded_model.specs.Row.{tuples_hold, tuples_mention};
ghost use Rattle.ded_algebra.specs.Evaluation.{IsAnyAtom, IsEvaluable, IsEvaluation};
ghost use Rattle.ded_keep.specs.Adding.{with_alone};

use ded_algebra::{Evaluate, Relations, near_among};
use ded_model::memory::{NoMemory, Refused};
use ded_model::name::{Heading, Name};
use ded_model::plan::Plan;
use ded_model::steps::Steps;
use ded_model::tuple::{Tuple, Tuples};
use ded_packed::{Lent, lend};
use ded_ranges::Window;
use std::alloc::Global;
use std::sync::ledger::Ledger;

/// A tuple that a relation gets or loses, with the relation's name and heading.
#[derive(Clone, Copy)]
pub struct OneTuple<'a> {
    pub name: &'a Name,
    pub heading: &'a Heading,
    pub tuple: &'a Tuple,
}

/// The tuples alone under the name, which the other relations don't give, and these as they are.
#[derive(Drop)]
pub(crate) struct Alone<'a, R: Relations> {
    pub(crate) name: &'a Name,
    pub(crate) heading: &'a Heading,
    pub(crate) tuples: &'a [Tuple],
    pub(crate) others: &'a R,
    ghost apart: { is_none (entry_of (R.catalogue others.now).entries name.now) ≡ true },
}

impl<'a, R: Relations> Relations for Alone<'a, R> {
    ghost use Rattle.std.specs.Str.{bytes_eq};
    ghost use Rattle.ded_keep.specs.Adding.{with_tuples, AreStepsBeside};

    ghost catalogue = { λ a. with_tuples (R.catalogue a.others.now) a.name.now a.heading.now a.tuples.now };

    ghost indexed = { λ a n. not (bytes_eq n a.name.now) && R.indexed a.others.now n };

    ghost reads = { λ a n w before after. AreStepsBeside (bytes_eq n a.name.now) a.tuples.now
        (R.reads a.others.now n w) before after };

    fn formed(&self) {
        self.others.formed();
    }

    fn near<L: Ledger>(
        &self,
        alloc: Global,
        name: &Name,
        window: &Window,
        steps: &mut Steps<L>,
    ) -> Result<Option<Vec<Lent<'_>>>, NoMemory> {
        if name.is_same(self.name) {
            Ok(Some(near_among(alloc, self.tuples, window, steps)?))
        } else {
            self.others.near(alloc, name, window, steps)
        }
    }

    fn all(&self, alloc: Global, name: &Name) -> Result<Option<Vec<Lent<'_>>>, NoMemory> {
        if name.is_same(self.name) {
            Ok(Some(lend(alloc, self.tuples)?))
        } else {
            self.others.all(alloc, name)
        }
    }

    fn is_indexed(&self, name: &Name) -> bool {
        !name.is_same(self.name) && self.others.is_indexed(name)
    }
}

/// What the plan gives with the tuple alone as the tuples of its relation, which the other relations don't give.
///
/// # Errors
/// `Wide` only where the plan clashes so, otherwise out of memory.
pub(crate) fn tuples_alone<E: Evaluate, R: Relations>(
    alloc: Global,
    plan: &Plan,
    one: &OneTuple<'_>,
    others: &R,
) -> Result<Tuples, Refused>
    requires apart { entry_of (R.catalogue others.now).entries one.now.name.now ≡ None }
    requires evaluable { IsEvaluable IsAnyAtom (with_alone
        (R.catalogue others.now) one.now.name.now one.now.heading.now one.now.tuple.now) (plan_form plan.now) }
    ensures is { IfOk result (λ ts. IsEvaluation
        (with_alone (R.catalogue others.now) one.now.name.now one.now.heading.now one.now.tuple.now)
        (plan_form plan.now) (tuples_hold ts) (tuples_mention ts) (tuples_lines ts)) }
    ensures wide { IsErrOf result Wide → plan_clashes
        (stored_measures (with_alone (R.catalogue others.now) one.now.name.now one.now.heading.now one.now.tuple.now))
        (plan_form plan.now) ≡ true }
{
    let mut tuples = Vec::with_capacity(alloc, 1)?;
    tuples.push(one.tuple.copy()?)?;
    let relations = Alone {
        name: one.name,
        heading: one.heading,
        tuples: &tuples,
        others,
    };
    E::evaluate(alloc, plan, &relations)
}
