//! What plans are evaluated over, and by.
ghost use Rattle.std.specs.Prelude.{◌≡◌, ◌≤◌, ◌+◌, ℕ, List, Bool, true, length, IfOk, IfSome, IsErrOf};
ghost use Rattle.std.specs.Option.{option_map};
ghost use Rattle.ded_model.specs.declared.memory.Refused.TheVariants.{Wide};
ghost use Rattle.ded_model.specs.Catalogue.{Catalogue};
ghost use Rattle.ded_model.specs.PlanForm.{plan_form};
ghost use Rattle.ded_model.specs.Row.{tuple_holds, tuples_hold, tuples_mention};
ghost use Rattle.ded_model.specs.Lines.{tuples_lines};
ghost use Rattle.ded_model.specs.Measure.{stored_measures, plan_clashes};
ghost use Rattle.ded_ranges.specs.declared.window.Window.{Window};
ghost use Rattle.ded_ranges.specs.Windows.{AreLent};
ghost use Rattle.ded_packed.specs.Lent.{lent};
ghost use Rattle.ded_algebra.specs.Evaluation.{AreGiven, given_tuples, IsAnyAtom, IsEvaluable, IsEvaluation};
ghost use Rattle.ded_algebra.specs.Evaluation.{IsEvaluationWithin, IsMet};

use ded_model::memory::{NoMemory, Refused};
use ded_model::name::Name;
use ded_model::plan::Plan;
use ded_model::steps::Steps;
use ded_model::tuple::{Tuple, Tuples};
use ded_packed::Lent;
use ded_ranges::Window;
use std::alloc::Global;
use std::sync::ledger::Ledger;

/// Named lists of tuples that a plan is evaluated over. A value stands for the catalogue in which each of its names is
/// a relation with its tuples.
pub trait Relations {
    /// The catalogue that the value stands for.
    ghost catalogue: { Self → Catalogue };

    /// Whether look-ups of a name go through an index.
    ghost indexed: { Self → List ℕ → Bool };

    /// From how many steps to how many counting those of looking a name up in a window may lead.
    ghost reads: { Self → List ℕ → Window → ℕ → ℕ → Type 0 };

    /// Only relations are given, and their names are distinct. It does nothing.
    fn formed(&self)
        ensures { AreGiven (catalogue self.now).entries };

    /// Whether look-ups of the name go through an index, so that asking for few tuples doesn't read all of them. It
    /// does not allocate.
    fn is_indexed(&self, name: &Name) -> bool
        ensures { result ≡ indexed self.now name.now };

    /// The tuples of the name in order, maybe without some that hold nowhere in the window over its columns; none
    /// exactly where the name isn't given. Each tuple that is lent has been counted as a step.
    ///
    /// # Errors
    /// Out of memory.
    fn near<L: Ledger>(
        &self,
        alloc: Global,
        name: &Name,
        window: &Window,
        steps: &mut Steps<L>,
    ) -> Result<Option<Vec<Lent<'_>>>, NoMemory>
        ensures found { IfOk result (λ o. AreLent window.now (option_map (λ ts. lent ts.items) o)
            (given_tuples (catalogue self.now) name.now)) }
        ensures steps { reads self.now name.now window.now steps.old steps.new }
        ensures read { IfOk result (λ o. IfSome o (λ ts. steps.old + length ts.items ≤ steps.new)) };

    /// All tuples of the name in order, also those that hold nowhere; none exactly where the name isn't given.
    ///
    /// # Errors
    /// Out of memory.
    fn all(&self, alloc: Global, name: &Name) -> Result<Option<Vec<Lent<'_>>>, NoMemory>
        ensures { IfOk result (λ o. option_map (λ ts. lent ts.items) o ≡ given_tuples (catalogue self.now) name.now) };
}

/// What evaluates plans.
pub trait Evaluate {
    /// Normal tuples that hold exactly where the plan does over the given relations. They mention only slots that the
    /// plan mentions freely, and have lines among those of the plan. Each name that the plan scans is given, with
    /// tuples over columns of the sorts of the scan's slots.
    ///
    /// # Errors
    /// `Wide` only where the plan clashes over the given relations, otherwise out of memory.
    fn evaluate<R: Relations>(alloc: Global, plan: &Plan, relations: &R) -> Result<Tuples, Refused>
        requires { IsEvaluable IsAnyAtom (R.catalogue relations.now) (plan_form plan.now) }
        ensures is { IfOk result (λ ts. IsEvaluation (R.catalogue relations.now) (plan_form plan.now) (tuples_hold ts)
            (tuples_mention ts) (tuples_lines ts)) }
        ensures wide { IsErrOf result Wide → plan_clashes (stored_measures (R.catalogue relations.now))
            (plan_form plan.now) ≡ true };

    /// Normal tuples as those of [`Evaluate::evaluate`], which hold exactly where the plan does at each point at which
    /// the tuple `within` holds, and anywhere else maybe not.
    ///
    /// # Errors
    /// As [`Evaluate::evaluate`].
    fn evaluate_within<R: Relations>(
        alloc: Global,
        plan: &Plan,
        relations: &R,
        within: &Tuple,
    ) -> Result<Tuples, Refused>
        requires { IsEvaluable IsAnyAtom (R.catalogue relations.now) (plan_form plan.now) }
        ensures is { IfOk result (λ ts. IsEvaluationWithin (R.catalogue relations.now) (plan_form plan.now)
            (tuple_holds within.now) (tuples_hold ts) (tuples_mention ts) (tuples_lines ts)) }
        ensures wide { IsErrOf result Wide → plan_clashes (stored_measures (R.catalogue relations.now))
            (plan_form plan.now) ≡ true };

    /// The tuple of the points at which both tuples hold, in normal form and without atoms that its others imply. It
    /// mentions only slots that one of the two mentions, and has lines among theirs. None only where they hold nowhere
    /// together.
    ///
    /// # Errors
    /// Out of memory.
    fn meet(alloc: Global, first: &Tuple, second: &Tuple) -> Result<Option<Tuple>, NoMemory>
        ensures { IfOk result (IsMet first.now second.now) };
}
