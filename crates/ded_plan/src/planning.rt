//! The plan of a goal: compiled, then rewritten.
ghost use Rattle.std.specs.Prelude.{IfOk};
ghost use Rattle.ded_model.specs.Goal.{goal_form};
ghost use Rattle.ded_model.specs.NormalGoal.{IsNormalGoal};
ghost use Rattle.ded_model.specs.PlanForm.{plan_form};
ghost use Rattle.ded_plan.specs.Planned.{IsPlanned};

use crate::rewriting::rewrite;
use ded_algebra::compile;
use ded_model::goal::Goal;
use ded_model::memory::NoMemory;
use ded_model::plan::Plan;
use std::alloc::Global;

/// The plan of a goal whose rows and text atoms are normal, as those of the goal of a formula are. Projections stand in
/// it as deep as they can. Over every catalogue it holds exactly where the goal does. It mentions freely only slots
/// that the goal does, has lengths and a rank of at most the goal's, lines among the goal's, and clashes only where the
/// goal does. Each scan is of an atom of the goal, at distinct slots of the sorts of its arguments, and each list of
/// rows is an atom of the goal or ties an argument; rows are normal, and projections are of slots. Of a conjunctive
/// goal it is conjunctive and scans each name as often as the goal has it. Where in the goal each number has one sort,
/// two slots of one number that a part of the plan mentions freely have one sort.
///
/// # Errors
/// Out of memory, also where an atom has a slot of the greatest number and an argument that needs a new one.
pub fn plan(alloc: Global, goal: &Goal) -> Result<Plan, NoMemory>
    requires normal { IsNormalGoal (goal_form goal.now) }
    ensures { IfOk result (λ p. IsPlanned (goal_form goal.now) (plan_form p)) }
{
    rewrite(alloc, compile(alloc, goal)?)
}
