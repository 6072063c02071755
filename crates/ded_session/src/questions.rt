//! Questions that a formula asks.
ghost use Rattle.std.specs.Prelude.{◌≡◌, [], List, IfOk, IsErrOf};
ghost use Rattle.ded_model.specs.declared.memory.Refused.TheVariants.{Wide};
ghost use Rattle.ded_model.specs.declared.name.Column.{Column};
ghost use Rattle.ded_model.specs.Catalogue as model;
ghost use Rattle.ded_model.specs.Command.{ask, query, explain};
ghost use Rattle.ded_model.specs.Form.{Form};
ghost use Rattle.ded_model.specs.Goal.{goal_form};
ghost use Rattle.ded_query.specs.Questions.{IsQuestion};
ghost use Rattle.ded_database.specs.State.{catalogue_at};
ghost use Rattle.ded_session.specs.Answered.{reply_form};
ghost use Rattle.ded_session.specs.Steps.{Does, MayBeWide};

use crate::reply::Reply;
use ded_database::Database;
use ded_eval::Engine;
use ded_model::answer::Answer;
use ded_model::goal::Goal;
use ded_model::memory::Refused;
use ded_model::name::Heading;
use ded_plan::plan;
use ded_resolve::laws;
use std::alloc::Global;

/// The reply that says whether a closed formula, given as its goal, is true.
///
/// # Errors
/// `Wide` only where the formula isn't tight, otherwise out of memory.
pub(crate) fn truth(database: &mut Database, goal: &Goal) -> Result<Reply, Refused>
    requires { (f : Form) × IsQuestion (catalogue_at database.old) [] (goal_form goal.now) f }
    ensures does { (f : Form) → IsQuestion (catalogue_at database.old) [] (goal_form goal.now) f
        → IfOk result (λ r. Does (ask f) (catalogue_at database.old) (reply_form r) (catalogue_at database.old)) }
    ensures wide { (f : Form) → IsQuestion (catalogue_at database.old) [] (goal_form goal.now) f
        → IsErrOf result Wide → MayBeWide (ask f) (catalogue_at database.old) }
    ensures same { database.new ≡ database.old }
{
    Ok(Reply::Truth(database.is_true::<Engine>(goal)?))
}

/// The reply with the tuples over the heading that hold where a formula does, given as its goal.
///
/// # Errors
/// `Wide` only where the formula isn't tight, otherwise out of memory.
pub(crate) fn tuples(
    database: &mut Database,
    heading: Heading,
    goal: &Goal,
) -> Result<Reply, Refused>
    requires { (f : Form) × IsQuestion (catalogue_at database.old) heading (goal_form goal.now) f }
    ensures does { (f : Form) → IsQuestion (catalogue_at database.old) heading (goal_form goal.now) f
        → IfOk result (λ r. Does (query heading f) (catalogue_at database.old) (reply_form r)
        (catalogue_at database.old)) }
    ensures wide { (f : Form) → IsQuestion (catalogue_at database.old) heading (goal_form goal.now) f
        → IsErrOf result Wide → MayBeWide (query heading f) (catalogue_at database.old) }
    ensures same { database.new ≡ database.old }
{
    let tuples = database.answer::<Engine>(&heading, goal)?;
    Ok(Reply::Tuples(Answer { heading, tuples }))
}

/// The reply with the plan of a formula, given as its goal.
///
/// # Errors
/// Out of memory. It is never `Wide`.
pub(crate) fn steps(alloc: Global, goal: &Goal) -> Result<Reply, Refused>
    requires { (c : model.Catalogue) × (h : List Column) × (f : Form) × IsQuestion c h (goal_form goal.now) f }
    ensures does { (c : model.Catalogue) (h : List Column) (f : Form) → IsQuestion c h (goal_form goal.now) f
        → IfOk result (λ r. Does (explain h f) c (reply_form r) c) }
    ensures wide { IsErrOf result Wide → ⊥ }
{
    laws::normal_goals();
    Ok(Reply::Steps(plan(alloc, goal)?))
}
