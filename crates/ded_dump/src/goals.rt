//! The parts of goals.
ghost use Rattle.std.specs.Prelude.{◌≡◌};
ghost use Rattle.std.specs.Option.{option_map};
ghost use Rattle.ded_model.specs.Goal.{goal_form, goal_forms};
ghost use Rattle.ded_dump.specs.Comparisons.{below, row_of};
ghost use Rattle.ded_dump.specs.Formulas.{left_goal, right_goal, goals_in};

use ded_model::goal::Goal;
use ded_model::row::Row;

/// The goal that a negation denies or a quantifier ranges over; another goal is given back.
pub(crate) fn below(goal: &Goal) -> &Goal
    ensures { goal_form result.now ≡ below (goal_form goal.now) }
{
    match goal {
        Goal::Not(part) | Goal::Exists(_, part) | Goal::Forall(_, part) => part,
        Goal::True
        | Goal::False
        | Goal::Linear(_)
        | Goal::Theme(_)
        | Goal::Member(_, _)
        | Goal::And(_)
        | Goal::Or(_)
        | Goal::Implies(_, _) => goal,
    }
}

/// The left goal of an implication; another goal is given back.
pub(crate) fn left(goal: &Goal) -> &Goal
    ensures { goal_form result.now ≡ left_goal (goal_form goal.now) }
{
    match goal {
        Goal::Implies(left, _) => left,
        Goal::True
        | Goal::False
        | Goal::Linear(_)
        | Goal::Theme(_)
        | Goal::Member(_, _)
        | Goal::Not(_)
        | Goal::And(_)
        | Goal::Or(_)
        | Goal::Exists(_, _)
        | Goal::Forall(_, _) => goal,
    }
}

/// The right goal of an implication; another goal is given back.
pub(crate) fn right(goal: &Goal) -> &Goal
    ensures { goal_form result.now ≡ right_goal (goal_form goal.now) }
{
    match goal {
        Goal::Implies(_, right) => right,
        Goal::True
        | Goal::False
        | Goal::Linear(_)
        | Goal::Theme(_)
        | Goal::Member(_, _)
        | Goal::Not(_)
        | Goal::And(_)
        | Goal::Or(_)
        | Goal::Exists(_, _)
        | Goal::Forall(_, _) => goal,
    }
}

/// The members of an `and` or an `or`; another goal has none.
pub(crate) fn members(goal: &Goal) -> &[Goal]
    ensures { goal_forms result.now ≡ goals_in (goal_form goal.now) }
{
    match goal {
        Goal::And(parts) | Goal::Or(parts) => parts.as_slice(),
        Goal::True
        | Goal::False
        | Goal::Linear(_)
        | Goal::Theme(_)
        | Goal::Member(_, _)
        | Goal::Not(_)
        | Goal::Implies(_, _)
        | Goal::Exists(_, _)
        | Goal::Forall(_, _) => &[],
    }
}

/// The row that a goal is; another goal has none.
pub(crate) fn row(goal: &Goal) -> Option<&Row>
    ensures { option_map (λ r. r.now) result ≡ row_of (goal_form goal.now) }
{
    match goal {
        Goal::Linear(row) => Some(row),
        Goal::True
        | Goal::False
        | Goal::Theme(_)
        | Goal::Member(_, _)
        | Goal::Not(_)
        | Goal::And(_)
        | Goal::Or(_)
        | Goal::Implies(_, _)
        | Goal::Exists(_, _)
        | Goal::Forall(_, _) => None,
    }
}
