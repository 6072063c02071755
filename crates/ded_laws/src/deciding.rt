//! Every formula, goal and plan over every catalogue is decided at every point.
//!
//! So `not`, `or`, `implies` and the quantifiers have their classical laws here, though nothing is assumed: a formula
//! that does not fail holds, `forall` says that none fails, and `implies` says that the first part fails or the second
//! holds. No law asks anything of the point or of the catalogue.
ghost use Rattle.std.specs.Prelude.{◌⊎◌, ◌↔◌};
ghost use Rattle.ded_model.specs.declared.slot.Sort.{Sort};
ghost use Rattle.ded_model.specs.Form.{Form};
ghost use Rattle.ded_model.specs.Goal.{GoalForm};
ghost use Rattle.ded_model.specs.Logic.{negation, some_of, implies, exists, forall, none, also};
ghost use Rattle.ded_model.specs.PlanForm.{PlanForm};
ghost use Rattle.ded_model.specs.Point.{Key, Point};
ghost use Rattle.ded_model.specs.Catalogue.{Catalogue, Holds, GoalHolds, PlanHolds, GivenHolds};

/// A formula holds at a point, or it does not.
pub fn formulas_are_decided()
    ensures { (c : Catalogue) (f : Form) (p : Point) → Holds c f p ⊎ (¬ Holds c f p) }
{}

/// A goal holds at a point, or it does not.
pub fn goals_are_decided()
    ensures { (c : Catalogue) (g : GoalForm) (p : Point) → GoalHolds c g p ⊎ (¬ GoalHolds c g p) }
{}

/// A plan holds at a point, or it does not.
pub fn plans_are_decided()
    ensures { (c : Catalogue) (f : PlanForm) (p : Point) → PlanHolds c f p ⊎ (¬ PlanHolds c f p) }
{}

/// A plan over given relations holds at a point, or it does not.
pub fn given_plans_are_decided()
    ensures { (c : Catalogue) (f : PlanForm) (p : Point) → GivenHolds c f p ⊎ (¬ GivenHolds c f p) }
{}

/// A formula that cannot fail at a point holds there: a double negation says no more.
pub fn formulas_are_stable()
    ensures { (c : Catalogue) (f : Form) (p : Point) → ¬ (¬ Holds c f p) → Holds c f p }
{}

/// A goal that cannot fail at a point holds there.
pub fn goals_are_stable()
    ensures { (c : Catalogue) (g : GoalForm) (p : Point) → ¬ (¬ GoalHolds c g p) → GoalHolds c g p }
{}

/// A plan that cannot fail at a point holds there: a complement of a complement is the plan itself.
pub fn plans_are_stable()
    ensures { (c : Catalogue) (f : PlanForm) (p : Point) → ¬ (¬ PlanHolds c f p) → PlanHolds c f p }
{}

/// A plan over given relations that cannot fail at a point holds there.
pub fn given_plans_are_stable()
    ensures { (c : Catalogue) (f : PlanForm) (p : Point) → ¬ (¬ GivenHolds c f p) → GivenHolds c f p }
{}

/// A formula holds of every value where there is no value of which it fails.
pub fn forall_is_not_some_not()
    ensures { (c : Catalogue) (s : Sort) (k : Key) (f : Form) (p : Point)
        → Holds c (forall s k f) p ↔ Holds c (negation (exists s k (negation f))) p }
{}

/// A formula holds of some value where it does not fail of all.
pub fn exists_is_not_all_not()
    ensures { (c : Catalogue) (s : Sort) (k : Key) (f : Form) (p : Point)
        → Holds c (exists s k f) p ↔ Holds c (negation (forall s k (negation f))) p }
{}

/// A formula implies another where it fails or the other holds.
pub fn implies_is_not_or()
    ensures { (c : Catalogue) (f g : Form) (p : Point)
        → Holds c (implies f g) p ↔ Holds c (some_of (also (negation f) (also g none))) p }
{}

/// A goal holds of every value where there is no value of which it fails.
pub fn goal_forall_is_not_some_not()
    ensures { (c : Catalogue) (s : Sort) (k : Key) (g : GoalForm) (p : Point)
        → GoalHolds c (forall s k g) p ↔ GoalHolds c (negation (exists s k (negation g))) p }
{}

/// A goal holds of some value where it does not fail of all.
pub fn goal_exists_is_not_all_not()
    ensures { (c : Catalogue) (s : Sort) (k : Key) (g : GoalForm) (p : Point)
        → GoalHolds c (exists s k g) p ↔ GoalHolds c (negation (forall s k (negation g))) p }
{}

/// A goal implies another where it fails or the other holds.
pub fn goal_implies_is_not_or()
    ensures { (c : Catalogue) (f g : GoalForm) (p : Point)
        → GoalHolds c (implies f g) p ↔ GoalHolds c (some_of (also (negation f) (also g none))) p }
{}
