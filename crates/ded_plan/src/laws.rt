//! The plans of formulas.
ghost use Rattle.std.specs.Prelude.{List};
ghost use Rattle.ded_model.specs.declared.name.Column.{Column};
ghost use Rattle.ded_model.specs.Catalogue.{Catalogue};
ghost use Rattle.ded_model.specs.Entries.{known};
ghost use Rattle.ded_model.specs.Form.{Form};
ghost use Rattle.ded_model.specs.Known.{IsAccepted};
ghost use Rattle.ded_model.specs.PlanForm.{PlanForm};
ghost use Rattle.ded_model.specs.Slotted.{goal_of};
ghost use Rattle.ded_plan.specs.Planned.{IsPlanned};
ghost use Rattle.ded_plan.specs.Plans.{IsPlanOf};

/// The plan of the goal of a formula that is accepted over the names of a catalogue is a plan of the formula: over
/// every well formed catalogue in which the names that it uses have the same kinds and headings it holds where the
/// formula does, with lengths and a rank of at most the formula's. It scans only names that the formula uses, at
/// distinct slots of the sorts of their columns; its rows are normal and come from the formula, its projections are of
/// slots, and it mentions freely only the slots of the heading. Two slots of one number that a part of it mentions
/// freely have one sort. Where the formula's goal is conjunctive, so is the plan.
pub fn plans_of_formulas()
    ensures { (c : Catalogue) (h : List Column) (f : Form) (plan : PlanForm) → IsAccepted (known c) h f
        → IsPlanned (goal_of h f) plan → IsPlanOf c h f plan }
{}
