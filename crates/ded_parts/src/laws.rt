//! What plans and questions are over a relation, and what they are over the parts to which the relation's tuples are
//! dealt out.
ghost use Rattle.std.specs.Prelude.{◌≡◌, ◌↔◌, ◌<◌, ℕ, true, List, [], ◌∷◌};
ghost use Rattle.ded_model.specs.declared.name.Column.{Column};
ghost use Rattle.ded_model.specs.declared.slot.Sort.{Sort};
ghost use Rattle.ded_model.specs.Catalogue.{Catalogue, at_names, Holds, PlanHolds, IsTruth};
ghost use Rattle.ded_model.specs.Form.{Form};
ghost use Rattle.ded_model.specs.Known.{IsWellFormed};
ghost use Rattle.ded_model.specs.Logic.{implies};
ghost use Rattle.ded_model.specs.PlanForm.{PlanForm};
ghost use Rattle.ded_model.specs.Point.{Key, Point, IsPoint};
ghost use Rattle.ded_model.specs.Value.{Argument};
ghost use Rattle.ded_plan.specs.Plans.{AreArguments, IsPlanOf};
ghost use Rattle.ded_parts.specs.Distributing.{distributes};
ghost use Rattle.ded_parts.specs.Parts.{IsPart, OfSomePart, OfEachPart, AreParts};
ghost use Rattle.ded_parts.specs.Parts.{IsApartFrom, ReachesByName, ScansNoView};
ghost use Rattle.ded_parts.specs.Questions.{for_all, for_some, without};
ghost use Rattle.ded_parts.specs.Routes.{PlannedView, DistributesBy};

/// A plan that distributes over a relation holds, where the relation's tuples are dealt out to one part or more,
/// exactly where it holds over one of the parts; what it scans beside the relation doesn't reach it. A plan that scans
/// nothing that reaches the relation holds alike over the whole and over each part. Where a plan scans no view, nothing
/// but the relation and what is made of it reaches the relation.
pub fn distributing_plans()
    ensures dealt { (d c : Catalogue) (n : List ℕ) (cs : List Catalogue) (f : PlanForm) → IsWellFormed d
        → AreParts d n (c ∷ cs) → distributes n f ≡ true → ReachesByName d n f
        → (p : Point) → IsPoint p → PlanHolds d f p ↔ OfSomePart (λ e. PlanHolds e f p) (c ∷ cs) }
    ensures apart { (d c : Catalogue) (n : List ℕ) (f : PlanForm) → IsWellFormed d → IsPart d n c → IsApartFrom d n f
        → (p : Point) → PlanHolds d f p ↔ PlanHolds c f p }
    ensures relations { (d : Catalogue) (n : List ℕ) (f : PlanForm) → IsWellFormed d → ScansNoView d f
        → ReachesByName d n f }
    ensures route { (d : Catalogue) (n : List ℕ) (f : PlanForm) → distributes n f ≡ true → ReachesByName d n f
        → DistributesBy d n [] f }
{}

/// A question whose plan distributes over a relation, also by way of views, where the relation's tuples are dealt out
/// to one part or more: its answer is the union of the parts' answers, and a closed formula is true where it is true of
/// one of the parts. Where it is such a question whether one formula holds of some values and another one doesn't, the
/// first formula implies the second one of all values exactly where no part has such values.
pub fn distributing_questions()
    ensures answers { (d c : Catalogue) (n : List ℕ) (cs : List Catalogue) (h : List Column) (f : Form)
        (plan : PlanForm) (vs : List PlannedView) → IsWellFormed d → AreParts d n (c ∷ cs) → IsPlanOf d h f plan
        → DistributesBy d n vs plan
        → (den : ℕ) (xs : List Argument) → 0 < den → AreArguments h xs
        → Holds d f (record { den = den; coords = at_names h xs })
        ↔ OfSomePart (λ e. Holds e f (record { den = den; coords = at_names h xs })) (c ∷ cs) }
    ensures truths { (d c : Catalogue) (n : List ℕ) (cs : List Catalogue) (f : Form) (plan : PlanForm)
        (vs : List PlannedView) → IsWellFormed d → AreParts d n (c ∷ cs) → IsPlanOf d [] f plan
        → DistributesBy d n vs plan → IsTruth d f ↔ OfSomePart (λ e. IsTruth e f) (c ∷ cs) }
    ensures implications { (d c : Catalogue) (n : List ℕ) (cs : List Catalogue) (qs : List (Sort × Key)) (f g : Form)
        (plan : PlanForm) (vs : List PlannedView) → IsWellFormed d → AreParts d n (c ∷ cs)
        → IsPlanOf d [] (for_some qs (without f g)) plan → DistributesBy d n vs plan
        → IsTruth d (for_all qs (implies f g)) ↔ OfEachPart (λ e. ¬ IsTruth e (for_some qs (without f g))) (c ∷ cs) }
{}
