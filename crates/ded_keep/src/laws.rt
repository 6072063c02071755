//! What a plan gains where a name that it scans does.
ghost use Rattle.std.specs.Prelude.{◌≡◌, ◌↔◌, ◌⊎◌, ℕ, true, false, List};
ghost use Rattle.std.specs.Str.{bytes_eq};
ghost use Rattle.ded_model.specs.Catalogue.{Catalogue, stored, meaning, PlanHolds, GivenHolds};
ghost use Rattle.ded_model.specs.Logic.{AllAtoms, count_atoms, conjunctive};
ghost use Rattle.ded_model.specs.PlanForm.{PlanForm};
ghost use Rattle.ded_model.specs.Point.{Point, IsPoint};
ghost use Rattle.ded_model.specs.Uses.{plan_uses};
ghost use Rattle.ded_algebra.specs.Compiled.{is_scan_of};
ghost use Rattle.ded_views.specs.Same.{MeansSame};
ghost use Rattle.ded_keep.specs.Additive.{is_additive, AddsMeaning, IsOtherScan};

/// A plan that is additive in a name holds, where the name holds in one catalogue or in another, exactly where it does
/// over one of the two. The second of them may be relations that are given under names of any kind. Other names that
/// the plan scans mean the same over all three, and so do the closure and the interior of the name where it scans them.
pub fn additive_plans()
    ensures means { (b c d : Catalogue) (n : List ℕ) (f : PlanForm) → is_additive n f ≡ true
        → ((m : List ℕ) → plan_uses m f ≡ true → bytes_eq m n ≡ false → MeansSame b d m × MeansSame c d m)
        → AddsMeaning (meaning b) (meaning c) (meaning d) n
        → (p : Point) → IsPoint p → PlanHolds d f p ↔ (PlanHolds b f p ⊎ PlanHolds c f p) }
    ensures given { (b c d : Catalogue) (n : List ℕ) (f : PlanForm) → is_additive n f ≡ true
        → AllAtoms (IsOtherScan (meaning b) (stored c) (meaning d) n) f
        → AddsMeaning (meaning b) (stored c) (meaning d) n
        → (p : Point) → IsPoint p → PlanHolds d f p ↔ (PlanHolds b f p ⊎ GivenHolds c f p) }
{}

/// A conjunctive plan that scans a name once is additive in it.
pub fn conjunctive_plans()
    ensures { (n : List ℕ) (f : PlanForm) → conjunctive f ≡ true → count_atoms (is_scan_of n) f ≡ 1
        → is_additive n f ≡ true }
{}
