//! What holds depends on values alone: of the slots and names that are mentioned, and of what the names mean.
ghost use Rattle.std.specs.Prelude.{◌≡◌, ◌↔◌, ℕ, ◌<◌, true, false, List, [], ◌∷◌, ◌++◌, Some};
ghost use Rattle.std.specs.Str.{bytes_eq};
ghost use Rattle.ded_model.specs.declared.slot.Slot.{Slot};
ghost use Rattle.ded_model.specs.declared.slot.Sort.{Sort};
ghost use Rattle.ded_model.specs.declared.tuple.ThemeAtom.{ThemeAtom};
ghost use Rattle.ded_model.specs.Constraint.{LinearConstraint};
ghost use Rattle.ded_model.specs.Point.{Key, slot, Point, IsSameAt, IsSamePoint, IsExtension};
ghost use Rattle.ded_model.specs.Row.{Atom, row_holds, theme_holds, atom_holds, tuple_holds, tuples_hold, row_mentions};
ghost use Rattle.ded_model.specs.Row.{theme_mentions, atom_mentions, tuple_mentions, tuples_mention};
ghost use Rattle.ded_model.specs.Logic.{exists, forall};
ghost use Rattle.ded_model.specs.Form.{Form, uses};
ghost use Rattle.ded_model.specs.Goal.{GoalForm, goal_mentions};
ghost use Rattle.ded_model.specs.PlanForm.{PlanForm, plan_mentions};
ghost use Rattle.ded_model.specs.Value.{Argument};
ghost use Rattle.ded_model.specs.Catalogue.{Entry, Catalogue, entry_name, entry_meaning, stored, meaning, Holds};
ghost use Rattle.ded_model.specs.Catalogue.{GoalHolds, PlanHolds, GivenHolds, form_mentions, AreAlike};
ghost use Rattle.ded_model.specs.Made.{base, is_made};
ghost use Rattle.ded_model.specs.Measure.{stored_measures, measures, entry_measure};
ghost use Rattle.ded_model.specs.Known.{known_of, entry_known};
ghost use Rattle.ded_model.specs.Uses.{MeansAlike, goal_uses, plan_uses};

/// A row, a text atom, an atom, a tuple and a list of tuples hold alike at two points that have the same values at the
/// slots that they mention.
pub fn constraints()
    ensures row { (r : LinearConstraint) (p q : Point) → 0 < p.den → 0 < q.den
        → ((s : Slot) → row_mentions r s ≡ true → IsSameAt p q (slot s)) → row_holds r p ≡ row_holds r q }
    ensures text { (a : ThemeAtom) (p q : Point)
        → ((s : Slot) → theme_mentions a s ≡ true → IsSameAt p q (slot s)) → theme_holds a p ≡ theme_holds a q }
    ensures atom { (a : Atom) (p q : Point) → 0 < p.den → 0 < q.den
        → ((s : Slot) → atom_mentions a s ≡ true → IsSameAt p q (slot s)) → atom_holds a p ≡ atom_holds a q }
    ensures tuple { (t : List Atom) (p q : Point) → 0 < p.den → 0 < q.den
        → ((s : Slot) → tuple_mentions t s ≡ true → IsSameAt p q (slot s)) → tuple_holds t p ≡ tuple_holds t q }
    ensures tuples { (ts : List (List Atom)) (p q : Point) → 0 < p.den → 0 < q.den
        → ((s : Slot) → tuples_mention ts s ≡ true → IsSameAt p q (slot s)) → tuples_hold ts p ≡ tuples_hold ts q }
{}

/// A formula that holds at a point holds at each point with the same values at the names that it mentions freely, so at
/// the same point in other terms.
pub fn formulas()
    ensures values { (c : Catalogue) (f : Form) (p q : Point) → 0 < p.den → 0 < q.den
        → ((k : Key) → form_mentions f k ≡ true → IsSameAt p q k) → Holds c f p → Holds c f q }
    ensures point { (c : Catalogue) (f : Form) (p q : Point) → 0 < p.den → 0 < q.den
        → IsSamePoint p q → Holds c f p → Holds c f q }
{}

/// A goal that holds at a point holds at each point with the same values at the slots that it mentions freely, so at
/// the same point in other terms.
pub fn goals()
    ensures values { (c : Catalogue) (g : GoalForm) (p q : Point) → 0 < p.den → 0 < q.den
        → ((k : Key) → goal_mentions g k ≡ true → IsSameAt p q k) → GoalHolds c g p → GoalHolds c g q }
    ensures point { (c : Catalogue) (g : GoalForm) (p q : Point) → 0 < p.den → 0 < q.den
        → IsSamePoint p q → GoalHolds c g p → GoalHolds c g q }
{}

/// A plan that holds at a point holds at each point with the same values at the slots that it mentions freely, so at
/// the same point in other terms.
pub fn plans()
    ensures values { (c : Catalogue) (f : PlanForm) (p q : Point) → 0 < p.den → 0 < q.den
        → ((k : Key) → plan_mentions f k ≡ true → IsSameAt p q k) → PlanHolds c f p → PlanHolds c f q }
    ensures point { (c : Catalogue) (f : PlanForm) (p q : Point) → 0 < p.den → 0 < q.den
        → IsSamePoint p q → PlanHolds c f p → PlanHolds c f q }
{}

/// The same of a plan over given relations.
pub fn given_plans()
    ensures values { (c : Catalogue) (f : PlanForm) (p q : Point) → 0 < p.den → 0 < q.den
        → ((k : Key) → plan_mentions f k ≡ true → IsSameAt p q k) → GivenHolds c f p → GivenHolds c f q }
    ensures point { (c : Catalogue) (f : PlanForm) (p q : Point) → 0 < p.den → 0 < q.den
        → IsSamePoint p q → GivenHolds c f p → GivenHolds c f q }
{}

/// Where a formula does not mention a key freely, it holds alike at a point and at each extension of it at the key. A
/// quantifier over the key changes nothing.
pub fn unmentioned_in_formulas()
    ensures extension { (c : Catalogue) (f : Form) (s : Sort) (k : Key) (p q : Point) → 0 < p.den
        → form_mentions f k ≡ false
        → IsExtension s p k q → Holds c f p ↔ Holds c f q }
    ensures exists { (c : Catalogue) (f : Form) (s : Sort) (k : Key) (p : Point) → 0 < p.den → form_mentions f k ≡ false
        → Holds c (exists s k f) p ↔ Holds c f p }
    ensures forall { (c : Catalogue) (f : Form) (s : Sort) (k : Key) (p : Point) → 0 < p.den → form_mentions f k ≡ false
        → Holds c (forall s k f) p ↔ Holds c f p }
{}

/// Where a goal does not mention a key freely, it holds alike at a point and at each extension of it at the key. A
/// quantifier over the key changes nothing.
pub fn unmentioned_in_goals()
    ensures extension { (c : Catalogue) (g : GoalForm) (s : Sort) (k : Key) (p q : Point) → 0 < p.den
        → goal_mentions g k ≡ false
        → IsExtension s p k q → GoalHolds c g p ↔ GoalHolds c g q }
    ensures exists { (c : Catalogue) (g : GoalForm) (s : Sort) (k : Key) (p : Point) → 0 < p.den
        → goal_mentions g k ≡ false
        → GoalHolds c (exists s k g) p ↔ GoalHolds c g p }
    ensures forall { (c : Catalogue) (g : GoalForm) (s : Sort) (k : Key) (p : Point) → 0 < p.den
        → goal_mentions g k ≡ false
        → GoalHolds c (forall s k g) p ↔ GoalHolds c g p }
{}

/// Where a plan does not mention a key freely, it holds alike at a point and at each extension of it at the key. A
/// projection of the key changes nothing.
pub fn unmentioned_in_plans()
    ensures extension { (c : Catalogue) (f : PlanForm) (s : Sort) (k : Key) (p q : Point) → 0 < p.den
        → plan_mentions f k ≡ false
        → IsExtension s p k q → PlanHolds c f p ↔ PlanHolds c f q }
    ensures exists { (c : Catalogue) (f : PlanForm) (s : Sort) (k : Key) (p : Point) → 0 < p.den
        → plan_mentions f k ≡ false
        → PlanHolds c (exists s k f) p ↔ PlanHolds c f p }
{}

/// A new entry at the end of a catalogue leaves what the other entries mean and what is measured of them. Under its own
/// name it means, and measures, what it does over the entries before it.
pub fn new_stored()
    ensures meaning_other { (c d : Catalogue) (e : Entry) (n : List ℕ) (den : ℕ) (xs : List Argument)
        → d.entries ≡ c.entries ++ e ∷ []
        → bytes_eq n (entry_name e) ≡ false → stored d n den xs ↔ stored c n den xs }
    ensures meaning_own { (c d : Catalogue) (e : Entry) (den : ℕ) (xs : List Argument) → d.entries ≡ c.entries ++ e ∷ []
        → stored d (entry_name e) den xs ↔ entry_meaning (stored c) e den xs }
    ensures measure_other { (c d : Catalogue) (e : Entry) (n : List ℕ) → d.entries ≡ c.entries ++ e ∷ []
        → bytes_eq n (entry_name e) ≡ false
        → stored_measures d n ≡ stored_measures c n }
    ensures measure_own { (c d : Catalogue) (e : Entry) → d.entries ≡ c.entries ++ e ∷ []
        → stored_measures d (entry_name e) ≡ entry_measure (stored_measures c) e }
{}

/// A name that is not made of another means, and measures, what is stored under it.
pub fn plain_names()
    ensures meaning { (c : Catalogue) (n : List ℕ) (den : ℕ) (xs : List Argument) → is_made n ≡ false
        → meaning c n den xs ↔ stored c n den xs }
    ensures measure { (c : Catalogue) (n : List ℕ) → is_made n ≡ false → measures c n ≡ stored_measures c n }
{}

/// A new entry at the end of a catalogue leaves what the other names mean, what is measured of them and what is known
/// of them, but for its own closure and interior. Of its own name, if it is not a made one, all this is read over the
/// entries before it.
pub fn new_entry()
    ensures meaning_other { (c d : Catalogue) (e : Entry) (n : List ℕ) → d.entries ≡ c.entries ++ e ∷ []
        → bytes_eq (base n) (entry_name e) ≡ false
        → MeansAlike d c n }
    ensures meaning_own { (c d : Catalogue) (e : Entry) (den : ℕ) (xs : List Argument) → d.entries ≡ c.entries ++ e ∷ []
        → is_made (entry_name e) ≡ false
        → meaning d (entry_name e) den xs ↔ entry_meaning (stored c) e den xs }
    ensures measure_other { (c d : Catalogue) (e : Entry) (n : List ℕ) → d.entries ≡ c.entries ++ e ∷ []
        → bytes_eq (base n) (entry_name e) ≡ false
        → measures d n ≡ measures c n }
    ensures measure_own { (c d : Catalogue) (e : Entry) → d.entries ≡ c.entries ++ e ∷ []
        → is_made (entry_name e) ≡ false
        → measures d (entry_name e) ≡ entry_measure (stored_measures c) e }
    ensures known_other { (es : List Entry) (e : Entry) (n : List ℕ) → bytes_eq n (entry_name e) ≡ false
        → known_of (es ++ e ∷ []) n ≡ known_of es n }
    ensures known_own { (es : List Entry) (e : Entry)
        → known_of (es ++ e ∷ []) (entry_name e) ≡ Some (entry_known (known_of es) e) }
{}

/// Over two catalogues in which the names that a formula, a goal or a plan uses mean the same, it holds at the same
/// points.
pub fn used_names()
    ensures formula { (c d : Catalogue) (f : Form) (p : Point) → ((n : List ℕ) → uses n f ≡ true → MeansAlike c d n)
        → Holds c f p ↔ Holds d f p }
    ensures goal { (c d : Catalogue) (g : GoalForm) (p : Point)
        → ((n : List ℕ) → goal_uses n g ≡ true → MeansAlike c d n)
        → GoalHolds c g p ↔ GoalHolds d g p }
    ensures plan { (c d : Catalogue) (f : PlanForm) (p : Point)
        → ((n : List ℕ) → plan_uses n f ≡ true → MeansAlike c d n)
        → PlanHolds c f p ↔ PlanHolds d f p }
{}

/// Over two catalogues whose names mean the same, a formula, a goal and a plan hold at the same points.
pub fn alike_catalogues()
    ensures formula { (c d : Catalogue) (f : Form) (p : Point) → AreAlike c d → Holds c f p ↔ Holds d f p }
    ensures goal { (c d : Catalogue) (g : GoalForm) (p : Point) → AreAlike c d → GoalHolds c g p ↔ GoalHolds d g p }
    ensures plan { (c d : Catalogue) (f : PlanForm) (p : Point) → AreAlike c d → PlanHolds c f p ↔ PlanHolds d f p }
{}
