//! What names mean over a whole catalogue.
ghost use Rattle.std.specs.Prelude.{◌≡◌, ◌↔◌, ◌⊎◌, ◌<◌, ◌≤◌, ℕ, Bool, true, false, not, ◌||◌, IsTrue, Some, None};
ghost use Rattle.std.specs.Prelude.{is_some, List};
ghost use Rattle.std.specs.Str.{bytes_eq};
ghost use Rattle.std.specs.List.{AllByRecursion, list_any};
ghost use Rattle.ded_model.specs.declared.name.Column.{Column};
ghost use Rattle.ded_model.specs.Catalogue.{Entry, relation, view, Catalogue, tuples_of, at_slots, at_names, stored};
ghost use Rattle.ded_model.specs.Catalogue.{meaning, Holds, PlanHolds, GivenHolds};
ghost use Rattle.ded_model.specs.Entries.{known, entry_of, entry_uses, columns_in};
ghost use Rattle.ded_model.specs.Form.{Form, uses, speaks_of};
ghost use Rattle.ded_model.specs.Goal.{GoalForm};
ghost use Rattle.ded_model.specs.Grown.{HaveMoreLines};
ghost use Rattle.ded_model.specs.Known.{IsAccepted, IsTupleOver, IsWellFormed, entry_known, level_with};
ghost use Rattle.ded_model.specs.Logic.{some_atom, AllAtoms};
ghost use Rattle.ded_model.specs.Made.{base, is_made};
ghost use Rattle.ded_model.specs.Measure.{Measures, stored_measures, measures, entry_measure, goal_clashes};
ghost use Rattle.ded_model.specs.Measure.{plan_clashes};
ghost use Rattle.ded_model.specs.PlanForm.{PlanForm};
ghost use Rattle.ded_model.specs.Point.{Point, IsPoint};
ghost use Rattle.ded_model.specs.Row.{Atom, tuple_holds, tuples_hold};
ghost use Rattle.ded_model.specs.Slotted.{goal_of};
ghost use Rattle.ded_model.specs.Uses.{MeansAlike, goal_uses, plan_uses};
ghost use Rattle.ded_model.specs.Value.{Argument};
ghost use Rattle.ded_sorts.specs.Changes.{AddsEntry, ChangesEntry, DropsEntry, Inserts, Deletes};
ghost use Rattle.ded_views.specs.Reaching.{atom_reaches, reaches};
ghost use Rattle.ded_views.specs.Same.{MeansSame, IsSameOf, ScansSame};
ghost use Rattle.ded_views.specs.Unaffected.{AreUnaffected};

/// What a name of a well formed catalogue means: a relation holds where one of its tuples does, its columns at the
/// slots from 0 on; a view holds where its formula does over the whole catalogue, its columns at their names.
pub fn meanings()
    ensures relation { (c : Catalogue) → IsWellFormed c
        → (n m : List ℕ) (h : List Column) (i : ℕ) (ts : List (ℕ × List Atom))
        → entry_of c.entries n ≡ Some (relation m h i ts)
        → (d : ℕ) (xs : List Argument) → meaning c n d xs
        ↔ IsTrue (tuples_hold (tuples_of ts) (record { den = d; coords = at_slots 0 h xs })) }
    ensures view { (c : Catalogue) → IsWellFormed c → (n m : List ℕ) (h : List Column) (f : Form)
        → entry_of c.entries n ≡ Some (view m h f)
        → (d : ℕ) (xs : List Argument) → meaning c n d xs ↔ Holds c f (record { den = d; coords = at_names h xs }) }
{}

/// What is measured and what is known of a name of a well formed catalogue is that of its entry over the whole
/// catalogue. The name is not made of another one.
pub fn entries()
    ensures measure { (c : Catalogue) → IsWellFormed c → (n : List ℕ) (e : Entry) → entry_of c.entries n ≡ Some e
        → measures c n ≡ entry_measure (stored_measures c) e }
    ensures stored { (c : Catalogue) → IsWellFormed c → (n : List ℕ) (e : Entry) → entry_of c.entries n ≡ Some e
        → stored_measures c n ≡ entry_measure (stored_measures c) e }
    ensures plain { (c : Catalogue) → IsWellFormed c → (n : List ℕ) (e : Entry)
        → entry_of c.entries n ≡ Some e → is_made n ≡ false }
    ensures known { (c : Catalogue) → IsWellFormed c → (n : List ℕ) (e : Entry) → entry_of c.entries n ≡ Some e
        → known c n ≡ Some (entry_known (known c) e) }
    ensures unknown { (c : Catalogue) (n : List ℕ) → entry_of c.entries n ≡ None → known c n ≡ None }
{}

/// In a well formed catalogue the tuples of a relation are over its columns. The formula of a view is accepted over all
/// names, its level is at most 16, and each name that it speaks of has a lesser level than the view.
pub fn well_formed()
    ensures tuples { (c : Catalogue) → IsWellFormed c
        → (n m : List ℕ) (h : List Column) (i : ℕ) (ts : List (ℕ × List Atom))
        → entry_of c.entries n ≡ Some (relation m h i ts)
        → AllByRecursion (IsTupleOver h) (tuples_of ts) }
    ensures accepted { (c : Catalogue) → IsWellFormed c → (n m : List ℕ) (h : List Column) (f : Form)
        → entry_of c.entries n ≡ Some (view m h f) → IsAccepted (known c) h f }
    ensures level { (c : Catalogue) → IsWellFormed c → (n : List ℕ) → level_with (known c n) ≤ 16 }
    ensures lesser { (c : Catalogue) → IsWellFormed c → (n m : List ℕ) (h : List Column) (f : Form)
        → entry_of c.entries n ≡ Some (view m h f)
        → (k : List ℕ) → speaks_of k f ≡ true → level_with (known c k) < level_with (known c n) }
{}

/// A plan holds alike over two catalogues in which the names that it scans mean the same of all byte strings. It holds
/// over given relations as over others, or as over a catalogue, where each name that it scans is the same of as many
/// byte strings as the scan has slots.
pub fn plans_alike()
    ensures means { (c d : Catalogue) (f : PlanForm) (p : Point) → IsPoint p
        → ((n : List ℕ) → plan_uses n f ≡ true → MeansSame c d n) → PlanHolds c f p ↔ PlanHolds d f p }
    ensures given { (c d : Catalogue) (f : PlanForm) (p : Point) → IsPoint p
        → AllAtoms (ScansSame (stored c) (stored d)) f → GivenHolds c f p ↔ GivenHolds d f p }
    ensures read { (c d : Catalogue) (f : PlanForm) (p : Point) → IsPoint p
        → AllAtoms (ScansSame (stored c) (meaning d)) f → GivenHolds c f p ↔ PlanHolds d f p }
    ensures scans { (c d : Catalogue) (f : PlanForm) (p : Point) → IsPoint p
        → AllAtoms (ScansSame (meaning c) (meaning d)) f → PlanHolds c f p ↔ PlanHolds d f p }
{}

/// A name that is made of another one means the same of byte strings where that one does, of any number of them or of a
/// certain number.
pub fn made_names()
    ensures means { (c d : Catalogue) (n : List ℕ) → is_made (base n) ≡ false
        → MeansSame c d (base n) → MeansSame c d n }
    ensures counted { (c d : Catalogue) (n : List ℕ) (k : ℕ) → is_made (base n) ≡ false
        → IsSameOf k (meaning c (base n)) (meaning d (base n)) → IsSameOf k (meaning c n) (meaning d n) }
    ensures given { (c d : Catalogue) (n : List ℕ) (k : ℕ) → is_made (base n) ≡ false
        → IsSameOf k (stored c (base n)) (meaning d (base n)) → IsSameOf k (meaning c n) (meaning d n) }
    ensures stored { (c d : Catalogue) (n : List ℕ) (k : ℕ) → IsSameOf k (stored c (base n)) (stored d (base n))
        → IsSameOf k (meaning c n) (meaning d n) }
{}

/// A goal and a plan clash where a name that they use does.
pub fn clashing_names()
    ensures goal { (M : Measures) (g : GoalForm) (n : List ℕ) → goal_uses n g ≡ true → (M n).clash ≡ true
        → goal_clashes M g ≡ true }
    ensures plan { (M : Measures) (f : PlanForm) (n : List ℕ) → plan_uses n f ≡ true → (M n).clash ≡ true
        → plan_clashes M f ≡ true }
{}

/// The goal of a formula uses the names of the formula.
pub fn goal_names()
    ensures { (h : List Column) (f : Form) (n : List ℕ) → goal_uses n (goal_of h f) ≡ uses n f }
{}

/// What a name of a well formed catalogue reaches: a relation itself, and a view itself and what a name that its
/// formula speaks of reaches. A name that isn't defined reaches none.
pub fn reached()
    ensures relation { (c : Catalogue) → IsWellFormed c
        → (n m : List ℕ) (h : List Column) (i : ℕ) (ts : List (ℕ × List Atom))
        → entry_of c.entries n ≡ Some (relation m h i ts)
        → (r : List ℕ) → reaches c n r ≡ bytes_eq n r }
    ensures view { (c : Catalogue) → IsWellFormed c → (n m : List ℕ) (h : List Column) (f : Form)
        → entry_of c.entries n ≡ Some (view m h f)
        → (r : List ℕ) → reaches c n r ≡ (bytes_eq n r || some_atom (atom_reaches (reaches c) r) f) }
    ensures used { (c : Catalogue) → IsWellFormed c → (n m : List ℕ) (h : List Column) (f : Form)
        → entry_of c.entries n ≡ Some (view m h f)
        → (k r : List ℕ) → speaks_of k f ≡ true → reaches c k r ≡ true → reaches c n r ≡ true }
    ensures undefined { (c : Catalogue) (n : List ℕ) → entry_of c.entries n ≡ None → (r : List ℕ)
        → reaches c n r ≡ false }
{}

/// Names that a change doesn't touch, and those that are made of them, mean the same and have the same measures. They
/// are known alike and reach the same.
pub fn unaffected()
    ensures meaning { (c d : Catalogue) → IsWellFormed c → IsWellFormed d → (among : List ℕ → Bool)
        → AreUnaffected c d among
        → (n : List ℕ) → among (base n) ≡ true → MeansAlike c d n }
    ensures measure { (c d : Catalogue) → IsWellFormed c → IsWellFormed d → (among : List ℕ → Bool)
        → AreUnaffected c d among
        → (n : List ℕ) → among (base n) ≡ true → measures d n ≡ measures c n }
    ensures known { (c d : Catalogue) → IsWellFormed c → IsWellFormed d → (among : List ℕ → Bool)
        → AreUnaffected c d among
        → (n : List ℕ) → among n ≡ true → known d n ≡ known c n }
    ensures reach { (c d : Catalogue) → IsWellFormed c → IsWellFormed d → (among : List ℕ → Bool)
        → AreUnaffected c d among
        → (n : List ℕ) → among n ≡ true → (m : List ℕ) → reaches d n m ≡ reaches c n m }
{}

/// What a change of a catalogue doesn't touch: a new entry the names that are defined; an entry that is dropped, where
/// no view uses its name, all other names; and other tuples of a relation the names that don't reach it. Other tuples
/// change nothing of what is known of any name and of what it reaches.
pub fn changes()
    ensures added { (c d : Catalogue) (e : Entry) → IsWellFormed c → AddsEntry c d e
        → AreUnaffected c d (λ n. is_some (entry_of c.entries n)) }
    ensures dropped { (c d : Catalogue) (n : List ℕ) → DropsEntry c d n → list_any (entry_uses n) c.entries ≡ false
        → AreUnaffected c d (λ m. not (bytes_eq m n)) }
    ensures changed { (c d : Catalogue) (n : List ℕ) (h : List Column) (i j : ℕ)
        (ts us : List (ℕ × List Atom)) → IsWellFormed c
        → ChangesEntry c d n (relation n h i ts) (relation n h j us) → AreUnaffected c d (λ m. not (reaches c m n)) }
    ensures kinds { (c d : Catalogue) (n : List ℕ) (h : List Column) (i j : ℕ) (ts us : List (ℕ × List Atom))
        → ChangesEntry c d n (relation n h i ts) (relation n h j us) → (m : List ℕ) → known d m ≡ known c m }
    ensures reach { (c d : Catalogue) (n : List ℕ) (h : List Column) (i j : ℕ) (ts us : List (ℕ × List Atom))
        → ChangesEntry c d n (relation n h i ts) (relation n h j us) → (m r : List ℕ) → reaches d m r ≡ reaches c m r }
{}

/// After an insert the relation holds where it did and where the new tuple does, and each relation has at least the
/// lines that it had.
pub fn inserts()
    ensures own { (c d : Catalogue) (n : List ℕ) (t : List Atom) (k : ℕ) → IsWellFormed c → IsWellFormed d
        → Inserts c d n t k → (den : ℕ) (xs : List Argument)
        → meaning d n den xs ↔ (meaning c n den xs
        ⊎ IsTrue (tuple_holds t (record { den = den; coords = at_slots 0 (columns_in c n) xs }))) }
    ensures lines { (c d : Catalogue) (n : List ℕ) (t : List Atom) (k : ℕ) → Inserts c d n t k
        → HaveMoreLines c.entries d.entries }
{}

/// An insert of a tuple, and a delete of a number, make one catalogue of a well formed one.
pub fn one_change()
    ensures insert { (c d e : Catalogue) (n : List ℕ) (t : List Atom) (k l : ℕ) → IsWellFormed c → Inserts c d n t k
        → Inserts c e n t l → (d ≡ e) × (k ≡ l) }
    ensures delete { (c d e : Catalogue) (n : List ℕ) (k : ℕ) → IsWellFormed c → Deletes c d n k
        → Deletes c e n k → d ≡ e }
{}
