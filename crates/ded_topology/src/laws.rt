//! Names that are made of others: which tuples stand for them, and where they clash.
ghost use Rattle.std.specs.Prelude.{◌≡◌, ◌⊎◌, ◌↔◌, ℕ, true, IsTrue, List};
ghost use Rattle.std.specs.List.{AllByRecursion};
ghost use Rattle.ded_model.specs.declared.name.Column.{Column};
ghost use Rattle.ded_model.specs.Catalogue.{Catalogue, meaning};
ghost use Rattle.ded_model.specs.Entries.{columns_in};
ghost use Rattle.ded_model.specs.Known.{IsTupleOver, IsWellFormed};
ghost use Rattle.ded_model.specs.Lines.{IsSubset, tuples_lines};
ghost use Rattle.ded_model.specs.Made.{reading, closure_of, interior_of};
ghost use Rattle.ded_model.specs.Measure.{stored_measures, measures};
ghost use Rattle.ded_model.specs.Near.{IsCloseAt, IsInsideAt};
ghost use Rattle.ded_model.specs.Point.{Point, IsPoint};
ghost use Rattle.ded_model.specs.Row.{Atom, tuples_hold};
ghost use Rattle.ded_model.specs.Width.{IsNarrowList};
ghost use Rattle.ded_genrel.specs.Lists.{SomeConj};
ghost use Rattle.ded_complement.specs.Pieces.{all_atoms};
ghost use Rattle.ded_topology.specs.Names.{StandsForName, HoldsAsTuples};

/// Where tuples over a heading stand for a relation or view, tuples over it that hold at the points close to them, as
/// those of [`crate::closed_tuples`] do, stand for the closure, and those that hold inside, as of
/// [`crate::inner_tuples`], for the interior.
pub fn names()
    ensures closure { (c : Catalogue) (m n : List ℕ) (h : List Column) (ts us : List (List Atom))
        → reading m ≡ closure_of n → StandsForName c n h ts
        → ((p : Point) → IsPoint p → IsCloseAt (tuples_hold ts) p ↔ IsTrue (tuples_hold us p))
        → AllByRecursion (IsTupleOver h) us
        → HoldsAsTuples (meaning c m) h us }
    ensures interior { (c : Catalogue) (m n : List ℕ) (h : List Column) (ts us : List (List Atom))
        → reading m ≡ interior_of n → StandsForName c n h ts
        → ((p : Point) → IsPoint p → IsInsideAt (tuples_hold ts) p ↔ IsTrue (tuples_hold us p))
        → AllByRecursion (IsTupleOver h) us
        → HoldsAsTuples (meaning c m) h us }
{}

/// A made name of a well formed catalogue clashes where one of some tuples over the columns of the relation or view
/// that it is made of, with lines among those of that name, isn't narrow, and where the list of all their atoms isn't.
pub fn wide_names()
    ensures each { (c : Catalogue) → IsWellFormed c → (m n : List ℕ)
        → (reading m ≡ closure_of n) ⊎ (reading m ≡ interior_of n)
        → (ts : List (List Atom)) → AllByRecursion (IsTupleOver (columns_in c n)) ts
        → IsSubset (tuples_lines ts) (stored_measures c n).lines
        → SomeConj (λ t. IsNarrowList t → ⊥) ts → (measures c m).clash ≡ true }
    ensures together { (c : Catalogue) → IsWellFormed c → (m n : List ℕ)
        → (reading m ≡ closure_of n) ⊎ (reading m ≡ interior_of n)
        → (ts : List (List Atom)) → AllByRecursion (IsTupleOver (columns_in c n)) ts
        → IsSubset (tuples_lines ts) (stored_measures c n).lines
        → (IsNarrowList (all_atoms ts) → ⊥) → (measures c m).clash ≡ true }
{}
