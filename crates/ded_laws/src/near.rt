//! Made names, and what is close to a list of tuples or inside of one.
ghost use Rattle.std.specs.Prelude.{◌≡◌, ◌↔◌, ℕ, ◌<◌, ◌==◌, true, false, not, IsTrue, List};
ghost use Rattle.std.specs.List.{list_any};
ghost use Rattle.ded_model.specs.Point.{Point, IsPoint};
ghost use Rattle.ded_model.specs.Row.{Atom, tuple_holds, tuples_hold};
ghost use Rattle.ded_model.specs.Value.{Argument};
ghost use Rattle.ded_model.specs.Made.{closure_name, interior_name, reading, closure_of, interior_of, base, is_made};
ghost use Rattle.ded_model.specs.Near.{IsNearPoint, IsCloseAt, IsInsideAt, weak_tuple, weak_tuples, AreSortedAtoms};
ghost use Rattle.ded_model.specs.Near.{AreSortedTuples, AreInhabited};
ghost use Rattle.ded_model.specs.Catalogue.{Catalogue, stored};
ghost use Rattle.ded_model.specs.Uses.{MeansAlike};

/// The names of a closure and of an interior are read as such, and a name without `(` is not made of another.
pub fn made_names()
    ensures closure { (n : List ℕ) → reading (closure_name n) ≡ closure_of n }
    ensures interior { (n : List ℕ) → reading (interior_name n) ≡ interior_of n }
    ensures plain { (n : List ℕ) → list_any (λ b. b == 40) n ≡ false → is_made n ≡ false }
{}

/// A name means the same over two catalogues where the name that it is made of has entries that mean the same.
pub fn alike_names()
    ensures { (c d : Catalogue) (n : List ℕ)
        → ((den : ℕ) (xs : List Argument) → stored c (base n) den xs ↔ stored d (base n) den xs) → MeansAlike c d n }
{}

/// A point that satisfies a tuple with its strict rows made weak is close to the tuple, if the tuple holds anywhere.
pub fn mixes()
    ensures { (t : List Atom) (p w : Point) → IsPoint p → IsPoint w → AreSortedAtoms t
        → tuple_holds (weak_tuple t) p ≡ true → tuple_holds t w ≡ true → IsCloseAt (tuple_holds t) p }
{}

/// Around each point there is a distance within which no weak tuple of a list holds, if none does at the point itself.
pub fn apart()
    ensures { (ts : List (List Atom)) (p : Point) → IsPoint p → AreSortedTuples ts
        → (k : ℕ) × (0 < k) × ((q : Point) → IsPoint q → IsNearPoint 1 k p q → tuples_hold (weak_tuples ts) q ≡ true
        → tuples_hold (weak_tuples ts) p ≡ true) }
{}

/// The closure of tuples that each hold somewhere: the tuples with their strict rows made weak.
pub fn closures()
    ensures { (ts : List (List Atom)) (p : Point) → IsPoint p → AreSortedTuples ts → AreInhabited ts
        → IsCloseAt (tuples_hold ts) p ↔ IsTrue (tuples_hold (weak_tuples ts) p) }
{}

/// The interior of tuples: where the closure of the complement does not hold.
pub fn interiors()
    ensures { (ts cs : List (List Atom)) (p : Point) → IsPoint p
        → ((q : Point) → IsPoint q → tuples_hold cs q ≡ not (tuples_hold ts q)) → AreSortedTuples cs → AreInhabited cs
        → IsInsideAt (tuples_hold ts) p ↔ IsTrue (not (tuples_hold (weak_tuples cs) p)) }
{}
