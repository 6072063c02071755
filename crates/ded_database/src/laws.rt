//! Laws of marks. Each is the contract of a function that does nothing.
ghost use Rattle.std.specs.Prelude.{◌≡◌, ℕ, Bool, true, false, List};
ghost use Rattle.std.specs.Str.{bytes_eq};
ghost use Rattle.ded_model.specs.declared.name.Column.{Column};
ghost use Rattle.ded_model.specs.Catalogue.{Catalogue, relation};
ghost use Rattle.ded_model.specs.Form.{uses};
ghost use Rattle.ded_model.specs.Known.{IsWellFormed};
ghost use Rattle.ded_model.specs.Row.{Atom};
ghost use Rattle.ded_sorts.specs.Changes.{ChangesEntry};
ghost use Rattle.ded_model.specs.Made.{base};
ghost use Rattle.ded_views.specs.Reaching.{reaches};
ghost use Rattle.ded_views.specs.Unaffected.{AreUnaffected};
ghost use Rattle.ded_database.specs.declared.mark.Mark.{Mark};
ghost use Rattle.ded_database.specs.Marks.{mark_reaches, reaches_beside, mark_adds, IsMark, IsOnceIn};

/// A mark reaches what its view does, other than the view itself.
pub fn marks_reach()
    ensures { (c : Catalogue) (m : Mark) (n : List ℕ) → IsWellFormed c → IsMark c m → bytes_eq m.name n ≡ false
        → mark_reaches m n ≡ reaches c m.name n }
{}

/// Where a mark reaches no name beside that one, no other name in the view's formula is made of one that reaches it.
pub fn nothing_beside()
    ensures { (c : Catalogue) (m : Mark) (n : List ℕ) → (k : IsMark c m) → reaches_beside m n ≡ false
        → (other : List ℕ) → uses other k.formula ≡ true → bytes_eq other n ≡ false → reaches c (base other) n ≡ false }
{}

/// A view whose goal is conjunctive and has a name once, which no other name in it reaches, only adds where that name
/// does.
pub fn conjunctive_views()
    ensures { (c : Catalogue) (m : Mark) (n : List ℕ) → IsMark c m → IsOnceIn c m.name n → mark_adds m n ≡ true }
{}

/// A mark of a view that a change doesn't touch stays right.
pub fn untouched_marks()
    ensures { (c d : Catalogue) (among : List ℕ → Bool) (m : Mark) → IsWellFormed c → IsWellFormed d
        → AreUnaffected c d among → among m.name ≡ true → IsMark c m → IsMark d m }
{}

/// A change of what a relation holds leaves each mark right.
pub fn lasting_marks()
    ensures { (c d : Catalogue) (n : List ℕ) (h : List Column) (i j : ℕ) (ts us : List (ℕ × List Atom))
        (m : Mark) → IsWellFormed c
        → ChangesEntry c d n (relation n h i ts) (relation n h j us) → IsMark c m → IsMark d m }
{}
