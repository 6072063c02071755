//! Laws of what is read back. Each is the contract of a function that does nothing.
//!
//! Laws of how commands are written. Each is the contract of a function that does nothing.
ghost use Rattle.std.specs.Prelude.{◌≡◌, ◌↔◌, ◌≤◌, ◌<◌, ℕ, Bool, false, List, ◌∷◌};
ghost use Rattle.ded_model.specs.declared.name.Column.{Column};
ghost use Rattle.ded_model.specs.Catalogue.{Catalogue, at_names, Holds};
ghost use Rattle.ded_model.specs.Form.{Form, speaks_of, FormAtom};
ghost use Rattle.ded_model.specs.Known.{KnownNames, IsAccepted, IsTupleOver, level_of, has_twice, has_unbound};
ghost use Rattle.ded_model.specs.Known.{has_missorted, scope_of};
ghost use Rattle.ded_model.specs.Logic.{AllAtomsOf, every_of, some_atom, some_atom_of, some_below, Logics};
ghost use Rattle.ded_model.specs.LongRows.{is_long_atom};
ghost use Rattle.ded_model.specs.Measure.{measures, goal_b, goal_rank};
ghost use Rattle.ded_model.specs.Plain.{IsPlain, IsPlainAtom};
ghost use Rattle.ded_model.specs.Row.{Atom};
ghost use Rattle.ded_model.specs.Slotted.{goal_of, tuple_of};
ghost use Rattle.ded_model.specs.Value.{Argument};
ghost use Rattle.ded_model.specs.Width.{tuple_length};
ghost use Rattle.ded_sorts.specs.Causes.{is_rational_inequality};
ghost use Rattle.ded_sorts.specs.Checks.{forms_of};
ghost use Rattle.ded_reread.specs.Formulas.{restored, restored_tuple};
ghost use Rattle.ded_reread.specs.Words.{Passes, IsWritten, AtomHasWords, TupleHasTexts, AreNamed};
ghost use Rattle.ded_lex.specs.Pieces.{IsWhole};
ghost use Rattle.ded_model.specs.declared.command.Language.{Language};
ghost use Rattle.ded_model.specs.Command.{relation, insert, view};
ghost use Rattle.ded_syntax.specs.Spelling.{IsHeader, IsRead};
ghost use Rattle.ded_reread.specs.Lines.{header_text, relation_text, insert_text, view_text, IsLine};
ghost use Rattle.ded_reread.specs.ScriptWords.{IsName, IsMember, IsText, IsHeading};

/// What is read back of a view's formula is accepted where that was, with the same level, speaks of the same names, has
/// its words and its shape, and no long rows.
pub fn read_formulas()
    ensures accepted { (K : KnownNames) (h : List Column) (f : Form) → IsAccepted K h f → IsPlain f
        → IsAccepted K h (restored h f) }
    ensures level { (K : KnownNames) (h : List Column) (f : Form) → level_of K (restored h f) ≡ level_of K f }
    ensures speaks { (n : List ℕ) (h : List Column) (f : Form) → speaks_of n (restored h f) ≡ speaks_of n f }
    ensures written { (N M T : List ℕ → Bool) (K : KnownNames) (h : List Column) (f : Form)
        → IsAccepted K h f → AreNamed (Passes N) h
        → IsWritten (Passes N) (Passes M) (Passes T) f → IsWritten (Passes N) (Passes M) (Passes T) (restored h f) }
    ensures plain { (K : KnownNames) (h : List Column) (f : Form) → IsAccepted K h f → IsPlain f
        → IsPlain (restored h f) }
    ensures short { (K : KnownNames) (h : List Column) (f : Form) → IsAccepted K h f → IsPlain f
        → some_atom is_long_atom f ≡ false
        → some_atom is_long_atom (restored h f) ≡ false }
{}

/// It holds of the same values, each column of its sort, and has the same b and rank.
pub fn alike_formulas()
    ensures holds { (c : Catalogue) (K : KnownNames) (h : List Column) (f : Form) → IsAccepted K h f → IsPlain f
        → (d : ℕ) (xs : List Argument) → 0 < d
        → Holds c (restored h f) (record { den = d; coords = at_names h xs })
        ↔ Holds c f (record { den = d; coords = at_names h xs }) }
    ensures b { (c : Catalogue) (K : KnownNames) (h : List Column) (f : Form) → IsAccepted K h f → IsPlain f
        → goal_b (measures c) (goal_of h (restored h f)) ≡ goal_b (measures c) (goal_of h f) }
    ensures rank { (c : Catalogue) (K : KnownNames) (h : List Column) (f : Form) → IsAccepted K h f → IsPlain f
        → goal_rank (measures c) (goal_of h (restored h f)) ≡ goal_rank (measures c) (goal_of h f) }
{}

/// The comparisons that are read back of a tuple over a heading are those of that tuple, have its words, and are
/// accepted over it.
pub fn read_tuples()
    ensures same { (h : List Column) (t : List Atom) → has_twice h ≡ false → IsTupleOver h t
        → tuple_of h (forms_of (restored_tuple h t)) ≡ t }
    ensures bound { (h : List Column) (t : List Atom) → has_twice h ≡ false → IsTupleOver h t
        → has_unbound h (every_of (restored_tuple h t)) ≡ false }
    ensures sorted { (K : KnownNames) (h : List Column) (t : List Atom) → has_twice h ≡ false → IsTupleOver h t
        → has_missorted K h (every_of (restored_tuple h t)) ≡ false }
    ensures equalities { (h : List Column) (t : List Atom) → has_twice h ≡ false → IsTupleOver h t
        → some_below is_rational_inequality (scope_of h) (every_of (restored_tuple h t)) ≡ false }
    ensures written { (N M T : List ℕ → Bool) (h : List Column) (t : List Atom) → has_twice h ≡ false → IsTupleOver h t
        → AreNamed (Passes N) h → TupleHasTexts (Passes T) t
        → AllAtomsOf (AtomHasWords (Passes N) (Passes M) (Passes T)) (restored_tuple h t) }
    ensures plain { (h : List Column) (t : List Atom) → has_twice h ≡ false → IsTupleOver h t
        → AllAtomsOf IsPlainAtom (restored_tuple h t) }
    ensures short { (h : List Column) (t : List Atom) → has_twice h ≡ false → IsTupleOver h t → tuple_length t ≤ 63
        → some_atom_of is_long_atom (restored_tuple h t) ≡ false }
{}

/// What is read has names, headings and texts that can be written again; members may be closures and interiors.
pub fn read_words()
    ensures relations { (language : Language) (bytes n : List ℕ) (h : List Column)
        → IsRead language bytes (relation n h) → IsName n × IsHeading h }
    ensures inserts { (language : Language) (bytes n : List ℕ) (fs : Logics FormAtom)
        → IsRead language bytes (insert n fs)
        → AllAtomsOf (AtomHasWords IsName IsMember IsText) fs }
    ensures views { (language : Language) (bytes n : List ℕ) (h : List Column) (f : Form)
        → IsRead language bytes (view n h f)
        → IsName n × IsHeading h × IsWritten IsName IsMember IsText f }
{}

/// The header and each line of a catalogue are read as what was stored.
pub fn read_lines()
    ensures header { IsHeader header_text }
    ensures whole_header { (after : List ℕ) → IsWhole header_text (59 ∷ after) }
    ensures relations { (n : List ℕ) (h : List Column) → IsName n → IsHeading h
        → IsLine (relation_text n h) (relation n h) }
    ensures inserts { (n : List ℕ) (h : List Column) (t : List Atom) → IsName n → IsHeading h
        → has_twice h ≡ false → IsTupleOver h t
        → tuple_length t ≤ 63 → TupleHasTexts IsText t → IsLine (insert_text n h t) (insert n (restored_tuple h t)) }
    ensures views { (K : KnownNames) (language : Language) (bytes n : List ℕ) (h : List Column) (f : Form)
        → IsRead language bytes (view n h f)
        → IsAccepted K h f → IsLine (view_text n h f) (view n h (restored h f)) }
{
    crate::laws::read_formulas();
    crate::laws::read_tuples();
}
