//! Laws of the grammar. Each is the contract of a function that does nothing.
ghost use Rattle.std.specs.Prelude.{◌≡◌, ℕ, List, Bool};
ghost use Rattle.std.specs.List.{list_any};
ghost use Rattle.ded_model.specs.Form.{Form, FormAtom};
ghost use Rattle.ded_model.specs.Logic.{some_atom};
ghost use Rattle.ded_grammar.specs.Trees.{TerminalForm, terminal_atom};
ghost use Rattle.ded_grammar.specs.Spelling.{Spells};

/// Terminals spell one formula at most, with one nesting.
pub fn one_formula()
    ensures { (ps : List TerminalForm) (f g : Form) (m n : ℕ) → Spells ps f m → Spells ps g n → (f ≡ g) × (m ≡ n) }
{}

/// Some atom of a formula passes a test exactly where one of its terminals does.
pub fn atoms_stand_in_terminals()
    ensures { (test : FormAtom → Bool) (ps : List TerminalForm) (f : Form) (depth : ℕ) → Spells ps f depth →
        list_any (terminal_atom test) ps ≡ some_atom test f }
{}
