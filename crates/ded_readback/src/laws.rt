//! Laws on what is spelled, as contracts of functions that do nothing.
ghost use Rattle.std.specs.Prelude.{◌≡◌, List, ℕ};
ghost use Rattle.std.specs.List.{AllByRecursion};
ghost use Rattle.ded_model.specs.declared.name.Column.{Column};
ghost use Rattle.ded_model.specs.Row.{Atom};
ghost use Rattle.ded_print.specs.Tuples.{answer_text};
ghost use Rattle.ded_readback.specs.Plain.{IsPlainHeading};
ghost use Rattle.ded_readback.specs.Spelling.{IsShortTuple, SpellsAnswer};

/// One list belongs to one spelling.
pub fn one_answer()
    ensures { (bytes : List ℕ) (h : List Column) (ts us : List (List Atom)) → IsPlainHeading h →
        SpellsAnswer bytes h ts → SpellsAnswer bytes h us → ts ≡ us }
{}

/// The text of the answer that tuples make, which is what is printed of it, spells these tuples and no others.
pub fn printed_answers()
    ensures spelled { (h : List Column) (ts : List (List Atom)) → AllByRecursion (IsShortTuple h) ts →
        SpellsAnswer (answer_text h ts) h ts }
    ensures only { (h : List Column) (ts us : List (List Atom)) → IsPlainHeading h
        → AllByRecursion (IsShortTuple h) ts →
        SpellsAnswer (answer_text h ts) h us → us ≡ ts }
{}
