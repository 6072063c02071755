//! Whether some point satisfies a conjunction of text atoms.
//!
//! The equalities part the slots and the quoted texts into classes, each of which comes to have one word: a rule says
//! which word stands for a slot from then on, and the rules are gone through one after another. Nothing satisfies the
//! atoms where two different texts come into one class, or both sides of a disequality do. Else something does: each
//! class without a text of its own gets one that is longer than all that are quoted.
ghost use Rattle.std.specs.Prelude.{◌≡◌, ◌↔◌, IfOk, IsTrue, MatchOption, true, false};
ghost use Rattle.std.specs.List.{AllByRecursion};
ghost use Rattle.ded_model.specs.Point.{Point};
ghost use Rattle.ded_model.specs.Row.{theme_holds};
ghost use Rattle.ded_model.specs.Cell.{conj_holds, HoldsSomewhere, HoldsNowhere};
ghost use Rattle.ded_model.specs.Normal.{IsNormalTheme};
ghost use Rattle.ded_theme.specs.Sources.{source, texts};
ghost use Rattle.ded_theme.specs.Classes.{rules_of, class_of, Solves, AreUnited, IsBound, AreApart, AreRulesOf};
ghost use Rattle.ded_theme.specs.Classes.{AreSplit};

use crate::words::{Word, comparison_of};
use ded_model::memory::NoMemory;
use ded_model::slot::Slot;
use ded_model::tuple::ThemeAtom;
use std::alloc::Global;

/// The word that stands for a slot.
#[derive(Clone, Copy)]
struct Rule<'a> {
    slot: Slot,
    word: Word<'a>,
}

/// Whether some point satisfies all the atoms.
///
/// # Errors
/// Out of memory.
pub(crate) fn hold_somewhere(alloc: Global, atoms: &[ThemeAtom]) -> Result<bool, NoMemory>
    requires { AllByRecursion IsNormalTheme atoms.now }
    ensures somewhere { IfOk result (λ b. IsTrue b → HoldsSomewhere (conj_holds theme_holds atoms.now)) }
    ensures nowhere { IfOk result (λ b. b ≡ false → HoldsNowhere (conj_holds theme_holds atoms.now)) }
{
    match rules(alloc, atoms)? {
        Some(rules) => Ok(differ(&rules, atoms)),
        None => Ok(false),
    }
}

/// The rules that the equalities make; none where they make two different texts equal.
fn rules<'a>(alloc: Global, atoms: &'a [ThemeAtom]) -> Result<Option<Vec<Rule<'a>>>, NoMemory>
    ensures { IfOk result (λ r. MatchOption r (HoldsNowhere (conj_holds theme_holds atoms.now))
        (λ v. AreRulesOf atoms.now (rules_of v.items))) }
{
    let mut rules = Vec::new(alloc);
    for atom in atoms {
        let comparison = comparison_of(atom);
        if comparison.equal && !unite(&mut rules, comparison.left, comparison.right)? {
            return Ok(None);
        }
    }
    Ok(Some(rules))
}

/// Puts two words into one class, by one more rule where they are in two classes. Returns false where these have two
/// different texts.
fn unite<'a>(rules: &mut Vec<Rule<'a>>, left: Word<'a>, right: Word<'a>) -> Result<bool, NoMemory>
    ensures united { IfOk result (λ b. IsTrue b → AreUnited (rules_of rules.old.items) (rules_of rules.new.items)
        (source left.entry) (source right.entry)) }
    ensures apart { IfOk result (λ b. b ≡ false → AreApart (rules_of rules.old.items)
        (source left.entry) (source right.entry)) }
{
    match (class_word(rules, left), class_word(rules, right)) {
        (Word::At(slot), word) => bind(rules, slot, word),
        (Word::Quoted(text), Word::At(slot)) => bind(rules, slot, Word::Quoted(text)),
        (Word::Quoted(first), Word::Quoted(second)) => Ok(first.is_same(second)),
    }
}

/// Lets the word stand for the slot, unless it is the slot itself. Returns true.
fn bind<'a>(rules: &mut Vec<Rule<'a>>, slot: Slot, word: Word<'a>) -> Result<bool, NoMemory>
    ensures bound { IfOk result (λ b. IsBound (rules_of rules.old.items)
        (rules_of rules.new.items) slot (source word.entry)) }
    ensures done { IfOk result (λ b. IsTrue b) }
{
    if !word.is_slot(slot) {
        rules.push(Rule { slot, word })?;
    }
    Ok(true)
}

/// The word that stands for the class of a word.
fn class_word<'a>(rules: &[Rule<'a>], word: Word<'a>) -> Word<'a>
    ensures { source result ≡ class_of (rules_of rules.now) (source word.entry) }
{
    let mut class = word;
    for rule in rules {
        class = class.replaced(rule.slot, rule.word);
    }
    class
}

/// Whether the two sides of each disequality are in different classes.
fn differ<'a>(rules: &[Rule<'a>], atoms: &'a [ThemeAtom]) -> bool
    ensures split { IsTrue result → AreSplit (rules_of rules.now) atoms.now }
    ensures joined { result ≡ false → (p : Point) → Solves (texts p) (rules_of rules.now)
        → conj_holds theme_holds atoms.now p ≡ false }
{
    for atom in atoms {
        let comparison = comparison_of(atom);
        if !comparison.equal && are_joined(rules, comparison.left, comparison.right) {
            return false;
        }
    }
    true
}

/// Whether two words are in one class.
fn are_joined<'a>(rules: &[Rule<'a>], left: Word<'a>, right: Word<'a>) -> bool
    ensures { IsTrue result ↔ class_of (rules_of rules.now) (source left.entry)
        ≡ class_of (rules_of rules.now) (source right.entry) }
{
    class_word(rules, left).is_same(class_word(rules, right))
}
