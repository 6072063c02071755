//! Atoms made of comparisons, and a slot of an atom replaced by a word.
ghost use Rattle.std.specs.Prelude.{◌≡◌, ◌||◌, IfOk, true, if◌then◌else◌};
ghost use Rattle.ded_model.specs.declared.slot.Slot.{Slot};
ghost use Rattle.ded_model.specs.Point.{Point, same_slot};
ghost use Rattle.ded_model.specs.Normal.{IsNormalTheme};
ghost use Rattle.ded_theme.specs.declared.substitution.Made.TheVariants.{Always, Never, Atom};
ghost use Rattle.ded_theme.specs.Sources.{source, is_at, compares, texts, IsNormalSource};
ghost use Rattle.ded_theme.specs.Replacing.{replaced_holds, replaced_mentions, text_atom, slots_atom, made_holds};
ghost use Rattle.ded_theme.specs.Replacing.{made_mentions, IsNormalMade};

use crate::words::{Word, comparison_of};
use ded_model::memory::NoMemory;
use ded_model::name::Name;
use ded_model::slot::Slot;
use ded_model::tuple::ThemeAtom;

/// What a comparison comes to.
#[derive(Drop)]
pub(crate) enum Made {
    /// It holds everywhere.
    Always,
    /// It holds nowhere.
    Never,
    /// It holds where the atom does.
    Atom(ThemeAtom),
}

/// The atom with the word in place of the slot.
///
/// # Errors
/// Out of memory.
pub(crate) fn with_word<'a>(
    atom: &'a ThemeAtom,
    slot: Slot,
    word: Word<'a>,
) -> Result<Made, NoMemory>
    requires normal { IsNormalTheme atom.now }
    requires word { IsNormalSource (source word) }
    ensures holds { IfOk result (λ m. (p : Point)
        → made_holds m p ≡ replaced_holds slot (source word.entry) atom.now p) }
    ensures normal { IfOk result (λ m. IsNormalMade m) }
    ensures slots { IfOk result (λ m. (t : Slot) → made_mentions m t ≡ true
        → replaced_mentions slot (source word.entry) atom.now t ≡ true) }
{
    let comparison = comparison_of(atom);
    let left = comparison.left.replaced(slot, word);
    let right = comparison.right.replaced(slot, word);
    made_of(comparison.equal, left, right)
}

/// What the comparison of two words comes to.
fn made_of(equal: bool, left: Word<'_>, right: Word<'_>) -> Result<Made, NoMemory>
    requires left { IsNormalSource (source left) }
    requires right { IsNormalSource (source right) }
    ensures holds { IfOk result (λ m. (p : Point)
        → made_holds m p ≡ compares equal (source left.entry) (source right.entry) (texts p)) }
    ensures normal { IfOk result (λ m. IsNormalMade m) }
    ensures slots { IfOk result (λ m. (t : Slot) → made_mentions m t ≡ true
        → (is_at t (source left.entry) || is_at t (source right.entry)) ≡ true) }
{
    match (left, right) {
        (Word::At(slot), Word::Quoted(text)) => Ok(Made::Atom(against(equal, slot, text)?)),
        (Word::Quoted(text), Word::At(slot)) => Ok(Made::Atom(against(equal, slot, text)?)),
        (Word::At(first), Word::At(second)) => Ok(made_of_slots(equal, first, second)),
        (Word::Quoted(first), Word::Quoted(second)) => Ok(decided(first.is_same(second) == equal)),
    }
}

/// What the comparison of two slots comes to.
fn made_of_slots(equal: bool, left: Slot, right: Slot) -> Made
    ensures { result ≡ (if same_slot left right then (if equal then Always else Never) else Atom
        (slots_atom equal left right)) }
{
    if left.is_same(right) {
        decided(equal)
    } else {
        Made::Atom(between(equal, left, right))
    }
}

/// What a comparison that holds everywhere, or nowhere, comes to.
fn decided(holds: bool) -> Made
    ensures { result ≡ (if holds then Always else Never) }
{
    if holds { Made::Always } else { Made::Never }
}

/// The atom that compares a slot with a text.
///
/// # Errors
/// Out of memory.
pub(crate) fn against(equal: bool, slot: Slot, text: &Name) -> Result<ThemeAtom, NoMemory>
    ensures { IfOk result (λ a. a ≡ text_atom equal slot text.now) }
{
    let text = text.copy()?;
    if equal {
        Ok(ThemeAtom::EqText(slot, text))
    } else {
        Ok(ThemeAtom::NeText(slot, text))
    }
}

/// The atom that compares two slots, the one of lesser number first.
pub(crate) fn between(equal: bool, left: Slot, right: Slot) -> ThemeAtom
    ensures { result ≡ slots_atom equal left right }
{
    let (first, second) = if left.number < right.number {
        (left, right)
    } else {
        (right, left)
    };
    if equal {
        ThemeAtom::EqSlot(first, second)
    } else {
        ThemeAtom::NeSlot(first, second)
    }
}
