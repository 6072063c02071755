//! Text atoms as comparisons of two words, each a slot or a quoted text.
ghost use Rattle.std.specs.Prelude.{◌≡◌, ◌↔◌, IsTrue};
ghost use Rattle.ded_theme.specs.Sources.{source, is_at, is_equality, left, right};
ghost use Rattle.ded_theme.specs.Replacing.{replaced};

use ded_model::name::Name;
use ded_model::slot::Slot;
use ded_model::tuple::ThemeAtom;

/// Where a comparison takes a text from.
#[derive(Clone, Copy)]
pub(crate) enum Word<'a> {
    At(Slot),
    Quoted(&'a Name),
}

/// Two words, and whether they are to be equal or to differ.
#[derive(Clone, Copy)]
pub(crate) struct Comparison<'a> {
    pub(crate) equal: bool,
    pub(crate) left: Word<'a>,
    pub(crate) right: Word<'a>,
}

/// The comparison that a text atom makes.
pub(crate) fn comparison_of(atom: &ThemeAtom) -> Comparison<'_>
    ensures equal { result.equal ≡ is_equality atom.now }
    ensures left { source result.left ≡ left atom.now }
    ensures right { source result.right ≡ right atom.now }
{
    match atom {
        ThemeAtom::EqText(slot, text) => compared(true, Word::At(*slot), Word::Quoted(text)),
        ThemeAtom::NeText(slot, text) => compared(false, Word::At(*slot), Word::Quoted(text)),
        ThemeAtom::EqSlot(left, right) => compared(true, Word::At(*left), Word::At(*right)),
        ThemeAtom::NeSlot(left, right) => compared(false, Word::At(*left), Word::At(*right)),
    }
}

/// The comparison of two words.
fn compared<'a>(equal: bool, left: Word<'a>, right: Word<'a>) -> Comparison<'a>
    ensures equal { result.equal ≡ equal }
    ensures left { result.left ≡ left.entry }
    ensures right { result.right ≡ right.entry }
{
    Comparison { equal, left, right }
}

impl<'a> Word<'a> {
    /// Whether the word is the slot.
    pub(crate) fn is_slot(self, slot: Slot) -> bool
        ensures { result ≡ is_at slot (source self.entry) }
    {
        match self {
            Word::At(other) => other.is_same(slot),
            Word::Quoted(_) => false,
        }
    }

    /// This word, or the other one where this is the slot.
    pub(crate) fn replaced(self, slot: Slot, by: Word<'a>) -> Word<'a>
        ensures { source result ≡ replaced slot (source by.entry) (source self.entry) }
    {
        if self.is_slot(slot) { by } else { self }
    }

    /// Whether both words are the same slot, or equal texts.
    pub(crate) fn is_same(self, other: Word<'a>) -> bool
        ensures { IsTrue result ↔ source self.entry ≡ source other.entry }
    {
        match (self, other) {
            (Word::At(left), Word::At(right)) => left.is_same(right),
            (Word::Quoted(left), Word::Quoted(right)) => left.is_same(right),
            _ => false,
        }
    }
}
