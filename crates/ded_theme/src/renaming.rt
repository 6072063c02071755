//! Text atoms over other slots, and their negations.
ghost use Rattle.std.specs.Prelude.{◌≡◌, IfOk};
ghost use Rattle.ded_theme.specs.Turning.{renamed_atom, turned_atom};

use crate::substitution::{against, between};
use ded_model::memory::NoMemory;
use ded_model::slot::{Slot, renamed};
use ded_model::tuple::ThemeAtom;

/// The atom with each slot replaced as the pairs say, of two slots the one of lesser number first.
///
/// # Errors
/// Out of memory.
pub(crate) fn renamed_theme(atom: &ThemeAtom, map: &[(Slot, Slot)]) -> Result<ThemeAtom, NoMemory>
    ensures { IfOk result (λ a. a ≡ renamed_atom map.now atom.now) }
{
    match atom {
        ThemeAtom::EqText(slot, text) => against(true, renamed(map, *slot), text),
        ThemeAtom::NeText(slot, text) => against(false, renamed(map, *slot), text),
        ThemeAtom::EqSlot(left, right) => {
            Ok(between(true, renamed(map, *left), renamed(map, *right)))
        }
        ThemeAtom::NeSlot(left, right) => {
            Ok(between(false, renamed(map, *left), renamed(map, *right)))
        }
    }
}

/// The disequality for an equality, and the equality for a disequality.
///
/// # Errors
/// Out of memory.
pub(crate) fn turned(atom: &ThemeAtom) -> Result<ThemeAtom, NoMemory>
    ensures { IfOk result (λ a. a ≡ turned_atom atom.now) }
{
    match atom {
        ThemeAtom::EqText(slot, text) => against(false, *slot, text),
        ThemeAtom::NeText(slot, text) => against(true, *slot, text),
        ThemeAtom::EqSlot(left, right) => Ok(ThemeAtom::NeSlot(*left, *right)),
        ThemeAtom::NeSlot(left, right) => Ok(ThemeAtom::EqSlot(*left, *right)),
    }
}
