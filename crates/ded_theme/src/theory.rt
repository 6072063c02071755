//! The theory of texts.
ghost use Rattle.std.specs.Prelude.{[], refl};
ghost use Rattle.ded_model.specs.Row.{theme_holds, theme_mentions};
ghost use Rattle.ded_model.specs.Cell.{theme_cell};
ghost use Rattle.ded_model.specs.Normal.{IsNormalTheme};
ghost use Rattle.ded_model.proofs.Rows.{theme_holds-same};
ghost use Rattle.ded_theme.specs.Sources.{owns_sort, fixed_by};
ghost use Rattle.ded_theme.specs.Laws.{cells-tell, owned-slots, fixed-holds};

use crate::classes::hold_somewhere;
use crate::renaming::{renamed_theme, turned};
use crate::{elimination, implying};
use ded_model::bound::Bound;
use ded_model::memory::{NoMemory, Refused};
use ded_model::name::Name;
use ded_model::slot::{Slot, Sort};
use ded_model::tuple::{Negated, ThemeAtom};
use ded_theory::{Eliminated, OfTexts, Span, Theory, Verdict};
use std::alloc::Global;

/// The theory of text atoms. Texts range over all finite byte strings. It decides every conjunction: no elimination is
/// given up, no verdict is `Unknown`, and no bounds are `Around`.
pub struct Theme {}

impl Theory for Theme {
    type Atom = ThemeAtom;

    ghost holds = { theme_holds };

    ghost mentions = { theme_mentions };

    ghost cell = { theme_cell };

    ghost lines = { λ _. [] };

    ghost fixed = { fixed_by };

    ghost normal = { IsNormalTheme };

    ghost owned = { owns_sort };

    ghost decides = { Unit {0} };

    fn owns(sort: Sort) -> bool {
        match sort {
            Sort::Rat => false,
            Sort::Text => true,
        }
    }

    fn copy(atom: &ThemeAtom) -> Result<ThemeAtom, NoMemory> {
        atom.copy()
    }

    fn rename(atom: &ThemeAtom, map: &[(Slot, Slot)]) -> Result<ThemeAtom, NoMemory> {
        renamed_theme(atom, map)
    }

    fn negate(atom: &ThemeAtom) -> Result<Negated<ThemeAtom>, NoMemory> {
        Ok(Negated::One(turned(atom)?))
    }

    fn implies(one: &ThemeAtom, other: &ThemeAtom) -> bool {
        implying::implies(one, other)
    }

    fn fixes(atom: &ThemeAtom) -> Option<(Slot, &Name)> {
        match atom {
            ThemeAtom::EqText(slot, text) => Some((*slot, text)),
            ThemeAtom::NeText(_, _) | ThemeAtom::EqSlot(_, _) | ThemeAtom::NeSlot(_, _) => None,
        }
    }

    fn eliminate(
        alloc: Global,
        atoms: &[ThemeAtom],
        slot: Slot,
    ) -> Result<Eliminated<ThemeAtom>, Refused> {
        Ok(elimination::eliminate(alloc, atoms, slot)?)
    }

    fn refute(alloc: Global, atoms: &[ThemeAtom]) -> Result<Verdict, NoMemory> {
        if hold_somewhere(alloc, atoms)? {
            Ok(Verdict::Inhabited)
        } else {
            Ok(Verdict::Empty)
        }
    }

    fn bounds(alloc: Global, atoms: &[ThemeAtom], _slot: Slot) -> Result<Span, NoMemory> {
        if hold_somewhere(alloc, atoms)? {
            Ok(Span::Exact(Bound::Infinite, Bound::Infinite))
        } else {
            Ok(Span::Nothing)
        }
    }

    ghost respects = { λ a p q _ _ same. theme_holds-same a p q same };

    ghost cells_tell = { cells-tell };

    ghost owned_slots = { owned-slots };

    ghost fixed_holds = { fixed-holds };

    ghost line_slots = { λ a l s none. absurd none };
}

impl OfTexts for Theme {
    ghost texts = { refl };

    ghost no_numbers = { refl };
}
