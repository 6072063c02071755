//! Lists of conjunctions of rows and text atoms are wide only where they aren't narrow.
ghost use Rattle.std.specs.Prelude.{List, ◌++◌};
ghost use Rattle.std.specs.List.{AllByRecursion};
ghost use Rattle.ded_model.specs.Row.{Atom};
ghost use Rattle.ded_model.specs.Width.{IsNarrowList};
ghost use Rattle.ded_theory.specs.Conjunctions.{IsWide};
ghost use Rattle.ded_genrel.specs.Lists.{AreNormal};
ghost use Rattle.ded_complement.specs.Pieces.{all_atoms};

use ded_atoms::Atoms;
use ded_theory::Theory;

/// Where the atoms of all conjunctions of a list together are narrow, they aren't wide, which is what the complement
/// asks, and no conjunction of the list is wide, which is what joins ask. Where those of two lists together are narrow,
/// they aren't wide, which is what the difference and the join with a small list ask.
pub fn narrow_lists()
    ensures together { (conjs : List (List Atom)) → AreNormal ⟦<Atoms as Theory>⟧.normal conjs
        → IsNarrowList (all_atoms conjs)
        → IsWide ⟦<Atoms as Theory>⟧.mentions ⟦<Atoms as Theory>⟧.lines (all_atoms conjs) → ⊥ }
    ensures each { (conjs : List (List Atom)) → AreNormal ⟦<Atoms as Theory>⟧.normal conjs
        → IsNarrowList (all_atoms conjs) → AllByRecursion
        (λ c. IsWide ⟦<Atoms as Theory>⟧.mentions ⟦<Atoms as Theory>⟧.lines c → ⊥) conjs }
    ensures both { (conjs others : List (List Atom)) → AreNormal ⟦<Atoms as Theory>⟧.normal conjs
        → AreNormal ⟦<Atoms as Theory>⟧.normal others → IsNarrowList (all_atoms conjs ++ all_atoms others)
        → IsWide ⟦<Atoms as Theory>⟧.mentions ⟦<Atoms as Theory>⟧.lines (all_atoms conjs ++ all_atoms others) → ⊥ }
{}
