//! Complement and difference of generalized relations over any theory, by disjoint pieces.
//!
//! [`minus`] takes the conjunctions of one list away from those of another, and [`complement`] takes them away from the
//! whole space. A conjunction is taken away from a piece atom by atom: what satisfies the atoms so far and not the next
//! one is a piece of its own. A piece that shares no point with the conjunction stays as it is, and pieces that hold
//! nowhere are dropped at once. Where much is taken away, each conjunction and each piece has a box around it, and most
//! pieces are passed over as their boxes share no value; and a long piece drops the atoms that its last one plainly
//! implies ([`shortened`]). A piece with many conjunctions near it is first cut in two at an atom of one of them, and
//! then each half again, as long as both have clearly fewer near them. Where most of the conjunctions fix a slot to
//! texts, a piece that fixes it, too, is looked at beside those of its own text and those without one alone, and
//! another piece that boxes don't cut is cut by the texts.
//!
//! It stands on `ded_theory` for atoms, on `ded_genrel` for lists of conjunctions, and on `ded_genrel` and `ded_box`
//! for the boxes. Each result holds exactly where the operation on sets says. The pieces of a complement are disjoint,
//! and where the operands' atoms aren't wide they are no more than the cells that those atoms realise.
#![tactic(auto)]

mod boxed;
mod by_texts;
mod carving;
mod difference;
mod keys;
mod lessening;
mod parts;
mod pieces;
mod shortening;
mod splitting;

pub use boxed::{Boxed, boxed_list};
pub use difference::{complement, minus};
pub use keys::{KeyedPlace, Keys, fixing, keyed};
pub use shortening::shortened;
