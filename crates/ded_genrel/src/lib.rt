//! Generalized relations over any theory: lists of conjunctions of its atoms, each of which holds where one of its
//! conjunctions does.
//!
//! [`GenRel`] has the operations that need no more than the theory's own calls: a conjunction more, union, meet,
//! projection, renaming, and whether a list holds anywhere. All atoms in it are in normal form, so no call asks for
//! that but [`GenRel::push`].
//!
//! [`box_round`] puts a box around a conjunction: on given rational slots, the bounds that its atoms give each slot.
//! All points that satisfy the atoms have their values in it, and it is exact where the atoms aren't wide. So where two
//! boxes share no value, no point satisfies both conjunctions, and that is told by a few comparisons.
//!
//! It stands on `ded_theory` for the trait of theories, and on `ded_box` for boxes. Each operation says exactly where
//! its result holds, which slots it mentions, and among which lines its lines are; `IsOperation` says so for a test of
//! points, and serves further operations on lists of conjunctions as well.
#![tactic(auto)]

mod boxes;
mod conjunction;
mod list;

pub use boxes::box_round;
pub use conjunction::{both_conjs, copy_conj, renamed_conj};
pub use list::GenRel;
