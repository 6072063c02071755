//! What one step of a join is made with.

use ded_model::slot::Slot;
use ded_theory::Theory;

/// The window in which the joined list has to be exact, the slots by which pairs are found, and the rows of the window
/// that lie across the two sides.
#[derive(Drop)]
pub(crate) struct JoinStep<'a, T: Theory> {
    pub(crate) within: &'a [T::Atom],
    pub(crate) slots: &'a [Slot],
    pub(crate) across: &'a [T::Atom],
}
