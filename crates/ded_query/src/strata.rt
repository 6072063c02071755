//! How deep a question goes.
use ded_catalog::Snapshot;
use std::alloc::Global;

/// The names of a catalogue up to a level, and what their tuples are allocated with.
#[derive(Clone, Copy)]
pub(crate) struct Strata<'a, 'b> {
    pub(crate) alloc: Global,
    pub(crate) snapshot: &'a Snapshot<'b>,
    pub(crate) level: u32,
}
