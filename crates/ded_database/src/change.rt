//! A change of what a relation holds.

use crate::mark::Mark;
use ded_catalog::{Catalogue, Snapshot};
use ded_model::name::Name;
use ded_model::tuple::Tuple;
use ded_packed::Packed;

/// The tuple that is inserted, or the one that is deleted, where it is told.
#[derive(Clone, Copy)]
pub enum TupleStep<'b> {
    Inserted(&'b Tuple),
    Deleted(Option<&'b Packed>),
}

/// The catalogue before a change and as it will be, the relation's name, and the tuple that comes or goes.
#[derive(Clone, Copy)]
pub struct Change<'a, 'b> {
    pub catalogue: &'b Catalogue,
    pub snapshot: &'a Snapshot<'b>,
    pub name: &'b Name,
    pub step: TupleStep<'b>,
}

/// A kept view, by its mark, and the change that its list has to follow.
#[derive(Clone, Copy)]
pub(crate) struct Renewal<'a, 'b> {
    pub(crate) change: &'a Change<'a, 'b>,
    pub(crate) mark: &'a Mark,
}
