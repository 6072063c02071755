//! What a command asks of the names.

use super::Catalogue;
use crate::table::{known_of, relation_of, some_uses};
use ded_model::name::Name;
use ded_sorts::{Known, Names};

impl Names for Catalogue {
    ghost use Rattle.ded_catalog.specs.State.{catalogue_of};

    ghost catalogue = { catalogue_of };

    fn known(&self, name: &Name) -> Option<Known<'_>> {
        known_of(&self.names, name)
    }

    fn used(&self, name: &Name) -> bool {
        some_uses(&self.names, name)
    }

    fn has_tuple(&self, name: &Name, number: u64) -> bool {
        match relation_of(&self.names, name) {
            Some(relation) => relation.has(number),
            None => false,
        }
    }
}
