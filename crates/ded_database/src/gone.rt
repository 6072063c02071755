//! The tuple that a delete takes.
ghost use Rattle.std.specs.Prelude.{IfSome};
ghost use Rattle.ded_catalog.specs.State.{catalogue_of};
ghost use Rattle.ded_database.specs.Changes.{DeletesTuple};

use ded_catalog::Catalogue;
use ded_model::name::Name;
use ded_packed::Packed;

/// The tuple of the number in the relation of the name, where there is one: the one that a delete of the number takes.
pub(crate) fn told_tuple<'a>(
    catalogue: &'a Catalogue,
    name: &Name,
    number: u64,
) -> Option<&'a Packed>
    ensures { IfSome result (λ t. DeletesTuple (catalogue_of catalogue.now) name.now number t.now) }
{
    catalogue.formed();
    let Some(tuples) = catalogue.stored(name) else {
        return None;
    };
    match u32::try_from(number) {
        Ok(number) => tuples.get(&number),
        Err(_) => None,
    }
}
