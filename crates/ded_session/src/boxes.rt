//! The bounds of what a relation stores.
ghost use Rattle.std.specs.Prelude.{◌≡◌, true, IfOk, IsErrOf};
ghost use Rattle.std.specs.List.{AllByRecursion};
ghost use Rattle.ded_model.specs.declared.memory.Refused.TheVariants.{Wide};
ghost use Rattle.ded_model.specs.Catalogue.{tuples_of};
ghost use Rattle.ded_model.specs.Command.{box_of};
ghost use Rattle.ded_model.specs.Entries.{known};
ghost use Rattle.ded_model.specs.Known.{IsTupleOver};
ghost use Rattle.ded_model.specs.Row.{tuples_hold};
ghost use Rattle.ded_model.specs.Width.{IsBoxNarrow};
ghost use Rattle.ded_box.specs.Extents.{IsBox};
ghost use Rattle.ded_atoms.specs.Orders.{AreOrderAtoms};
ghost use Rattle.ded_catalog.specs.State.{catalogue_of};
ghost use Rattle.ded_sorts.specs.Causes.{is_relation_with};
ghost use Rattle.ded_session.specs.Answered.{reply_form};
ghost use Rattle.ded_session.specs.Steps.{Does, MayBeWide};

use crate::reply::Reply;
use ded_atoms::extended;
use ded_catalog::Catalogue;
use ded_model::bound::BoxReply;
use ded_model::memory::Refused;
use ded_model::name::{Heading, Name};
use ded_packed::Packed;
use std::alloc::Global;
use std::collections::BTreeMap;

/// The heading of a relation, and the exact bounds of its rational columns over all its points.
///
/// # Errors
/// `Wide` only where the relation isn't narrow for its box and some stored row of it is no order row, otherwise out of
/// memory.
pub(crate) fn bounds(alloc: Global, catalogue: &Catalogue, name: &Name) -> Result<Reply, Refused>
    requires { is_relation_with (known (catalogue_of catalogue.now) name.now) ≡ true }
    ensures does { IfOk result (λ r. Does (box_of name.now) (catalogue_of catalogue.now) (reply_form r)
        (catalogue_of catalogue.now)) }
    ensures wide { IsErrOf result Wide → MayBeWide (box_of name.now) (catalogue_of catalogue.now) }
{
    catalogue.formed();
    let Some(heading) = catalogue.heading(name) else {
        unreachable!()
    };
    let Some(tuples) = catalogue.stored(name) else {
        unreachable!()
    };
    let bounds = extent(alloc, heading, tuples)?;
    Ok(Reply::Boxes(heading.copy()?, bounds))
}

/// The exact bounds of each rational column of the heading over all points of the tuples.
fn extent(
    alloc: Global,
    heading: &Heading,
    stored: &BTreeMap<u32, Packed>,
) -> Result<BoxReply, Refused>
    requires { AllByRecursion (IsTupleOver heading.now) (tuples_of stored.now.entries) }
    ensures is { IfOk result (λ r. IsBox (tuples_hold (tuples_of stored.now.entries)) heading.now r) }
    ensures wide { IsErrOf result Wide → IsBoxNarrow heading.now (tuples_of stored.now.entries) → ⊥ }
    ensures orders { IsErrOf result Wide → AllByRecursion AreOrderAtoms (tuples_of stored.now.entries) → ⊥ }
{
    let mut extent = BoxReply::Nowhere;
    for (_, packed) in stored {
        let tuple = packed.unpack(alloc)?;
        extent = extended(alloc, heading, extent, &tuple)?;
    }
    Ok(extent)
}
