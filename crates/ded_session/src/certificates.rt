//! Certificates that two relations have no common point, and their check.
ghost use Rattle.std.specs.Prelude.{◌≡◌, true, IfOk, IsErrOf};
ghost use Rattle.ded_model.specs.declared.memory.Refused.TheVariants.{Wide};
ghost use Rattle.ded_model.specs.Command as commands;
ghost use Rattle.ded_model.specs.Entries.{known, tuples_in};
ghost use Rattle.ded_catalog.specs.State.{catalogue_of};
ghost use Rattle.ded_sorts.specs.Causes.{is_relation_with};
ghost use Rattle.ded_session.specs.Answered.{reply_form};
ghost use Rattle.ded_session.specs.Steps.{Does, MayBeWide};

use crate::reply::Reply;
use ded_catalog::Catalogue;
use ded_cert::{Disjointness, certify_all, verify_all};
use ded_model::certificate::Entry;
use ded_model::memory::Refused;
use ded_model::name::Name;
use ded_packed::Packed;
use std::alloc::Global;
use std::collections::BTreeMap;

/// The tuples of a relation under their numbers.
fn tuples<'a>(catalogue: &'a Catalogue, name: &Name) -> &'a BTreeMap<u32, Packed>
    requires { is_relation_with (known (catalogue_of catalogue.now) name.now) ≡ true }
    ensures { result.now.entries ≡ tuples_in (catalogue_of catalogue.now) name.now }
{
    catalogue.formed();
    let Some(tuples) = catalogue.stored(name) else {
        unreachable!()
    };
    tuples
}

/// Certificates that the two relations have no common point, or the numbers of the first pair of tuples that has one.
///
/// # Errors
/// `Wide` only where some pair is wide, otherwise out of memory.
pub(crate) fn disjoint(
    alloc: Global,
    catalogue: &Catalogue,
    first: &Name,
    second: &Name,
) -> Result<Reply, Refused>
    requires first { is_relation_with (known (catalogue_of catalogue.now) first.now) ≡ true }
    requires second { is_relation_with (known (catalogue_of catalogue.now) second.now) ≡ true }
    ensures does { IfOk result (λ r. Does (commands.disjoint first.now second.now) (catalogue_of catalogue.now)
        (reply_form r) (catalogue_of catalogue.now)) }
    ensures wide { IsErrOf result Wide → MayBeWide (commands.disjoint first.now second.now)
        (catalogue_of catalogue.now) }
{
    match certify_all(alloc, tuples(catalogue, first), tuples(catalogue, second))? {
        Disjointness::Apart(entries) => Ok(Reply::Apart(entries)),
        Disjointness::Meet(one, other) => Ok(Reply::Meet(one, other)),
    }
}

/// Whether the entries certify that the two relations have no common point.
///
/// # Errors
/// `Wide` only where in the check of the first entry of some pair of tuples a number is too long, otherwise out of
/// memory.
pub(crate) fn verified(
    alloc: Global,
    catalogue: &Catalogue,
    first: &Name,
    second: &Name,
    entries: &[Entry],
) -> Result<Reply, Refused>
    requires first { is_relation_with (known (catalogue_of catalogue.now) first.now) ≡ true }
    requires second { is_relation_with (known (catalogue_of catalogue.now) second.now) ≡ true }
    ensures does { IfOk result (λ r. Does (commands.verify first.now second.now entries.now)
        (catalogue_of catalogue.now) (reply_form r) (catalogue_of catalogue.now)) }
    ensures wide { IsErrOf result Wide → MayBeWide (commands.verify first.now second.now entries.now)
        (catalogue_of catalogue.now) }
{
    let (one, other) = (tuples(catalogue, first), tuples(catalogue, second));
    Ok(Reply::Truth(verify_all(alloc, one, other, entries)?))
}
