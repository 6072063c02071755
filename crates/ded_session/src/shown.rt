//! What a relation stores, and the whole catalogue as a script.
ghost use Rattle.std.specs.Prelude.{◌≡◌, true, IfOk};
ghost use Rattle.ded_model.specs.Command.{dump, show};
ghost use Rattle.ded_catalog.specs.State.{catalogue_of};
ghost use Rattle.ded_sorts.specs.Causes.{is_relation_with};
ghost use Rattle.ded_model.specs.Entries.{known, tuples_in, columns_in};
ghost use Rattle.ded_session.specs.Answered.{reply_form};
ghost use Rattle.ded_session.specs.Carrying.{Carries};
ghost use Rattle.ded_session.specs.Replies.{stored};

use crate::reply::Reply;
use crate::stored::StoredTuples;
use ded_catalog::Catalogue;
use ded_dump::lines;
use ded_model::command::Refusal;
use ded_model::memory::NoMemory;
use ded_model::name::Name;
use std::alloc::Global;

/// The reply with the heading of a relation and its tuples, or the refusal where there is no memory for it.
pub(crate) fn show(alloc: Global, catalogue: &Catalogue, name: &Name) -> Reply
    requires { is_relation_with (known (catalogue_of catalogue.now) name.now) ≡ true }
    ensures { Carries (show name.now) (catalogue_of catalogue.now) (reply_form result) (catalogue_of catalogue.now) }
{
    match copied(alloc, catalogue, name) {
        Ok(reply) => reply,
        Err(_) => Reply::Refused(Refusal::Memory),
    }
}

/// The reply with the lines of a script that makes the catalogue again, or the refusal where there is no memory for
/// them.
pub(crate) fn dump(alloc: Global, catalogue: &Catalogue) -> Reply
    ensures { Carries dump (catalogue_of catalogue.now) (reply_form result) (catalogue_of catalogue.now) }
{
    match lines(alloc, catalogue) {
        Ok(lines) => Reply::Script(lines),
        Err(_) => Reply::Refused(Refusal::Memory),
    }
}

/// The reply with copies of the heading of a relation and of its tuples.
fn copied(alloc: Global, catalogue: &Catalogue, name: &Name) -> Result<Reply, NoMemory>
    requires { is_relation_with (known (catalogue_of catalogue.now) name.now) ≡ true }
    ensures { IfOk result (λ r. reply_form r ≡ stored (columns_in (catalogue_of catalogue.now) name.now)
        (tuples_in (catalogue_of catalogue.now) name.now)) }
{
    catalogue.formed();
    let Some(heading) = catalogue.heading(name) else {
        unreachable!()
    };
    let Some(tuples) = catalogue.stored(name) else {
        unreachable!()
    };
    Ok(Reply::Stored(heading.copy()?, StoredTuples::copy_of(alloc, tuples)?))
}
