//! What there is to be drawn of replies.
ghost use Rattle.std.specs.Prelude.{map, IfOk, OnOk};
ghost use Rattle.ded_session.specs.Answered.{reply_form};
ghost use Rattle.ded_drawing.specs.Sightings.{AddsSights, AreAllSights};

use ded_figures::{Look, Sight, add_sights, add_stored_sights, axes_of};
use ded_model::memory::NoMemory;
use ded_session::Reply;
use std::alloc::Global;

/// What there is to be drawn of the replies, in order.
///
/// # Errors
/// Out of memory.
pub(crate) fn sights_of(
    alloc: Global,
    look: &Look,
    replies: &[Reply],
) -> Result<Vec<Sight>, NoMemory>
    ensures { IfOk result (λ sights. AreAllSights look.now (map reply_form replies.now) sights.items) }
{
    let mut sights = Vec::new(alloc);
    for reply in replies {
        add_sights_of(alloc, &mut sights, look, reply)?;
    }
    Ok(sights)
}

/// Adds what there is to be drawn of a reply.
fn add_sights_of(
    alloc: Global,
    sights: &mut Vec<Sight>,
    look: &Look,
    reply: &Reply,
) -> Result<(), NoMemory>
    ensures { OnOk result (AddsSights look.now (reply_form reply.now) sights.old.items sights.new.items) }
{
    match reply {
        Reply::Tuples(answer) => match axes_of(look, &answer.heading)? {
            Some(axes) => {
                let tuples = answer.tuples.list.as_slice();
                add_sights(alloc, sights, axes, &answer.heading, tuples)
            }
            None => Ok(()),
        },
        Reply::Stored(heading, stored) => match axes_of(look, heading)? {
            Some(axes) => add_stored_sights(alloc, sights, axes, heading, stored.list.as_slice()),
            None => Ok(()),
        },
        Reply::Done
        | Reply::Number(_)
        | Reply::Truth(_)
        | Reply::Boxes(_, _)
        | Reply::Steps(_)
        | Reply::Script(_)
        | Reply::Apart(_)
        | Reply::Meet(_, _)
        | Reply::Refused(_) => Ok(()),
    }
}
