//! Replies as tables.
ghost use Rattle.std.specs.Prelude.{◌≡◌, is_some, IfOk, IfSome};
ghost use Rattle.ded_io.specs.Causes.{HasCause};
ghost use Rattle.ded_io.specs.Devices.{AddsAll};
ghost use Rattle.ded_session.specs.Answered.{reply_form};
ghost use Rattle.ded_table.specs.Saying.{said_by};
ghost use Rattle.ded_table.specs.Tabled.{has_tuples, IsOver, IsTabled, IsTableOf};

use ded_cells::{answer_table, stored_table};
use ded_io::{Failed, Sink, send};
use ded_model::command::Refusal;
use ded_model::memory::NoMemory;
use ded_model::name::Name;
use ded_session::{Reply, write_reply};
use std::alloc::{AllocError, Global};

/// What is written of a reply.
#[derive(Drop)]
pub enum TableReply {
    /// A reply as it is.
    Plain(Reply),
    /// The text of a table.
    Table(Name),
}

/// What is written of the reply: its table where it has tuples, and else the reply as it is. Where there is no memory
/// for the table, it is the refusal that says so.
pub(crate) fn tabled(alloc: Global, reply: Reply) -> TableReply
    requires { IsOver (reply_form reply) }
    ensures { IsTabled (reply_form reply) (said_by result) }
{
    match table_of(alloc, &reply) {
        None => TableReply::Plain(reply),
        Some(Ok(text)) => TableReply::Table(text),
        Some(Err(AllocError)) => TableReply::Plain(Reply::Refused(Refusal::Memory)),
    }
}

/// The table of the reply's tuples, none where it has no tuples.
fn table_of(alloc: Global, reply: &Reply) -> Option<Result<Name, NoMemory>>
    requires { IsOver (reply_form reply.now) }
    ensures some { is_some result ≡ has_tuples (reply_form reply.now) }
    ensures table { IfSome result (λ r. IfOk r (IsTableOf (reply_form reply.now))) }
{
    match reply {
        Reply::Tuples(answer) => Some(answer_table(alloc, answer)),
        Reply::Stored(heading, tuples) => {
            Some(stored_table(alloc, heading, tuples.list.as_slice()))
        }
        Reply::Done
        | Reply::Number(_)
        | Reply::Truth(_)
        | Reply::Boxes(_, _)
        | Reply::Steps(_)
        | Reply::Script(_)
        | Reply::Apart(_)
        | Reply::Meet(_, _)
        | Reply::Refused(_) => None,
    }
}

/// Whether the reply is a refusal.
pub(crate) fn refuses(reply: &TableReply) -> bool
    ensures { result ≡ (said_by reply.now).refuses }
{
    match reply {
        TableReply::Plain(reply) => reply.is_refusal(),
        TableReply::Table(_) => false,
    }
}

/// Writes the text of a reply, or a front of it where the sink fails. It doesn't allocate.
///
/// # Errors
/// `Failed` only where the sink's count of faults rose.
pub(crate) fn write_tabled<K: Sink>(reply: &TableReply, sink: &mut K) -> Result<(), Failed>
    ensures bytes { AddsAll (K.contents sink.old) (K.contents sink.new) result (said_by reply.now).text }
    ensures cause { HasCause (K.faults sink.old) (K.faults sink.new) result }
{
    match reply {
        TableReply::Plain(reply) => write_reply(reply, sink),
        TableReply::Table(text) => send(sink, text.bytes.as_slice()),
    }
}
