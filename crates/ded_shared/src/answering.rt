//! Shared sessions as what answers the pieces of an input, and the texts of their replies.
ghost use Rattle.std.specs.Prelude.{◌++◌, ◌∷◌, []};
ghost use Rattle.ded_io.specs.Causes.{HasCause};
ghost use Rattle.ded_io.specs.Devices.{AddsAll};
ghost use Rattle.ded_shared.specs.Going.{any_next};
ghost use Rattle.ded_shared.specs.Answered.{shared_form};
ghost use Rattle.ded_shared.specs.Hearing.{MayAnswer, said_of};
ghost use Rattle.ded_shared.specs.Parts.{state_of};
ghost use Rattle.ded_shared.specs.State.{State};
ghost use Rattle.ded_shared.specs.Texts.{shared_text};
ghost use Rattle.ded_shared.specs.Forms.{conflict};

use crate::reply::SharedReply;
use crate::shared::Shared;
use ded_dialogue::Answering;
use ded_io::{Failed, Sink, send};
use ded_lex::Piece;
use ded_model::name::Name;
use ded_session::write_reply;

impl Answering for Shared {
    type Reply = SharedReply;

    ghost State = { State };

    ghost state = { λ s. state_of s };

    ghost answers = { MayAnswer };

    ghost said = { λ reply. said_of (shared_form reply) };

    fn answer(&mut self, piece: Piece<'_>) -> SharedReply {
        self.step(piece)
    }

    fn is_refusal(reply: &SharedReply) -> bool {
        reply.is_refusal()
    }

    fn is_line(reply: &SharedReply) -> bool {
        match reply {
            SharedReply::Plain(reply) => reply.is_line(),
            SharedReply::Begun | SharedReply::NotBegun | SharedReply::Conflict(_) => true,
        }
    }

    fn write<K: Sink>(reply: &SharedReply, sink: &mut K) -> Result<(), Failed> {
        match reply {
            SharedReply::Plain(reply) => write_reply(reply, sink),
            SharedReply::Begun => send(sink, b"refused 22 begun\n"),
            SharedReply::NotBegun => send(sink, b"refused 23 not begun\n"),
            SharedReply::Conflict(name) => write_conflict(name, sink),
        }
    }

    ghost goes_on = { any_next };
}

/// Writes that a commit conflicts at the name.
///
/// # Errors
/// `Failed` only where the sink's count of faults rose.
fn write_conflict<K: Sink>(name: &Name, sink: &mut K) -> Result<(), Failed>
    ensures bytes { AddsAll (K.contents sink.old) (K.contents sink.new) result (shared_text (conflict name.now)) }
    ensures cause { HasCause (K.faults sink.old) (K.faults sink.new) result }
{
    send(sink, b"refused 24 conflict ")?;
    write_line(&name.bytes, sink)
}

/// Writes the bytes and the end of a line.
///
/// # Errors
/// `Failed` only where the sink's count of faults rose.
fn write_line<K: Sink>(bytes: &[u8], sink: &mut K) -> Result<(), Failed>
    ensures bytes { AddsAll (K.contents sink.old) (K.contents sink.new) result (bytes.now ++ 10 ∷ []) }
    ensures cause { HasCause (K.faults sink.old) (K.faults sink.new) result }
{
    send(sink, bytes)?;
    send(sink, b"\n")
}
