//! What a kept session answers, and what it lists.
ghost use Rattle.std.specs.Prelude.{◌≡◌, ◌≤◌, ◌↔◌, true, length};
ghost use Rattle.ded_syntax.specs.Spelling.{IsHeader};
ghost use Rattle.ded_run.specs.OneSession.{said_of};
ghost use Rattle.ded_session.specs.Answered.{reply_form};
ghost use Rattle.ded_recording.specs.Listings.{Listing, MayList};
ghost use Rattle.ded_kept.specs.Answering.{KeptState, keeps};
ghost use Rattle.ded_kept.specs.Machine.{state_of, listed_in, listing_of};
ghost use Rattle.ded_kept.specs.Following.{any_next, some_kept, told_as_is};

use crate::session::KeptSession;
use ded_dialogue::Answering;
use ded_io::{Failed, Sink};
use ded_lex::Piece;
use ded_model::command::Refusal;
use ded_recording::Recording;
use ded_session::{Reply, write_reply};
use ded_syntax::is_header;

/// Whether a whole piece is the header of a script, and comes first.
fn begins_script(is_first: bool, bytes: &[u8]) -> bool
    requires { length bytes.now ≤ 65536 }
    ensures { (result ≡ true) ↔ ((is_first ≡ true) × IsHeader bytes.now) }
{
    is_first && is_header(bytes)
}

impl Answering for KeptSession {
    type Reply = Reply;

    ghost State = { Listing KeptState };

    ghost state = { listing_of };

    ghost answers = { MayList keeps };

    ghost said = { λ reply. said_of (reply_form reply) };

    fn answer(&mut self, piece: Piece<'_>) -> Reply {
        let is_first = self.is_first;
        self.is_first = false;
        match piece {
            Piece::Whole(bytes) => {
                if begins_script(is_first, bytes) {
                    return Reply::Done;
                }
                self.answer_whole(bytes)
            }
            Piece::Long => Reply::Refused(Refusal::LongStatement),
            Piece::Cut => Reply::Refused(Refusal::Unfinished),
        }
    }

    fn is_refusal(reply: &Reply) -> bool {
        reply.is_refusal()
    }

    fn is_line(reply: &Reply) -> bool {
        reply.is_line()
    }

    fn write<K: Sink>(reply: &Reply, sink: &mut K) -> Result<(), Failed> {
        write_reply(reply, sink)
    }

    ghost goes_on = { any_next };
}

impl Recording for KeptSession {
    ghost Rest = { KeptState };

    ghost rest = { state_of };

    ghost listed = { listed_in };

    ghost gives = { keeps };

    fn count(&self) -> usize {
        self.listed.len()
    }

    fn text(&self, at: usize) -> &[u8] {
        self.listed[at].as_slice()
    }

    fn clear(&mut self) {
        self.listed.clear();
    }

    ghost told = { told_as_is };

    ghost some_next = { some_kept };
}
