//! A session as what answers the pieces of a script.
ghost use Rattle.ded_run.specs.Following.{any_next};
ghost use Rattle.ded_run.specs.OneSession.{MayAnswer, Standing, said_of, standing_in};
ghost use Rattle.ded_session.specs.Answered.{reply_form};

use ded_dialogue::Answering;
use ded_io::{Failed, Sink};
use ded_lex::Piece;
use ded_session::{Reply, Session, write_reply};
use std::alloc::Global;

/// One session, which answers each statement of a script.
#[derive(Drop)]
pub struct OneSession {
    session: Session,
}

impl OneSession {
    ghost use Rattle.std.specs.Prelude.{◌≡◌, ◌≤◌};
    ghost use Rattle.ded_run.specs.OneSession.{opening, standing_in};

    /// A new session whose relations have at most `limit` tuples, and which hashes names by these keys.
    pub fn new(alloc: Global, limit: u32, keys: (u64, u64)) -> OneSession
        requires low { 1 ≤ limit }
        requires high { limit ≤ 1000000 }
        ensures { standing_in result.session ≡ opening limit }
    {
        OneSession {
            session: Session::hashed_with(alloc, limit, keys),
        }
    }
}

impl Answering for OneSession {
    type Reply = Reply;

    ghost State = { Standing };

    ghost state = { λ s. standing_in s.session };

    ghost answers = { MayAnswer };

    ghost said = { λ reply. said_of (reply_form reply) };

    fn answer(&mut self, piece: Piece<'_>) -> Reply {
        self.session.step(piece)
    }

    fn is_refusal(reply: &Reply) -> bool {
        reply.is_refusal()
    }

    fn is_line(reply: &Reply) -> bool {
        reply.is_line()
    }

    fn write<K: Sink>(reply: &Reply, sink: &mut K) -> Result<(), Failed> {
        write_reply(reply, sink)
    }

    ghost goes_on = { any_next };
}
