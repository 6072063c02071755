//! A session as what answers the pieces of a script with tables.
ghost use Rattle.ded_run.specs.OneSession.{Standing, standing_in};
ghost use Rattle.ded_table.specs.Following.{any_table};
ghost use Rattle.ded_table.specs.Saying.{said_by};
ghost use Rattle.ded_table.specs.Tabled.{MayTable};

use crate::tabled::{TableReply, refuses, tabled, write_tabled};
use ded_dialogue::Answering;
use ded_io::{Failed, Sink};
use ded_lex::Piece;
use ded_session::Session;
use std::alloc::Global;

/// One session, which answers each statement of a script with tables.
#[derive(Drop)]
pub struct TableSession {
    session: Session,
    alloc: Global,
}

impl TableSession {
    ghost use Rattle.std.specs.Prelude.{◌≡◌, ◌≤◌};
    ghost use Rattle.ded_run.specs.OneSession.{opening, standing_in};

    /// A new session whose relations have at most `limit` tuples, and which hashes names by these keys.
    pub fn new(alloc: Global, limit: u32, keys: (u64, u64)) -> TableSession
        requires low { 1 ≤ limit }
        requires high { limit ≤ 1000000 }
        ensures { standing_in result.session ≡ opening limit }
    {
        TableSession {
            session: Session::hashed_with(alloc, limit, keys),
            alloc,
        }
    }
}

impl Answering for TableSession {
    type Reply = TableReply;

    ghost State = { Standing };

    ghost state = { λ s. standing_in s.session };

    ghost answers = { MayTable };

    ghost said = { said_by };

    fn answer(&mut self, piece: Piece<'_>) -> TableReply {
        self.session.sound();
        let reply = self.session.step(piece);
        tabled(self.alloc, reply)
    }

    fn is_refusal(reply: &TableReply) -> bool {
        refuses(reply)
    }

    fn is_line(reply: &TableReply) -> bool {
        match reply {
            TableReply::Plain(reply) => reply.is_line(),
            TableReply::Table(_) => false,
        }
    }

    fn write<K: Sink>(reply: &TableReply, sink: &mut K) -> Result<(), Failed> {
        write_tabled(reply, sink)
    }

    ghost goes_on = { any_table };
}
