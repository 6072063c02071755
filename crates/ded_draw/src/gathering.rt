//! A session as what answers the pieces of a script and gathers the replies.
ghost use Rattle.std.specs.Prelude.{◌≡◌, ◌++◌, [], map, OnOk};
ghost use Rattle.ded_session.specs.Answered.{reply_form};
ghost use Rattle.ded_draw.specs.Gathering.{Gathered, MayGather, told_of};
ghost use Rattle.ded_draw.specs.Following.{any_gathered};
ghost use Rattle.ded_draw.specs.Standing.{gathered_in};

use ded_dialogue::Answering;
use ded_io::{Failed, Sink};
use ded_lex::Piece;
use ded_model::memory::NoMemory;
use ded_session::{Reply, Session};
use std::alloc::Global;

/// One session, which gathers what its replies tell.
#[derive(Drop)]
pub struct Gathering {
    session: Session,
    replies: Vec<Reply>,
    /// Whether memory was wanting for some reply.
    starved: bool,
}

/// What is heard of a reply: whether it is a refusal.
#[derive(Clone, Copy, Debug, PartialEq, Eq)]
pub struct Heard {
    refuses: bool,
}

impl Gathering {
    ghost use Rattle.std.specs.Prelude.{◌≡◌, ◌≤◌, false, map, MatchOption, true};
    ghost use Rattle.ded_session.specs.Answered.{reply_form};
    ghost use Rattle.ded_draw.specs.Gathering.{first_gathered};
    ghost use Rattle.ded_draw.specs.Standing.{gathered_in};

    /// A new session whose relations have at most `limit` tuples, and which hashes names by these keys.
    pub fn new(alloc: Global, limit: u32, keys: (u64, u64)) -> Gathering
        requires low { 1 ≤ limit }
        requires high { limit ≤ 1000000 }
        ensures { gathered_in result ≡ first_gathered limit }
    {
        Gathering {
            session: Session::hashed_with(alloc, limit, keys),
            replies: Vec::new(alloc),
            starved: false,
        }
    }

    /// The replies, without the session. None where memory was wanting for one.
    pub fn into_replies(self) -> Option<Vec<Reply>>
        ensures { MatchOption result ((gathered_in self).starved ≡ true) (λ replies.
            ((gathered_in self).starved ≡ false) × (map reply_form replies.items ≡ (gathered_in self).replies)) }
    {
        if self.starved {
            return None;
        }
        Some(self.replies)
    }
}

impl Answering for Gathering {
    type Reply = Heard;

    ghost State = { Gathered };

    ghost state = { gathered_in };

    ghost answers = { MayGather };

    ghost said = { λ heard. record { text = []; refuses = heard.refuses } };

    fn answer(&mut self, piece: Piece<'_>) -> Heard {
        let reply = self.session.step(piece);
        let refuses = reply.is_refusal();
        if gather(&mut self.replies, reply).is_err() {
            self.starved = true;
        }
        Heard { refuses }
    }

    fn is_refusal(heard: &Heard) -> bool {
        heard.refuses
    }

    fn is_line(_heard: &Heard) -> bool {
        true
    }

    fn write<K: Sink>(_heard: &Heard, _sink: &mut K) -> Result<(), Failed> {
        Ok(())
    }

    ghost goes_on = { any_gathered };
}

/// Adds the reply to those that are told, unless it isn't.
///
/// # Errors
/// Out of memory.
fn gather(replies: &mut Vec<Reply>, reply: Reply) -> Result<(), NoMemory>
    ensures { OnOk result (map reply_form replies.new.items
        ≡ map reply_form replies.old.items ++ told_of (reply_form reply)) }
{
    match reply {
        Reply::Done | Reply::Number(_) => Ok(()),
        Reply::Truth(_)
        | Reply::Tuples(_)
        | Reply::Stored(_, _)
        | Reply::Boxes(_, _)
        | Reply::Steps(_)
        | Reply::Script(_)
        | Reply::Apart(_)
        | Reply::Meet(_, _)
        | Reply::Refused(_) => {
            replies.push(reply)?;
            Ok(())
        }
    }
}
