//! What a statement is answered.

ghost use Rattle.std.specs.Prelude.{◌≡◌};
ghost use Rattle.ded_session.specs.Answered.{reply_form};
ghost use Rattle.ded_session.specs.Replies.{is_refusal};

use crate::stored::StoredTuples;
use ded_model::answer::Answer;
use ded_model::bound::BoxReply;
use ded_model::certificate::Entry;
use ded_model::command::Refusal;
use ded_model::name::{Heading, Name};
use ded_model::plan::Plan;

/// The reply to a statement.
#[derive(Drop)]
pub enum Reply {
    /// The statement was done.
    Done,
    /// A tuple was inserted, and got this number.
    Number(u32),
    /// Whether what was asked is so.
    Truth(bool),
    /// The tuples that hold where a formula does.
    Tuples(Answer),
    /// The heading of a relation, and its tuples with their numbers.
    Stored(Heading, StoredTuples),
    /// The heading of a relation, and the exact bounds of its rational columns.
    Boxes(Heading, BoxReply),
    /// The plan of a formula.
    Steps(Plan),
    /// The lines of a script that makes the catalogue again.
    Script(Vec<Name>),
    /// Certificates that two relations have no common point.
    Apart(Vec<Entry>),
    /// The numbers of two tuples that have a common point.
    Meet(u32, u32),
    /// The statement changed nothing.
    Refused(Refusal),
}

impl Reply {
    /// Whether its text is one line, whatever the relations hold. It decides only how many writes there are.
    pub fn is_line(&self) -> bool {
        match self {
            Reply::Done
            | Reply::Number(_)
            | Reply::Truth(_)
            | Reply::Meet(_, _)
            | Reply::Refused(_) => true,
            Reply::Tuples(_)
            | Reply::Stored(_, _)
            | Reply::Boxes(_, _)
            | Reply::Steps(_)
            | Reply::Script(_)
            | Reply::Apart(_) => false,
        }
    }

    /// Whether the reply is a refusal.
    pub fn is_refusal(&self) -> bool
        ensures { result ≡ is_refusal (reply_form self.now) }
    {
        match self {
            Reply::Refused(_) => true,
            _ => false,
        }
    }
}
