//! A session over kept statements, which lists those that have to be kept.
ghost use Rattle.std.specs.Prelude.{◌≡◌, ◌≤◌, ◌++◌, length, IfOk};
ghost use Rattle.ded_lex.specs.Pieces.{Whole};
ghost use Rattle.ded_model.specs.declared.command.Language.TheVariants.{Two};
ghost use Rattle.ded_session.specs.Answered.{reply_form};
ghost use Rattle.ded_session.specs.State.{language_in, catalogue_in};
ghost use Rattle.ded_session.specs.Steps.{Step};
ghost use Rattle.ded_kept.specs.Answering.{is_change, kept_of, kept_text};

use ded_lex::Piece;
use ded_model::command::Refusal;
use ded_model::memory::NoMemory;
use ded_session::{Reply, Session};
use std::alloc::Global;

/// A session in the second language, whether no statement of the run was read yet, and the texts of the statements that
/// changed something since the list was cleared, each with its `;`.
#[derive(Drop)]
pub struct KeptSession {
    pub(crate) session: Session,
    pub(crate) is_first: bool,
    pub(crate) listed: Vec<Vec<u8>>,
    pub(crate) alloc: Global,
    ghost second: { language_in session ≡ Two },
}

/// Whether the reply tells a change: the catalogue may be another now, or a view is kept.
pub(crate) fn tells_change(reply: &Reply) -> bool
    ensures { result ≡ is_change (reply_form reply.now) }
{
    match reply {
        Reply::Done | Reply::Number(_) => true,
        _ => false,
    }
}

/// The text that is kept of a whole piece.
pub(crate) fn text_of(alloc: Global, bytes: &[u8]) -> Result<Vec<u8>, NoMemory>
    ensures { IfOk result (λ text. text.items ≡ kept_text (Whole bytes.now)) }
{
    let mut text = Vec::new(alloc);
    text.extend_from_slice(bytes)?;
    text.push(b';')?;
    Ok(text)
}

impl KeptSession {
    ghost use Rattle.ded_kept.specs.Machine.{listed_in};

    /// Answers a whole piece that isn't a header at the beginning, and lists its text where it changes something. Where
    /// there is no memory for the text, the statement is refused so and changes nothing.
    pub(crate) fn answer_whole(&mut self, bytes: &[u8]) -> Reply
        requires short { length bytes.now ≤ 65536 }
        ensures step { Step Two (catalogue_in self.old.session) (Whole bytes.now) (reply_form result)
            (catalogue_in self.new.session) }
        ensures listed { listed_in self.new ≡ listed_in self.old ++ kept_of (Whole bytes.now) (reply_form result) }
        ensures same { self.new.is_first ≡ self.old.is_first }
    {
        let Ok(text) = text_of(self.alloc, bytes) else {
            return Reply::Refused(Refusal::Memory);
        };
        if self.listed.push(text).is_err() {
            return Reply::Refused(Refusal::Memory);
        }
        let reply = self.session.step(Piece::Whole(bytes));
        if !tells_change(&reply) {
            self.listed.pop();
        }
        reply
    }
}
