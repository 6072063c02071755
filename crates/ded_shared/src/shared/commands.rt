//! How commands work, in a transaction and outside of one.
ghost use Rattle.std.specs.Prelude.{◌≡◌, is_none};
ghost use Rattle.std.specs.List.{list_all};

use super::{Shared, place_of, refused};
use crate::names::add_all;
use crate::reply::SharedReply;
use crate::tag::Tag;
use crate::touching::changed;
use crate::transaction::Transaction;
use crate::working::step_over;
use ded_model::command::{Command, Language, Refusal};
use ded_model::memory::NoMemory;
use ded_session::Reply;
use ded_syntax::read_tokens;

impl Shared {
    ghost use Rattle.std.specs.Prelude.{◌≡◌, ◌≤◌, ℕ, List, length, OnOk, OnErr};
    ghost use Rattle.ded_model.specs.declared.command.Language.TheVariants.{One};
    ghost use Rattle.ded_model.specs.Command.{command_form};
    ghost use Rattle.ded_syntax.specs.Spelling.{IsRead};
    ghost use Rattle.ded_session.specs.Answered.{reply_form};
    ghost use Rattle.ded_shared.specs.Answered.{shared_form};
    ghost use Rattle.ded_shared.specs.Parts.{state_of, Notes, RemembersNoneIdle};
    ghost use Rattle.ded_shared.specs.Pieces.{StepsTagged};
    ghost use Rattle.ded_shared.specs.Rules.{Works, WorksOutside};
    ghost use Rattle.ded_shared.specs.State.{transaction_of};
    ghost use Rattle.ded_shared.specs.Tags.{HasTag, IsWord};
    ghost use Rattle.ded_shared.specs.TagTokens.{AreTokensOf};
    ghost use Rattle.ded_shared.specs.Verbs.{verb_word};
    ghost use Rattle.ded_shared.specs.declared.tag.Verb.{Verb};

    /// Answers what stands behind the tag, which isn't a word of transactions.
    pub(super) fn command(&mut self, tag: Tag<'_>) -> SharedReply
        requires low { 1 ≤ tag.session }
        requires high { tag.session ≤ 64 }
        requires short { length tag.rest.now ≤ 65536 }
        requires tokens { AreTokensOf tag.rest.now tag.bytes.now tag.tokens.now }
        requires no_word { (verb : Verb) → IsWord (verb_word verb) tag.rest.now → ⊥ }
        ensures { (bytes : List ℕ) → length bytes ≤ 65536 → HasTag bytes tag.entry.session tag.entry.rest.now
            → StepsTagged bytes (state_of self.old) (shared_form result) (state_of self.new) }
    {
        match read_tokens(self.alloc, tag.bytes, tag.tokens, Language::One) {
            Ok(command) => SharedReply::Plain(self.work(tag, command)),
            Err(refusal) => refused(refusal),
        }
    }

    /// Answers a command that is read, in the session's transaction or outside of one.
    fn work(&mut self, tag: Tag<'_>, command: Command) -> Reply
        requires low { 1 ≤ tag.session }
        requires high { tag.session ≤ 64 }
        requires short { length tag.rest.now ≤ 65536 }
        requires read { IsRead One tag.rest.now (command_form command) }
        ensures { Works tag.entry.session tag.entry.rest.now (transaction_of (state_of self.old) tag.entry.session)
            (state_of self.old) (reply_form result) (state_of self.new) }
    {
        match &mut self.transactions[place_of(tag.session)] {
            Some(transaction) => transaction.work(self.alloc, tag.rest, command),
            None => self.work_outside(tag.rest, command),
        }
    }

    /// Answers a command that is read over the shared catalogue.
    fn work_outside(&mut self, bytes: &[u8], command: Command) -> Reply
        requires short { length bytes.now ≤ 65536 }
        requires read { IsRead One bytes.now (command_form command) }
        ensures { WorksOutside bytes.now (state_of self.old) (reply_form result) (state_of self.new) }
    {
        let count = self.log.len();
        if self.note(&command).is_err() {
            drop(command);
            return Reply::Refused(Refusal::Memory);
        }
        let reply = step_over(self.alloc, &mut self.catalogue, command);
        if !reply.is_refusal() {
            return reply;
        }
        self.log.truncate(count);
        reply
    }

    /// Forgets the names that were changed, where no transaction is open.
    pub(super) fn forget(&mut self)
        ensures state { state_of self.new ≡ state_of self.old }
        ensures log { RemembersNoneIdle self.new }
    {
        if !is_idle(&self.transactions) {
            return;
        }
        self.log.truncate(0);
    }

    /// Notes the names that the command changes where it is accepted.
    ///
    /// # Errors
    /// Out of memory. Nothing is noted then.
    fn note(&mut self, command: &Command) -> Result<(), NoMemory>
        ensures ok { OnOk result (Notes (command_form command.now) self.old self.new) }
        ensures err { OnErr result (self.new ≡ self.old) }
    {
        let names = changed(self.alloc, &self.catalogue, command)?;
        add_all(&mut self.log, &names)
    }
}

/// Whether none of the transactions is open.
fn is_idle(transactions: &[Option<Transaction>]) -> bool
    ensures { result ≡ list_all is_none transactions.now }
{
    for transaction in transactions {
        if transaction.is_some() {
            return false;
        }
    }
    true
}
