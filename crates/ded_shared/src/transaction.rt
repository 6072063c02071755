//! Open transactions.
ghost use Rattle.std.specs.Prelude.{◌≡◌};
ghost use Rattle.ded_model.specs.Command.{command_form};
ghost use Rattle.ded_shared.specs.Rules.{is_change};

use crate::names::add_new;
use crate::touching::{changed, touched};
use crate::working::{depends_on_names, step_over};
use ded_catalog::Catalogue;
use ded_model::command::{Command, Refusal};
use ded_model::memory::NoMemory;
use ded_model::name::Name;
use ded_session::Reply;
use std::alloc::Global;

/// An open transaction.
#[derive(Drop)]
pub struct Transaction {
    /// Its catalogue, which began as a copy of the shared one.
    pub own: Catalogue,
    /// The statements in it that were accepted and may change a catalogue, in order.
    pub accepted: Vec<Name>,
    /// The names that it touched or changed, each once.
    pub touched: Vec<Name>,
    /// The names that it changed, each once.
    pub changed: Vec<Name>,
    /// How many names had been changed at its begin, of those that are remembered.
    pub since: usize,
}

/// How much a transaction remembers.
#[derive(Clone, Copy)]
struct Remembered {
    accepted: usize,
    touched: usize,
    changed: usize,
}

impl Transaction {
    ghost use Rattle.std.specs.Prelude.{◌≡◌, ◌≤◌, ℕ, List, take, length, OnOk, if◌then◌else◌};
    ghost use Rattle.ded_lex.specs.Pieces.{Whole};
    ghost use Rattle.ded_model.specs.declared.command.Language.TheVariants.{One};
    ghost use Rattle.ded_model.specs.Command.{command_form};
    ghost use Rattle.ded_syntax.specs.Spelling.{IsRead};
    ghost use Rattle.ded_catalog.specs.State.{catalogue_of};
    ghost use Rattle.ded_shared.specs.Touching.{depends_on_names};
    ghost use Rattle.ded_session.specs.Answered.{reply_form};
    ghost use Rattle.ded_session.specs.Replies.{is_refusal};
    ghost use Rattle.ded_session.specs.Steps.{Step};
    ghost use Rattle.ded_shared.specs.Parts.{transaction_in, IsBegun, KeepsFronts, ArePieces, Recalls};
    ghost use Rattle.ded_shared.specs.Rules.{Remembers};

    /// One that begins with this catalogue.
    pub fn over(alloc: Global, own: Catalogue, since: usize) -> Transaction
        ensures { IsBegun (catalogue_of own) since result }
    {
        Transaction {
            own,
            accepted: Vec::new(alloc),
            touched: Vec::new(alloc),
            changed: Vec::new(alloc),
            since,
        }
    }

    /// Answers a command, given by its bytes too, over the transaction's catalogue, and remembers what it touches and
    /// changes.
    pub fn work(&mut self, alloc: Global, bytes: &[u8], command: Command) -> Reply
        requires read { IsRead One bytes.now (command_form command) }
        requires short { length bytes.now ≤ 65536 }
        ensures step { Step One (catalogue_of self.old.own) (Whole bytes.now) (reply_form result)
            (catalogue_of self.new.own) }
        ensures remembers { (log : List (List ℕ)) → Remembers bytes.now (reply_form result) (command_form command)
            (transaction_in log self.old) (transaction_in log self.new) }
        ensures since { self.new.since ≡ self.old.since }
        ensures pieces { ArePieces self.old.accepted.items → ArePieces self.new.accepted.items }
    {
        self.own.formed();
        let extent = self.extent();
        if self.remember(alloc, bytes, &command).is_err() {
            drop(command);
            self.shorten(extent);
            return Reply::Refused(Refusal::Memory);
        }
        let reply = step_over(alloc, &mut self.own, command);
        self.settle(&reply, extent);
        reply
    }

    /// Forgets what doesn't count behind so much, after the reply: what was touched, where it doesn't depend on names,
    /// and what was accepted and changed, where it is a refusal.
    fn settle(&mut self, reply: &Reply, extent: Remembered)
        ensures own { self.new.own ≡ self.old.own }
        ensures since { self.new.since ≡ self.old.since }
        ensures accepted { self.new.accepted.items ≡ (if is_refusal
            (reply_form reply.now) then take extent.accepted self.old.accepted.items else self.old.accepted.items) }
        ensures touched { self.new.touched.items ≡ (if depends_on_names
            (reply_form reply.now) then self.old.touched.items else take extent.touched self.old.touched.items) }
        ensures changed { self.new.changed.items ≡ (if is_refusal
            (reply_form reply.now) then take extent.changed self.old.changed.items else self.old.changed.items) }
    {
        if !depends_on_names(reply) {
            self.touched.truncate(extent.touched);
        }
        if reply.is_refusal() {
            self.accepted.truncate(extent.accepted);
            self.changed.truncate(extent.changed);
        }
    }

    /// How much is remembered.
    fn extent(&self) -> Remembered
        ensures accepted { result.accepted ≡ length self.now.accepted.items }
        ensures touched { result.touched ≡ length self.now.touched.items }
        ensures changed { result.changed ≡ length self.now.changed.items }
    {
        Remembered {
            accepted: self.accepted.len(),
            touched: self.touched.len(),
            changed: self.changed.len(),
        }
    }

    /// Forgets all but so much.
    fn shorten(&mut self, extent: Remembered)
        ensures own { self.new.own ≡ self.old.own }
        ensures since { self.new.since ≡ self.old.since }
        ensures accepted { self.new.accepted.items ≡ take extent.accepted self.old.accepted.items }
        ensures touched { self.new.touched.items ≡ take extent.touched self.old.touched.items }
        ensures changed { self.new.changed.items ≡ take extent.changed self.old.changed.items }
    {
        self.accepted.truncate(extent.accepted);
        self.touched.truncate(extent.touched);
        self.changed.truncate(extent.changed);
    }

    /// Remembers the command as if it were accepted.
    ///
    /// # Errors
    /// Out of memory. Some of it may be remembered then.
    fn remember(&mut self, alloc: Global, bytes: &[u8], command: &Command) -> Result<(), NoMemory>
        ensures own { self.new.own ≡ self.old.own }
        ensures since { self.new.since ≡ self.old.since }
        ensures fronts { KeepsFronts self.old self.new }
        ensures remembers { OnOk result (Recalls bytes.now (command_form command.now) self.old self.new) }
    {
        let touched = touched(alloc, &self.own, command)?;
        let changed = changed(alloc, &self.own, command)?;
        add_new(&mut self.touched, &touched)?;
        add_new(&mut self.changed, &changed)?;
        if is_change(command) {
            self.accepted.push(Name {
                bytes: bytes.to_vec(alloc)?,
            })?;
        }
        Ok(())
    }
}

/// Whether the command changes a catalogue where it is accepted.
fn is_change(command: &Command) -> bool
    ensures { result ≡ is_change (command_form command.now) }
{
    match command {
        Command::Relation(_, _)
        | Command::Insert(_, _)
        | Command::Delete(_, _)
        | Command::Drop(_)
        | Command::View(_, _, _) => true,
        Command::Header
        | Command::Keep(_)
        | Command::Ask(_)
        | Command::Query(_, _)
        | Command::Show(_)
        | Command::BoxOf(_)
        | Command::Explain(_, _)
        | Command::Dump
        | Command::Disjoint(_, _)
        | Command::Verify(_, _, _) => false,
    }
}
