//! How transactions begin and end.
ghost use Rattle.std.specs.Prelude.{◌≡◌};

use super::{Shared, place_of, refused};
use crate::least::conflict;
use crate::names::add_all;
use crate::reply::SharedReply;
use crate::transaction::Transaction;
use crate::working::replayed;
use ded_model::command::Refusal;
use ded_session::Reply;
use std::mem;

impl Shared {
    ghost use Rattle.std.specs.Prelude.{◌≡◌, ◌≤◌, ◌-◌, None, IfSome, is_some, get_or, slice_set, length};
    ghost use Rattle.ded_catalog.specs.State.{catalogue_of};
    ghost use Rattle.ded_shared.specs.Answered.{shared_form};
    ghost use Rattle.ded_shared.specs.Conflicts.{NoneInBoth};
    ghost use Rattle.ded_shared.specs.Parts.{state_of, IsWithin, TakesOver};
    ghost use Rattle.ded_shared.specs.Rules.{Begins, Commits, Aborts};
    ghost use Rattle.ded_shared.specs.State.{transaction_of};

    /// Begins a transaction of the session.
    pub(super) fn begin(&mut self, session: u32) -> SharedReply
        requires low { 1 ≤ session }
        requires high { session ≤ 64 }
        ensures { Begins session (transaction_of (state_of self.old) session) (state_of self.old)
            (shared_form result) (state_of self.new) }
    {
        if self.is_open(session) {
            return SharedReply::Begun;
        }
        let Ok(own) = self.catalogue.copy() else {
            return refused(Refusal::Memory);
        };
        let transaction = Transaction::over(self.alloc, own, self.log.len());
        self.put(session, Some(transaction));
        SharedReply::Plain(Reply::Done)
    }

    /// Gives up the transaction of the session.
    pub(super) fn abort(&mut self, session: u32) -> SharedReply
        requires low { 1 ≤ session }
        requires high { session ≤ 64 }
        ensures { Aborts session (transaction_of (state_of self.old) session) (state_of self.old)
            (shared_form result) (state_of self.new) }
    {
        if !self.is_open(session) {
            return SharedReply::NotBegun;
        }
        self.put(session, None);
        SharedReply::Plain(Reply::Done)
    }

    /// Whether the session has an open transaction.
    fn is_open(&self, session: u32) -> bool
        requires low { 1 ≤ session }
        requires high { session ≤ 64 }
        ensures { result ≡ is_some (get_or self.now.transactions (session - 1) None) }
    {
        self.transactions[place_of(session)].is_some()
    }

    /// Makes this the transaction of the session, or leaves it without one.
    fn put(&mut self, session: u32, transaction: Option<Transaction>)
        requires low { 1 ≤ session }
        requires high { session ≤ 64 }
        requires within { IfSome transaction (IsWithin (catalogue_of self.old.table) (length self.old.log)) }
        ensures table { self.new.table ≡ self.old.table }
        ensures transactions { self.new.transactions ≡ slice_set self.old.transactions (session - 1) transaction }
        ensures log { self.new.log ≡ self.old.log }
    {
        self.transactions[place_of(session)] = transaction;
    }

    /// Makes the accepted changes of the session's transaction on the shared catalogue, unless it conflicts.
    pub(super) fn commit(&mut self, session: u32) -> SharedReply
        requires low { 1 ≤ session }
        requires high { session ≤ 64 }
        ensures answered { Commits session (transaction_of (state_of self.old) session) (state_of self.old)
            (shared_form result) (state_of self.new) }
        ensures taken { TakesOver session self.old (shared_form result) self.new }
    {
        let Some(transaction) = &self.transactions[place_of(session)] else {
            return SharedReply::NotBegun;
        };
        let Some(name) = conflict(&transaction.touched, &self.log[transaction.since..]) else {
            return self.make_changes(session);
        };
        let Ok(name) = name.copy() else {
            return refused(Refusal::Memory);
        };
        self.put(session, None);
        SharedReply::Conflict(name)
    }

    /// Makes the accepted changes of the session's transaction, which conflicts with none.
    fn make_changes(&mut self, session: u32) -> SharedReply
        requires low { 1 ≤ session }
        requires high { session ≤ 64 }
        requires free { IfSome (transaction_of (state_of self.old) session) (λ x. NoneInBoth x.touched x.stale) }
        ensures answered { Commits session (transaction_of (state_of self.old) session) (state_of self.old)
            (shared_form result) (state_of self.new) }
        ensures taken { TakesOver session self.old (shared_form result) self.new }
    {
        let Some(transaction) = &self.transactions[place_of(session)] else {
            return SharedReply::NotBegun;
        };
        if transaction.since == self.log.len() {
            return self.take_over(session);
        }
        let Ok(catalogue) = replayed(self.alloc, &self.catalogue, &transaction.accepted) else {
            return refused(Refusal::Memory);
        };
        if add_all(&mut self.log, &transaction.changed).is_err() {
            return refused(Refusal::Memory);
        }
        self.catalogue = catalogue;
        self.put(session, None);
        SharedReply::Plain(Reply::Done)
    }

    /// Makes the accepted changes of the session's transaction where nothing was changed since its begin: the
    /// transaction's own catalogue becomes the shared one.
    fn take_over(&mut self, session: u32) -> SharedReply
        requires low { 1 ≤ session }
        requires high { session ≤ 64 }
        requires free { IfSome (transaction_of (state_of self.old) session) (λ x. NoneInBoth x.touched x.stale) }
        requires current { IfSome (get_or self.old.transactions (session - 1) None) (λ x. x.since
            ≡ length self.old.log) }
        ensures answered { Commits session (transaction_of (state_of self.old) session) (state_of self.old)
            (shared_form result) (state_of self.new) }
        ensures taken { TakesOver session self.old (shared_form result) self.new }
    {
        let place = &mut self.transactions[place_of(session)];
        let Some(transaction) = place else {
            return SharedReply::NotBegun;
        };
        if add_all(&mut self.log, &transaction.changed).is_err() {
            return refused(Refusal::Memory);
        }
        mem::swap(&mut self.catalogue, &mut transaction.own);
        *place = None;
        SharedReply::Plain(Reply::Done)
    }
}
