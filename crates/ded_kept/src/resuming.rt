//! A session over the statements that a journal keeps.
ghost use Rattle.std.specs.Prelude.{◌≡◌, ◌≤◌, ◌∷◌, [], ℕ, IfOk, IfErr, OnOk};
ghost use Rattle.ded_journal.specs.Journals.{IsHonest, AddsNoOutcome};
ghost use Rattle.ded_recording.specs.Saving.{IsSettled, Follows, HasSaved, StaysUnsaved};
ghost use Rattle.ded_session.specs.State.{catalogue_in};
ghost use Rattle.ded_kept.specs.Defining.{IsDefinedBy, header_line};
ghost use Rattle.ded_kept.specs.Machine.{listed_in};
ghost use Rattle.ded_kept.specs.Resuming.{IsResumed, LeavesKept};

use crate::session::{KeptSession, tells_change};
use ded_journal::Journal;
use ded_lex::Piece;
use ded_model::limits::STATEMENT_BYTES;
use ded_session::Session;
use sqlite_trees::error::StoreError;
use sqlite_trees::store::{Alter, Store};
use std::alloc::Global;

/// The header, and the first text that a journal keeps.
const HEADER: &[u8] = b"dedale 2";

const HEADER_LINE: &[u8] = b"dedale 2;";

/// Why the statements of a journal give no session.
#[derive(Clone, Copy, Debug, PartialEq, Eq)]
pub enum NotResumed {
    /// There was no memory to begin with.
    NoMemory,
    /// A call of the journal failed.
    Failed(StoreError),
    /// The text with this number, counted from 1, isn't accepted behind those before it.
    Unaccepted(u64),
}

impl From<StoreError> for NotResumed {
    fn from(error: StoreError) -> NotResumed {
        NotResumed::Failed(error)
    }
}

impl KeptSession {
    ghost use Rattle.std.specs.Prelude.{◌≡◌, ◌≤◌, ◌++◌, ◌∷◌, [], true, List, ℕ, IfSome};
    ghost use Rattle.ded_kept.specs.Machine.{listed_in};
    ghost use Rattle.ded_kept.specs.Defining.{IsDefinedBy, header_line};

    /// A session with an empty catalogue, behind the header.
    fn begin(alloc: Global, limit: u32, keys: (u64, u64)) -> Option<KeptSession>
        requires low { 1 ≤ limit }
        requires high { limit ≤ 1000000 }
        ensures defines { IfSome result (λ s. IsDefinedBy limit (header_line ∷ []) (catalogue_in s.session)) }
        ensures unlisted { IfSome result (λ s. listed_in s ≡ []) }
        ensures first { IfSome result (λ s. s.is_first ≡ true) }
    {
        let mut session = Session::hashed_with(alloc, limit, keys);
        let reply = session.step(Piece::Whole(HEADER));
        if reply.is_refusal() {
            return None;
        }
        Some(KeptSession {
            session,
            is_first: true,
            listed: Vec::new(alloc),
            alloc,
        })
    }

    /// Takes a kept text, and returns whether it is a statement that changes something again.
    fn repeat(&mut self, text: &[u8]) -> bool
        ensures defines { result ≡ true → (limit : ℕ) (list : List (List ℕ))
            → IsDefinedBy limit list (catalogue_in self.old.session)
            → IsDefinedBy limit (list ++ text.now ∷ []) (catalogue_in self.new.session) }
        ensures unlisted { listed_in self.new ≡ listed_in self.old }
        ensures first { self.new.is_first ≡ self.old.is_first }
    {
        let Some((last, piece)) = text.split_last() else {
            return false;
        };
        if *last != b';' || piece.len() > STATEMENT_BYTES {
            return false;
        }
        let reply = self.session.step(Piece::Whole(piece));
        tells_change(&reply)
    }
}

/// Keeps the header in a journal that keeps nothing.
fn keep_header<S: Alter + Drop>(journal: &mut Journal<S>) -> Result<(), StoreError>
    ensures saved { OnOk result (HasSaved S.Store.recovers S.Store.is_shielded
        journal.old journal.new (header_line ∷ [])) }
    ensures unsaved { IfErr result (StaysUnsaved S.Store.recovers S.Store.is_shielded
        journal.old journal.new (header_line ∷ [])) }
{
    journal.append(HEADER_LINE)?;
    journal.commit()
}

/// Repeats the texts of a journal that keeps some, of which the first has to be the header.
fn repeat_texts<S: Alter + Drop>(
    alloc: Global,
    session: &mut KeptSession,
    journal: &mut Journal<S>,
) -> Result<(), NotResumed>
    requires settled { IsSettled S.Store.recovers journal.old.now journal.old }
    ensures settled { OnOk result (IsSettled S.Store.recovers journal.old.now journal.new) }
    ensures defines { OnOk result (IsHonest journal.new → (limit : ℕ)
        → IsDefinedBy limit (header_line ∷ []) (catalogue_in session.old.session)
        → IsDefinedBy limit journal.old.now (catalogue_in session.new.session)) }
    ensures unlisted { listed_in session.new ≡ listed_in session.old }
    ensures first { session.new.is_first ≡ session.old.is_first }
    ensures crash { AddsNoOutcome S.Store.recovers S.Store.is_shielded journal.old journal.new }
    ensures follows { Follows S.Store.recovers S.Store.is_shielded journal.old journal.new }
{
    let count = journal.len();
    let mut text = Vec::new(alloc);
    if !journal.read(0, &mut text)? || text.as_slice() != HEADER_LINE {
        return Err(NotResumed::Unaccepted(1));
    }
    for at in 1..count {
        if !journal.read(at, &mut text)? || !session.repeat(text.as_slice()) {
            return Err(NotResumed::Unaccepted(at + 1));
        }
    }
    Ok(())
}

/// The session over the texts that a journal keeps, which was just opened: its relations have at most `limit` tuples,
/// 1 to 1,000,000, and it hashes names by these keys. Of a journal that keeps nothing it makes one that keeps the
/// header.
///
/// # Errors
/// A text that isn't accepted again, want of memory, or a failed call of the journal.
pub fn resume<S: Alter + Drop>(
    alloc: Global,
    limit: u32,
    keys: (u64, u64),
    journal: &mut Journal<S>,
) -> Result<KeptSession, NotResumed>
    requires low { 1 ≤ limit }
    requires high { limit ≤ 1000000 }
    requires settled { IsSettled S.Store.recovers journal.old.now journal.old }
    ensures resumed { IfOk result (IsResumed limit S.Store.recovers journal.old.now journal.new) }
    ensures crash { LeavesKept S.Store.recovers journal.old.now journal.new }
    ensures follows { Follows S.Store.recovers S.Store.is_shielded journal.old journal.new }
{
    let Some(mut session) = KeptSession::begin(alloc, limit, keys) else {
        return Err(NotResumed::NoMemory);
    };
    if journal.len() == 0 {
        keep_header(journal)?;
        return Ok(session);
    }
    repeat_texts(alloc, &mut session, journal)?;
    Ok(session)
}
