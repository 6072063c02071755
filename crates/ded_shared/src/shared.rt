//! The state that sessions share.
ghost use Rattle.std.specs.Prelude.{◌≡◌, ◌≤◌, ◌-◌, IfOk, None, replicate};
ghost use Rattle.ded_session.specs.Replies.{refused};
ghost use Rattle.ded_shared.specs.Answered.{shared_form};
ghost use Rattle.ded_shared.specs.Forms.{plain};

mod commands;
mod transactions;

use crate::reply::SharedReply;
use crate::tag::{SESSIONS, Tag, Verb, tag_of, verb_of};
use crate::transaction::Transaction;
use ded_catalog::Catalogue;
use ded_lex::{Piece, Token, tokens};
use ded_model::command::Refusal;
use ded_model::fault::ParseFault;
use ded_model::memory::NoMemory;
use ded_model::name::Name;
use ded_session::Reply;
use std::alloc::Global;
use std::marker::Model;

/// The shared catalogue, and the open transactions. Contracts see all of it.
#[derive(Drop)]
pub struct Shared {
    catalogue: Catalogue,
    /// The open transaction of each session from 1 on.
    transactions: Vec<Option<Transaction>>,
    /// The names that were changed while a transaction was open.
    log: Vec<Name>,
    alloc: Global,
}

impl Model for Shared {
    ghost use Rattle.std.specs.Coded.{codes};
    ghost use Rattle.ded_catalog.specs.contracts.stored.Stored as stored;
    ghost use Rattle.ded_shared.specs.contracts.transaction.Transaction as transaction;
    ghost use Rattle.ded_shared.specs.Parts.{Parts, AreKept};

    ghost Value = { Parts };

    ghost coded = { Prim.hlevel (stored.the_row.coded, transaction.the_row.coded, codes) };

    ghost view = { λ s. record { table = s.catalogue; transactions = s.transactions.items; log = s.log.items } };

    ghost invariant = { λ s.
        AreKept (record { table = s.catalogue; transactions = s.transactions.items; log = s.log.items }) };
}

impl Shared {
    ghost use Rattle.std.specs.Prelude.{◌≡◌, ◌≤◌, ℕ, List, IfOk, length};
    ghost use Rattle.ded_lex.specs.Tokens.{AreTokens};
    ghost use Rattle.ded_relation.specs.Hashing.{keyed};
    ghost use Rattle.ded_catalog.specs.State.{catalogue_of};
    ghost use Rattle.ded_lex.specs.Pieces.{IsShortPiece};
    ghost use Rattle.ded_shared.specs.Answered.{shared_form};
    ghost use Rattle.ded_shared.specs.Parts.{state_of, RemembersNoneIdle};
    ghost use Rattle.ded_shared.specs.Pieces.{StepsSharedPiece, StepsTagged};
    ghost use Rattle.ded_shared.specs.State.{first_state};
    ghost use Rattle.ded_shared.specs.Tags.{HasTag};
    ghost use Rattle.ded_shared.specs.TagTokens.{AreTokensOf};

    /// Sessions without open transactions over a catalogue without entries, whose relations have at most `limit`
    /// tuples, 1 to 1,000,000. Names are hashed with keys that are known to all.
    ///
    /// # Errors
    /// Out of memory.
    pub fn new(alloc: Global, limit: u32) -> Result<Shared, NoMemory>
        requires low { 1 ≤ limit }
        requires high { limit ≤ 1000000 }
        ensures first { IfOk result (λ s. state_of s ≡ first_state limit) }
        ensures log { IfOk result (λ s. RemembersNoneIdle s) }
    {
        Shared::hashed_with(alloc, limit, (0, 0))
    }

    /// The same, and names are hashed with these keys: where they are drawn at random, nobody can choose names that are
    /// slow to find.
    ///
    /// # Errors
    /// Out of memory.
    pub fn hashed_with(alloc: Global, limit: u32, keys: (u64, u64)) -> Result<Shared, NoMemory>
        requires low { 1 ≤ limit }
        requires high { limit ≤ 1000000 }
        ensures first { IfOk result (λ s. state_of s ≡ first_state limit) }
        ensures hashed { IfOk result (λ s. s.table.hashing ≡ keyed keys) }
        ensures log { IfOk result (λ s. RemembersNoneIdle s) }
    {
        Ok(Shared {
            catalogue: Catalogue::hashed_with(alloc, limit, keys),
            transactions: none_open(alloc)?,
            log: Vec::new(alloc),
            alloc,
        })
    }

    /// The shared catalogue. It doesn't allocate.
    pub fn catalogue(&self) -> &Catalogue
        ensures { catalogue_of result.now ≡ (state_of self.now).shared }
    {
        &self.catalogue
    }

    /// Answers the next tagged statement, and changes the state as the rules say. A statement that is refused changes
    /// nothing, but that the transaction of a commit that conflicts is given up. Where no transaction is open then, no
    /// changed name is remembered. Of `Long` and of `Cut` it doesn't allocate.
    pub fn step(&mut self, piece: Piece<'_>) -> SharedReply
        requires { IsShortPiece piece }
        ensures answered { StepsSharedPiece piece.entry (state_of self.old) (shared_form result) (state_of self.new) }
        ensures log { RemembersNoneIdle self.new }
    {
        let reply = self.step_piece(piece);
        self.forget();
        reply
    }

    /// Answers the next tagged statement, and may remember names that nobody asks for.
    fn step_piece(&mut self, piece: Piece<'_>) -> SharedReply
        requires { IsShortPiece piece }
        ensures { StepsSharedPiece piece.entry (state_of self.old) (shared_form result) (state_of self.new) }
    {
        match piece {
            Piece::Whole(bytes) => self.step_whole(bytes),
            Piece::Long => refused(Refusal::LongStatement),
            Piece::Cut => refused(Refusal::Unfinished),
        }
    }

    /// Answers the next whole piece.
    fn step_whole(&mut self, bytes: &[u8]) -> SharedReply
        requires { length bytes.now ≤ 65536 }
        ensures { StepsTagged bytes.now (state_of self.old) (shared_form result) (state_of self.new) }
    {
        match tokens(self.alloc, bytes) {
            Ok(tokens) => self.step_tokens(bytes, tokens.list()),
            Err(ParseFault::NotRead) => refused(Refusal::Syntax),
            Err(ParseFault::Memory) => refused(Refusal::Memory),
        }
    }

    /// Answers the next whole piece, of which these are the tokens.
    fn step_tokens(&mut self, bytes: &[u8], list: &[Token]) -> SharedReply
        requires tokens { AreTokens bytes.now list.now }
        requires short { length bytes.now ≤ 65536 }
        ensures { StepsTagged bytes.now (state_of self.old) (shared_form result) (state_of self.new) }
    {
        match tag_of(bytes, list) {
            Some(tag) => self.step_tagged(tag),
            None => refused(Refusal::Syntax),
        }
    }

    /// Answers the next whole piece, which has the tag.
    fn step_tagged(&mut self, tag: Tag<'_>) -> SharedReply
        requires low { 1 ≤ tag.session }
        requires high { tag.session ≤ 64 }
        requires short { length tag.rest.now ≤ 65536 }
        requires tokens { AreTokensOf tag.rest.now tag.bytes.now tag.tokens.now }
        ensures { (bytes : List ℕ) → length bytes ≤ 65536 → HasTag bytes tag.entry.session tag.entry.rest.now
            → StepsTagged bytes (state_of self.old) (shared_form result) (state_of self.new) }
    {
        match verb_of(tag.bytes, tag.tokens) {
            Some(Verb::Begin) => self.begin(tag.session),
            Some(Verb::Commit) => self.commit(tag.session),
            Some(Verb::Abort) => self.abort(tag.session),
            None => self.command(tag),
        }
    }
}

/// The refusal as a reply.
fn refused(refusal: Refusal) -> SharedReply
    ensures { shared_form result ≡ plain (refused refusal) }
{
    SharedReply::Plain(Reply::Refused(refusal))
}

/// A place for each session, without a transaction.
///
/// # Errors
/// Out of memory.
fn none_open(alloc: Global) -> Result<Vec<Option<Transaction>>, NoMemory>
    ensures { IfOk result (λ v. v.items ≡ replicate 64 None) }
{
    let mut places = Vec::new(alloc);
    for _ in 0..SESSIONS {
        places.push(None)?;
    }
    Ok(places)
}

/// Where the transaction of a session stands.
fn place_of(session: u32) -> usize
    requires { 1 ≤ session }
    ensures { result ≡ session - 1 }
{
    session as usize - 1
}
