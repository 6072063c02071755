//! A script's statements, answered as their last bytes come.
ghost use Rattle.std.specs.Prelude.{◌≡◌, []};
ghost use Rattle.ded_io.specs.Causes.{HasCause};
ghost use Rattle.ded_lex.specs.Pieces.{IsShortPiece};
ghost use Rattle.ded_dialogue.specs.Streams.{IsReplied};

use crate::answering::Answering;
use crate::pending::{Pending, put};
use ded_io::{Failed, Sink};
use ded_lex::{Fed, Piece, Splitter, Unended};
use ded_model::memory::NoMemory;
use std::alloc::Global;

/// The statement that is coming in, the machine that answers it when it ends, whether some reply so far is a refusal,
/// and how many of the next replies aren't written.
#[derive(Drop)]
pub struct Dialogue<A> {
    splitter: Splitter,
    pub(crate) machine: A,
    refused: bool,
    silent: u32,
}

impl<A: Drop> Dialogue<A> {
    ghost use Rattle.std.specs.Prelude.{IfOk};
    ghost use Rattle.ded_dialogue.specs.Streams.{IsFresh};

    /// A dialogue with the machine to which nothing came in yet, and whose first `silent` replies won't be written.
    ///
    /// # Errors
    /// Out of memory for the splitter's buffer.
    pub fn new(alloc: Global, machine: A, silent: u32) -> Result<Dialogue<A>, NoMemory>
        ensures { IfOk result (IsFresh machine silent) }
    {
        Ok(Dialogue {
            splitter: Splitter::new(alloc)?,
            machine,
            refused: false,
            silent,
        })
    }
}

impl<A> Dialogue<A> {
    ghost use Rattle.std.specs.Prelude.{◌≡◌};

    /// The machine, as the statements that were answered left it.
    pub fn into_machine(self) -> A
        ensures { result ≡ self.machine }
    {
        self.machine
    }

    /// Whether some reply so far is a refusal.
    pub fn refused(&self) -> bool
        ensures { result ≡ self.now.refused }
    {
        self.refused
    }
}

impl<A: Answering> Dialogue<A> {
    ghost use Rattle.std.specs.Prelude.{◌≡◌, ◌∷◌, [], List, ℕ, Bool, Option, IfOk, OnErr};
    ghost use Rattle.ded_io.specs.Causes.{HasCause};
    ghost use Rattle.ded_dialogue.specs.Outcome.{Interrupted};
    ghost use Rattle.ded_dialogue.specs.Hearing.{heard_from};
    ghost use Rattle.ded_dialogue.specs.Streams.{Streamed, Grows, Breaks, GrowsBehind, BreaksBehind, Ends};

    /// Takes the next byte, and answers the statement that ends there, where one does.
    fn feed_byte<K: Sink>(
        &mut self,
        byte: u8,
        pending: &mut Pending,
        sink: &mut K,
    ) -> Result<(), Failed>
        ensures grows { IfOk result (λ _. GrowsBehind A.answers A.state self.old self.new
            (K.contents sink.old) pending.old.bytes.items (K.contents sink.new) pending.new.bytes.items (byte ∷ [])) }
        ensures breaks { OnErr result (BreaksBehind A.answers A.state self.old
            (K.contents sink.old) pending.old.bytes.items (K.contents sink.new) (byte ∷ [])) }
        ensures cause { HasCause (K.faults sink.old) (K.faults sink.new) result }
    {
        match self.splitter.feed(byte) {
            Fed::More => Ok(()),
            Fed::Ended => {
                let piece = Piece::Whole(self.splitter.piece());
                answer(
                    &mut self.machine,
                    piece,
                    &mut self.refused,
                    &mut self.silent,
                    pending,
                    sink,
                )
            }
            Fed::EndedLong => answer(
                &mut self.machine,
                Piece::Long,
                &mut self.refused,
                &mut self.silent,
                pending,
                sink,
            ),
        }
    }

    /// Takes the next bytes, and answers the statements that end in them. All their replies are written when it is
    /// done; those of one line go to the sink together.
    ///
    /// # Errors
    /// `Failed` only where the sink's count of faults rose.
    pub fn feed<K: Sink>(&mut self, bytes: &[u8], sink: &mut K) -> Result<(), Failed>
        ensures grows { IfOk result (λ _. Grows A.answers A.state self.old self.new (K.contents sink.old)
            (K.contents sink.new) bytes.now) }
        ensures breaks { OnErr result (Breaks A.answers A.state self.old (K.contents sink.old)
            (K.contents sink.new) bytes.now) }
        ensures cause { HasCause (K.faults sink.old) (K.faults sink.new) result }
    {
        let mut pending = Pending::new();
        for byte in bytes {
            self.feed_byte(*byte, &mut pending, sink)?;
        }
        pending.flush(sink)
    }

    /// Answers the statement that the end of the script cuts, where there is one.
    ///
    /// # Errors
    /// `Failed` only where the sink's count of faults rose.
    pub fn finish<K: Sink>(&mut self, sink: &mut K) -> Result<(), Failed>
        ensures ends { IfOk result (λ _. Ends A.answers A.state self.old (K.contents sink.old) (K.contents sink.new)
            self.new.refused (A.state self.new.machine)) }
        ensures stopped { OnErr result ((start : A.State) (silent : ℕ) (before : Bool) (taken : List ℕ)
            (contents : Option (List ℕ)) →
            Streamed A.answers A.state start silent before self.old taken contents (K.contents sink.old) →
            Interrupted (heard_from A.answers start) silent taken contents (K.contents sink.new)) }
        ensures cause { HasCause (K.faults sink.old) (K.faults sink.new) result }
    {
        match self.splitter.finish() {
            Unended::Blank => Ok(()),
            Unended::Cut => answer_at_once(
                &mut self.machine,
                Piece::Cut,
                &mut self.refused,
                &mut self.silent,
                sink,
            ),
            Unended::CutLong => answer_at_once(
                &mut self.machine,
                Piece::Long,
                &mut self.refused,
                &mut self.silent,
                sink,
            ),
        }
    }
}

/// Answers a piece as [`answer`] does, with nothing that waits before it or behind it.
fn answer_at_once<A: Answering, K: Sink>(
    machine: &mut A,
    piece: Piece<'_>,
    refused: &mut bool,
    silent: &mut u32,
    sink: &mut K,
) -> Result<(), Failed>
    requires { IsShortPiece piece }
    ensures replied { IsReplied A.answers piece.entry (A.state machine.old)
        (A.state machine.new) refused.old refused.new silent.old silent.new
        (K.contents sink.old) [] (K.contents sink.new) [] result }
    ensures cause { HasCause (K.faults sink.old) (K.faults sink.new) result }
{
    let mut pending = Pending::new();
    answer(machine, piece, refused, silent, &mut pending, sink)?;
    pending.flush(sink)
}

/// Answers a piece, notes whether the reply is a refusal, and puts it behind those that wait, unless it is one of those
/// that aren't written.
fn answer<A: Answering, K: Sink>(
    machine: &mut A,
    piece: Piece<'_>,
    refused: &mut bool,
    silent: &mut u32,
    pending: &mut Pending,
    sink: &mut K,
) -> Result<(), Failed>
    requires { IsShortPiece piece }
    ensures replied { IsReplied A.answers piece.entry (A.state machine.old)
        (A.state machine.new) refused.old refused.new silent.old silent.new
        (K.contents sink.old) pending.old.bytes.items (K.contents sink.new) pending.new.bytes.items result }
    ensures cause { HasCause (K.faults sink.old) (K.faults sink.new) result }
{
    let reply = machine.answer(piece);
    *refused |= A::is_refusal(&reply);
    if *silent > 0 {
        *silent -= 1;
        return Ok(());
    }
    put::<A, K>(&reply, pending, sink)
}
