//! A whole run: from the bytes of a source to the texts of a sink.
ghost use Rattle.std.specs.Prelude.{◌≡◌, ◌≢◌, ◌⊎◌, Bool, false, true, ℕ, List, Option};
ghost use Rattle.ded_io.specs.Causes.{Rose};
ghost use Rattle.ded_dialogue.specs.Outcome.{Answered, AnsweredIn, Broken, ConcludedIn, Interrupted, Overlong, Unread};
ghost use Rattle.ded_dialogue.specs.Hearing.{heard_from};
ghost use Rattle.ded_dialogue.specs.Streams.{IsFresh, Streamed};

use crate::answering::Answering;
use crate::dialogue::Dialogue;
use crate::status::Status;
use ded_io::{Failed, Sink, Source};
use std::alloc::Global;

const READ_AT_ONCE: usize = 4_096;

/// Reads an input of at most `input_limit` bytes to its end, and writes the machine's reply to each statement.
///
/// What ended in the bytes of a read is answered before more is read: at whichever write the sink fails, the replies to
/// all that ended before the last read are written (clause `broken`).
pub fn serve<A: Answering + Drop, S: Source, K: Sink>(
    alloc: Global,
    machine: A,
    input_limit: u64,
    source: &mut S,
    sink: &mut K,
) -> Status
    ensures done { result ≡ Status.Done →
        Answered (heard_from A.answers (A.state machine)) input_limit
        (S.left source.old) (S.left source.new) (K.contents sink.old) (K.contents sink.new) false }
    ensures done_with_refusals { result ≡ Status.DoneWithRefusals →
        Answered (heard_from A.answers (A.state machine)) input_limit
        (S.left source.old) (S.left source.new) (K.contents sink.old) (K.contents sink.new) true }
    ensures faultless { (result ≡ Status.Done) ⊎ (result ≡ Status.DoneWithRefusals) ⊎ (result ≡ Status.TooLong)
        → (S.faults source.new ≡ S.faults source.old) × (K.faults sink.new ≡ K.faults sink.old) }
    ensures bad_words { result ≢ Status.BadWords }
    ensures read_fault { result ≡ Status.ReadFault
        → Rose (S.faults source.old) (S.faults source.new) × (K.faults sink.new ≡ K.faults sink.old) }
    ensures unread { result ≡ Status.ReadFault →
        Unread (heard_from A.answers (A.state machine)) input_limit
        (S.left source.old) (S.left source.new) (K.contents sink.old) (K.contents sink.new) }
    ensures write_fault { result ≡ Status.WriteFault
        → Rose (K.faults sink.old) (K.faults sink.new) × (S.faults source.new ≡ S.faults source.old) }
    ensures broken { result ≡ Status.WriteFault →
        Broken (heard_from A.answers (A.state machine))
        (S.left source.old) (S.left source.new) (S.last source.new) (K.contents sink.old) (K.contents sink.new) }
    ensures no_memory { result ≡ Status.NoMemory → (source.new ≡ source.old) × (sink.new ≡ sink.old) }
    ensures overlong { result ≡ Status.TooLong →
        Overlong (heard_from A.answers (A.state machine)) input_limit
        (S.left source.old) (S.left source.new) (K.contents sink.old) (K.contents sink.new) }
    ensures ends { (Rose (S.faults source.old) (S.faults source.new) → ⊥)
        → (Rose (K.faults sink.old) (K.faults sink.new) → ⊥) → result ≢ Status.NoMemory → result ≢ Status.TooLong
        → (result ≡ Status.Done) ⊎ (result ≡ Status.DoneWithRefusals) }
{
    let Ok(mut dialogue) = Dialogue::new(alloc, machine, 0) else {
        return Status::NoMemory;
    };
    serve_dialogue(&mut dialogue, input_limit, source, sink)
}

/// Reads an input of at most `input_limit` bytes to its end as [`serve`] does, with a dialogue to which nothing came in
/// yet. The dialogue's machine is then as the last statement left it.
pub fn serve_dialogue<A: Answering, S: Source, K: Sink>(
    dialogue: &mut Dialogue<A>,
    input_limit: u64,
    source: &mut S,
    sink: &mut K,
) -> Status
    requires fresh { IsFresh dialogue.old.machine 0 dialogue.old }
    ensures done { result ≡ Status.Done →
        AnsweredIn (heard_from A.answers (A.state dialogue.old.machine)) input_limit
        (S.left source.old) (S.left source.new) (K.contents sink.old) (K.contents sink.new) false
        (A.state dialogue.new.machine) }
    ensures done_with_refusals { result ≡ Status.DoneWithRefusals →
        AnsweredIn (heard_from A.answers (A.state dialogue.old.machine)) input_limit
        (S.left source.old) (S.left source.new) (K.contents sink.old) (K.contents sink.new) true
        (A.state dialogue.new.machine) }
    ensures faultless { (result ≡ Status.Done) ⊎ (result ≡ Status.DoneWithRefusals) ⊎ (result ≡ Status.TooLong)
        → (S.faults source.new ≡ S.faults source.old) × (K.faults sink.new ≡ K.faults sink.old) }
    ensures bad_words { result ≢ Status.BadWords }
    ensures memory { result ≢ Status.NoMemory }
    ensures read_fault { result ≡ Status.ReadFault
        → Rose (S.faults source.old) (S.faults source.new) × (K.faults sink.new ≡ K.faults sink.old) }
    ensures unread { result ≡ Status.ReadFault →
        Unread (heard_from A.answers (A.state dialogue.old.machine)) input_limit
        (S.left source.old) (S.left source.new) (K.contents sink.old) (K.contents sink.new) }
    ensures write_fault { result ≡ Status.WriteFault
        → Rose (K.faults sink.old) (K.faults sink.new) × (S.faults source.new ≡ S.faults source.old) }
    ensures broken { result ≡ Status.WriteFault →
        Broken (heard_from A.answers (A.state dialogue.old.machine))
        (S.left source.old) (S.left source.new) (S.last source.new) (K.contents sink.old) (K.contents sink.new) }
    ensures overlong { result ≡ Status.TooLong →
        Overlong (heard_from A.answers (A.state dialogue.old.machine)) input_limit
        (S.left source.old) (S.left source.new) (K.contents sink.old) (K.contents sink.new) }
    ensures ends { (Rose (S.faults source.old) (S.faults source.new) → ⊥)
        → (Rose (K.faults sink.old) (K.faults sink.new) → ⊥) → result ≢ Status.TooLong
        → (result ≡ Status.Done) ⊎ (result ≡ Status.DoneWithRefusals) }
{
    let mut buffer = [0u8; READ_AT_ONCE];
    let mut room = input_limit;
    loop {
        let Ok(count) = source.read(&mut buffer) else {
            return Status::ReadFault;
        };
        if count == 0 {
            return conclude(dialogue, sink);
        }
        let within = room.min(count as u64) as usize;
        if let Err(Failed) = dialogue.feed(&buffer[..within], sink) {
            return Status::WriteFault;
        }
        if within < count {
            return Status::TooLong;
        }
        room -= count as u64;
    }
}

/// Answers the last statement of an input that ended, where the end cuts one, and says how the run ended.
pub fn conclude<A: Answering, K: Sink>(dialogue: &mut Dialogue<A>, sink: &mut K) -> Status
    ensures kinds { (result ≡ Status.Done) ⊎ (result ≡ Status.DoneWithRefusals) ⊎ (result ≡ Status.WriteFault) }
    ensures done { result ≡ Status.Done → (start : A.State) (silent : ℕ) (taken : List ℕ) (contents : Option (List ℕ)) →
        Streamed A.answers A.state start silent false dialogue.old taken contents (K.contents sink.old) →
        ConcludedIn (heard_from A.answers start) silent taken contents (K.contents sink.new) false
        (A.state dialogue.new.machine) }
    ensures done_with_refusals { result ≡ Status.DoneWithRefusals
        → (start : A.State) (silent : ℕ) (taken : List ℕ) (contents : Option (List ℕ)) →
        Streamed A.answers A.state start silent false dialogue.old taken contents (K.contents sink.old) →
        ConcludedIn (heard_from A.answers start) silent taken contents (K.contents sink.new) true
        (A.state dialogue.new.machine) }
    ensures faultless { (result ≡ Status.Done) ⊎ (result ≡ Status.DoneWithRefusals)
        → K.faults sink.new ≡ K.faults sink.old }
    ensures broken { result ≡ Status.WriteFault → (start : A.State) (silent : ℕ) (before : Bool) (taken : List ℕ)
        (contents : Option (List ℕ)) →
        Streamed A.answers A.state start silent before dialogue.old taken contents (K.contents sink.old) →
        Interrupted (heard_from A.answers start) silent taken contents (K.contents sink.new) }
    ensures write_fault { result ≡ Status.WriteFault → Rose (K.faults sink.old) (K.faults sink.new) }
{
    match dialogue.finish(sink) {
        Ok(()) if dialogue.refused() => Status::DoneWithRefusals,
        Ok(()) => Status::Done,
        Err(Failed) => Status::WriteFault,
    }
}
