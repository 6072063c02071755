//! A whole run of shared sessions: from the bytes of a source to the texts of a sink.
ghost use Rattle.std.specs.Prelude.{◌≡◌, ◌≢◌, ◌^◌, ◌⊎◌, ◌↔◌, false, true};
ghost use Rattle.ded_io.specs.Causes.{Rose};
ghost use Rattle.ded_dialogue.specs.Outcome.{Answered, Broken, Overlong, Unread};
ghost use Rattle.ded_shared.specs.Outcome.{shared_protocol};

use crate::laws;
use crate::shared::Shared;
use ded_dialogue::{Status, serve};
use ded_io::{Sink, Source};
use ded_model::limits;
use std::alloc::Global;

/// How a run of shared sessions ended.
pub type SharedStatus = Status;

/// All that the program does, which takes no words: reads an input to its end, and writes a reply to each tagged
/// statement. Names are hashed by the keys.
pub fn run_shared<S: Source, K: Sink>(
    alloc: Global,
    words: usize,
    keys: (u64, u64),
    source: &mut S,
    sink: &mut K,
) -> SharedStatus
    ensures bad_words { (result ≡ Status.BadWords) ↔ (words ≢ 0) }
    ensures no_words { result ≡ Status.BadWords → (source.new ≡ source.old) × (sink.new ≡ sink.old) }
    ensures done { result ≡ Status.Done →
        Answered (shared_protocol 100000) (2 ^ 40)
        (S.left source.old) (S.left source.new) (K.contents sink.old) (K.contents sink.new) false }
    ensures done_with_refusals { result ≡ Status.DoneWithRefusals →
        Answered (shared_protocol 100000) (2 ^ 40)
        (S.left source.old) (S.left source.new) (K.contents sink.old) (K.contents sink.new) true }
    ensures faultless { (result ≡ Status.Done) ⊎ (result ≡ Status.DoneWithRefusals) ⊎ (result ≡ Status.TooLong)
        → (S.faults source.new ≡ S.faults source.old) × (K.faults sink.new ≡ K.faults sink.old) }
    ensures read_fault { result ≡ Status.ReadFault
        → Rose (S.faults source.old) (S.faults source.new) × (K.faults sink.new ≡ K.faults sink.old) }
    ensures unread { result ≡ Status.ReadFault →
        Unread (shared_protocol 100000) (2 ^ 40)
        (S.left source.old) (S.left source.new) (K.contents sink.old) (K.contents sink.new) }
    ensures write_fault { result ≡ Status.WriteFault
        → Rose (K.faults sink.old) (K.faults sink.new) × (S.faults source.new ≡ S.faults source.old) }
    ensures broken { result ≡ Status.WriteFault →
        Broken (shared_protocol 100000)
        (S.left source.old) (S.left source.new) (S.last source.new) (K.contents sink.old) (K.contents sink.new) }
    ensures no_memory { result ≡ Status.NoMemory → (source.new ≡ source.old) × (sink.new ≡ sink.old) }
    ensures overlong { result ≡ Status.TooLong →
        Overlong (shared_protocol 100000) (2 ^ 40)
        (S.left source.old) (S.left source.new) (K.contents sink.old) (K.contents sink.new) }
    ensures ends { (Rose (S.faults source.old) (S.faults source.new) → ⊥)
        → (Rose (K.faults sink.old) (K.faults sink.new) → ⊥) → result ≢ Status.NoMemory → result ≢ Status.TooLong
        → result ≢ Status.BadWords → (result ≡ Status.Done) ⊎ (result ≡ Status.DoneWithRefusals) }
{
    if words != 0 {
        return Status::BadWords;
    }
    let Ok(shared) = Shared::hashed_with(alloc, limits::DEFAULT_TUPLES, keys) else {
        return Status::NoMemory;
    };
    laws::serial();
    laws::transactions();
    serve(alloc, shared, limits::INPUT_BYTES, source, sink)
}
