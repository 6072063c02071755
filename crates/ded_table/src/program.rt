//! A whole run: from the bytes of a source to the texts of a sink.
ghost use Rattle.std.specs.Prelude.{◌≡◌, ◌≢◌, ◌≤◌, ◌^◌, ◌⊎◌, false, true};
ghost use Rattle.ded_io.specs.Causes.{Rose};
ghost use Rattle.ded_dialogue.specs.Outcome.{Answered, Broken, Overlong, Unread};
ghost use Rattle.ded_dialogue.specs.Hearing.{heard_from};
ghost use Rattle.ded_run.specs.OneSession.{opening};
ghost use Rattle.ded_run.specs.Words.{texts_in};
ghost use Rattle.ded_table.specs.Tabled.{MayTable};
ghost use Rattle.ded_table.specs.Wording.{AreRefused, WithLimit};

use crate::session::TableSession;
use ded_dialogue::Status;
use ded_io::{Sink, Source};
use ded_model::fault::ParseFault;
use ded_model::limits;
use ded_run::{Setup, Words, options_in};
use std::alloc::Global;

/// Reads a script to its end, and writes a reply to each statement, tuples as tables.
pub fn serve<S: Source, K: Sink>(
    alloc: Global,
    setup: &Setup,
    source: &mut S,
    sink: &mut K,
) -> Status
    requires low { 1 ≤ setup.now.limit }
    requires high { setup.now.limit ≤ 1000000 }
    ensures done { result ≡ Status.Done →
        Answered (heard_from MayTable (opening setup.now.limit)) setup.now.input_limit
        (S.left source.old) (S.left source.new) (K.contents sink.old) (K.contents sink.new) false }
    ensures done_with_refusals { result ≡ Status.DoneWithRefusals →
        Answered (heard_from MayTable (opening setup.now.limit)) setup.now.input_limit
        (S.left source.old) (S.left source.new) (K.contents sink.old) (K.contents sink.new) true }
    ensures faultless { (result ≡ Status.Done) ⊎ (result ≡ Status.DoneWithRefusals) ⊎ (result ≡ Status.TooLong)
        → (S.faults source.new ≡ S.faults source.old) × (K.faults sink.new ≡ K.faults sink.old) }
    ensures bad_words { result ≢ Status.BadWords }
    ensures read_fault { result ≡ Status.ReadFault
        → Rose (S.faults source.old) (S.faults source.new) × (K.faults sink.new ≡ K.faults sink.old) }
    ensures unread { result ≡ Status.ReadFault →
        Unread (heard_from MayTable (opening setup.now.limit)) setup.now.input_limit
        (S.left source.old) (S.left source.new) (K.contents sink.old) (K.contents sink.new) }
    ensures write_fault { result ≡ Status.WriteFault
        → Rose (K.faults sink.old) (K.faults sink.new) × (S.faults source.new ≡ S.faults source.old) }
    ensures broken { result ≡ Status.WriteFault →
        Broken (heard_from MayTable (opening setup.now.limit))
        (S.left source.old) (S.left source.new) (S.last source.new) (K.contents sink.old) (K.contents sink.new) }
    ensures no_memory { result ≡ Status.NoMemory → (source.new ≡ source.old) × (sink.new ≡ sink.old) }
    ensures overlong { result ≡ Status.TooLong →
        Overlong (heard_from MayTable (opening setup.now.limit)) setup.now.input_limit
        (S.left source.old) (S.left source.new) (K.contents sink.old) (K.contents sink.new) }
    ensures ends { (Rose (S.faults source.old) (S.faults source.new) → ⊥)
        → (Rose (K.faults sink.old) (K.faults sink.new) → ⊥) → result ≢ Status.NoMemory → result ≢ Status.TooLong
        → (result ≡ Status.Done) ⊎ (result ≡ Status.DoneWithRefusals) }
{
    let session = TableSession::new(alloc, setup.limit, setup.keys);
    ded_dialogue::serve(alloc, session, setup.input_limit, source, sink)
}

/// All that the program does: reads the words, and then serves. Words that ask for a script that is made aren't
/// accepted. Names are hashed by the keys.
pub fn run<S: Source, K: Sink>(
    alloc: Global,
    words: &Words,
    keys: (u64, u64),
    source: &mut S,
    sink: &mut K,
) -> Status
    ensures bad_words { result ≡ Status.BadWords → AreRefused (texts_in words.now) }
    ensures no_words { result ≡ Status.BadWords → (source.new ≡ source.old) × (sink.new ≡ sink.old) }
    ensures done { result ≡ Status.Done → WithLimit (texts_in words.now) (λ limit.
        Answered (heard_from MayTable (opening limit)) (2 ^ 40)
        (S.left source.old) (S.left source.new) (K.contents sink.old) (K.contents sink.new) false) }
    ensures done_with_refusals { result ≡ Status.DoneWithRefusals → WithLimit (texts_in words.now) (λ limit.
        Answered (heard_from MayTable (opening limit)) (2 ^ 40)
        (S.left source.old) (S.left source.new) (K.contents sink.old) (K.contents sink.new) true) }
    ensures faultless { (result ≡ Status.Done) ⊎ (result ≡ Status.DoneWithRefusals) ⊎ (result ≡ Status.TooLong)
        → (S.faults source.new ≡ S.faults source.old) × (K.faults sink.new ≡ K.faults sink.old) }
    ensures read_fault { result ≡ Status.ReadFault
        → Rose (S.faults source.old) (S.faults source.new) × (K.faults sink.new ≡ K.faults sink.old) }
    ensures unread { result ≡ Status.ReadFault → WithLimit (texts_in words.now) (λ limit.
        Unread (heard_from MayTable (opening limit)) (2 ^ 40)
        (S.left source.old) (S.left source.new) (K.contents sink.old) (K.contents sink.new)) }
    ensures write_fault { result ≡ Status.WriteFault
        → Rose (K.faults sink.old) (K.faults sink.new) × (S.faults source.new ≡ S.faults source.old) }
    ensures broken { result ≡ Status.WriteFault → WithLimit (texts_in words.now) (λ limit.
        Broken (heard_from MayTable (opening limit))
        (S.left source.old) (S.left source.new) (S.last source.new) (K.contents sink.old) (K.contents sink.new)) }
    ensures no_memory { result ≡ Status.NoMemory → (source.new ≡ source.old) × (sink.new ≡ sink.old) }
    ensures overlong { result ≡ Status.TooLong → WithLimit (texts_in words.now) (λ limit.
        Overlong (heard_from MayTable (opening limit)) (2 ^ 40)
        (S.left source.old) (S.left source.new) (K.contents sink.old) (K.contents sink.new)) }
    ensures ends { (Rose (S.faults source.old) (S.faults source.new) → ⊥)
        → (Rose (K.faults sink.old) (K.faults sink.new) → ⊥) → result ≢ Status.NoMemory → result ≢ Status.TooLong
        → result ≢ Status.BadWords → (result ≡ Status.Done) ⊎ (result ≡ Status.DoneWithRefusals) }
{
    let options = match options_in(alloc, &words.list) {
        Ok(options) => options,
        Err(ParseFault::NotRead) => return Status::BadWords,
        Err(ParseFault::Memory) => return Status::NoMemory,
    };
    let setup = Setup {
        limit: options.limit,
        input_limit: limits::INPUT_BYTES,
        keys,
    };
    match options.size {
        Some(_) => Status::BadWords,
        None => serve(alloc, &setup, source, sink),
    }
}
