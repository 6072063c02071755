//! A whole run: from the bytes of a source to the texts of a sink.
ghost use Rattle.std.specs.Prelude.{◌≡◌, ◌≢◌, ◌≤◌, ◌^◌, ◌⊎◌, false, true, MatchOption, None};
ghost use Rattle.ded_io.specs.Causes.{Rose};
ghost use Rattle.ded_dialogue.specs.Outcome.{Answered, Broken, Overlong, Unread};
ghost use Rattle.ded_run.specs.Made.{HalfMade, Made};
ghost use Rattle.ded_run.specs.OneSession.{session_protocol};
ghost use Rattle.ded_run.specs.declared.words.Options.{Options};
ghost use Rattle.ded_run.specs.Words.{AcceptedWords, WithOptions, texts_in};

use crate::made::feed_script;
use crate::one_session::OneSession;
use crate::words::{Words, options_in};
use ded_dialogue::{Dialogue, Status, conclude};
use ded_io::{Failed, Sink, Source};
use ded_model::fault::ParseFault;
use ded_model::limits;
use std::alloc::Global;

/// The limits of a run.
#[derive(Clone, Copy, Debug, PartialEq, Eq)]
pub struct Setup {
    /// The most tuples that a relation holds.
    pub limit: u32,
    /// The most bytes that a script has.
    pub input_limit: u64,
    /// The keys by which names are hashed. They change no reply; where they are drawn at random, nobody can choose
    /// names that are slow to find.
    pub keys: (u64, u64),
}

/// Reads a script to its end, and writes a reply to each statement.
///
/// What ended in the bytes of a read is answered before more is read: at whichever write the sink fails, the replies to
/// all that ended before the last read are written (clause `broken`).
pub fn serve<S: Source, K: Sink>(
    alloc: Global,
    setup: &Setup,
    source: &mut S,
    sink: &mut K,
) -> Status
    requires low { 1 ≤ setup.now.limit }
    requires high { setup.now.limit ≤ 1000000 }
    requires input_low { 1 ≤ setup.now.input_limit }
    requires input_high { setup.now.input_limit ≤ 2 ^ 40 }
    ensures done { result ≡ Status.Done →
        Answered (session_protocol setup.now.limit) setup.now.input_limit
        (S.left source.old) (S.left source.new) (K.contents sink.old) (K.contents sink.new) false }
    ensures done_with_refusals { result ≡ Status.DoneWithRefusals →
        Answered (session_protocol setup.now.limit) setup.now.input_limit
        (S.left source.old) (S.left source.new) (K.contents sink.old) (K.contents sink.new) true }
    ensures faultless { (result ≡ Status.Done) ⊎ (result ≡ Status.DoneWithRefusals) ⊎ (result ≡ Status.TooLong)
        → (S.faults source.new ≡ S.faults source.old) × (K.faults sink.new ≡ K.faults sink.old) }
    ensures bad_words { result ≢ Status.BadWords }
    ensures read_fault { result ≡ Status.ReadFault
        → Rose (S.faults source.old) (S.faults source.new) × (K.faults sink.new ≡ K.faults sink.old) }
    ensures unread { result ≡ Status.ReadFault →
        Unread (session_protocol setup.now.limit) setup.now.input_limit
        (S.left source.old) (S.left source.new) (K.contents sink.old) (K.contents sink.new) }
    ensures write_fault { result ≡ Status.WriteFault
        → Rose (K.faults sink.old) (K.faults sink.new) × (S.faults source.new ≡ S.faults source.old) }
    ensures broken { result ≡ Status.WriteFault →
        Broken (session_protocol setup.now.limit)
        (S.left source.old) (S.left source.new) (S.last source.new) (K.contents sink.old) (K.contents sink.new) }
    ensures no_memory { result ≡ Status.NoMemory → (source.new ≡ source.old) × (sink.new ≡ sink.old) }
    ensures overlong { result ≡ Status.TooLong →
        Overlong (session_protocol setup.now.limit) setup.now.input_limit
        (S.left source.old) (S.left source.new) (K.contents sink.old) (K.contents sink.new) }
    ensures ends { (Rose (S.faults source.old) (S.faults source.new) → ⊥)
        → (Rose (K.faults sink.old) (K.faults sink.new) → ⊥) → result ≢ Status.NoMemory → result ≢ Status.TooLong
        → (result ≡ Status.Done) ⊎ (result ≡ Status.DoneWithRefusals) }
{
    let session = OneSession::new(alloc, setup.limit, setup.keys);
    ded_dialogue::serve(alloc, session, setup.input_limit, source, sink)
}

/// Runs the made script of the size, whose statements come one by one, and writes the replies to its questions alone.
///
/// The script has `size * size + size + 3` statements that set up, and five questions.
pub fn make<K: Sink>(alloc: Global, setup: &Setup, size: u32, sink: &mut K) -> Status
    requires low { 1 ≤ setup.now.limit }
    requires high { setup.now.limit ≤ 1000000 }
    requires size_low { 1 ≤ size }
    requires size_high { size ≤ 100 }
    ensures done { result ≡ Status.Done → Made setup.now.limit size (K.contents sink.old) (K.contents sink.new) false }
    ensures done_with_refusals { result ≡ Status.DoneWithRefusals
        → Made setup.now.limit size (K.contents sink.old) (K.contents sink.new) true }
    ensures kinds { (result ≢ Status.ReadFault) × (result ≢ Status.TooLong) × (result ≢ Status.BadWords) }
    ensures faultless { (result ≡ Status.Done) ⊎ (result ≡ Status.DoneWithRefusals)
        → K.faults sink.new ≡ K.faults sink.old }
    ensures write_fault { result ≡ Status.WriteFault → Rose (K.faults sink.old) (K.faults sink.new) }
    ensures broken { result ≡ Status.WriteFault → HalfMade setup.now.limit size
        (K.contents sink.old) (K.contents sink.new) }
    ensures no_memory { result ≡ Status.NoMemory → sink.new ≡ sink.old }
    ensures ends { (Rose (K.faults sink.old) (K.faults sink.new) → ⊥) → result ≢ Status.NoMemory
        → (result ≡ Status.Done) ⊎ (result ≡ Status.DoneWithRefusals) }
{
    let silent = size * size + size + 3;
    let session = OneSession::new(alloc, setup.limit, setup.keys);
    let Ok(mut dialogue) = Dialogue::new(alloc, session, silent) else {
        return Status::NoMemory;
    };
    if let Err(Failed) = feed_script(&mut dialogue, size, sink) {
        return Status::WriteFault;
    }
    conclude(&mut dialogue, sink)
}

/// All that the program does: reads the words, and then serves, or makes a script where they ask for one. Names are
/// hashed by the keys.
pub fn run<S: Source, K: Sink>(
    alloc: Global,
    words: &Words,
    keys: (u64, u64),
    source: &mut S,
    sink: &mut K,
) -> Status
    ensures bad_words { result ≡ Status.BadWords → (options : Options)
        → AcceptedWords (texts_in words.now) options → ⊥ }
    ensures no_options { ((options : Options) → AcceptedWords (texts_in words.now) options → ⊥)
        → (result ≡ Status.BadWords) ⊎ (result ≡ Status.NoMemory) }
    ensures no_words { result ≡ Status.BadWords → (source.new ≡ source.old) × (sink.new ≡ sink.old) }
    ensures done { result ≡ Status.Done → WithOptions (texts_in words.now) (λ options. MatchOption options.size
        (Answered (session_protocol options.limit) (2 ^ 40)
        (S.left source.old) (S.left source.new) (K.contents sink.old) (K.contents sink.new) false)
        (λ size. Made options.limit size (K.contents sink.old) (K.contents sink.new) false
        × (source.new ≡ source.old))) }
    ensures done_with_refusals { result ≡ Status.DoneWithRefusals
        → WithOptions (texts_in words.now) (λ options. MatchOption options.size
        (Answered (session_protocol options.limit) (2 ^ 40)
        (S.left source.old) (S.left source.new) (K.contents sink.old) (K.contents sink.new) true)
        (λ size. Made options.limit size (K.contents sink.old) (K.contents sink.new) true
        × (source.new ≡ source.old))) }
    ensures faultless { (result ≡ Status.Done) ⊎ (result ≡ Status.DoneWithRefusals) ⊎ (result ≡ Status.TooLong)
        → (S.faults source.new ≡ S.faults source.old) × (K.faults sink.new ≡ K.faults sink.old) }
    ensures read_fault { result ≡ Status.ReadFault
        → Rose (S.faults source.old) (S.faults source.new) × (K.faults sink.new ≡ K.faults sink.old) }
    ensures unread { result ≡ Status.ReadFault → WithOptions (texts_in words.now) (λ options.
        (options.size ≡ None) × Unread (session_protocol options.limit) (2 ^ 40)
        (S.left source.old) (S.left source.new) (K.contents sink.old) (K.contents sink.new)) }
    ensures write_fault { result ≡ Status.WriteFault
        → Rose (K.faults sink.old) (K.faults sink.new) × (S.faults source.new ≡ S.faults source.old) }
    ensures broken { result ≡ Status.WriteFault → WithOptions (texts_in words.now) (λ options. MatchOption options.size
        (Broken (session_protocol options.limit)
        (S.left source.old) (S.left source.new) (S.last source.new) (K.contents sink.old) (K.contents sink.new))
        (λ size. HalfMade options.limit size (K.contents sink.old) (K.contents sink.new) × (source.new ≡ source.old))) }
    ensures no_memory { result ≡ Status.NoMemory → (source.new ≡ source.old) × (sink.new ≡ sink.old) }
    ensures overlong { result ≡ Status.TooLong → WithOptions (texts_in words.now) (λ options.
        (options.size ≡ None) × Overlong (session_protocol options.limit) (2 ^ 40)
        (S.left source.old) (S.left source.new) (K.contents sink.old) (K.contents sink.new)) }
    ensures ends { (Rose (S.faults source.old) (S.faults source.new) → ⊥)
        → (Rose (K.faults sink.old) (K.faults sink.new) → ⊥) → result ≢ Status.NoMemory → result ≢ Status.TooLong
        → result ≢ Status.BadWords → (result ≡ Status.Done) ⊎ (result ≡ Status.DoneWithRefusals) }
{
    let options = match options_in(alloc, &words.list) {
        Ok(options) => options,
        Err(ParseFault::NotRead) => return Status::BadWords,
        Err(ParseFault::Memory) => return Status::NoMemory,
    };
    let setup = Setup {
        limit: options.limit,
        input_limit: limits::INPUT_BYTES,
        keys,
    };
    match options.size {
        Some(size) => make(alloc, &setup, size, sink),
        None => serve(alloc, &setup, source, sink),
    }
}
