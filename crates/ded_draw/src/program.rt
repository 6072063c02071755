//! A whole run: from the bytes of a source to the text of a picture in a sink.
ghost use Rattle.std.specs.Prelude.{◌≡◌, ◌≢◌, ◌≤◌, ◌⊎◌, ◌^◌, false, true, map};
ghost use Rattle.ded_io.specs.Causes.{Rose};
ghost use Rattle.ded_run.specs.Words.{texts_in};
ghost use Rattle.ded_session.specs.Answered.{reply_form};
ghost use Rattle.ded_draw.specs.Outcome.{HalfPictured, HalfWritten, IsOverlong, Pictured, Written};
ghost use Rattle.ded_draw.specs.Words.{AcceptedWords, WithOptions};
ghost use Rattle.ded_draw.specs.declared.words.DrawOptions.{DrawOptions};

use crate::gathering::Gathering;
use crate::words::{DrawOptions, options_in};
use ded_dialogue::{Dialogue, serve_dialogue};
use ded_drawing::{Style, drawing_of};
use ded_io::{Failed, Sink, Source, SureSink, send};
use ded_model::fault::ParseFault;
use ded_model::limits;
use ded_run::{Setup, Status, Words};
use ded_session::Reply;
use ded_svg::picture_text;
use std::alloc::Global;

/// Reads a script to its end, and writes the picture of what the replies to its statements tell.
pub fn serve<S: Source, K: Sink>(
    alloc: Global,
    setup: &Setup,
    style: &Style,
    source: &mut S,
    sink: &mut K,
) -> Status
    requires low { 1 ≤ setup.now.limit }
    requires high { setup.now.limit ≤ 1000000 }
    requires width { style.now.width ≤ 10000 }
    ensures done { result ≡ Status.Done → Pictured setup.now.limit setup.now.input_limit style.now (S.left source.old)
        (S.left source.new) (K.contents sink.old) (K.contents sink.new) false }
    ensures done_with_refusals { result ≡ Status.DoneWithRefusals
        → Pictured setup.now.limit setup.now.input_limit style.now (S.left source.old) (S.left source.new)
        (K.contents sink.old) (K.contents sink.new) true }
    ensures faultless { (result ≡ Status.Done) ⊎ (result ≡ Status.DoneWithRefusals)
        → (S.faults source.new ≡ S.faults source.old) × (K.faults sink.new ≡ K.faults sink.old) }
    ensures bad_words { result ≢ Status.BadWords }
    ensures read_fault { result ≡ Status.ReadFault → Rose (S.faults source.old) (S.faults source.new) }
    ensures write_fault { result ≡ Status.WriteFault
        → Rose (K.faults sink.old) (K.faults sink.new) × (S.faults source.new ≡ S.faults source.old) }
    ensures broken { result ≡ Status.WriteFault → HalfPictured setup.now.limit setup.now.input_limit style.now
        (S.left source.old) (S.left source.new) (K.contents sink.old) (K.contents sink.new) }
    ensures unwritten { (result ≡ Status.ReadFault) ⊎ (result ≡ Status.NoMemory)
        ⊎ (result ≡ Status.TooLong) → sink.new ≡ sink.old }
    ensures overlong { result ≡ Status.TooLong → IsOverlong setup.now.input_limit
        (S.left source.old) (S.left source.new) }
    ensures ends { (Rose (S.faults source.old) (S.faults source.new) → ⊥)
        → (Rose (K.faults sink.old) (K.faults sink.new) → ⊥) → result ≢ Status.NoMemory → result ≢ Status.TooLong
        → (result ≡ Status.Done) ⊎ (result ≡ Status.DoneWithRefusals) }
{
    let gathering = Gathering::new(alloc, setup.limit, setup.keys);
    let Ok(mut dialogue) = Dialogue::new(alloc, gathering, 0) else {
        return Status::NoMemory;
    };
    let mut nowhere = SureSink::new();
    let refused = match serve_dialogue(&mut dialogue, setup.input_limit, source, &mut nowhere) {
        Status::Done => false,
        Status::DoneWithRefusals => true,
        stopped => return stopped,
    };
    match dialogue.into_machine().into_replies() {
        Some(replies) => write_picture(alloc, style, &replies, refused, sink),
        None => Status::NoMemory,
    }
}

/// Writes the picture of what the replies tell, where some statement was refused before as `refused` says.
fn write_picture<K: Sink>(
    alloc: Global,
    style: &Style,
    replies: &[Reply],
    refused: bool,
    sink: &mut K,
) -> Status
    requires { style.now.width ≤ 10000 }
    ensures kinds { (result ≡ Status.Done) ⊎ (result ≡ Status.DoneWithRefusals) ⊎ (result ≡ Status.NoMemory)
        ⊎ (result ≡ Status.WriteFault) }
    ensures done { result ≡ Status.Done → Written style.now (map reply_form replies.now) refused (K.contents sink.old)
        (K.contents sink.new) false }
    ensures done_with_refusals { result ≡ Status.DoneWithRefusals
        → Written style.now (map reply_form replies.now) refused (K.contents sink.old) (K.contents sink.new) true }
    ensures faultless { (result ≡ Status.Done) ⊎ (result ≡ Status.DoneWithRefusals)
        → K.faults sink.new ≡ K.faults sink.old }
    ensures write_fault { result ≡ Status.WriteFault → Rose (K.faults sink.old) (K.faults sink.new) }
    ensures broken { result ≡ Status.WriteFault → HalfWritten style.now (map reply_form replies.now) refused
        (K.contents sink.old) (K.contents sink.new) }
    ensures unwritten { result ≡ Status.NoMemory → sink.new ≡ sink.old }
{
    let Ok(drawing) = drawing_of(alloc, style, replies) else {
        return Status::NoMemory;
    };
    let Ok(text) = picture_text(alloc, &drawing.picture) else {
        return Status::NoMemory;
    };
    let incomplete = refused || drawing.wide;
    match send(sink, text.bytes.as_slice()) {
        Ok(()) if incomplete => Status::DoneWithRefusals,
        Ok(()) => Status::Done,
        Err(Failed) => Status::WriteFault,
    }
}

/// All that the program does: reads the words, and then serves. Names are hashed by the keys.
pub fn run<S: Source, K: Sink>(
    alloc: Global,
    words: &Words,
    keys: (u64, u64),
    source: &mut S,
    sink: &mut K,
) -> Status
    ensures bad_words { result ≡ Status.BadWords → (options : DrawOptions)
        → AcceptedWords (texts_in words.now) options → ⊥ }
    ensures no_words { result ≡ Status.BadWords → (source.new ≡ source.old) × (sink.new ≡ sink.old) }
    ensures done { result ≡ Status.Done → WithOptions (texts_in words.now) (λ options.
        Pictured options.limit (2 ^ 40) options.style (S.left source.old) (S.left source.new) (K.contents sink.old) (K.contents sink.new) false) }
    ensures done_with_refusals { result ≡ Status.DoneWithRefusals → WithOptions (texts_in words.now) (λ options.
        Pictured options.limit (2 ^ 40) options.style (S.left source.old) (S.left source.new) (K.contents sink.old) (K.contents sink.new) true) }
    ensures faultless { (result ≡ Status.Done) ⊎ (result ≡ Status.DoneWithRefusals)
        → (S.faults source.new ≡ S.faults source.old) × (K.faults sink.new ≡ K.faults sink.old) }
    ensures read_fault { result ≡ Status.ReadFault → Rose (S.faults source.old) (S.faults source.new) }
    ensures write_fault { result ≡ Status.WriteFault
        → Rose (K.faults sink.old) (K.faults sink.new) × (S.faults source.new ≡ S.faults source.old) }
    ensures broken { result ≡ Status.WriteFault → WithOptions (texts_in words.now) (λ options.
        HalfPictured options.limit (2 ^ 40) options.style (S.left source.old) (S.left source.new) (K.contents sink.old) (K.contents sink.new)) }
    ensures unwritten { (result ≡ Status.ReadFault) ⊎ (result ≡ Status.NoMemory)
        ⊎ (result ≡ Status.TooLong) → sink.new ≡ sink.old }
    ensures overlong { result ≡ Status.TooLong → IsOverlong (2 ^ 40) (S.left source.old) (S.left source.new) }
    ensures ends { (Rose (S.faults source.old) (S.faults source.new) → ⊥)
        → (Rose (K.faults sink.old) (K.faults sink.new) → ⊥) → result ≢ Status.NoMemory → result ≢ Status.TooLong
        → result ≢ Status.BadWords → (result ≡ Status.Done) ⊎ (result ≡ Status.DoneWithRefusals) }
{
    let options = match options_in(alloc, &words.list) {
        Ok(options) => options,
        Err(ParseFault::NotRead) => return Status::BadWords,
        Err(ParseFault::Memory) => return Status::NoMemory,
    };
    let setup = Setup {
        limit: options.limit,
        input_limit: limits::INPUT_BYTES,
        keys,
    };
    serve(alloc, &setup, &options.style, source, sink)
}
