//! The replies that are one line.
ghost use Rattle.std.specs.Prelude.{◌≡◌};
ghost use Rattle.ded_io.specs.Causes.{HasCause};
ghost use Rattle.ded_io.specs.Devices.{AddsAll};
ghost use Rattle.ded_print.specs.Lines.{done_text, meeting_text, truth_text, number_reply_text, refusal_text};
ghost use Rattle.ded_print.specs.Gathering.{output, Puts};

use crate::gathered::Gathered;
use crate::number::put_natural;
use ded_io::{Failed, Sink, send};
use ded_model::command::Refusal;

/// Prints that a statement was done.
///
/// # Errors
/// `Failed` only where the sink's count of faults rose.
pub fn print_done<K: Sink>(sink: &mut K) -> Result<(), Failed>
    ensures bytes { AddsAll (K.contents sink.old) (K.contents sink.new) result done_text }
    ensures cause { HasCause (K.faults sink.old) (K.faults sink.new) result }
{
    send(sink, b"ok\n")
}

/// Prints whether what was asked holds.
///
/// # Errors
/// `Failed` only where the sink's count of faults rose.
pub fn print_truth<K: Sink>(holds: bool, sink: &mut K) -> Result<(), Failed>
    ensures bytes { AddsAll (K.contents sink.old) (K.contents sink.new) result (truth_text holds) }
    ensures cause { HasCause (K.faults sink.old) (K.faults sink.new) result }
{
    send(sink, truth_bytes(holds))
}

/// Prints the number that a tuple was given.
///
/// # Errors
/// `Failed` only where the sink's count of faults rose.
pub fn print_number<K: Sink>(number: u64, sink: &mut K) -> Result<(), Failed>
    ensures bytes { AddsAll (K.contents sink.old) (K.contents sink.new) result (number_reply_text number) }
    ensures cause { HasCause (K.faults sink.old) (K.faults sink.new) result }
{
    let mut gathered = Gathered::new();
    put_number_line(number, &mut gathered, sink);
    gathered.finish(sink)
}

/// Puts the number that a tuple was given on a line.
fn put_number_line<K: Sink>(number: u64, gathered: &mut Gathered, sink: &mut K)
    ensures { Puts
        (output (K.contents sink.old) (K.faults sink.old) gathered.old)
        (output (K.contents sink.new) (K.faults sink.new) gathered.new)
        (number_reply_text number) }
{
    gathered.put(sink, b"tuple ");
    put_natural(number, gathered, sink);
    gathered.put(sink, b"\n");
}

/// Prints the numbers of two tuples that have a common point.
///
/// # Errors
/// `Failed` only where the sink's count of faults rose.
pub fn print_meeting<K: Sink>(first: u64, second: u64, sink: &mut K) -> Result<(), Failed>
    ensures bytes { AddsAll (K.contents sink.old) (K.contents sink.new) result (meeting_text first second) }
    ensures cause { HasCause (K.faults sink.old) (K.faults sink.new) result }
{
    let mut gathered = Gathered::new();
    put_meeting_line(first, second, &mut gathered, sink);
    gathered.finish(sink)
}

/// Puts the numbers of two tuples that have a common point on a line.
fn put_meeting_line<K: Sink>(first: u64, second: u64, gathered: &mut Gathered, sink: &mut K)
    ensures { Puts
        (output (K.contents sink.old) (K.faults sink.old) gathered.old)
        (output (K.contents sink.new) (K.faults sink.new) gathered.new)
        (meeting_text first second) }
{
    gathered.put(sink, b"meet ");
    put_natural(first, gathered, sink);
    gathered.put(sink, b" ");
    put_natural(second, gathered, sink);
    gathered.put(sink, b"\n");
}

/// Prints why a statement was refused.
///
/// # Errors
/// `Failed` only where the sink's count of faults rose.
pub fn print_refusal<K: Sink>(refusal: &Refusal, sink: &mut K) -> Result<(), Failed>
    ensures bytes { AddsAll (K.contents sink.old) (K.contents sink.new) result (refusal_text refusal.now) }
    ensures cause { HasCause (K.faults sink.old) (K.faults sink.new) result }
{
    send(sink, refusal_bytes(*refusal))
}

/// The line that says whether what was asked holds.
fn truth_bytes(holds: bool) -> &'static [u8]
    ensures { result.now ≡ truth_text holds }
{
    if holds { b"yes\n" } else { b"no\n" }
}

/// The line that says why a statement was refused.
fn refusal_bytes(refusal: Refusal) -> &'static [u8]
    ensures { result.now ≡ refusal_text refusal }
{
    match refusal {
        Refusal::LongStatement => b"refused 1 long statement\n",
        Refusal::Unfinished => b"refused 2 unfinished\n",
        Refusal::Syntax => b"refused 3 syntax\n",
        Refusal::LongName => b"refused 4 long name\n",
        Refusal::LongNumber => b"refused 5 long number\n",
        Refusal::Deep => b"refused 6 deep\n",
        Refusal::Many => b"refused 7 many\n",
        Refusal::Twice => b"refused 8 twice\n",
        Refusal::Unknown => b"refused 9 unknown\n",
        Refusal::Taken => b"refused 10 taken\n",
        Refusal::Kind => b"refused 11 kind\n",
        Refusal::Arity => b"refused 12 arity\n",
        Refusal::Unbound => b"refused 13 unbound\n",
        Refusal::WrongSort => b"refused 14 sort\n",
        Refusal::Used => b"refused 15 used\n",
        Refusal::NoTuple => b"refused 16 no tuple\n",
        Refusal::Full => b"refused 17 full\n",
        Refusal::Spent => b"refused 18 spent\n",
        Refusal::Level => b"refused 19 level\n",
        Refusal::Wide => b"refused 20 wide\n",
        Refusal::Memory => b"refused 21 memory\n",
    }
}
