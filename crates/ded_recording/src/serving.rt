//! A whole run: from the bytes of a source to a journal and the texts of a sink.
ghost use Rattle.std.specs.Prelude.{◌≡◌, ◌≢◌, ◌⊎◌, [], Ok, true, false, OnOk, IfErr, IsErr};
ghost use Rattle.ded_io.specs.Causes.{Rose};
ghost use Rattle.sqlite_disk.specs.Disk.{MoreFaults};
ghost use Rattle.ded_journal.specs.Journals.{IsHonest};
ghost use Rattle.ded_dialogue.specs.Outcome.{AnsweredIn, Broken, Overlong, Unread};
ghost use Rattle.ded_dialogue.specs.Streams.{IsFresh};
ghost use Rattle.ded_recording.specs.Moving.{standing};
ghost use Rattle.ded_recording.specs.Saving.{IsSettled, Follows, MayStayUnsaved};
ghost use Rattle.ded_recording.specs.Surviving.{recorded_from, Survives};

use crate::recording::Recording;
use crate::settling::{feed, finish};
use ded_dialogue::{Dialogue, Status};
use ded_io::{Sink, Source};
use ded_journal::Journal;
use sqlite_trees::error::StoreError;
use sqlite_trees::store::{Alter, Store};
use std::alloc::Global;

/// The most bytes of a read, so of what one commit keeps.
const READ_AT_ONCE: usize = 65_536;

/// Reads an input of at most `input_limit` bytes to its end, with a dialogue to which nothing came in yet, and writes
/// the machine's reply to each statement. What the statements that end in the bytes of one read list is saved in the
/// journal and committed together, before the first of their replies is sent, and all are sent before more is read.
///
/// # Errors
/// It fails where what was listed isn't saved, for memory, a fault of the disk or a text that can't be stored. Then no
/// reply to the last read is sent.
pub fn serve_recorded<A: Recording, S: Alter + Drop, R: Source, K: Sink>(
    alloc: Global,
    dialogue: &mut Dialogue<A>,
    journal: &mut Journal<S>,
    input_limit: u64,
    source: &mut R,
    sink: &mut K,
) -> Result<Status, StoreError>
    requires fresh { IsFresh dialogue.old.machine 0 dialogue.old }
    requires unlisted { A.listed dialogue.old.machine ≡ [] }
    requires settled { IsSettled S.Store.recovers journal.old.now journal.old }
    ensures done { result ≡ Ok Status.Done → IsHonest journal.new →
        AnsweredIn (recorded_from A.gives (standing A.rest journal.old.now dialogue.old.machine)) input_limit
        (R.left source.old) (R.left source.new) (K.contents sink.old) (K.contents sink.new) false
        (standing A.rest journal.new.now dialogue.new.machine) }
    ensures done_with_refusals { result ≡ Ok Status.DoneWithRefusals → IsHonest journal.new →
        AnsweredIn (recorded_from A.gives (standing A.rest journal.old.now dialogue.old.machine)) input_limit
        (R.left source.old) (R.left source.new) (K.contents sink.old) (K.contents sink.new) true
        (standing A.rest journal.new.now dialogue.new.machine) }
    ensures unread { result ≡ Ok Status.ReadFault →
        Unread (recorded_from A.gives (standing A.rest journal.old.now dialogue.old.machine)) input_limit
        (R.left source.old) (R.left source.new) (K.contents sink.old) (K.contents sink.new) }
    ensures overlong { result ≡ Ok Status.TooLong →
        Overlong (recorded_from A.gives (standing A.rest journal.old.now dialogue.old.machine)) input_limit
        (R.left source.old) (R.left source.new) (K.contents sink.old) (K.contents sink.new) }
    ensures broken { (result ≡ Ok Status.WriteFault) ⊎ IsErr result →
        Broken (recorded_from A.gives (standing A.rest journal.old.now dialogue.old.machine))
        (R.left source.old) (R.left source.new) (R.last source.new) (K.contents sink.old) (K.contents sink.new) }
    ensures crash { Survives A.gives (standing A.rest journal.old.now dialogue.old.machine) S.Store.recovers journal.new
        (R.left source.old) (R.left source.new) (K.contents sink.old) (K.contents sink.new) }
    ensures settled { OnOk result (result ≢ Ok Status.WriteFault
        → IsSettled S.Store.recovers journal.new.now journal.new) }
    ensures follows { Follows S.Store.recovers S.Store.is_shielded journal.old journal.new }
    ensures kinds { (result ≢ Ok Status.BadWords) × (result ≢ Ok Status.NoMemory) }
    ensures faultless { (result ≡ Ok Status.Done) ⊎ (result ≡ Ok Status.DoneWithRefusals) ⊎ (result ≡ Ok Status.TooLong)
        → (R.faults source.new ≡ R.faults source.old) × (K.faults sink.new ≡ K.faults sink.old) }
    ensures read_fault { result ≡ Ok Status.ReadFault
        → Rose (R.faults source.old) (R.faults source.new) × (K.faults sink.new ≡ K.faults sink.old) }
    ensures write_fault { result ≡ Ok Status.WriteFault
        → Rose (K.faults sink.old) (K.faults sink.new) × (R.faults source.new ≡ R.faults source.old) }
    ensures journal_fault { IfErr result (λ e. (R.faults source.new ≡ R.faults source.old)
        × (K.faults sink.new ≡ K.faults sink.old)
        × (IsHonest journal.new → MayStayUnsaved (MoreFaults journal.old.faults journal.new.faults) (Unit {0}) e)) }
{
    let mut buffer = [0u8; READ_AT_ONCE];
    let mut room = input_limit;
    loop {
        let Ok(count) = source.read(&mut buffer) else {
            return Ok(Status::ReadFault);
        };
        if count == 0 {
            return match finish(alloc, dialogue, journal, sink) {
                Ok(true) => Ok(Status::DoneWithRefusals),
                Ok(false) => Ok(Status::Done),
                Err(stop) => stop.outcome(),
            };
        }
        let within = room.min(count as u64) as usize;
        if let Err(stop) = feed(alloc, dialogue, journal, &buffer[..within], sink) {
            return stop.outcome();
        }
        if within < count {
            return Ok(Status::TooLong);
        }
        room -= count as u64;
    }
}
