//! A whole run: from a journal and the bytes of a source to the journal and the texts of a sink.
ghost use Rattle.std.specs.Prelude.{◌≡◌, ◌≢◌, ◌⊎◌, ◌≤◌, true, false};
ghost use Rattle.ded_io.specs.Causes.{Rose};
ghost use Rattle.ded_dialogue.specs.Outcome.{Broken, Overlong, Unread};
ghost use Rattle.ded_journal.specs.Journals.{IsHonest};
ghost use Rattle.ded_recording.specs.Saving.{IsSettled, Follows};
ghost use Rattle.ded_recording.specs.Surviving.{recorded_from, Survives};
ghost use Rattle.ded_kept.specs.Answering.{keeps};
ghost use Rattle.ded_kept.specs.Resuming.{LeavesKept};
ghost use Rattle.ded_kept.specs.Running.{FromKept, AnswersAll};

use crate::resuming::{NotResumed, resume};
use ded_dialogue::{Dialogue, Status};
use ded_io::{Sink, Source};
use ded_journal::Journal;
use ded_recording::serve_recorded;
use ded_run::Setup;
use sqlite_trees::error::StoreError;
use sqlite_trees::store::{Alter, Store};
use std::alloc::Global;

/// How a run over kept statements ended.
#[derive(Clone, Copy, Debug, PartialEq, Eq)]
pub enum KeptStatus {
    /// The kept statements were accepted again, and then the run over the input ended so.
    Ran(Status),
    /// What the last read changed isn't kept, for this error, and no reply to it was sent.
    Unsaved(StoreError),
    /// The kept statements gave no session. Nothing was read or written.
    NotResumed(NotResumed),
}

impl KeptStatus {
    ghost use Rattle.std.specs.Prelude.{◌≡◌};
    ghost use Rattle.ded_kept.specs.Exits.{kept_exit_number};

    /// The exit status of a program whose run ended so, 0 to 7.
    pub fn exit_number(self) -> u8
        ensures { result ≡ kept_exit_number self }
    {
        match self {
            KeptStatus::Ran(status) => status.exit_number(),
            KeptStatus::Unsaved(_) => 4,
            KeptStatus::NotResumed(_) => 7,
        }
    }
}

/// Brings back the catalogue and the kept views of a journal that was just opened, reads a script to its end, and
/// writes a reply to each statement as a session in the second language does. What the statements of one read change is
/// kept, all of it committed at once, before the first of their replies is written.
pub fn run_kept<S: Alter + Drop, R: Source, K: Sink>(
    alloc: Global,
    setup: &Setup,
    journal: &mut Journal<S>,
    source: &mut R,
    sink: &mut K,
) -> KeptStatus
    requires low { 1 ≤ setup.now.limit }
    requires high { setup.now.limit ≤ 1000000 }
    requires settled { IsSettled S.Store.recovers journal.old.now journal.old }
    ensures done { result ≡ KeptStatus.Ran Status.Done → IsHonest journal.new
        → FromKept setup.now.limit journal.old.now (AnswersAll setup.now.input_limit (R.left source.old)
        (R.left source.new) (K.contents sink.old) (K.contents sink.new) false journal.new.now) }
    ensures done_with_refusals { result ≡ KeptStatus.Ran Status.DoneWithRefusals → IsHonest journal.new
        → FromKept setup.now.limit journal.old.now (AnswersAll setup.now.input_limit (R.left source.old)
        (R.left source.new) (K.contents sink.old) (K.contents sink.new) true journal.new.now) }
    ensures unread { result ≡ KeptStatus.Ran Status.ReadFault → IsHonest journal.new
        → FromKept setup.now.limit journal.old.now (λ start. Unread (recorded_from keeps start) setup.now.input_limit
        (R.left source.old) (R.left source.new) (K.contents sink.old) (K.contents sink.new)) }
    ensures overlong { result ≡ KeptStatus.Ran Status.TooLong → IsHonest journal.new
        → FromKept setup.now.limit journal.old.now (λ start. Overlong (recorded_from keeps start) setup.now.input_limit
        (R.left source.old) (R.left source.new) (K.contents sink.old) (K.contents sink.new)) }
    ensures broken { result ≡ KeptStatus.Ran Status.WriteFault → IsHonest journal.new
        → FromKept setup.now.limit journal.old.now (λ start. Broken (recorded_from keeps start)
        (R.left source.old) (R.left source.new) (R.last source.new) (K.contents sink.old) (K.contents sink.new)) }
    ensures unsaved { (e : StoreError) → result ≡ KeptStatus.Unsaved e → IsHonest journal.new
        → FromKept setup.now.limit journal.old.now (λ start. Broken (recorded_from keeps start)
        (R.left source.old) (R.left source.new) (R.last source.new) (K.contents sink.old) (K.contents sink.new)) }
    ensures crash { ((why : NotResumed) → result ≢ KeptStatus.NotResumed why) → IsHonest journal.new
        → FromKept setup.now.limit journal.old.now (λ start. Survives keeps start S.Store.recovers journal.new
        (R.left source.old) (R.left source.new) (K.contents sink.old) (K.contents sink.new)) }
    ensures not_resumed { (why : NotResumed) → result ≡ KeptStatus.NotResumed why
        → (source.new ≡ source.old) × (sink.new ≡ sink.old) }
    ensures unharmed { (why : NotResumed) → result ≡ KeptStatus.NotResumed why
        → LeavesKept S.Store.recovers journal.old.now journal.new }
    ensures settled { (result ≡ KeptStatus.Ran Status.Done) ⊎ (result ≡ KeptStatus.Ran Status.DoneWithRefusals)
        → IsSettled S.Store.recovers journal.new.now journal.new }
    ensures follows { Follows S.Store.recovers S.Store.is_shielded journal.old journal.new }
    ensures kinds { (result ≢ KeptStatus.Ran Status.BadWords) × (result ≢ KeptStatus.Ran Status.NoMemory) }
    ensures faultless { (result ≡ KeptStatus.Ran Status.Done) ⊎ (result ≡ KeptStatus.Ran Status.DoneWithRefusals)
        ⊎ (result ≡ KeptStatus.Ran Status.TooLong)
        → (R.faults source.new ≡ R.faults source.old) × (K.faults sink.new ≡ K.faults sink.old) }
    ensures read_fault { result ≡ KeptStatus.Ran Status.ReadFault
        → Rose (R.faults source.old) (R.faults source.new) × (K.faults sink.new ≡ K.faults sink.old) }
    ensures write_fault { result ≡ KeptStatus.Ran Status.WriteFault
        → Rose (K.faults sink.old) (K.faults sink.new) × (R.faults source.new ≡ R.faults source.old) }
{
    let session = match resume(alloc, setup.limit, setup.keys, journal) {
        Ok(session) => session,
        Err(why) => return KeptStatus::NotResumed(why),
    };
    let Ok(mut dialogue) = Dialogue::new(alloc, session, 0) else {
        return KeptStatus::NotResumed(NotResumed::NoMemory);
    };
    match serve_recorded(
        alloc,
        &mut dialogue,
        journal,
        setup.input_limit,
        source,
        sink,
    ) {
        Ok(status) => KeptStatus::Ran(status),
        Err(error) => KeptStatus::Unsaved(error),
    }
}
