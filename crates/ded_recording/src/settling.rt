//! Bytes answered, what they list saved, and the replies sent.
ghost use Rattle.std.specs.Prelude.{◌≡◌, ◌++◌, [], List, ℕ, OnOk, IfOk, IfErr};
ghost use Rattle.ded_recording.specs.Moving.{outcome_of, HasSettled, StopsIn, Moves, Halts, Ended, StopsFor};

use crate::draft::Draft;
use crate::recording::Recording;
use crate::saving::save;
use ded_dialogue::{Dialogue, Status};
use ded_io::{Failed, Sink, send};
use ded_journal::Journal;
use sqlite_trees::error::StoreError;
use sqlite_trees::store::{Alter, Store};
use std::alloc::Global;

/// Why a run stops between two reads.
#[derive(Drop)]
pub(crate) enum Stop {
    /// What the statements list wasn't saved, and none of their replies was sent.
    Unsaved(StoreError),
    /// The sink failed, behind what it took of the replies.
    Unsent,
}

impl Stop {
    /// How the run ends.
    pub(crate) fn outcome(self) -> Result<Status, StoreError>
        ensures { result ≡ outcome_of self }
    {
        match self {
            Stop::Unsaved(error) => Err(error),
            Stop::Unsent => Ok(Status::WriteFault),
        }
    }
}

/// Saves what the machine lists, and then sends the text.
fn settle<A: Recording, S: Alter + Drop, K: Sink>(
    machine: &mut A,
    journal: &mut Journal<S>,
    text: &[u8],
    sink: &mut K,
) -> Result<(), Stop>
    ensures settled { OnOk result (HasSettled A.gives A.rest A.listed S.Store.recovers S.Store.is_shielded
        machine.old machine.new journal.old journal.new (K.contents sink.old) (K.contents sink.new) text.now) }
    ensures stops { IfErr result (StopsIn A.gives A.rest A.listed S.Store.recovers S.Store.is_shielded
        machine.old journal.old journal.new (K.contents sink.old) (K.contents sink.new) text.now) }
    ensures cause { IfErr result (StopsFor S.Store.recovers journal.old journal.new
        (K.faults sink.old) (K.faults sink.new)) }
    ensures faultless { OnOk result (K.faults sink.new ≡ K.faults sink.old) }
{
    if let Err(error) = save(machine, journal) {
        return Err(Stop::Unsaved(error));
    }
    machine.clear();
    if let Err(Failed) = send(sink, text) {
        return Err(Stop::Unsent);
    }
    Ok(())
}

/// Takes the next bytes, answers the statements that end in them, saves what these list, and then sends the replies.
pub(crate) fn feed<A: Recording, S: Alter + Drop, K: Sink>(
    alloc: Global,
    dialogue: &mut Dialogue<A>,
    journal: &mut Journal<S>,
    bytes: &[u8],
    sink: &mut K,
) -> Result<(), Stop>
    ensures moves { OnOk result (Moves A.gives A.rest A.listed S.Store.recovers S.Store.is_shielded
        dialogue.old dialogue.new journal.old journal.new (K.contents sink.old) (K.contents sink.new) bytes.now) }
    ensures halts { IfErr result (λ _. (more : List ℕ) → Halts A.gives A.rest A.listed
        S.Store.recovers S.Store.is_shielded
        dialogue.old journal.old journal.new (K.contents sink.old) (K.contents sink.new) (bytes.now ++ more)) }
    ensures cause { IfErr result (StopsFor S.Store.recovers journal.old journal.new
        (K.faults sink.old) (K.faults sink.new)) }
    ensures faultless { OnOk result (K.faults sink.new ≡ K.faults sink.old) }
{
    let mut draft = Draft::new(alloc);
    if let Err(Failed) = dialogue.feed(bytes, &mut draft) {
        return Err(Stop::Unsaved(StoreError::OutOfMemory));
    }
    settle(
        dialogue.machine_mut(),
        journal,
        draft.bytes.as_slice(),
        sink,
    )
}

/// Answers the last statement of an input that ended, where the end cuts one, saves what it lists, and sends the reply.
/// Returns whether some reply was a refusal.
pub(crate) fn finish<A: Recording, S: Alter + Drop, K: Sink>(
    alloc: Global,
    dialogue: &mut Dialogue<A>,
    journal: &mut Journal<S>,
    sink: &mut K,
) -> Result<bool, Stop>
    ensures ended { IfOk result (Ended A.gives A.rest A.listed S.Store.recovers S.Store.is_shielded
        dialogue.old dialogue.new journal.old journal.new (K.contents sink.old) (K.contents sink.new)) }
    ensures halts { IfErr result (λ _. Halts A.gives A.rest A.listed S.Store.recovers S.Store.is_shielded
        dialogue.old journal.old journal.new (K.contents sink.old) (K.contents sink.new) []) }
    ensures cause { IfErr result (StopsFor S.Store.recovers journal.old journal.new
        (K.faults sink.old) (K.faults sink.new)) }
    ensures faultless { OnOk result (K.faults sink.new ≡ K.faults sink.old) }
{
    let mut draft = Draft::new(alloc);
    if let Err(Failed) = dialogue.finish(&mut draft) {
        return Err(Stop::Unsaved(StoreError::OutOfMemory));
    }
    settle(
        dialogue.machine_mut(),
        journal,
        draft.bytes.as_slice(),
        sink,
    )?;
    Ok(dialogue.refused())
}
