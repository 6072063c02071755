//! What a machine lists, saved in a journal.
ghost use Rattle.std.specs.Prelude.{OnOk, IfErr};
ghost use Rattle.ded_recording.specs.Saving.{HasSaved, StaysUnsaved};

use crate::recording::Recording;
use ded_journal::Journal;
use sqlite_trees::error::StoreError;
use sqlite_trees::store::{Alter, Store};

/// Adds the texts that the machine lists to the journal, and commits them together. Of none it makes no call.
///
/// # Errors
/// It fails for memory, a fault of the disk, or a text that can't be stored.
pub(crate) fn save<A: Recording, S: Alter + Drop>(
    machine: &A,
    journal: &mut Journal<S>,
) -> Result<(), StoreError>
    ensures saved { OnOk result (HasSaved S.Store.recovers S.Store.is_shielded
        journal.old journal.new (A.listed machine.now)) }
    ensures unsaved { IfErr result (StaysUnsaved S.Store.recovers S.Store.is_shielded
        journal.old journal.new (A.listed machine.now)) }
{
    let count = machine.count();
    if count == 0 {
        return Ok(());
    }
    for at in 0..count {
        journal.append(machine.text(at))?;
    }
    journal.commit()
}
