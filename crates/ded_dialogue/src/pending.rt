//! Replies that wait for a sink, so that those of one line cost few writes.
ghost use Rattle.std.specs.Prelude.{◌≡◌, ◌≢◌, ◌++◌, [], true, false, OnOk, OnErr};
ghost use Rattle.ded_io.specs.Causes.{HasCause};
ghost use Rattle.ded_io.specs.Devices.{AddsAll};
ghost use Rattle.ded_dialogue.specs.Waiting.{WritesBehind};

use crate::answering::Answering;
use arrayvec::ArrayVec;
use ded_io::{Failed, Sink, send};

/// Up to 1,024 bytes that wait for a sink, on the stack.
///
/// It is a sink itself, which fails where it has no room for a whole piece.
#[derive(Drop)]
pub(crate) struct Pending {
    bytes: ArrayVec<u8, 1024>,
    faults: u64,
}

impl Pending {
    /// No bytes that wait.
    pub(crate) fn new() -> Pending
        ensures { result.bytes.items ≡ [] }
    {
        Pending {
            bytes: ArrayVec::new(),
            faults: 0,
        }
    }

    /// Sends the bytes that wait. None waits then.
    ///
    /// # Errors
    /// `Failed` only where the sink's count of faults rose, and bytes waited.
    pub(crate) fn flush<K: Sink>(&mut self, sink: &mut K) -> Result<(), Failed>
        ensures bytes { AddsAll (K.contents sink.old) (K.contents sink.new) result self.old.bytes.items }
        ensures none { OnOk result (self.new.bytes.items ≡ []) }
        ensures some { OnErr result (self.old.bytes.items ≢ []) }
        ensures cause { HasCause (K.faults sink.old) (K.faults sink.new) result }
    {
        if self.bytes.as_slice().is_empty() {
            return Ok(());
        }
        send(sink, self.bytes.as_slice())?;
        self.bytes.clear();
        Ok(())
    }
}

impl Sink for Pending {
    ghost use Rattle.std.specs.Prelude.{Some};

    ghost contents = { λ p. Some p.bytes.items };

    ghost faults = { λ p. p.faults };

    fn write(&mut self, bytes: &[u8]) -> Result<usize, Failed> {
        if bytes.is_empty() {
            return Ok(0);
        }
        if self.bytes.try_extend_from_slice(bytes).is_ok() {
            return Ok(bytes.len());
        }
        self.faults = self.faults.saturating_add(1);
        Err(Failed)
    }
}

/// Puts the text of a reply behind the bytes that wait, where it is one line and there is room for it. Otherwise these
/// go to the sink first, and then the text.
///
/// # Errors
/// `Failed` only where the sink's count of faults rose.
pub(crate) fn put<A: Answering, K: Sink>(
    reply: &A::Reply,
    pending: &mut Pending,
    sink: &mut K,
) -> Result<(), Failed>
    ensures written { WritesBehind (K.contents sink.old) pending.old.bytes.items
        (K.contents sink.new) pending.new.bytes.items result (A.said reply.now).text }
    ensures cause { HasCause (K.faults sink.old) (K.faults sink.new) result }
{
    if keep::<A>(reply, pending) {
        return Ok(());
    }
    pending.flush(sink)?;
    A::write(reply, sink)
}

/// Puts the text of a reply behind the bytes that wait, where it is one line and there is room for it. Returns whether
/// it did.
fn keep<A: Answering>(reply: &A::Reply, pending: &mut Pending) -> bool
    ensures kept { result ≡ true → pending.new.bytes.items ≡ pending.old.bytes.items ++ (A.said reply.now).text }
    ensures left { result ≡ false → pending.new.bytes.items ≡ pending.old.bytes.items }
{
    if !A::is_line(reply) {
        return false;
    }
    let waiting = pending.bytes.len();
    if A::write(reply, pending).is_ok() {
        return true;
    }
    pending.bytes.truncate(waiting);
    false
}
