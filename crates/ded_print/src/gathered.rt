//! Pieces of a text are gathered before they go to a sink, so that a reply costs few writes.
ghost use Rattle.std.specs.Prelude.{◌≡◌, [], ◌++◌, Ok, if◌then◌else◌};
ghost use Rattle.ded_print.specs.Gathering.{output, Puts, SendsAfter, Finishes};

use arrayvec::ArrayVec;
use ded_io::{Failed, Sink, send};

/// Up to 512 bytes that wait for a sink, on the stack.
///
/// A failure is kept until `finish`, and nothing is sent after it. So pieces are put one after another without a
/// question after each.
#[derive(Drop)]
pub(crate) struct Gathered {
    pending: ArrayVec<u8, 512>,
    sent: Result<(), Failed>,
}

impl Gathered {
    /// No bytes that wait, before anything was sent.
    pub(crate) fn new() -> Gathered
        ensures pending { result.pending.items ≡ [] }
        ensures sent { result.sent ≡ Ok tt }
    {
        Gathered {
            pending: ArrayVec::new(),
            sent: Ok(()),
        }
    }

    /// Puts the bytes after those that were put before. Those that wait go to the sink where there is no room for more.
    pub(crate) fn put<K: Sink>(&mut self, sink: &mut K, bytes: &[u8])
        ensures { Puts
            (output (K.contents sink.old) (K.faults sink.old) self.old)
            (output (K.contents sink.new) (K.faults sink.new) self.new)
            bytes.now }
    {
        if self.keep(bytes) {
            return;
        }
        self.flush(sink);
        if self.keep(bytes) {
            return;
        }
        self.sent = send_after(self.sent, sink, bytes);
    }

    /// Gathers the bytes where there is room for them. Returns whether there is.
    fn keep(&mut self, bytes: &[u8]) -> bool
        ensures pending { self.new.pending.items ≡
            (if result then (self.old.pending.items ++ bytes.now) else self.old.pending.items) }
        ensures sent { self.new.sent ≡ self.old.sent }
    {
        self.pending.try_extend_from_slice(bytes).is_ok()
    }

    /// Sends the bytes that wait, where nothing failed so far. None waits then.
    fn flush<K: Sink>(&mut self, sink: &mut K)
        ensures puts { Puts
            (output (K.contents sink.old) (K.faults sink.old) self.old)
            (output (K.contents sink.new) (K.faults sink.new) self.new)
            [] }
        ensures none { self.new.pending.items ≡ [] }
    {
        self.sent = send_after(self.sent, sink, self.pending.as_slice());
        self.pending.clear();
    }

    /// Sends the bytes that wait, where nothing failed so far.
    ///
    /// # Errors
    /// `Failed` only where the sink's count of faults rose since the first bytes were put.
    pub(crate) fn finish<K: Sink>(self, sink: &mut K) -> Result<(), Failed>
        ensures { Finishes
            (output (K.contents sink.old) (K.faults sink.old) self)
            (K.contents sink.new)
            (K.faults sink.new)
            result }
    {
        send_after(self.sent, sink, self.pending.as_slice())
    }
}

/// Sends the bytes where nothing failed so far, and otherwise fails as before.
fn send_after<K: Sink>(so_far: Result<(), Failed>, sink: &mut K, bytes: &[u8]) -> Result<(), Failed>
    ensures { SendsAfter
        so_far
        (K.contents sink.old)
        (K.faults sink.old)
        (K.contents sink.new)
        (K.faults sink.new)
        result
        bytes.now }
{
    so_far?;
    send(sink, bytes)
}
