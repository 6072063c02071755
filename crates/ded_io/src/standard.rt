//! The edge over the readers and writers of the standard library.
//!
//! No contract knows when a reader or a writer fails. So it is tested, and not proved, that a fault
//! is counted only where one did, that what a signal interrupts is tried again, and that an empty
//! piece isn't handed on.
ghost use Rattle.std.specs.Prelude.{◌≡◌, None};
ghost use Rattle.ded_io.specs.Standard.{source_reader, source_faults, sink_writer, sink_faults};

use crate::{Failed, Sink, Source};
use std::io::{ErrorKind, Read, Write};

/// A source over a reader, which counts the reader's failures.
///
/// It tells the reader's bytes where the reader does, and nothing of a process's input. It doesn't tell what its last
/// read gave. A read that a signal interrupts is tried again.
#[derive(Drop)]
pub struct StdSource<R> {
    reader: R,
    faults: u64,
}

impl<R> StdSource<R> {
    /// A source over this reader that has counted no fault.
    pub fn new(reader: R) -> Self
        ensures reader { source_reader result ≡ reader }
        ensures faults { source_faults result ≡ 0 }
    {
        StdSource { reader, faults: 0 }
    }
}

impl<R: Read> Source for StdSource<R> {
    ghost left = { λ s. R.remaining (source_reader s) };

    ghost last = { λ _. None };

    ghost faults = { source_faults };

    fn read(&mut self, into: &mut [u8]) -> Result<usize, Failed> {
        for _ in 0..u64::MAX {
            match self.reader.read(into) {
                Ok(count) => return Ok(count),
                Err(error) if error.kind() == ErrorKind::Interrupted => {}
                Err(_) => break,
            }
        }
        self.faults = self.faults.saturating_add(1);
        Err(Failed)
    }
}

/// A sink over a writer, which counts the writer's failures.
///
/// That a writer takes nothing of a piece that isn't empty counts as a failure.
/// It tells the writer's bytes where the writer does, and nothing of a process's output. It keeps no
/// bytes back: each piece goes to the writer at once. Give it a writer that doesn't either, as the
/// runtime's `stdout`, so that a reply is out before the next read. A write that a signal interrupts
/// is tried again, and an empty piece isn't handed to it.
#[derive(Drop)]
pub struct StdSink<W> {
    writer: W,
    faults: u64,
}

impl<W> StdSink<W> {
    /// A sink over this writer that has counted no fault.
    pub fn new(writer: W) -> Self
        ensures writer { sink_writer result ≡ writer }
        ensures faults { sink_faults result ≡ 0 }
    {
        StdSink { writer, faults: 0 }
    }
}

impl<W: Write> Sink for StdSink<W> {
    ghost contents = { λ s. W.contents (sink_writer s) };

    ghost faults = { sink_faults };

    fn write(&mut self, bytes: &[u8]) -> Result<usize, Failed> {
        if bytes.is_empty() {
            return Ok(0);
        }
        for _ in 0..u64::MAX {
            match self.writer.write(bytes) {
                Ok(count) if count > 0 => return Ok(count),
                Err(error) if error.kind() == ErrorKind::Interrupted => {}
                _ => break,
            }
        }
        self.faults = self.faults.saturating_add(1);
        Err(Failed)
    }
}
