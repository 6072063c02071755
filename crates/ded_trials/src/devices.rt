//! Devices: how they go on after a fault, and what stands written of a reply whose sink fails.
use ded_io::{
    BytesSink, BytesSource, Failed, Sink, Source, StdSink, StdSource, SureSink, SureSource, send,
};
use ded_model::command::Refusal;
use ded_model::memory::NoMemory;
use ded_print::{print_number, print_refusal};
use std::alloc::Global;
use std::io::{self, ErrorKind, Read, Write};
use std::test::Fail;

const LETTERS: &[u8] = b"abcdefg";

/// What five reads of four bytes at most give: the bytes of each before a `|`, and a `!` for a read that fails.
fn given<S: Source>(alloc: Global, source: &mut S) -> Result<Vec<u8>, NoMemory> {
    let mut given = Vec::new(alloc);
    for _ in 0..5 {
        let mut into = [0; 4];
        match source.read(&mut into) {
            Ok(count) => {
                given.extend_from_slice(into.get(..count).unwrap_or(&[]))?;
                given.push(b'|')?;
            }
            Err(Failed) => given.push(b'!')?,
        }
    }
    Ok(given)
}

/// What a source over the letters gives.
fn letters_given(alloc: Global, piece: usize, failing: &[u64]) -> Result<Vec<u8>, NoMemory> {
    given(
        alloc,
        &mut BytesSource::new(alloc, LETTERS, piece, failing)?,
    )
}

/// A failed read takes no bytes.
#[test]
fn sources_go_on_after_a_fault(rt: HostRuntime) -> Result<(), Fail> {
    let alloc = rt.alloc();
    for (piece, failing, wanted) in [
        (3, 0, "abc|def|g|||"),
        (3, 1, "!abc|def|g||"),
        (3, 2, "abc|!def|g||"),
        (3, 3, "abc|def|!g||"),
        (3, 4, "abc|def|g|!|"),
        (9, 0, "abcd|efg||||"),
        (0, 5, "a|b|c|d|!"),
    ] {
        let given = letters_given(alloc, piece, &[failing])?;
        assert_eq!(rt; given.as_slice(), wanted.as_bytes(), "read {failing} fails");
    }
    let sure = given(alloc, &mut SureSource::new(alloc, LETTERS)?)?;
    assert_eq!(rt; sure.as_slice(), b"abcd|efg||||".as_slice());
    Ok(())
}

/// Some bytes that are sent, whether all are taken, and what the sink holds then.
type Sent = (&'static [u8], bool, &'static [u8]);

/// Whether a sink takes and holds that.
fn are_sent(alloc: Global, room: usize, failing: u64, parts: &[Sent]) -> Result<bool, NoMemory> {
    let mut sink = BytesSink::new(alloc, room, 3, &[failing])?;
    let mut as_wanted = true;
    for (bytes, all, contents) in parts {
        as_wanted &= send(&mut sink, bytes).is_ok() == *all && sink.contents() == *contents;
    }
    Ok(as_wanted)
}

/// Sinks that take three bytes a call: the room, the call that fails, and what is sent.
const SENT: [(usize, u64, [Sent; 2]); 4] = [
    (7, 1, [(LETTERS, false, b""), (LETTERS, true, LETTERS)]),
    (7, 2, [(LETTERS, false, b"abc"), (b"defg", true, LETTERS)]),
    (7, 3, [(LETTERS, false, b"abcdef"), (b"g", true, LETTERS)]),
    (5, 0, [(LETTERS, false, b"abcde"), (b"", true, b"abcde")]),
];

/// Whether replies of one line break off where a sink that takes five bytes a call fails.
fn break_off(alloc: Global) -> Result<bool, NoMemory> {
    let mut sink = BytesSink::new(alloc, 64, 5, &[3])?;
    let refused = print_refusal(&Refusal::Wide, &mut sink);
    let mut other = BytesSink::new(alloc, 64, 5, &[2])?;
    let numbered = print_number(12, &mut other);
    Ok(
        refused.is_err()
            && sink.contents() == b"refused 20".as_slice()
            && numbered.is_err()
            && other.contents() == b"tuple".as_slice(),
    )
}

/// A failed write leaves what was taken before, and replies break off there.
#[test]
fn sinks_go_on_after_a_fault(rt: HostRuntime) -> Result<(), Fail> {
    for (room, failing, parts) in &SENT {
        let as_wanted = are_sent(rt.alloc(), *room, *failing, parts)?;
        assert!(rt; as_wanted, "write {failing} fails");
    }
    assert!(rt; break_off(rt.alloc())?);
    assert_eq!(rt; send(&mut SureSink::new(), LETTERS), Ok(()));
    Ok(())
}

/// What a device of the standard library does at one call.
#[derive(Clone, Copy)]
enum Turn {
    Works,
    IsInterrupted,
    Breaks,
    MovesNothing,
}

/// A device whose calls go as named, and work after these.
#[derive(Drop)]
struct Flaky<'a, D> {
    device: D,
    turns: &'a [Turn],
}

impl<D> Flaky<'_, D> {
    fn turn(&mut self) -> Turn {
        match self.turns.split_first() {
            Some((&turn, later)) => {
                self.turns = later;
                turn
            }
            None => Turn::Works,
        }
    }
}

impl<R: Read> Read for Flaky<'_, R> {
    fn read(&mut self, into: &mut [u8]) -> io::Result<usize> {
        match self.turn() {
            Turn::Works => self.device.read(into),
            Turn::IsInterrupted => Err(ErrorKind::Interrupted.into()),
            Turn::Breaks => Err(ErrorKind::BrokenPipe.into()),
            Turn::MovesNothing => Ok(0),
        }
    }
}

impl<W: Write> Write for Flaky<'_, W> {
    fn write(&mut self, bytes: &[u8]) -> io::Result<usize> {
        match self.turn() {
            Turn::Works => self.device.write(bytes),
            Turn::IsInterrupted => Err(ErrorKind::Interrupted.into()),
            Turn::Breaks => Err(ErrorKind::BrokenPipe.into()),
            Turn::MovesNothing => Ok(0),
        }
    }

    fn flush(&mut self) -> io::Result<()> {
        self.device.flush()
    }
}

/// Of a reader an interrupted call is made again, and another failed one is a failed read.
#[test]
fn readers_go_on_after_a_fault(rt: HostRuntime) -> Result<(), Fail> {
    let turns = [
        Turn::Works,
        Turn::IsInterrupted,
        Turn::Breaks,
        Turn::IsInterrupted,
    ];
    let mut source = StdSource::new(Flaky {
        device: LETTERS,
        turns: &turns,
    });
    let given = given(rt.alloc(), &mut source)?;
    assert_eq!(rt; given.as_slice(), b"abcd|!efg|||".as_slice());
    Ok(())
}

/// Of a writer likewise; one that takes nothing fails.
#[test]
fn writers_hold_what_was_sent_around_faults(rt: HostRuntime) {
    let turns = [
        Turn::IsInterrupted,
        Turn::Works,
        Turn::MovesNothing,
        Turn::Breaks,
    ];
    let mut room = [b'.'; 8];
    let mut sink = StdSink::new(Flaky {
        device: &mut room[..],
        turns: &turns,
    });
    for (bytes, is_taken) in [
        ("abcd", true),
        ("efg", false),
        ("efg", false),
        ("efg", true),
    ] {
        assert_eq!(rt; send(&mut sink, bytes.as_bytes()).is_ok(), is_taken);
    }
    assert_eq!(rt; sink.write(&[]), Ok(0));
    assert_eq!(rt; room.as_slice(), b"abcdefg.".as_slice());
}
