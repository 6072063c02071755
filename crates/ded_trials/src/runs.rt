//! Whole runs over devices in memory: how each ends, and what stands written then.
use ded_io::{BytesSink, BytesSource, Source};
use ded_model::memory::NoMemory;
use ded_run::{Setup, Status, Words, make, run, serve};
use std::alloc::Global;
use std::test::Fail;

/// The keys by which names are hashed.
const KEYS: (u64, u64) = (1, 2);

/// A script and the devices that it is read from and answered to.
#[derive(Clone, Copy)]
struct Run<'a> {
    script: &'a [u8],
    /// The most bytes of a read and of a write.
    piece: usize,
    failing_reads: &'a [u64],
    failing_writes: &'a [u64],
    input_limit: u64,
}

const WHOLE: Run<'static> = Run {
    script: b"",
    piece: 100,
    failing_reads: &[],
    failing_writes: &[],
    input_limit: 1_000,
};

/// How a run ends, and whether it writes these replies.
fn served(alloc: Global, run: &Run<'_>, replies: &[u8]) -> Result<(Status, bool), NoMemory> {
    let setup = Setup {
        limit: 100,
        input_limit: run.input_limit.clamp(1, 100_000),
        keys: KEYS,
    };
    let mut source = BytesSource::new(alloc, run.script, run.piece, run.failing_reads)?;
    let mut sink = BytesSink::new(alloc, 1_000, run.piece, run.failing_writes)?;
    let status = serve(alloc, &setup, &mut source, &mut sink);
    Ok((status, sink.contents() == replies))
}

/// Scripts, their replies, and how they end.
const SCRIPTS: [(&[u8], &[u8], Status); 4] = [
    (b"", b"", Status::Done),
    (b"ask 1 = 1; -- the end", b"yes\n", Status::Done),
    (
        b"relation P(x); insert P { 2*x < 4 }; show P;",
        b"ok\ntuple 1\ntuples 1\n1 { x < 2 }\nend\n",
        Status::Done,
    ),
    (
        b"ask 8 <= 7; ask 'a",
        b"no\nrefused 2 unfinished\n",
        Status::DoneWithRefusals,
    ),
];

/// The replies don't hang on how many bytes a call moves.
#[test]
fn scripts_are_answered_in_any_pieces(rt: HostRuntime) -> Result<(), Fail> {
    for (script, replies, status) in SCRIPTS {
        for piece in [1, 2, 5, 100] {
            let run = Run {
                script,
                piece,
                ..WHOLE
            };
            assert_eq!(rt; served(rt.alloc(), &run, replies)?, (status, true));
        }
    }
    Ok(())
}

/// Runs that a device or the limit of the input ends, and one that the limit just lets through.
const STOPPED: [(Run<'static>, &[u8], Status); 5] = [
    (
        Run {
            script: b"ask 1 = 1; ask 2",
            failing_reads: &[2],
            ..WHOLE
        },
        b"yes\n",
        Status::ReadFault,
    ),
    (
        Run {
            script: b"ask 3 <= 7;",
            failing_writes: &[1],
            ..WHOLE
        },
        b"",
        Status::WriteFault,
    ),
    (
        Run {
            script: b"ask 3 <= 7;",
            piece: 2,
            failing_writes: &[2],
            ..WHOLE
        },
        b"ye",
        Status::WriteFault,
    ),
    (
        Run {
            script: b"ask 1 = 1; ask 2 = 2;",
            input_limit: 12,
            ..WHOLE
        },
        b"yes\n",
        Status::TooLong,
    ),
    (
        Run {
            script: b"ask 1 = 1;",
            input_limit: 10,
            ..WHOLE
        },
        b"yes\n",
        Status::Done,
    ),
];

/// A failed call or a long input ends a run; what was answered before stands written.
#[test]
fn a_failed_call_ends_the_run(rt: HostRuntime) -> Result<(), Fail> {
    for (run, replies, status) in &STOPPED {
        assert_eq!(rt; served(rt.alloc(), run, replies)?, (*status, true));
    }
    Ok(())
}

/// A question that has so many bytes before its `;`, and another one.
fn long_script(alloc: Global, length: usize) -> Result<Vec<u8>, NoMemory> {
    let mut script = Vec::new(alloc);
    script.extend_from_slice(b"ask 1 = 1")?;
    script.resize(length, b' ')?;
    script.extend_from_slice(b"; ask 1 = 2;")?;
    Ok(script)
}

/// How the run of such a script ends, and whether it writes these replies.
fn served_long(alloc: Global, length: usize, replies: &[u8]) -> Result<(Status, bool), NoMemory> {
    let script = long_script(alloc, length)?;
    let run = Run {
        script: &script,
        piece: 5_000,
        input_limit: 100_000,
        ..WHOLE
    };
    served(alloc, &run, replies)
}

/// A statement of 65,536 bytes is answered, and one of more is refused.
#[test]
fn a_statement_has_a_greatest_length(rt: HostRuntime) -> Result<(), Fail> {
    let whole = served_long(rt.alloc(), 65_536, b"yes\nno\n")?;
    assert_eq!(rt; whole, (Status::Done, true));
    let long = served_long(rt.alloc(), 65_537, b"refused 1 long statement\nno\n")?;
    assert_eq!(rt; long, (Status::DoneWithRefusals, true));
    Ok(())
}

/// Five statements of 24 bytes each.
const STATEMENTS: &[u8] = b"\
relation T(x);          \
insert T { x = 1 };     \
ask T(1);               \
ask T(2);               \
drop T;                 ";

/// What stands written when so many statements are answered.
const REPLIES: [&[u8]; 6] = [
    b"",
    b"ok\n",
    b"ok\ntuple 1\n",
    b"ok\ntuple 1\nyes\n",
    b"ok\ntuple 1\nyes\nno\n",
    b"ok\ntuple 1\nyes\nno\nok\n",
];

/// How many bytes a source still gives in ten reads.
fn unread(source: &mut BytesSource) -> usize {
    let mut into = [0; 100];
    let mut count = 0usize;
    for _ in 0..10 {
        count = count.saturating_add(source.read(&mut into).unwrap_or(0));
    }
    count
}

/// How a run ends that reads one statement a call, whether it writes these replies, and how many bytes it leaves
/// unread.
fn stopped(
    alloc: Global,
    failing_reads: &[u64],
    failing_writes: &[u64],
    replies: &[u8],
) -> Result<(Status, bool, usize), NoMemory> {
    let setup = Setup {
        limit: 100,
        input_limit: 1_000,
        keys: KEYS,
    };
    let mut source = BytesSource::new(alloc, STATEMENTS, 24, failing_reads)?;
    let mut sink = BytesSink::new(alloc, 1_000, 1_000, failing_writes)?;
    let status = serve(alloc, &setup, &mut source, &mut sink);
    Ok((status, sink.contents() == replies, unread(&mut source)))
}

/// Each statement is answered before the next one is read: a failed read leaves the replies to all statements before
/// it, and a failed write the statements behind it unread.
#[test]
fn reading_and_answering_alternate(rt: HostRuntime) -> Result<(), Fail> {
    let alloc = rt.alloc();
    for (answered, replies) in REPLIES.iter().enumerate() {
        let call = answered as u64 + 1;
        let left = 120 - 24 * answered;
        let read = stopped(alloc, &[call], &[], replies)?;
        assert_eq!(rt; read, (Status::ReadFault, true, left), "read {call}");
        let written = stopped(alloc, &[], &[call], replies)?;
        if answered < 5 {
            assert_eq!(rt;
                written,
                (Status::WriteFault, true, left - 24),
                "write {call}"
            );
        } else {
            assert_eq!(rt; written, (Status::Done, true, 0));
        }
    }
    Ok(())
}

/// The replies to a made script of size 3.
const MADE: &[u8] =
    b"yes\nyes\nno\nx in [0, 30]\ny in [0, 30]\nx in (-inf, inf)\ny in (-inf, inf)\n";

/// How a made script ends, and whether it writes these replies.
fn made(alloc: Global, failing_writes: &[u64], replies: &[u8]) -> Result<(Status, bool), NoMemory> {
    let setup = Setup {
        limit: 100,
        input_limit: 1_000,
        keys: KEYS,
    };
    let mut sink = BytesSink::new(alloc, 1_000, 1_000, failing_writes)?;
    let status = make(alloc, &setup, 3, &mut sink);
    Ok((status, sink.contents() == replies))
}

/// A made script is answered, and its replies break off where the sink fails.
#[test]
fn scripts_are_made(rt: HostRuntime) -> Result<(), Fail> {
    let whole = made(rt.alloc(), &[], MADE)?;
    assert_eq!(rt; whole, (Status::Done, true));
    let broken = made(rt.alloc(), &[3], b"yes\nyes\n")?;
    assert_eq!(rt; broken, (Status::WriteFault, true));
    Ok(())
}

/// A command line of at most one word.
fn words(alloc: Global, word: &str) -> Result<Words, NoMemory> {
    let mut list = Vec::new(alloc);
    if !word.is_empty() {
        list.push(String::from_str(alloc, word)?)?;
    }
    Ok(Words { list })
}

/// How a run ends on such a command line, and whether it writes these replies.
fn ran(
    alloc: Global,
    word: &str,
    keys: (u64, u64),
    devices: &Run<'_>,
    replies: &[u8],
) -> Result<(Status, bool), NoMemory> {
    let words = words(alloc, word)?;
    let mut source = BytesSource::new(alloc, devices.script, devices.piece, devices.failing_reads)?;
    let mut sink = BytesSink::new(alloc, 1_000, 1_000, devices.failing_writes)?;
    let status = run(alloc, &words, keys, &mut source, &mut sink);
    Ok((status, sink.contents() == replies))
}

/// A question.
const ASKED: Run<'static> = Run {
    script: b"ask 3 <= 7;",
    ..WHOLE
};

/// Command lines, devices, and how a run over them ends.
const LINES: [(&str, Run<'static>, &[u8], Status); 6] = [
    ("", ASKED, b"yes\n", Status::Done),
    (
        "--limit=1",
        Run {
            script: b"relation T(x); insert T { }; insert T { };",
            ..WHOLE
        },
        b"ok\ntuple 1\nrefused 17 full\n",
        Status::DoneWithRefusals,
    ),
    ("x", ASKED, b"", Status::BadWords),
    ("--make=3", ASKED, MADE, Status::Done),
    (
        "",
        Run {
            failing_reads: &[1],
            ..ASKED
        },
        b"",
        Status::ReadFault,
    ),
    (
        "",
        Run {
            failing_writes: &[1],
            ..ASKED
        },
        b"",
        Status::WriteFault,
    ),
];

/// Each command line is run, or refused with nothing read or written.
#[test]
fn command_lines_are_run(rt: HostRuntime) -> Result<(), Fail> {
    for (word, run, replies, status) in &LINES {
        let ended = ran(rt.alloc(), word, KEYS, run, replies)?;
        assert_eq!(rt; ended, (*status, true), "at {word}");
    }
    Ok(())
}

/// Relations whose names are hashed alike in the low 12 bits under the keys 0, as bench/colliding_names.c finds them.
const ALIKE: Run<'static> = Run {
    script: b"\
relation N135(x); relation N1565(x); relation N5396(x); insert N135 { x = 1 }; insert N5396 { x = 3 };
ask N135(1); ask N1565(1); ask N5396(3); drop N135; ask N5396(3); ask N135(1);",
    ..WHOLE
};

/// Names that are hashed alike are found, and told apart, under these keys and others.
#[test]
fn names_are_told_apart_under_any_keys(rt: HostRuntime) -> Result<(), Fail> {
    let replies = b"ok\nok\nok\ntuple 1\ntuple 1\nyes\nno\nyes\nok\nyes\nrefused 9 unknown\n";
    for keys in [(0, 0), KEYS] {
        let ended = ran(rt.alloc(), "", keys, &ALIKE, replies)?;
        assert_eq!(rt; ended, (Status::DoneWithRefusals, true));
    }
    Ok(())
}
