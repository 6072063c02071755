//! Inputs cut into pieces, byte by byte.
use ded_lex::{Fed, Splitter, Unended};
use ded_model::memory::NoMemory;
use std::alloc::Global;
use std::test::Fail;

/// Inputs, and how they are cut: each piece before a `|`, and a sign for the rest, `.` where that is blank and `?`
/// where it is cut.
const INPUTS: [(&str, &str); 18] = [
    ("", "."),
    ("a;", "a|."),
    ("a; b", "a|?"),
    (";;", "||."),
    ("a'b;c''d;';e;", "a'b;c''d;'|e|."),
    ("'a';'b", "'a'|?"),
    ("a--b;c\nd;", "a--b;c\nd|."),
    ("a--b;", "?"),
    ("a-'b;--';", "a-'b;--'|."),
    ("'--';--'\n;", "'--'|--'\n|."),
    ("a-b;-;- -;", "a-b|-|- -|."),
    ("a-;", "a-|."),
    ("a; \t\r\n-- b;'\n -- c", "a|."),
    ("--", "."),
    ("-", "?"),
    (" -a", "?"),
    ("-- a\nb", "?"),
    (" '", "?"),
];

/// The sign of a rest.
fn sign(rest: Unended) -> u8 {
    match rest {
        Unended::Blank => b'.',
        Unended::Cut => b'?',
        Unended::CutLong => b'!',
    }
}

/// How an input is cut.
fn cut(alloc: Global, input: &[u8]) -> Result<Vec<u8>, NoMemory> {
    let mut splitter = Splitter::new(alloc)?;
    let mut cut = Vec::new(alloc);
    for byte in input {
        if splitter.feed(*byte) == Fed::Ended {
            cut.extend_from_slice(splitter.piece())?;
            cut.push(b'|')?;
        }
    }
    cut.push(sign(splitter.finish()))?;
    Ok(cut)
}

/// Inputs are cut at each `;` outside of texts and comments.
#[test]
fn inputs_are_cut(rt: HostRuntime) -> Result<(), Fail> {
    for (input, wanted) in INPUTS {
        assert_eq!(rt;
            cut(rt.alloc(), input.as_bytes())?.as_slice(),
            wanted.as_bytes(),
            "at {input}"
        );
    }
    Ok(())
}

/// What is seen of a piece of one byte many times, before its end and at it.
#[derive(Clone, Copy, Debug, PartialEq, Eq)]
struct Seen {
    is_whole: bool,
    rest: Unended,
    ended: Fed,
    length: usize,
}

/// Feeds one byte many times and then the end of the piece. The length is that of the last piece of at most 65,536
/// bytes.
fn fed(splitter: &mut Splitter, byte: u8, count: usize) -> Seen {
    let mut is_whole = true;
    for _ in 0..count {
        is_whole &= splitter.feed(byte) == Fed::More;
    }
    let rest = splitter.finish();
    let ended = splitter.feed(b';');
    Seen {
        is_whole: is_whole && splitter.finish() == Unended::Blank,
        rest,
        ended,
        length: splitter.piece().len(),
    }
}

/// A piece of more than 65,536 bytes is long, and the next one is not.
#[test]
fn long_pieces_are_counted(rt: HostRuntime) -> Result<(), Fail> {
    let mut splitter = Splitter::new(rt.alloc())?;
    for (byte, count, rest, ended) in [
        (b'a', 65_536, Unended::Cut, Fed::Ended),
        (b'a', 65_537, Unended::CutLong, Fed::EndedLong),
        (b'b', 2, Unended::Cut, Fed::Ended),
        (b' ', 65_537, Unended::Blank, Fed::EndedLong),
        (b'c', 3, Unended::Cut, Fed::Ended),
    ] {
        let seen = fed(&mut splitter, byte, count);
        assert!(rt;
            seen.is_whole && seen.rest == rest && seen.ended == ended,
            "{count} times {byte}"
        );
        assert!(rt;
            ended == Fed::EndedLong || seen.length == count,
            "{count} times {byte}"
        );
    }
    Ok(())
}
