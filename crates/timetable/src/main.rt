//! An example of Dedale as a library: a timetable, asked which talks are in one room at the same time, and when a room
//! is free.
//!
//! It opens a session, carries statements out, reads an answer tuple by tuple, and writes another one as the program
//! `dedale` does.
#![tactic(auto)]

use ded_io::{Failed, Sink, StdSink, send};
use ded_lex::Piece;
use ded_model::tuple::{BothAtom, ThemeAtom, Tuple};
use ded_session::{Reply, Session, write_reply};
use std::process::ExitCode;

/// Talks, their rooms, and the hours at which they are.
const STATEMENTS: [&str; 4] = [
    "relation Talk(name text, room text, t)",
    "insert Talk { name = 'Walks', room = 'Hall', 2*t >= 19, t < 11 }",
    "insert Talk { name = 'Maps', room = 'Hall', t >= 10, 2*t < 23 }",
    "insert Talk { name = 'Tides', room = 'Tower', t >= 10, t < 11 }",
];

/// Which talks are in one room at the same time, each pair once.
const CLASHES: &str = "query (a text, b text) : exists r text exists t \
    (Talk(a, r, t) and Talk(b, r, t) and a = 'Maps' and not b = a)";

/// When the hall is free between 9 and 12.
const FREE: &str = "query (t) : t >= 9 and t <= 12 and not exists n text (Talk(n, 'Hall', t))";

/// Why the report isn't whole.
enum Fault {
    /// A statement was refused.
    Refused,
    /// The output failed.
    Output,
}

/// The reply to a statement.
fn reply_to(session: &mut Session, statement: &str) -> Reply {
    let bytes = statement.as_bytes();
    if bytes.len() > 65_536 {
        session.step(Piece::Long)
    } else {
        session.step(Piece::Whole(bytes))
    }
}

/// Carries the statements out.
fn set_up(session: &mut Session) -> Result<(), Fault> {
    for statement in &STATEMENTS {
        if reply_to(session, statement).is_refusal() {
            return Err(Fault::Refused);
        }
    }
    Ok(())
}

/// The text that a tuple has in the column, where an atom says it.
fn text_in(tuple: &Tuple, column: u32) -> Option<&[u8]> {
    for atom in &tuple.atoms {
        match atom {
            BothAtom::Second(ThemeAtom::EqText(slot, text)) if slot.number == column => {
                return Some(text.bytes.as_slice());
            }
            _ => {}
        }
    }
    None
}

/// Writes the two texts of a tuple on a line.
fn write_pair<K: Sink>(tuple: &Tuple, sink: &mut K) -> Result<(), Failed> {
    send(sink, text_in(tuple, 0).unwrap_or(b"any talk"))?;
    send(sink, b" clashes with ")?;
    send(sink, text_in(tuple, 1).unwrap_or(b"any talk"))?;
    send(sink, b"\n")
}

/// Writes the pairs of talks that clash.
fn write_clashes<K: Sink>(session: &mut Session, sink: &mut K) -> Result<(), Fault> {
    let Reply::Tuples(answer) = reply_to(session, CLASHES) else {
        return Err(Fault::Refused);
    };
    for tuple in &answer.tuples.list {
        write_pair(tuple, sink).map_err(|_| Fault::Output)?;
    }
    Ok(())
}

/// Writes the whole report.
fn report<K: Sink>(session: &mut Session, sink: &mut K) -> Result<(), Fault> {
    set_up(session)?;
    write_clashes(session, sink)?;
    write_reply(&reply_to(session, FREE), sink).map_err(|_| Fault::Output)
}

/// Writes the report to standard output. The status is 1 where a statement was refused, and 4 where the output failed.
fn main(rt: HostRuntime) -> ExitCode {
    let mut sink = StdSink::new(rt.stdout());
    let Ok(mut session) = Session::new(rt.alloc(), 1_000) else {
        return ExitCode::from(5);
    };
    match report(&mut session, &mut sink) {
        Ok(()) => ExitCode::from(0),
        Err(Fault::Refused) => ExitCode::from(1),
        Err(Fault::Output) => ExitCode::from(4),
    }
}
