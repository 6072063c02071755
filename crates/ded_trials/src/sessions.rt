//! Sessions, seen by the lists that they hold of kept views.
use crate::texts::{page, put_tuples};
use ded_io::{BytesSink, Failed, send};
use ded_lex::Piece;
use ded_model::name::Name;
use ded_session::{Session, write_reply};
use std::alloc::Global;
use std::test::Fail;

/// Statements, each on a line, and what is seen behind them.
struct SessionCase {
    statements: &'static str,
    /// The text of the last reply.
    reply: &'static str,
    /// How often a list was extended by one tuple alone.
    added: u64,
    /// The list that is held of `V`.
    kept: &'static str,
}

/// A view that is a projection: its list follows inserts and deletes.
const PROJECTED: SessionCase = SessionCase {
    statements: "\
relation T(x, y)
insert T { x = 1, y = 1 }
view V(x) := exists y (T(x, y))
keep V
ask V(2)
insert T { x = 2, y = 5 }",
    reply: "tuple 2\n",
    added: 1,
    kept: "{ x = 1 }\n{ x = 2 }\n",
};

const DELETED: SessionCase = SessionCase {
    statements: "\
relation T(x, y)
insert T { x = 1, y = 1 }
view V(x) := exists y (T(x, y))
keep V
insert T { x = 2, y = 5 }
delete T 1
ask V(1)",
    reply: "no\n",
    added: 1,
    kept: "{ x = 2 }\n",
};

/// The part of a union that stands in the list already comes first, and then the one that was inserted, without that
/// part again. An answer that is read from the list has the same order.
const READ: SessionCase = SessionCase {
    statements: "\
relation T(x)
view V(x) := T(x) or x = 9
keep V
insert T { x = 1 }
query (x) : V(x)",
    reply: "answer 2\n{ x = 9 }\n{ x = 1 }\nend\n",
    added: 1,
    kept: "{ x = 9 }\n{ x = 1 }\n",
};

/// The formula itself has its parts in their order.
const EVALUATED: SessionCase = SessionCase {
    statements: "\
relation T(x)
view V(x) := T(x) or x = 9
insert T { x = 1 }
query (x) : V(x)",
    reply: "answer 2\n{ x = 1 }\n{ x = 9 }\nend\n",
    added: 0,
    kept: "none",
};

/// Carries a statement of at most 65,536 bytes out, and writes the reply.
fn answer(session: &mut Session, statement: &str, sink: &mut BytesSink) -> Result<(), Failed> {
    let bytes = statement.as_bytes();
    let piece = if bytes.len() > 65_536 {
        Piece::Long
    } else {
        Piece::Whole(bytes)
    };
    write_reply(&session.step(piece), sink)
}

/// Carries statements out, and writes the last reply alone.
fn answer_all(alloc: Global, session: &mut Session, statements: &str) -> Result<BytesSink, Fail> {
    let mut sink = page(alloc)?;
    for statement in statements.lines() {
        sink = page(alloc)?;
        answer(session, statement, &mut sink)?;
    }
    Ok(sink)
}

/// Whether statements are answered last by that.
fn is_answered(
    alloc: Global,
    session: &mut Session,
    statements: &str,
    reply: &str,
) -> Result<bool, Fail> {
    let sink = answer_all(alloc, session, statements)?;
    Ok(sink.contents() == reply.as_bytes())
}

/// Writes the list that is held of a view.
fn put_kept(session: &Session, view: &Name, sink: &mut BytesSink) -> Result<(), Failed> {
    match (session.kept(view), session.catalogue().heading(view)) {
        (Some(tuples), Some(heading)) => put_tuples(heading, tuples, sink),
        _ => send(sink, b"none"),
    }
}

/// Whether that is held of `V`.
fn is_kept(alloc: Global, session: &Session, kept: &str) -> Result<bool, Fail> {
    let view = Name {
        bytes: b"V".to_vec(alloc)?,
    };
    let mut sink = page(alloc)?;
    put_kept(session, &view, &mut sink)?;
    Ok(sink.contents() == kept.as_bytes())
}

/// Whether the last reply and the list that is held are those, and how often a list was extended.
fn outcome(alloc: Global, case: &SessionCase) -> Result<(bool, bool, u64), Fail> {
    let mut session = Session::new(alloc, 5)?;
    let is_answered = is_answered(alloc, &mut session, case.statements, case.reply)?;
    let is_kept = is_kept(alloc, &session, case.kept)?;
    Ok((is_answered, is_kept, session.added()))
}

/// Lists follow inserts and deletes, and questions read them.
#[test]
fn lists_are_held(rt: HostRuntime) -> Result<(), Fail> {
    for case in [&PROJECTED, &DELETED, &READ, &EVALUATED] {
        let outcome = outcome(rt.alloc(), case)?;
        assert_eq!(rt; outcome, (true, true, case.added), "at {}", case.statements);
    }
    Ok(())
}
