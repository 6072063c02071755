//! The reply to a whole piece.

ghost use Rattle.std.specs.Prelude.{◌≡◌, ◌≤◌, ◌↔◌, true, length};
ghost use Rattle.ded_lex.specs.Pieces.{Whole};
ghost use Rattle.ded_database.specs.State.{catalogue_at};
ghost use Rattle.ded_session.specs.Answered.{reply_form};
ghost use Rattle.ded_session.specs.Keeping.{UpholdsPiece};
ghost use Rattle.ded_session.specs.Steps.{IsHeaderIn, Step};

use crate::command::answer;
use crate::reply::Reply;
use ded_database::Database;
use ded_model::command::Language;
use ded_syntax::{is_header, read_command};
use std::alloc::Global;

/// Whether the bytes of a whole piece are the header, in this language. It doesn't allocate.
pub(crate) fn is_header_in(language: Language, bytes: &[u8]) -> bool
    requires { length bytes.now ≤ 65536 }
    ensures { (result ≡ true) ↔ IsHeaderIn language (Whole bytes.now) }
{
    match language {
        Language::Opening => is_header(bytes),
        Language::One | Language::Two => false,
    }
}

/// Answers the bytes of a whole piece that isn't the header, and changes the catalogue as its command says.
pub(crate) fn reply_to(
    alloc: Global,
    bytes: &[u8],
    language: Language,
    database: &mut Database,
) -> Reply
    requires short { length bytes.now ≤ 65536 }
    requires other { IsHeaderIn language (Whole bytes.now) → ⊥ }
    ensures step { Step language (catalogue_at database.old) (Whole bytes.now) (reply_form result)
        (catalogue_at database.new) }
    ensures upholds { UpholdsPiece language bytes.now (reply_form result) database.old database.new }
{
    match read_command(alloc, bytes, language) {
        Ok(command) => answer(alloc, command, database),
        Err(refusal) => Reply::Refused(refusal),
    }
}
