//! Statements over one catalogue.
ghost use Rattle.std.specs.Prelude.{◌≡◌, ◌≤◌, ℕ, List, false, length, IfOk};
ghost use Rattle.ded_lex.specs.Pieces.{Whole};
ghost use Rattle.ded_model.specs.declared.command.Language.TheVariants.{One};
ghost use Rattle.ded_model.specs.Command.{command_form};
ghost use Rattle.ded_model.specs.LongRows.{has_long_row};
ghost use Rattle.ded_model.specs.Plain.{IsPlainCommand};
ghost use Rattle.ded_syntax.specs.Spelling.{IsRead};
ghost use Rattle.ded_catalog.specs.State.{catalogue_of};
ghost use Rattle.ded_shared.specs.Touching.{depends_on_names};
ghost use Rattle.ded_session.specs.Answered.{reply_form};
ghost use Rattle.ded_session.specs.PlainNames.{NamesPlainly};
ghost use Rattle.ded_session.specs.Steps.{Step};
ghost use Rattle.ded_shared.specs.Parts.{ArePieces};
ghost use Rattle.ded_shared.specs.Rules.{Replays};

use ded_catalog::Catalogue;
use ded_lex::Piece;
use ded_model::command::{Command, Refusal};
use ded_model::memory::NoMemory;
use ded_model::name::Name;
use ded_session::{Reply, Session};
use std::alloc::{AllocError, Global};
use std::mem;

/// Answers a command over the catalogue, and keeps no view.
#[tactic(auto, unfolding(ded_session::specs::State::catalogue_in, ded_session::specs::State::language_in))]
pub fn step_over(alloc: Global, catalogue: &mut Catalogue, command: Command) -> Reply
    requires plain { IsPlainCommand (command_form command) }
    requires short { has_long_row (command_form command) ≡ false }
    requires named { NamesPlainly (command_form command) }
    ensures { (bytes : List ℕ) → length bytes ≤ 65536 → IsRead One bytes (command_form command) →
        Step One (catalogue_of catalogue.old) (Whole bytes) (reply_form result) (catalogue_of catalogue.new) }
{
    let taken = mem::replace(catalogue, Catalogue::hashed_with(alloc, 1, (0, 0)));
    match Session::resume(alloc, taken) {
        Ok(mut session) => {
            let reply = session.answer(command);
            *catalogue = session.into_catalogue();
            reply
        }
        Err(taken) => {
            drop(command);
            *catalogue = taken;
            Reply::Refused(Refusal::Memory)
        }
    }
}

/// Whether the reply depends on names: it is no refusal that bytes alone decide, and isn't for want of memory.
pub fn depends_on_names(reply: &Reply) -> bool
    ensures { result ≡ depends_on_names (reply_form reply.now) }
{
    match reply {
        Reply::Refused(refusal) => !matches!(
            refusal,
            Refusal::LongStatement
                | Refusal::Unfinished
                | Refusal::Syntax
                | Refusal::LongName
                | Refusal::LongNumber
                | Refusal::Deep
                | Refusal::Memory
        ),
        _ => true,
    }
}

/// The catalogue that the statements make of a copy of this one, where all of them are accepted.
///
/// # Errors
/// Out of memory, or one of them is refused.
pub fn replayed(
    alloc: Global,
    catalogue: &Catalogue,
    pieces: &[Name],
) -> Result<Catalogue, NoMemory>
    requires { ArePieces pieces.now }
    ensures { IfOk result (λ c. Replays pieces.now (catalogue_of catalogue.now) (catalogue_of c)) }
{
    let Ok(mut session) = Session::resume(alloc, catalogue.copy()?) else {
        return Err(AllocError);
    };
    for piece in pieces {
        if session.step(Piece::Whole(&piece.bytes)).is_refusal() {
            return Err(AllocError);
        }
    }
    Ok(session.into_catalogue())
}
