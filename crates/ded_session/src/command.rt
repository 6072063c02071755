//! The answer to a command.
ghost use Rattle.std.specs.Prelude.{◌≡◌, false};
ghost use Rattle.ded_model.specs.Command.{CommandForm, command_form};
ghost use Rattle.ded_model.specs.LongRows.{has_long_row};
ghost use Rattle.ded_model.specs.Plain.{IsPlainCommand};
ghost use Rattle.ded_sorts.specs.Checks.{HasNoCause};
ghost use Rattle.ded_resolve.specs.Resolved.{IsResolved};
ghost use Rattle.ded_database.specs.State.{catalogue_at};
ghost use Rattle.ded_session.specs.Answered.{reply_form};
ghost use Rattle.ded_session.specs.Carrying.{Answers, Carries, IsReady};
ghost use Rattle.ded_session.specs.Keeping.{Upholds};
ghost use Rattle.ded_session.specs.PlainNames.{NamesPlainly};

use crate::boxes::bounds;
use crate::certificates::{disjoint, verified};
use crate::changes::{define, define_view, delete, drop_name, insert, keep};
use crate::outcome::reply_of;
use crate::questions::{steps, truth, tuples};
use crate::reply::Reply;
use crate::shown::{dump, show};
use ded_database::Database;
use ded_model::command::Command;
use ded_resolve::{Checked, resolve};
use std::alloc::Global;

/// Answers a command, and changes the catalogue as it says. A refused command changes nothing.
pub(crate) fn answer(alloc: Global, command: Command, database: &mut Database) -> Reply
    requires plain { IsPlainCommand (command_form command) }
    requires short { has_long_row (command_form command) ≡ false }
    requires named { NamesPlainly (command_form command) }
    ensures answers { Answers (command_form command) (catalogue_at database.old) (reply_form result)
        (catalogue_at database.new) }
    ensures upholds { Upholds (command_form command) (reply_form result) database.old database.new }
{
    match resolve(alloc, command, database.catalogue()) {
        Ok(checked) => carry_out(alloc, checked, database),
        Err(refusal) => Reply::Refused(refusal),
    }
}

/// Answers a command that the names accept.
fn carry_out(alloc: Global, command: Checked, database: &mut Database) -> Reply
    requires { IsReady (catalogue_at database.old) command }
    ensures carries { (written : CommandForm) → IsResolved (catalogue_at database.old) written command
        → HasNoCause (catalogue_at database.old) written →
        Carries written (catalogue_at database.old) (reply_form result) (catalogue_at database.new) }
    ensures upholds { (written : CommandForm) → IsResolved (catalogue_at database.old) written command
        → HasNoCause (catalogue_at database.old) written →
        Upholds written (reply_form result) database.old database.new }
{
    match command {
        Checked::Relation(name, heading) => define(database, name, heading),
        Checked::Insert(name, tuple) => insert(database, &name, tuple),
        Checked::Delete(name, number) => delete(database, &name, number),
        Checked::Drop(name) => drop_name(database, &name),
        Checked::View(name, heading, formula, goal) => {
            define_view(database, name, heading, formula, goal)
        }
        Checked::Ask(goal) => reply_of(truth(database, &goal)),
        Checked::Query(heading, goal) => reply_of(tuples(database, heading, &goal)),
        Checked::Show(name) => show(alloc, database.catalogue(), &name),
        Checked::BoxOf(name) => reply_of(bounds(alloc, database.catalogue(), &name)),
        Checked::Explain(_, goal) => reply_of(steps(alloc, &goal)),
        Checked::Header => Reply::Done,
        Checked::Dump => dump(alloc, database.catalogue()),
        Checked::Disjoint(first, second) => {
            reply_of(disjoint(alloc, database.catalogue(), &first, &second))
        }
        Checked::Verify(first, second, entries) => reply_of(verified(
            alloc,
            database.catalogue(),
            &first,
            &second,
            &entries,
        )),
        Checked::Keep(name) => keep(database, &name),
    }
}
