//! The commands that change the catalogue, each where the names refuse it for nothing.
ghost use Rattle.std.specs.Prelude.{◌≡◌, ◌==◌, ◌≤◌, true, false, is_some, length, OnOk, OnErr};
ghost use Rattle.std.specs.List.{list_any};
ghost use Rattle.ded_model.specs.Command.{relation, insert, delete, drop, view, keep};
ghost use Rattle.ded_model.specs.Form.{FormAtom, form};
ghost use Rattle.ded_model.specs.Goal.{goal_form};
ghost use Rattle.ded_model.specs.Known.{IsAccepted, IsNewName, IsTupleOver, level_of};
ghost use Rattle.ded_model.specs.Logic.{Logics, some_atom};
ghost use Rattle.ded_model.specs.LongRows.{is_long_atom};
ghost use Rattle.ded_model.specs.Plain.{IsPlain};
ghost use Rattle.ded_model.specs.Slotted.{goal_of, tuple_of};
ghost use Rattle.ded_model.specs.Width.{tuple_length};
ghost use Rattle.ded_sorts.specs.Causes.{is_relation_with, is_view_with};
ghost use Rattle.ded_sorts.specs.Checks.{forms_of};
ghost use Rattle.ded_model.specs.Entries.{known, tuples_in, columns_in, entry_uses};
ghost use Rattle.ded_database.specs.State.{catalogue_at};
ghost use Rattle.ded_session.specs.Answered.{reply_form};
ghost use Rattle.ded_session.specs.Carrying.{Carries};
ghost use Rattle.ded_session.specs.Keeping.{Upholds};
ghost use Rattle.ded_session.specs.Replies.{done, refused};

use crate::reply::Reply;
use ded_database::Database;
use ded_eval::Engine;
use ded_model::command::Refusal;
use ded_model::formula::Formula;
use ded_model::goal::Goal;
use ded_model::memory::NoMemory;
use ded_model::name::{Heading, Name};
use ded_model::tuple::Tuple;

/// Defines a relation without tuples.
pub(crate) fn define(database: &mut Database, name: Name, heading: Heading) -> Reply
    requires new { IsNewName (known (catalogue_at database.old)) name }
    requires few { length heading ≤ 16 }
    ensures carries { Carries (relation name heading) (catalogue_at database.old) (reply_form result)
        (catalogue_at database.new) }
    ensures upholds { Upholds (relation name heading) (reply_form result) database.old database.new }
{
    done(database.define(name, heading))
}

/// Inserts a tuple into a relation. The reply is its number.
pub(crate) fn insert(database: &mut Database, name: &Name, tuple: Tuple) -> Reply
    requires relation { is_relation_with (known (catalogue_at database.old) name.now) ≡ true }
    requires over { IsTupleOver (columns_in (catalogue_at database.old) name.now) tuple }
    requires short { tuple_length tuple ≤ 63 }
    ensures carries { (comparisons : Logics FormAtom) →
        tuple ≡ tuple_of (columns_in (catalogue_at database.old) name.now) (forms_of comparisons) →
        Carries (insert name.now comparisons) (catalogue_at database.old) (reply_form result) (catalogue_at database.new) }
    ensures upholds { (comparisons : Logics FormAtom)
        → Upholds (insert name.now comparisons) (reply_form result) database.old database.new }
{
    match database.insert::<Engine>(name, tuple) {
        Ok(number) => Reply::Number(number),
        Err(refusal) => Reply::Refused(refusal),
    }
}

/// Deletes the tuple of the number from a relation.
pub(crate) fn delete(database: &mut Database, name: &Name, number: u64) -> Reply
    requires { list_any (λ t. t.0 == number) (tuples_in (catalogue_at database.old) name.now) ≡ true }
    ensures carries { Carries (delete name.now number) (catalogue_at database.old) (reply_form result)
        (catalogue_at database.new) }
    ensures upholds { Upholds (delete name.now number) (reply_form result) database.old database.new }
{
    done(database.delete::<Engine>(name, number))
}

/// Drops a defined name that no view uses.
pub(crate) fn drop_name(database: &mut Database, name: &Name) -> Reply
    requires defined { is_some (known (catalogue_at database.old) name.now) ≡ true }
    requires unused { list_any (entry_uses name.now) (catalogue_at database.old).entries ≡ false }
    ensures carries { Carries (drop name.now) (catalogue_at database.old) (reply_form result)
        (catalogue_at database.new) }
    ensures upholds { Upholds (drop name.now) (reply_form result) database.old database.new }
{
    database.drop_name(name);
    Reply::Done
}

/// Defines a view: its formula as written, and the goal of that.
pub(crate) fn define_view(
    database: &mut Database,
    name: Name,
    heading: Heading,
    formula: Formula,
    goal: Goal,
) -> Reply
    requires new { IsNewName (known (catalogue_at database.old)) name }
    requires accepted { IsAccepted (known (catalogue_at database.old)) heading (form formula) }
    requires level { level_of (known (catalogue_at database.old)) (form formula) ≤ 16 }
    requires plain { IsPlain (form formula) }
    requires short { some_atom is_long_atom (form formula) ≡ false }
    requires goal { goal_form goal ≡ goal_of heading (form formula) }
    ensures carries { Carries (view name heading (form formula)) (catalogue_at database.old) (reply_form result)
        (catalogue_at database.new) }
    ensures upholds { Upholds (view name heading (form formula)) (reply_form result) database.old database.new }
{
    done(database.define_view(name, heading, formula, goal))
}

/// Marks a view, whose answer is held as a list from then on.
pub(crate) fn keep(database: &mut Database, name: &Name) -> Reply
    requires { is_view_with (known (catalogue_at database.old) name.now) ≡ true }
    ensures carries { Carries (keep name.now) (catalogue_at database.old) (reply_form result)
        (catalogue_at database.new) }
    ensures upholds { Upholds (keep name.now) (reply_form result) database.old database.new }
{
    done(database.keep::<Engine>(name))
}

/// The reply to a change: that it was done, or that it was refused as out of memory.
fn done(changed: Result<(), NoMemory>) -> Reply
    ensures done { OnOk changed (reply_form result ≡ done) }
    ensures wants { OnErr changed (reply_form result ≡ refused Refusal.Memory) }
{
    match changed {
        Ok(()) => Reply::Done,
        Err(_) => Reply::Refused(Refusal::Memory),
    }
}
