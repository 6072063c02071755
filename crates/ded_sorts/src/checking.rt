//! The least refusal that a command and the names decide.
ghost use Rattle.std.specs.Prelude.{◌≡◌, ◌≢◌, true, suc, IfOk, IfErr};
ghost use Rattle.ded_model.specs.Command.{command_form};
ghost use Rattle.ded_model.specs.Refusals.{refusal_number};
ghost use Rattle.ded_sorts.specs.Causes.{has_cause};
ghost use Rattle.ded_sorts.specs.Checks.{is_checked, IsLeastCause, HasNoneBelow, HasNoCause};
ghost use Rattle.ded_sorts.specs.Facts.{AreFacts};

use crate::causes::{
    deletes_none, drops_used, has_many, is_too_high, names_other_kind, names_twice, names_unknown,
    takes_name,
};
use crate::columns::{has_unbound, has_wrong_arity, has_wrong_sort};
use crate::facts::Facts;
use crate::names::Names;
use ded_model::command::{Command, Refusal};
use ded_model::memory::NoMemory;

/// Checks that the command is accepted over the names, up to what the number of a relation's tuples and inserts
/// decides.
///
/// # Errors
/// The least of the refusals that apply, from `Many` to `NoTuple`, and `Level`; or else `Memory`, where an allocation
/// failed.
pub fn check<N: Names>(command: &Command, names: &N) -> Result<(), Refusal>
    ensures ok { IfOk result (λ _. HasNoCause (N.catalogue names.now) (command_form command.now)) }
    ensures refused { IfErr result (λ r. r ≢ Refusal.Memory
        → IsLeastCause r (N.catalogue names.now) (command_form command.now)) }
{
    let Ok(facts) = Facts::of(command, names) else {
        return Err(Refusal::Memory);
    };
    refuse(Refusal::Many, command, facts, names)?;
    refuse(Refusal::Twice, command, facts, names)?;
    refuse(Refusal::Unknown, command, facts, names)?;
    refuse(Refusal::Taken, command, facts, names)?;
    refuse(Refusal::Kind, command, facts, names)?;
    refuse(Refusal::Arity, command, facts, names)?;
    refuse(Refusal::Unbound, command, facts, names)?;
    refuse(Refusal::WrongSort, command, facts, names)?;
    refuse(Refusal::Used, command, facts, names)?;
    refuse(Refusal::NoTuple, command, facts, names)?;
    refuse(Refusal::Level, command, facts, names)
}

/// Refuses the command for the refusal where that applies, and none of a lesser number does.
fn refuse<N: Names>(
    refusal: Refusal,
    command: &Command,
    facts: Facts<'_>,
    names: &N,
) -> Result<(), Refusal>
    requires facts { AreFacts (N.catalogue names.now) (command_form command.now) facts }
    requires checked { is_checked refusal ≡ true }
    requires past { HasNoneBelow (refusal_number refusal) (N.catalogue names.now) (command_form command.now) }
    ensures ok { IfOk result (λ _. HasNoneBelow (suc (refusal_number refusal)) (N.catalogue names.now)
        (command_form command.now)) }
    ensures refused { IfErr result (λ r. r ≢ Refusal.Memory
        → IsLeastCause r (N.catalogue names.now) (command_form command.now)) }
{
    match applies(refusal, command, facts, names) {
        Err(_) => Err(Refusal::Memory),
        Ok(true) => Err(refusal),
        Ok(false) => Ok(()),
    }
}

/// Whether the refusal applies to the command.
fn applies<N: Names>(
    refusal: Refusal,
    command: &Command,
    facts: Facts<'_>,
    names: &N,
) -> Result<bool, NoMemory>
    requires facts { AreFacts (N.catalogue names.now) (command_form command.now) facts }
    requires checked { is_checked refusal ≡ true }
    ensures { IfOk result (λ b. b ≡ has_cause refusal (N.catalogue names.now) (command_form command.now)) }
{
    match refusal {
        Refusal::Many => Ok(has_many(command)),
        Refusal::Twice => Ok(names_twice(command)),
        Refusal::Unknown => names_unknown(command, facts, names),
        Refusal::Taken => Ok(takes_name(command, facts)),
        Refusal::Kind => Ok(names_other_kind(command, facts)),
        Refusal::Arity => has_wrong_arity(command, facts, names),
        Refusal::Unbound => has_unbound(command, facts),
        Refusal::WrongSort => has_wrong_sort(command, facts, names),
        Refusal::Used => Ok(drops_used(command, names)),
        Refusal::NoTuple => Ok(deletes_none(command, names)),
        Refusal::Level => is_too_high(command, names),
        _ => Ok(false),
    }
}
