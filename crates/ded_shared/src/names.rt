//! Names in the order in which they were added.
ghost use Rattle.std.specs.Prelude.{◌≡◌, ◌++◌, ◌||◌, ℕ, List, take, length, OnOk, OnErr};
ghost use Rattle.ded_shared.specs.State.{is_among};

use ded_model::memory::NoMemory;
use ded_model::name::Name;

/// Adds copies of all names at the end.
///
/// # Errors
/// Out of memory. None is added then.
pub fn add_all(names: &mut Vec<Name>, more: &[Name]) -> Result<(), NoMemory>
    ensures ok { OnOk result (names.new.items ≡ names.old.items ++ more.now) }
    ensures err { OnErr result (names.new.items ≡ names.old.items) }
{
    let count = names.len();
    let added = try_add_all(names, more);
    if added.is_err() {
        names.truncate(count);
    }
    added
}

/// Adds copies of all names at the end.
///
/// # Errors
/// Out of memory. Some may be added then.
fn try_add_all(names: &mut Vec<Name>, more: &[Name]) -> Result<(), NoMemory>
    ensures ok { OnOk result (names.new.items ≡ names.old.items ++ more.now) }
    ensures err { take (length names.old.items) names.new.items ≡ names.old.items }
{
    for name in more {
        names.push(name.copy()?)?;
    }
    Ok(())
}

/// Adds copies of the names that don't stand there yet at the end, each once.
///
/// # Errors
/// Out of memory. Some may be added then.
pub fn add_new(names: &mut Vec<Name>, more: &[Name]) -> Result<(), NoMemory>
    ensures front { take (length names.old.items) names.new.items ≡ names.old.items }
    ensures ok { OnOk result ((n : List ℕ) → is_among names.new.items n
        ≡ (is_among names.old.items n || is_among more.now n)) }
{
    for name in more {
        if !names.contains(name) {
            names.push(name.copy()?)?;
        }
    }
    Ok(())
}
