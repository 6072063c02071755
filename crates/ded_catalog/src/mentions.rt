//! The names that a formula speaks of.
ghost use Rattle.std.specs.Prelude.{IfOk, OnOk};
ghost use Rattle.std.specs.Str.{bytes_eq};
ghost use Rattle.ded_model.specs.Form.{form, forms, speaks_of, atom_speaks_of};
ghost use Rattle.ded_model.specs.Logic.{some_atom_of};
ghost use Rattle.ded_model.specs.Made.{base};
ghost use Rattle.ded_catalog.specs.Mentions.{AreMentions, Gathers};

use ded_model::formula::Formula;
use ded_model::memory::NoMemory;
use ded_model::name::Name;
use ded_relation::NameHashing;
use indexmap::IndexSet;
use std::alloc::Global;

/// Names, each once, in the order in which they were met.
type NamesMet = IndexSet<Name, NameHashing>;

/// The names that the formula speaks of, each once. A closure or an interior counts by the name that it is made of.
///
/// # Errors
/// Out of memory.
pub(crate) fn mentioned(
    alloc: Global,
    hashing: NameHashing,
    formula: &Formula,
) -> Result<Vec<Name>, NoMemory>
    ensures { IfOk result (λ ns. AreMentions ns.items (form formula.now)) }
{
    let mut names = IndexSet::with_hasher(alloc, hashing);
    gather(&mut names, formula)?;
    Vec::from_iter(alloc, names)
}

/// Gathers the names that the formula speaks of.
///
/// # Errors
/// Out of memory.
#[cycle(gathering)]
fn gather(names: &mut NamesMet, formula: &Formula) -> Result<(), NoMemory>
    ensures { OnOk result (Gathers (λ n. speaks_of n (form formula.now)) names.old.keys names.new.keys) }
{
    match formula {
        Formula::True | Formula::False | Formula::Compare(_, _, _) => Ok(()),
        Formula::Member(name, _) => gather_base(names, name),
        Formula::Not(part) | Formula::Exists(_, part) | Formula::Forall(_, part) => {
            gather(names, part)
        }
        Formula::And(parts) | Formula::Or(parts) => gather_each(names, parts),
        Formula::Implies(left, right) => {
            gather(names, left)?;
            gather(names, right)
        }
    }
}

/// Gathers the names that one of the formulas speaks of.
///
/// # Errors
/// Out of memory.
#[cycle(gathering)]
fn gather_each(names: &mut NamesMet, parts: &Vec<Formula>) -> Result<(), NoMemory>
    ensures { OnOk result (Gathers (λ n. some_atom_of (atom_speaks_of n) (forms parts.now.items))
        names.old.keys names.new.keys) }
{
    for part in parts {
        gather(names, part)?;
    }
    Ok(())
}

/// Gathers the name that this one is made of, or the name itself.
///
/// # Errors
/// Out of memory.
fn gather_base(names: &mut NamesMet, name: &Name) -> Result<(), NoMemory>
    ensures { OnOk result (Gathers (λ n. bytes_eq n (base name.now)) names.old.keys names.new.keys) }
{
    let base = name.base_name()?;
    names.insert(base)?;
    Ok(())
}
