//! Relations that have given nearly all their numbers.
ghost use Rattle.std.specs.Prelude.{◌≡◌, [], ◌∷◌, IfOk};

use ded_catalog::Catalogue;
use ded_model::command::Refusal;
use ded_model::memory::NoMemory;
use ded_model::name::{Heading, Name};
use ded_model::tuple::Tuple;
use ded_sorts::{Known, Names};
use std::alloc::Global;
use std::test::Fail;

/// No columns.
fn no_columns(alloc: Global) -> Heading
    ensures { result ≡ [] }
{
    Heading {
        columns: Vec::new(alloc),
    }
}

/// The tuple that holds everywhere.
fn whole_space(alloc: Global) -> Tuple
    ensures { result ≡ [] }
{
    Tuple {
        atoms: Vec::new(alloc),
    }
}

/// The name of the relation.
fn relation_name(alloc: Global) -> Result<Name, NoMemory>
    ensures { IfOk result (λ n. n ≡ 84 ∷ []) }
{
    Ok(Name {
        bytes: b"T".to_vec(alloc)?,
    })
}

/// Inserts the tuple that holds everywhere, where the name is a relation.
fn insert(alloc: Global, catalogue: &mut Catalogue, name: &Name) -> Result<u32, Refusal> {
    match catalogue.known(name) {
        Some(Known::Relation(_)) => catalogue.insert(name, whole_space(alloc)),
        _ => Err(Refusal::Unknown),
    }
}

/// What two inserts are answered by a relation that has given so many numbers.
type Answers = (Result<u32, Refusal>, Result<u32, Refusal>);

/// What they are answered, where a relation holds at most so many tuples.
fn answers(alloc: Global, limit: u32, given: u32) -> Result<Answers, NoMemory> {
    let mut catalogue = Catalogue::new(alloc, limit.clamp(1, 100))?;
    let name = relation_name(alloc)?;
    if catalogue.known(&name).is_none() {
        catalogue.define_at(name.copy()?, no_columns(alloc), given)?;
    }
    let first = insert(alloc, &mut catalogue, &name);
    Ok((first, insert(alloc, &mut catalogue, &name)))
}

/// The last number is given, and after it an insert is refused as spent, unless the relation is full.
#[test]
fn numbers_are_spent(rt: HostRuntime) -> Result<(), Fail> {
    for (limit, given, wanted) in [
        (2, u32::MAX, (Err(Refusal::Spent), Err(Refusal::Spent))),
        (2, u32::MAX - 1, (Ok(u32::MAX), Err(Refusal::Spent))),
        (1, u32::MAX - 1, (Ok(u32::MAX), Err(Refusal::Full))),
    ] {
        let answers = answers(rt.alloc(), limit, given)?;
        assert!(rt; answers == wanted, "{given} of {limit}");
    }
    Ok(())
}
