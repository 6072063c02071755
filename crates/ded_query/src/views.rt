//! Views as relations under their names.
ghost use Rattle.std.specs.Prelude.{◌≡◌, true, is_some, Some, IfOk};
ghost use Rattle.std.specs.Option.{option_map};
ghost use Rattle.ded_model.specs.Entries.{known};
ghost use Rattle.ded_catalog.specs.Snapshots.{snapshot_of};
ghost use Rattle.ded_query.specs.Gathering.{IsViewOf, IsGivenAs};

use ded_algebra::GivenRelation;
use ded_catalog::Snapshot;
use ded_model::memory::NoMemory;
use ded_model::name::Name;
use ded_model::tuple::Tuples;

/// A view as a relation under its name, with tuples that its goal is evaluated to.
///
/// # Errors
/// Out of memory.
pub fn held_view(
    snapshot: &Snapshot<'_>,
    name: &Name,
    tuples: Tuples,
) -> Result<GivenRelation, NoMemory>
    requires { IsViewOf (snapshot_of snapshot.now) name.now tuples }
    ensures { IfOk result (λ r. IsGivenAs (snapshot_of snapshot.now) name.now r × (r.tuples ≡ tuples)) }
{
    snapshot.formed();
    view_relation(snapshot, name, tuples)
}

/// A relation under the name of a view, with its heading.
///
/// # Errors
/// Out of memory.
pub(crate) fn view_relation(
    snapshot: &Snapshot<'_>,
    name: &Name,
    tuples: Tuples,
) -> Result<GivenRelation, NoMemory>
    requires { is_some (known (snapshot_of snapshot.now) name.now) ≡ true }
    ensures { IfOk result (λ r. (r.name ≡ name.now)
        × (Some r.heading ≡ option_map (λ k. k.columns) (known (snapshot_of snapshot.now) name.now))
        × (r.tuples ≡ tuples)) }
{
    let Some(heading) = snapshot.heading(name) else {
        unreachable!()
    };
    Ok(GivenRelation {
        name: name.copy()?,
        heading: heading.copy()?,
        tuples,
    })
}
