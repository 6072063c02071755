//! Closures and interiors of relations and views, under the names that are made of theirs.
ghost use Rattle.std.specs.Prelude.{◌≡◌, true, None, is_some, if◌then◌else◌, IfOk, IsErrOf};
ghost use Rattle.std.specs.List.{AllByRecursion};
ghost use Rattle.ded_model.specs.declared.memory.Refused.TheVariants.{Wide};
ghost use Rattle.ded_model.specs.Entries.{known};
ghost use Rattle.ded_model.specs.Made.{base, is_made, reading, closure_of, interior_of};
ghost use Rattle.ded_model.specs.Measure.{measures};
ghost use Rattle.ded_catalog.specs.Snapshots.{snapshot_of};
ghost use Rattle.ded_algebra.specs.Given.{has_name};
ghost use Rattle.ded_packed.specs.Lent.{lent};
ghost use Rattle.ded_query.specs.Gathering.{IsGivenOf, IsGivenAs};
ghost use Rattle.ded_query.specs.Made.{IsStanding, IsMadeBy, IsTooWide};
ghost use Rattle.ded_query.specs.Over.{over_relations};

use crate::over::Over;
use ded_algebra::{Given, GivenRelation, near_in};
use ded_catalog::Snapshot;
use ded_model::memory::{NoMemory, Refused};
use ded_model::name::Name;
use ded_model::tuple::{Tuple, Tuples};
use ded_packed::Lent;
use ded_ranges::Window;
use ded_topology::{closed_tuples, inner_tuples, laws};
use std::alloc::Global;

/// The closure or the interior of a relation, or of a view that is given, as a relation under its name. `inner` is the
/// name that it is made of.
///
/// # Errors
/// `Wide` only where the name clashes, otherwise out of memory.
pub(crate) fn made(
    alloc: Global,
    snapshot: &Snapshot<'_>,
    name: &Name,
    inner: &Name,
    given: &Given,
) -> Result<GivenRelation, Refused>
    requires made { is_made name.now ≡ true }
    requires inner { inner.now ≡ base name.now }
    requires known { is_some (known (snapshot_of snapshot.now) inner.now) ≡ true }
    requires there { has_name inner.now (over_relations (snapshot_of snapshot.now) None given.now) ≡ true }
    requires given { AllByRecursion (IsGivenOf (snapshot_of snapshot.now)) given.now }
    ensures is { IfOk result (IsGivenAs (snapshot_of snapshot.now) name.now) }
    ensures wide { IsErrOf result Wide → (measures (snapshot_of snapshot.now) name.now).clash ≡ true }
{
    snapshot.formed();
    laws::names();
    laws::wide_names();
    let Some(heading) = snapshot.heading(inner) else {
        unreachable!()
    };
    let tuples = standing(alloc, snapshot, inner, given)?;
    let near = made_tuples(alloc, name, &tuples.list)?;
    Ok(GivenRelation {
        name: name.copy()?,
        heading: heading.copy()?,
        tuples: near,
    })
}

/// The closure of the tuples, or their interior, as the name says.
///
/// # Errors
/// `Wide` only where one of the tuples isn't narrow, or of an interior the list of all their atoms; otherwise out of
/// memory.
fn made_tuples(alloc: Global, name: &Name, tuples: &[Tuple]) -> Result<Tuples, Refused>
    requires { is_made name.now ≡ true }
    ensures is { IfOk result (IsMadeBy (reading name.now) tuples.now) }
    ensures wide { IsErrOf result Wide → IsTooWide (reading name.now) tuples.now }
{
    if is_closure(name) {
        closed_tuples(alloc, tuples)
    } else {
        inner_tuples(alloc, tuples)
    }
}

/// Whether a made name is that of a closure, and not of an interior.
fn is_closure(name: &Name) -> bool
    requires { is_made name.now ≡ true }
    ensures { reading name.now ≡ (if result then closure_of (base name.now) else interior_of (base name.now)) }
{
    name.bytes.as_slice().starts_with(b"closure(")
}

/// Tuples that stand for a relation, or for a view that is given.
///
/// # Errors
/// Out of memory.
fn standing(
    alloc: Global,
    snapshot: &Snapshot<'_>,
    name: &Name,
    given: &Given,
) -> Result<Tuples, NoMemory>
    requires known { is_some (known (snapshot_of snapshot.now) name.now) ≡ true }
    requires there { has_name name.now (over_relations (snapshot_of snapshot.now) None given.now) ≡ true }
    requires given { AllByRecursion (IsGivenOf (snapshot_of snapshot.now)) given.now }
    ensures { IfOk result (IsStanding (snapshot_of snapshot.now) name.now) }
{
    snapshot.formed();
    let over = Over {
        snapshot,
        given,
        hidden: None,
    };
    let window = Window::everything(alloc);
    let Some(tuples) = near_in(alloc, &over, name, &window)? else {
        unreachable!()
    };
    copied(alloc, &tuples)
}

/// Copies of the tuples, in order.
///
/// # Errors
/// Out of memory.
fn copied(alloc: Global, tuples: &[Lent<'_>]) -> Result<Tuples, NoMemory>
    ensures { IfOk result (λ ts. ts ≡ lent tuples.now) }
{
    let mut list = Vec::with_capacity(alloc, tuples.len())?;
    for &tuple in tuples {
        list.push(tuple.copy(alloc)?)?;
    }
    Ok(Tuples { list })
}
