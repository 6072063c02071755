//! Views that a plan scans once: evaluated where the scan asks for them, and held beside what is given.
ghost use Rattle.std.specs.Prelude.{◌≡◌, true, nat_eq, OnOk};
ghost use Rattle.std.specs.List.{AllByRecursion};
ghost use Rattle.std.specs.Option.{IfSome};
ghost use Rattle.ded_model.specs.Goal.{goal_form};
ghost use Rattle.ded_catalog.specs.Snapshots.{snapshot_of};
ghost use Rattle.ded_algebra.specs.Given.{has_name};
ghost use Rattle.ded_query.specs.Gathering.{IsGivenOf, IsGathered, IsFront, IsViewGoal};
ghost use Rattle.ded_query.specs.Windows.{added, scans_of};

use ded_algebra::{Given, GivenRelation};
use ded_catalog::Snapshot;
use ded_model::goal::Goal;
use ded_model::memory::NoMemory;
use ded_model::name::Name;
use ded_plan::ScanWithin;

/// How many views a question evaluates near their scans; all others are evaluated as a whole, each once.
pub(crate) const NEAR_VIEWS: u32 = 16;

/// Whether one of the names is a view.
pub(crate) fn some_view(snapshot: &Snapshot<'_>, names: &[Name]) -> bool {
    for name in names {
        if snapshot.goal(name).is_some() {
            return true;
        }
    }
    false
}

/// The goal of the view that the scan is of, where it is worth while to evaluate it near the scan alone: its tuple says
/// something, no other scan is of the name, nothing is given under it, and fewer views than there may be were evaluated
/// so; one more is counted then.
pub(crate) fn near_goal<'a>(
    snapshot: &'a Snapshot<'_>,
    scan: &ScanWithin,
    scans: &[ScanWithin],
    given: &Given,
    left: &mut u32,
) -> Option<&'a Goal>
    ensures view { IfSome result (λ g. IsViewGoal (snapshot_of snapshot.now) scan.now.name (goal_form g.now)) }
    ensures once { IfSome result (λ g. scans_of scan.now.name scans.now ≡ 1) }
{
    if *left == 0 || scan.within.atoms.is_empty() || given.has(&scan.name) {
        return None;
    }
    let goal = snapshot.goal(&scan.name)?;
    if !is_only(&scan.name, scans) {
        return None;
    }
    *left -= 1;
    Some(goal)
}

/// Whether exactly one of the scans is of the name.
fn is_only(name: &Name, scans: &[ScanWithin]) -> bool
    ensures { result ≡ nat_eq (scans_of name.now scans.now) 1 }
{
    let mut count: usize = 0;
    for scan in scans {
        if scan.name == *name {
            count += 1;
        }
    }
    count == 1
}

/// Gives those of the relations whose names aren't given yet.
///
/// # Errors
/// Out of memory; more may be given then.
pub(crate) fn add_all(given: &mut Given, relations: Vec<GivenRelation>) -> Result<(), NoMemory>
    ensures all { OnOk result (given.new ≡ added given.old relations.items) }
    ensures front { IsFront given.old given.new }
{
    for relation in relations {
        if !given.has(&relation.name) {
            given.add(relation)?;
        }
    }
    Ok(())
}

/// Adds the relation, unless one of its name is given.
///
/// # Errors
/// Out of memory; nothing is changed then.
pub(crate) fn add(
    snapshot: &Snapshot<'_>,
    given: &mut Given,
    relation: GivenRelation,
) -> Result<(), NoMemory>
    requires given { AllByRecursion (IsGivenOf (snapshot_of snapshot.now)) given.old }
    requires of { IsGivenOf (snapshot_of snapshot.now) relation }
    ensures gathered { OnOk result (IsGathered (snapshot_of snapshot.now) given.old given.new) }
    ensures is { OnOk result (has_name relation.name given.new ≡ true) }
    ensures front { IsFront given.old given.new }
{
    let _ = snapshot; // for its invariant
    if given.has(&relation.name) {
        return Ok(());
    }
    given.add(relation)
}
