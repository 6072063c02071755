//! Whether a plan is additive in a name.
ghost use Rattle.std.specs.Prelude.{◌≡◌};
ghost use Rattle.ded_model.specs.Logic.{count_atoms, count_atoms_of};
ghost use Rattle.ded_model.specs.PlanForm.{plan_form, plan_forms};
ghost use Rattle.ded_model.specs.Uses.{plan_uses};
ghost use Rattle.ded_algebra.specs.Compiled.{is_scan_of};
ghost use Rattle.ded_keep.specs.Additive.{hides, some_hides, is_additive};
ghost use Rattle.ded_keep.specs.Scans.{scans_of, both};

use ded_model::name::Name;
use ded_model::plan::Plan;

/// How often a plan scans a name.
#[derive(Clone, Copy, PartialEq, Eq)]
pub(crate) enum Scans {
    Never,
    Once,
    Often,
}

/// Whether the plan scans the name exactly once, under no complement and not in what a difference takes away. It does
/// not allocate.
pub fn is_additive(plan: &Plan, name: &Name) -> bool
    ensures { result ≡ is_additive name.now (plan_form plan.now) }
{
    count(plan, name) == Scans::Once && !hides(plan, name)
}

/// How often the plan scans the name.
#[cycle(count)]
fn count(plan: &Plan, name: &Name) -> Scans
    ensures { result ≡ scans_of (count_atoms (is_scan_of name.now) (plan_form plan.now)) }
{
    match plan {
        Plan::Scan(scanned, _) if name.is_same(scanned) => Scans::Once,
        Plan::Scan(_, _) | Plan::Rows(_) => Scans::Never,
        Plan::Join(parts) | Plan::Union(parts) => count_all(parts, name),
        Plan::Minus(from, taken) => both(count(from, name), count(taken, name)),
        Plan::Not(part) | Plan::Project(_, part) => count(part, name),
    }
}

/// How often the plans scan the name together.
#[cycle(count)]
fn count_all(plans: &Vec<Plan>, name: &Name) -> Scans
    ensures { result ≡ scans_of (count_atoms_of (is_scan_of name.now) (plan_forms plans.now.items)) }
{
    let mut all = Scans::Never;
    for plan in plans {
        all = both(all, count(plan, name));
    }
    all
}

/// How often two plans scan a name together.
fn both(first: Scans, second: Scans) -> Scans
    ensures { result ≡ both first second }
{
    match (first, second) {
        (Scans::Never, other) | (other, Scans::Never) => other,
        (_, _) => Scans::Often,
    }
}

/// Whether the plan scans the name.
fn uses(plan: &Plan, name: &Name) -> bool
    ensures { result ≡ plan_uses name.now (plan_form plan.now) }
{
    match count(plan, name) {
        Scans::Never => false,
        Scans::Once | Scans::Often => true,
    }
}

/// Whether some scan of the name stands under a complement, or in what a difference takes away.
#[cycle(hides)]
fn hides(plan: &Plan, name: &Name) -> bool
    ensures { result ≡ hides name.now (plan_form plan.now) }
{
    match plan {
        Plan::Scan(_, _) | Plan::Rows(_) => false,
        Plan::Join(parts) | Plan::Union(parts) => some_hides(parts, name),
        Plan::Minus(from, taken) => hides(from, name) || uses(taken, name),
        Plan::Not(part) => uses(part, name),
        Plan::Project(_, part) => hides(part, name),
    }
}

/// Whether in one of the plans some scan of the name stands under a complement, or in what a difference takes away.
#[cycle(hides)]
fn some_hides(plans: &Vec<Plan>, name: &Name) -> bool
    ensures { result ≡ some_hides name.now (plan_forms plans.now.items) }
{
    for plan in plans {
        if hides(plan, name) {
            return true;
        }
    }
    false
}
