//! Whether a plan distributes over the parts of a relation.
ghost use Rattle.std.specs.Prelude.{◌≡◌};
ghost use Rattle.ded_model.specs.Logic.{some_atom_of};
ghost use Rattle.ded_model.specs.PlanForm.{plan_form, plan_forms};
ghost use Rattle.ded_parts.specs.Distributing.{is_made_scan, scans_made, distributes};

use ded_keep::is_additive;
use ded_model::name::Name;
use ded_model::plan::Plan;

/// Whether the plan scans the name exactly once, under no complement and not in what a difference takes away, and scans
/// neither the closure nor the interior of the name. It does not allocate.
pub fn distributes(plan: &Plan, name: &Name) -> bool
    ensures { result ≡ distributes name.now (plan_form plan.now) }
{
    is_additive(plan, name) && !scans_made(plan, name)
}

/// Whether the plan scans the closure or the interior of the name.
#[cycle(scans_made)]
fn scans_made(plan: &Plan, name: &Name) -> bool
    ensures { result ≡ scans_made name.now (plan_form plan.now) }
{
    match plan {
        Plan::Scan(scanned, _) => scanned.is_made_of(name) && !name.is_same(scanned),
        Plan::Rows(_) => false,
        Plan::Join(parts) | Plan::Union(parts) => some_scans_made(parts, name),
        Plan::Minus(from, taken) => scans_made(from, name) || scans_made(taken, name),
        Plan::Not(part) | Plan::Project(_, part) => scans_made(part, name),
    }
}

/// Whether one of the plans scans the closure or the interior of the name.
#[cycle(scans_made)]
fn some_scans_made(plans: &Vec<Plan>, name: &Name) -> bool
    ensures { result ≡ some_atom_of (is_made_scan name.now) (plan_forms plans.now.items) }
{
    for plan in plans {
        if scans_made(plan, name) {
            return true;
        }
    }
    false
}
