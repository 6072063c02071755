//! The lists of the views that a change concerns, taken out.
ghost use Rattle.std.specs.Prelude.{◌≡◌, true, false, [], OnOk};
ghost use Rattle.std.specs.List.{AllByRecursion};
ghost use Rattle.ded_model.specs.Entries.{known};
ghost use Rattle.ded_catalog.specs.State.{catalogue_of};
ghost use Rattle.ded_algebra.specs.Given.{given_under, has_name, without_name};
ghost use Rattle.ded_database.specs.Marks.{IsMark};
ghost use Rattle.ded_sorts.specs.Causes.{is_relation_with};
ghost use Rattle.ded_database.specs.Held.{IsHeld, AreMarkedApart};
ghost use Rattle.ded_database.specs.Renewed.{AreLeft, AreTaken, with_taken};

use crate::laws;
use crate::mark::Mark;
use ded_algebra::Given;
use ded_catalog::Catalogue;
use ded_model::memory::NoMemory;
use ded_model::name::Name;

/// Takes the lists of the marked views that reach the relation out of what is held.
///
/// # Errors
/// Out of memory. Some of these lists are gone then, and no other.
pub(crate) fn take_stale(
    catalogue: &Catalogue,
    marks: &[Mark],
    name: &Name,
    held: &mut Given,
    stale: &mut Given,
) -> Result<(), NoMemory>
    requires marks { AllByRecursion (IsMark (catalogue_of catalogue.now)) marks.now }
    requires relation { is_relation_with (known (catalogue_of catalogue.now) name.now) ≡ true }
    requires apart { AreMarkedApart marks.now }
    requires held { AllByRecursion (IsHeld (catalogue_of catalogue.now)) held.old }
    requires empty { stale.old ≡ [] }
    ensures ok { OnOk result (AreTaken (catalogue_of catalogue.now) name.now marks.now held.old held.new stale.new) }
    ensures left { AreLeft (catalogue_of catalogue.now) name.now held.old held.new }
{
    catalogue.formed();
    laws::marks_reach();
    for mark in marks {
        if mark.reaches(name) {
            take_one(&mark.name, held, stale)?;
        }
    }
    Ok(())
}

/// Takes the list of one view out, where one is held.
///
/// # Errors
/// Out of memory. The list is gone then.
fn take_one(name: &Name, held: &mut Given, stale: &mut Given) -> Result<(), NoMemory>
    requires new { has_name name.now stale.old ≡ false }
    ensures held { held.new ≡ without_name name.now held.old }
    ensures stale { OnOk result (stale.new ≡ with_taken stale.old (given_under name.now held.old)) }
{
    match held.take(name) {
        Some(list) => stale.add(list),
        None => Ok(()),
    }
}
