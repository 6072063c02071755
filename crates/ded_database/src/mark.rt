//! Marks.
ghost use Rattle.std.specs.Prelude.{◌≡◌, true, is_some, IfOk};
ghost use Rattle.ded_model.specs.Entries.{entry_of, view_in};
ghost use Rattle.ded_catalog.specs.State.{catalogue_of};
ghost use Rattle.ded_database.specs.Closed.{has};
ghost use Rattle.ded_database.specs.Marks.{mark_reaches, reaches_beside, mark_adds, IsMark};

use crate::reaching::uses_of;
use ded_catalog::Catalogue;
use ded_keep::is_additive;
use ded_model::memory::NoMemory;
use ded_model::name::Name;
use ded_model::plan::Plan;
use ded_plan::plan;
use ded_resolve::laws;
use std::alloc::Global;

/// A name, and all names that it reaches, or that what it is made of does.
#[derive(Drop)]
pub struct NameReach {
    pub name: Name,
    pub reached: Vec<Name>,
}

impl NameReach {
    /// Whether the name is among those that are reached.
    fn reaches(&self, name: &Name) -> bool
        ensures { result ≡ has self.now.reached.items name.now }
    {
        self.reached.contains(name)
    }
}

/// What is remembered of a kept view: its name, the plan of its formula, and each name in the formula with what it
/// reaches.
#[derive(Drop)]
pub struct Mark {
    pub name: Name,
    pub plan: Plan,
    pub used: Vec<NameReach>,
}

/// The mark of a view.
///
/// # Errors
/// Out of memory.
pub fn mark_of(alloc: Global, catalogue: &Catalogue, name: &Name) -> Result<Mark, NoMemory>
    requires view { is_some (view_in (entry_of (catalogue_of catalogue.now).entries name.now)) ≡ true }
    ensures name { IfOk result (λ m. m.name ≡ name.now) }
    ensures mark { IfOk result (IsMark (catalogue_of catalogue.now)) }
{
    catalogue.formed();
    let Some(goal) = catalogue.goal(name) else {
        unreachable!()
    };
    laws::normal_goals();
    Ok(Mark {
        name: name.copy()?,
        plan: plan(alloc, goal)?,
        used: uses_of(alloc, catalogue, goal)?,
    })
}

impl Mark {
    /// Whether some name in the view's formula reaches the name. It does not allocate.
    pub fn reaches(&self, name: &Name) -> bool
        ensures { result ≡ mark_reaches self.now name.now }
    {
        for used in &self.used {
            if used.reaches(name) {
                return true;
            }
        }
        false
    }

    /// Whether the view's answer is only extended where the relation of the name gets one tuple more. It does not
    /// allocate.
    pub fn adds(&self, name: &Name) -> bool
        ensures { result ≡ mark_adds self.now name.now }
    {
        is_additive(&self.plan, name) && !self.reaches_beside(name)
    }

    /// Whether another name in the view's formula than the name itself reaches it.
    fn reaches_beside(&self, name: &Name) -> bool
        ensures { result ≡ reaches_beside self.now name.now }
    {
        for used in &self.used {
            if used.name != *name && used.reaches(name) {
                return true;
            }
        }
        false
    }
}
