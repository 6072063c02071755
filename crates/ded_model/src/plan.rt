//! Plans: how a query is computed from stored relations.
ghost use Rattle.std.specs.Prelude.{◌≡◌, IfOk};
ghost use Rattle.ded_model.specs.PlanForm.{plan_form, plan_forms};

use crate::memory::NoMemory;
use crate::name::Name;
use crate::slot::{Slot, Slots};
use crate::tuple::Tuple;

/// An expression of the algebra of generalized relations. An empty `Join` is the whole space, an empty `Union` nothing.
#[derive(Drop)]
pub enum Plan {
    /// A relation or a view, its columns read into the slots.
    Scan(Name, Slots),
    /// The points at which all atoms hold.
    Rows(Tuple),
    Join(Vec<Plan>),
    Union(Vec<Plan>),
    /// The first without the second.
    Minus(Box<Plan>, Box<Plan>),
    Not(Box<Plan>),
    /// Without the slot, which may have any value.
    Project(Slot, Box<Plan>),
}

impl Plan {
    /// A plan that stands for the same.
    ///
    /// # Errors
    /// Out of memory.
    #[cycle(copy)]
    pub fn copy(&self) -> Result<Plan, NoMemory>
        ensures { IfOk result (λ p. plan_form p ≡ plan_form self.now) }
    {
        match self {
            Plan::Scan(name, slots) => Ok(Plan::Scan(name.copy()?, slots.copy()?)),
            Plan::Rows(tuple) => Ok(Plan::Rows(tuple.copy()?)),
            Plan::Join(parts) => Ok(Plan::Join(copy_plans(parts)?)),
            Plan::Union(parts) => Ok(Plan::Union(copy_plans(parts)?)),
            Plan::Minus(from, taken) => Ok(Plan::Minus(
                Box::new(*Box::allocator(from), from.copy()?)?,
                Box::new(*Box::allocator(taken), taken.copy()?)?,
            )),
            Plan::Not(part) => Ok(Plan::Not(Box::new(*Box::allocator(part), part.copy()?)?)),
            Plan::Project(slot, part) => {
                Ok(Plan::Project(*slot, Box::new(*Box::allocator(part), part.copy()?)?))
            }
        }
    }
}

/// Plans that stand for the same, one for each.
#[cycle(copy)]
fn copy_plans(parts: &Vec<Plan>) -> Result<Vec<Plan>, NoMemory>
    ensures { IfOk result (λ ps. plan_forms ps.items ≡ plan_forms parts.now.items) }
{
    let mut copies = Vec::with_capacity(*parts.allocator(), parts.len())?;
    for part in parts {
        copies.push(part.copy()?)?;
    }
    Ok(copies)
}
