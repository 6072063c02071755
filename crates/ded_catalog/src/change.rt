//! What is changed of a catalogue.
ghost use Rattle.std.specs.Prelude.{◌≡◌, IfOk};
ghost use Rattle.std.specs.Option.{option_map};
ghost use Rattle.ded_model.specs.Catalogue.{tuples_of};
ghost use Rattle.ded_packed.specs.Lent.{lent};
ghost use Rattle.ded_relation.specs.Nearby.{numbered};
ghost use Rattle.ded_catalog.specs.Changing.{inserted_in, deleted_in, is_left_out, without_number, with_last};

use ded_model::memory::NoMemory;
use ded_model::name::Name;
use ded_model::tuple::Tuple;
use ded_packed::{Lent, Packed};
use std::alloc::Global;

/// Nothing, one tuple more in the relation of the name, or the tuple of the number less.
#[derive(Drop)]
pub(crate) enum PendingChange<'a> {
    Nothing,
    Insert(&'a Name, &'a Tuple),
    Delete(&'a Name, u64),
}

impl<'a> PendingChange<'a> {
    ghost use Rattle.ded_catalog.specs.Forms.{change_form};

    /// The tuple that is inserted into the relation of the name, if one is.
    pub(crate) fn inserted(&self, name: &Name) -> Option<&Tuple>
        ensures { option_map (λ t. t.now) result ≡ inserted_in (change_form self.now) name.now }
    {
        match self {
            PendingChange::Insert(into, tuple) => {
                if into.is_same(name) {
                    Some(tuple)
                } else {
                    None
                }
            }
            PendingChange::Nothing | PendingChange::Delete(_, _) => None,
        }
    }

    /// The number of the tuple that is deleted from the relation of the name, if one is.
    pub(crate) fn deleted(&self, name: &Name) -> Option<u64>
        ensures { result ≡ deleted_in (change_form self.now) name.now }
    {
        match self {
            PendingChange::Delete(from, number) => {
                if from.is_same(name) {
                    Some(*number)
                } else {
                    None
                }
            }
            PendingChange::Nothing | PendingChange::Insert(_, _) => None,
        }
    }
}

/// The tuples but that of the number, in order.
///
/// # Errors
/// Out of memory.
pub(crate) fn left_of<'a>(
    alloc: Global,
    found: &Vec<(u32, &'a Packed)>,
    left_out: Option<u64>,
) -> Result<Vec<Lent<'a>>, NoMemory>
    ensures { IfOk result (λ ts. lent ts.items ≡ tuples_of (without_number left_out (numbered found.entry.now.items))) }
{
    let mut left = Vec::with_capacity(alloc, found.len())?;
    for (number, tuple) in found {
        if !is_left_out(left_out, *number) {
            left.push(Lent::Packed(*tuple))?;
        }
    }
    Ok(left)
}

/// Whether the number is that of the tuple that is left out.
fn is_left_out(left_out: Option<u64>, number: u32) -> bool
    ensures { result ≡ is_left_out left_out number }
{
    match left_out {
        Some(other) => u64::from(number) == other,
        None => false,
    }
}

/// The tuples, and the last one at the end where there is one.
///
/// # Errors
/// Out of memory.
pub(crate) fn with_inserted<'a>(
    mut list: Vec<Lent<'a>>,
    last: Option<&'a Tuple>,
) -> Result<Vec<Lent<'a>>, NoMemory>
    ensures { IfOk result (λ ts. lent ts.items ≡ with_last (lent list.entry.items)
        (option_map (λ t. t.now) last.entry)) }
{
    if let Some(tuple) = last {
        list.push(Lent::Plain(tuple))?;
    }
    Ok(list)
}
