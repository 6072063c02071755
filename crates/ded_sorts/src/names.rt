//! Names of relations and views, and what is known of them.
ghost use Rattle.std.specs.Prelude.{◌≡◌, ◌==◌, ◌≤◌, length, IfOk, Some};
ghost use Rattle.std.specs.List.{list_any};
ghost use Rattle.ded_model.specs.Catalogue.{Catalogue};
ghost use Rattle.ded_model.specs.Entries.{known};
ghost use Rattle.ded_model.specs.Known.{columns_with, level_with};
ghost use Rattle.ded_model.specs.Made.{base};
ghost use Rattle.ded_sorts.specs.Causes.{is_view_with};
ghost use Rattle.ded_sorts.specs.Checks.{known_form};

use ded_model::memory::NoMemory;
use ded_model::name::{Column, Heading, Name};

/// What is known of a name: whether it is a relation or a view, its heading, and of a view its level.
#[derive(Clone, Copy)]
pub enum Known<'a> {
    Relation(&'a Heading),
    View(&'a Heading, u32),
}

impl<'a> Known<'a> {
    /// Whether the name is a view.
    pub fn is_view(self) -> bool
        ensures { result ≡ is_view_with (known_form (Some self.entry)) }
    {
        match self {
            Known::Relation(_) => false,
            Known::View(_, _) => true,
        }
    }

    /// The columns of the name's heading.
    pub fn columns(self) -> &'a [Column]
        ensures { result.now ≡ columns_with (known_form (Some self.entry)) }
    {
        match self {
            Known::Relation(heading) | Known::View(heading, _) => heading.columns.as_slice(),
        }
    }

    /// The level of the name: 0 for a relation.
    pub fn level(self) -> u32
        ensures { result ≡ level_with (known_form (Some self.entry)) }
    {
        match self {
            Known::Relation(_) => 0,
            Known::View(_, level) => level,
        }
    }
}

/// The names that a command may use. A value stands for a catalogue.
pub trait Names {
    ghost use Rattle.ded_model.specs.Entries.{known, tuples_in, entry_uses};

    /// The catalogue that the value stands for.
    ghost catalogue: { Self → Catalogue };

    /// What is known of the name, none exactly where no entry has it. A heading that is known has at most 16 columns.
    /// It does not allocate.
    fn known(&self, name: &Name) -> Option<Known<'_>>
        ensures value { known_form result ≡ known (catalogue self.now) name.now }
        ensures few { length (columns_with (known_form result)) ≤ 16 };

    /// Whether the formula of a defined view mentions the name. It does not allocate.
    fn used(&self, name: &Name) -> bool
        ensures { result ≡ list_any (entry_uses name.now) (catalogue self.now).entries };

    /// Whether the name is a relation with a present tuple of the number. It does not allocate.
    fn has_tuple(&self, name: &Name, number: u64) -> bool
        ensures { result ≡ list_any (λ t. t.0 == number) (tuples_in (catalogue self.now) name.now) };
}

/// What is known of the name that this one is made of.
///
/// # Errors
/// Out of memory.
pub(crate) fn known_base<'a, N: Names>(
    names: &'a N,
    name: &Name,
) -> Result<Option<Known<'a>>, NoMemory>
    ensures { IfOk result (λ k. known_form k ≡ known (N.catalogue names.now) (base name.now)) }
{
    if name.is_made_of(name) {
        return Ok(names.known(name));
    }
    Ok(names.known(&name.base_name()?))
}
