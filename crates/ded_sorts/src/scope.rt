//! The columns and quantifiers around a place in a formula.
ghost use Rattle.std.specs.Prelude.{◌≡◌};
ghost use Rattle.ded_model.specs.Point as point;
ghost use Rattle.ded_model.specs.Slotted.{nearest};
ghost use Rattle.ded_model.specs.Known.{scope_of};
ghost use Rattle.ded_sorts.specs.Scopes.{scope_form};

use ded_model::name::{Column, Name};
use ded_model::slot::Sort;

/// The columns of a heading, or the column of a quantifier within what is round it.
#[derive(Clone, Copy)]
pub(crate) enum SortScope<'a> {
    Heading(&'a [Column]),
    Within(&'a Column, &'a SortScope<'a>),
}

impl SortScope<'_> {
    /// What the nearest column of the name ranges over, none where no column has the name.
    pub(crate) fn sort_of(&self, name: &Name) -> Option<Sort>
        ensures { result ≡ nearest (scope_form self.now) (point.name name.now) }
    {
        match self {
            SortScope::Heading(columns) => sort_among(columns, name),
            SortScope::Within(column, outer) => {
                if column.name.is_same(name) {
                    Some(column.sort)
                } else {
                    outer.sort_of(name)
                }
            }
        }
    }
}

/// What the first column of the name among the columns ranges over, none where no column has the name.
fn sort_among(columns: &[Column], name: &Name) -> Option<Sort>
    ensures { result ≡ nearest (scope_of columns.now) (point.name name.now) }
{
    for column in columns {
        if column.name.is_same(name) {
            return Some(column.sort);
        }
    }
    None
}
