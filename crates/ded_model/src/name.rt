//! Names and quoted texts, both seen as lists of bytes, and headings.
ghost use Rattle.std.specs.Prelude.{◌≡◌, ◌++◌, ◌∷◌, [], length, IfOk, MatchOption, Some, None};
ghost use Rattle.std.specs.Str.{bytes_eq};
ghost use Rattle.std.specs.Cmp.{partial_equiv_from_equiv};
ghost use Rattle.std.specs.Cmp.Lexicographic.{nat_list_eq_equiv};
ghost use Rattle.std.specs.Cmp.Rules.{hashing};
ghost use Rattle.std.specs.Hash as fed;
ghost use Rattle.std.proofs.Common.{rules};
ghost use Rattle.ded_model.specs.Made.{between, base};

use crate::memory::NoMemory;
use crate::slot::Sort;
use std::alloc::AllocError;
use std::hash::{Hash, Hasher};
use std::marker::Model;

/// The bytes of a name or of a text. Contracts see the list of the bytes.
#[derive(Drop)]
pub struct Name {
    pub bytes: Vec<u8>,
}

impl Model for Name {
    ghost use Rattle.std.specs.Prelude.{List, ℕ};

    ghost Value = { List ℕ };

    ghost view = { λ n. n.bytes.items };
}

impl Name {
    /// An equal name.
    ///
    /// # Errors
    /// Out of memory.
    pub fn copy(&self) -> Result<Name, NoMemory>
        ensures { IfOk result (λ n. n ≡ self.now) }
    {
        Ok(Name {
            bytes: self.bytes.clone()?,
        })
    }

    /// Whether both names have the same bytes.
    pub fn is_same(&self, other: &Name) -> bool
        ensures { result ≡ bytes_eq self.now other.now }
    {
        self.bytes.as_slice() == other.bytes.as_slice()
    }

    /// The bytes of the name that this one is made of: of N where it is the closure or the interior of N, and else of
    /// itself.
    pub fn base(&self) -> &[u8]
        ensures { result.now ≡ base self.now }
    {
        let bytes = self.bytes.as_slice();
        match between(b"closure(", bytes) {
            Some(inner) => inner,
            None => match between(b"interior(", bytes) {
                Some(inner) => inner,
                None => bytes,
            },
        }
    }

    /// Whether the name is made of the other one, or is the same.
    pub fn is_made_of(&self, other: &Name) -> bool
        ensures { result ≡ bytes_eq other.now (base self.now) }
    {
        other.bytes.as_slice() == self.base()
    }

    /// The name that this one is made of, or an equal one.
    ///
    /// # Errors
    /// Out of memory.
    pub fn base_name(&self) -> Result<Name, NoMemory>
        ensures { IfOk result (λ n. n ≡ base self.now) }
    {
        Ok(Name {
            bytes: self.base().to_vec(*self.bytes.allocator())?,
        })
    }
}

/// The bytes between a front and a last `)`, none where they do not stand so.
fn between<'a>(front: &[u8], bytes: &'a [u8]) -> Option<&'a [u8]>
    ensures { MatchOption result (between front.now bytes.now ≡ None)
        (λ inner. between front.now bytes.now ≡ Some inner.now) }
{
    match bytes.strip_prefix(front) {
        Some(rest) => rest.strip_suffix(b")"),
        None => None,
    }
}

impl Clone for Name {
    ghost is_clone = { λ n c. c ≡ n };

    fn clone(&self) -> Result<Name, AllocError> {
        self.copy()
    }
}

impl PartialEq for Name {
    ghost eq = { bytes_eq };

    ghost laws = { partial_equiv_from_equiv nat_list_eq_equiv };

    fn eq(&self, other: &Name) -> bool {
        self.is_same(other)
    }
}

impl Eq for Name {
    ghost laws = { nat_list_eq_equiv };
}

impl Hash for Name {
    ghost hash_input = { λ n. fed.usize (length n) ++ (n ∷ []) };

    ghost respects_eq = { Prim.search (hashing, rules) };

    fn hash<H: Hasher>(&self, state: &mut H) {
        state.write_usize(self.bytes.len());
        state.write(self.bytes.as_slice());
    }
}

/// A column of a heading, or the variable of a quantifier.
#[derive(Drop)]
pub struct Column {
    pub name: Name,
    pub sort: Sort,
}

impl Column {
    /// An equal column.
    ///
    /// # Errors
    /// Out of memory.
    pub fn copy(&self) -> Result<Column, NoMemory>
        ensures { IfOk result (λ c. c ≡ self.now) }
    {
        Ok(Column {
            name: self.name.copy()?,
            sort: self.sort,
        })
    }
}

/// The columns of a relation, a view or a query, in order. Contracts see the list of the columns.
#[derive(Drop)]
pub struct Heading {
    pub columns: Vec<Column>,
}

impl Model for Heading {
    ghost use Rattle.std.specs.Prelude.{List};
    ghost use Rattle.ded_model.specs.declared.name.Column.{Column};

    ghost Value = { List Column };

    ghost view = { λ h. h.columns.items };
}

impl Heading {
    /// An equal heading.
    ///
    /// # Errors
    /// Out of memory.
    pub fn copy(&self) -> Result<Heading, NoMemory>
        ensures { IfOk result (λ h. h ≡ self.now) }
    {
        let mut columns = Vec::with_capacity(*self.columns.allocator(), self.columns.len())?;
        for column in &self.columns {
            columns.push(column.copy()?)?;
        }
        Ok(Heading { columns })
    }
}
