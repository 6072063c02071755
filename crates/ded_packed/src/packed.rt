//! Packed tuples.
ghost use Rattle.std.specs.Prelude.{◌≡◌, IfOk};

use crate::reader::Reader;
use crate::stack::Stack;
use ded_model::memory::NoMemory;
use ded_model::tuple::Tuple;
use std::alloc::Global;
use std::marker::Model;

/// A generalized tuple in few bytes. Contracts see the list of its atoms, as they do of a `Tuple`.
#[derive(Drop)]
pub struct Packed {
    bytes: Vec<u8>,
}

impl Model for Packed {
    ghost use Rattle.std.specs.Prelude.{List, reverse};
    ghost use Rattle.ded_model.specs.Row.{Atom};
    ghost use Rattle.ded_packed.specs.Atoms.{tuple_in, IsPacked};

    ghost Value = { List Atom };

    ghost view = { λ p. tuple_in (reverse p.bytes.items) };

    ghost invariant = { λ p. IsPacked (reverse p.bytes.items) };
}

impl Packed {
    /// The tuple in few bytes.
    ///
    /// # Errors
    /// Out of memory.
    pub fn pack(alloc: Global, tuple: &Tuple) -> Result<Packed, NoMemory>
        ensures { IfOk result (λ p. p ≡ tuple.now) }
    {
        let mut stack = Stack::new(alloc);
        stack.put_tuple(tuple)?;
        Ok(Packed {
            bytes: stack.into_bytes(),
        })
    }

    /// The tuple.
    ///
    /// # Errors
    /// Out of memory.
    pub fn unpack(&self, alloc: Global) -> Result<Tuple, NoMemory>
        ensures { IfOk result (λ t. t ≡ self.now) }
    {
        Reader::new(self.bytes.as_slice()).tuple(alloc)
    }

    /// An equal packed tuple.
    ///
    /// # Errors
    /// Out of memory.
    pub fn copy(&self) -> Result<Packed, NoMemory>
        ensures { IfOk result (λ p. p ≡ self.now) }
    {
        Ok(Packed {
            bytes: self.bytes.clone()?,
        })
    }
}
