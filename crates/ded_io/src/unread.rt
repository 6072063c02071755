//! Bytes in memory that are read from front to end.
ghost use Rattle.std.specs.Prelude.{◌≡◌, min, length, take, drop, IfOk};
ghost use Rattle.ded_io.specs.InMemory.{filled, new_supply};

use ded_model::memory::NoMemory;
use std::alloc::Global;
use std::marker::Model;

/// Bytes in memory, of which a front is read: where the bytes of the last read begin, and how many these are.
#[derive(Drop)]
pub struct Unread {
    bytes: Vec<u8>,
    start: usize,
    given: usize,
}

impl Model for Unread {
    ghost use Rattle.std.specs.Prelude.{◌+◌, ◌≤◌, take, drop, vec_len};
    ghost use Rattle.ded_io.specs.InMemory.{Supply};

    ghost Value = { Supply };

    ghost view = { λ u. record {
      left = drop (u.start + u.given) u.bytes.items;
      last = take u.given (drop u.start u.bytes.items);
    } };

    ghost invariant = { λ u. u.start + u.given ≤ vec_len u.bytes };
}

impl Unread {
    /// A copy of the bytes, of which nothing is read.
    ///
    /// # Errors
    /// Out of memory.
    pub fn new(alloc: Global, bytes: &[u8]) -> Result<Unread, NoMemory>
        ensures { IfOk result (λ u. u ≡ new_supply bytes.now) }
    {
        Ok(Unread {
            bytes: bytes.to_vec(alloc)?,
            start: 0,
            given: 0,
        })
    }

    /// Gives as many of the next bytes as fit, at most so many, into the front of `into`, and answers how many.
    pub fn give(&mut self, into: &mut [u8], most: usize) -> usize
        ensures count { result ≡ min (min (length into.old) most) (length self.old.left) }
        ensures into { into.new ≡ filled into.old self.old.left result }
        ensures left { self.new.left ≡ drop result self.old.left }
        ensures last { self.new.last ≡ take result self.old.left }
    {
        let start = self.start + self.given;
        let count = fill(into, &self.bytes[start..], most);
        self.start = start;
        self.given = count;
        count
    }
}

/// Copies as many of the first bytes as fit, at most so many, into the front of `into`, and answers how many.
fn fill(into: &mut [u8], bytes: &[u8], most: usize) -> usize
    ensures count { result ≡ min (min (length into.old) most) (length bytes.now) }
    ensures into { into.new ≡ filled into.old bytes.now result }
{
    let count = into.len().min(most).min(bytes.len());
    into[..count].copy_from_slice(&bytes[..count]);
    count
}
