//! Sources in memory.
ghost use Rattle.std.specs.Prelude.{◌≡◌, ◌↔◌, [], min, max, length, drop, Some, Ok, IfOk, IsErr, IsTrue};
ghost use Rattle.std.specs.Io.{ReadsAtMost};
ghost use Rattle.std.specs.Io.KnownBytes.{ReadConsumes};
ghost use Rattle.ded_io.specs.Causes.{HasCause};
ghost use Rattle.ded_io.specs.Devices.{TellsLast};
ghost use Rattle.ded_io.specs.InMemory.{new_schedule, new_supply, next_fails, after_call, given_count, moved, filled};

use crate::schedule::Schedule;
use crate::unread::Unread;
use crate::{Failed, Source};
use ded_model::memory::NoMemory;
use std::alloc::Global;
use std::marker::Model;

/// A source in memory that gives few bytes at a time, and fails at the calls named.
///
/// It counts each call of `read`. The calls whose numbers are named, from 1, fail, and only these;
/// calls after that of number 2^64-1 have no number. Each other call gives as many bytes as are
/// left and fit, at most a piece. It tells its bytes.
#[derive(Drop)]
pub struct BytesSource {
    unread: Unread,
    piece: usize,
    schedule: Schedule,
}

impl Model for BytesSource {
    ghost use Rattle.std.specs.Prelude.{◌<◌};
    ghost use Rattle.ded_io.specs.InMemory.{SourceState};

    ghost Value = { SourceState };

    ghost view = { λ s. record {
      left = s.unread.left;
      last = s.unread.last;
      piece = s.piece;
      schedule = s.schedule;
    } };

    ghost invariant = { λ s. 0 < s.piece };
}

impl BytesSource {
    /// A source of copies of the bytes, and of the numbers of the calls that fail. A `piece` of 0 counts as 1.
    ///
    /// # Errors
    /// Out of memory.
    pub fn new(
        alloc: Global,
        bytes: &[u8],
        piece: usize,
        fails: &[u64],
    ) -> Result<BytesSource, NoMemory>
        ensures { IfOk result (λ s. s ≡ record {
          left = bytes.now;
          last = [];
          piece = max piece 1;
          schedule = new_schedule fails.now;
        }) }
    {
        Ok(BytesSource {
            unread: Unread::new(alloc, bytes)?,
            piece: piece.max(1),
            schedule: Schedule::new(alloc, fails)?,
        })
    }
}

impl Source for BytesSource {
    ghost left = { λ s. Some s.left };

    ghost last = { λ s. Some s.last };

    ghost faults = { λ s. s.schedule.faults };

    fn read(&mut self, into: &mut [u8]) -> Result<usize, Failed>
        ensures bound { ReadsAtMost result into.new }
        ensures bytes { ReadConsumes (Some self.old.left) (Some self.new.left) result into.new }
        ensures last { TellsLast (Some self.old.last) (Some self.new.last) result into.new }
        ensures cause { HasCause self.old.schedule.faults self.new.schedule.faults result }
        ensures fails { IsErr result ↔ IsTrue (next_fails self.old.schedule) }
        ensures count { IfOk result (λ n. n ≡ given_count self.old (length into.old)) }
        ensures into { into.new ≡ filled into.old self.old.left (moved result) }
        ensures left { self.new.left ≡ drop (moved result) self.old.left }
        ensures piece { self.new.piece ≡ self.old.piece }
        ensures schedule { self.new.schedule ≡
            after_call self.old.schedule (next_fails self.old.schedule) }
    {
        self.schedule.call(false)?;
        Ok(self.unread.give(into, self.piece))
    }
}

/// A source in memory that never fails: each call of `read` gives as many bytes as are left and fit.
///
/// It tells its bytes.
#[derive(Drop)]
pub struct SureSource {
    unread: Unread,
}

impl Model for SureSource {
    ghost use Rattle.ded_io.specs.InMemory.{Supply};

    ghost Value = { Supply };

    ghost view = { λ s. s.unread };
}

impl SureSource {
    /// A source of a copy of the bytes.
    ///
    /// # Errors
    /// Out of memory.
    pub fn new(alloc: Global, bytes: &[u8]) -> Result<SureSource, NoMemory>
        ensures { IfOk result (λ s. s ≡ new_supply bytes.now) }
    {
        Ok(SureSource {
            unread: Unread::new(alloc, bytes)?,
        })
    }
}

impl Source for SureSource {
    ghost left = { λ s. Some s.left };

    ghost last = { λ s. Some s.last };

    ghost faults = { λ _. 0 };

    fn read(&mut self, into: &mut [u8]) -> Result<usize, Failed>
        ensures bound { ReadsAtMost result into.new }
        ensures bytes { ReadConsumes (Some self.old.left) (Some self.new.left) result into.new }
        ensures last { TellsLast (Some self.old.last) (Some self.new.last) result into.new }
        ensures cause { HasCause 0 0 result }
        ensures count { result ≡ Ok (min (length into.old) (length self.old.left)) }
        ensures into { into.new ≡ filled into.old self.old.left (moved result) }
        ensures left { self.new.left ≡ drop (moved result) self.old.left }
    {
        Ok(self.unread.give(into, usize::MAX))
    }
}
