//! Sinks in memory.
ghost use Rattle.std.specs.Prelude.{◌≡◌, ◌↔◌, ◌-◌, ◌<◌, max, [], ◌++◌, length, take, Some, None, Ok, IfOk, IsErr};
ghost use Rattle.std.specs.Prelude.{IsTrue};
ghost use Rattle.std.specs.Io.KnownBytes.{WriteAppends};
ghost use Rattle.ded_io.specs.Causes.{HasCause};
ghost use Rattle.ded_io.specs.Devices.{TakesSome};
ghost use Rattle.ded_io.specs.InMemory.{new_schedule, after_call, write_fails, taken_count, moved};

use crate::schedule::Schedule;
use crate::{Failed, Sink};
use ded_model::memory::NoMemory;
use std::alloc::Global;
use std::marker::Model;

/// A sink in memory that takes few bytes at a time, and fails at the calls named and where it is full.
///
/// It counts each call of `write` but those of an empty piece, which answer 0 and change nothing.
/// The calls whose numbers are named, from 1, fail, and those that find no room, and only these;
/// calls after that of number 2^64-1 have no number. Each other call takes as many bytes as there
/// are and it has room for, at most a piece. It tells its bytes.
#[derive(Drop)]
pub struct BytesSink {
    bytes: Vec<u8>,
    room: usize,
    piece: usize,
    schedule: Schedule,
}

impl Model for BytesSink {
    ghost use Rattle.std.specs.Prelude.{◌+◌, ◌<◌, ◌≤◌, vec_len, vec_capacity};
    ghost use Rattle.ded_io.specs.InMemory.{SinkState};

    ghost Value = { SinkState };

    ghost view = { λ s. record {
      contents = s.bytes.items;
      room = s.room;
      piece = s.piece;
      schedule = s.schedule;
    } };

    ghost invariant = { λ s. (vec_len s.bytes + s.room ≤ vec_capacity s.bytes) × (0 < s.piece) };
}

impl BytesSink {
    /// A sink that holds nothing, with room for so many bytes. A `piece` of 0 counts as 1.
    ///
    /// # Errors
    /// Out of memory.
    pub fn new(
        alloc: Global,
        room: usize,
        piece: usize,
        fails: &[u64],
    ) -> Result<BytesSink, NoMemory>
        ensures { IfOk result (λ s. s ≡ record {
          contents = [];
          room = room;
          piece = max piece 1;
          schedule = new_schedule fails.now;
        }) }
    {
        Ok(BytesSink {
            bytes: Vec::with_capacity(alloc, room)?,
            room,
            piece: piece.max(1),
            schedule: Schedule::new(alloc, fails)?,
        })
    }

    /// The bytes that it holds.
    pub fn contents(&self) -> &[u8]
        ensures { result.now ≡ self.now.contents }
    {
        &self.bytes
    }
}

impl Sink for BytesSink {
    ghost contents = { λ s. Some s.contents };

    ghost faults = { λ s. s.schedule.faults };

    fn write(&mut self, bytes: &[u8]) -> Result<usize, Failed>
        ensures bound { TakesSome result bytes.now }
        ensures empty { bytes.now ≡ [] → result ≡ Ok 0 }
        ensures bytes { WriteAppends (Some self.old.contents) (Some self.new.contents) result bytes.now }
        ensures cause { HasCause self.old.schedule.faults self.new.schedule.faults result }
        ensures unchanged { bytes.now ≡ [] → self.new ≡ self.old }
        ensures fails { 0 < length bytes.now → (IsErr result ↔ IsTrue (write_fails self.old)) }
        ensures count { IfOk result (λ n. n ≡ taken_count self.old (length bytes.now)) }
        ensures contents { self.new.contents ≡ self.old.contents ++ take (moved result) bytes.now }
        ensures room { self.new.room ≡ self.old.room - moved result }
        ensures piece { self.new.piece ≡ self.old.piece }
        ensures schedule { 0 < length bytes.now →
            self.new.schedule ≡ after_call self.old.schedule (write_fails self.old) }
    {
        if bytes.is_empty() {
            return Ok(0);
        }
        self.schedule.call(self.room == 0)?;
        let count = bytes.len().min(self.piece).min(self.room);
        let Ok(()) = self.bytes.extend_from_slice(&bytes[..count]) else {
            unreachable!();
        };
        self.room -= count;
        Ok(count)
    }
}

/// A sink that takes each piece whole and keeps none of it, so it tells no bytes. It never fails.
#[derive(Default, Drop)]
pub struct SureSink;

impl SureSink {
    /// A sink that was given nothing. It doesn't allocate.
    pub fn new() -> SureSink {
        SureSink
    }
}

impl Sink for SureSink {
    ghost contents = { λ _. None };

    ghost faults = { λ _. 0 };

    fn write(&mut self, bytes: &[u8]) -> Result<usize, Failed>
        ensures bound { TakesSome result bytes.now }
        ensures empty { bytes.now ≡ [] → result ≡ Ok 0 }
        ensures bytes { WriteAppends None None result bytes.now }
        ensures cause { HasCause 0 0 result }
        ensures count { result ≡ Ok (length bytes.now) }
    {
        Ok(bytes.len())
    }
}
