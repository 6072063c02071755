//! Which calls of a device in memory fail.
ghost use Rattle.std.specs.Prelude.{◌≡◌, ◌↔◌, ◌||◌, IfOk, IsErr, IsTrue};
ghost use Rattle.ded_io.specs.Causes.{HasCause};
ghost use Rattle.ded_io.specs.InMemory.{new_schedule, next_fails, after_call};

use crate::Failed;
use ded_model::memory::NoMemory;
use std::alloc::Global;
use std::marker::Model;

/// The numbers of the calls that fail, from 1, how many were made, and how many failed.
#[derive(Drop)]
pub struct Schedule {
    fails: Vec<u64>,
    made: u64,
    faults: u64,
}

impl Model for Schedule {
    ghost use Rattle.ded_io.specs.InMemory.{Schedule};

    ghost Value = { Schedule };

    ghost view = { λ s. record { fails = s.fails.items; made = s.made; faults = s.faults } };
}

impl Schedule {
    /// A schedule with these numbers of calls that fail, before the first call.
    ///
    /// # Errors
    /// Out of memory.
    pub fn new(alloc: Global, fails: &[u64]) -> Result<Schedule, NoMemory>
        ensures { IfOk result (λ s. s ≡ new_schedule fails.now) }
    {
        Ok(Schedule {
            fails: fails.to_vec(alloc)?,
            made: 0,
            faults: 0,
        })
    }

    /// Counts one more call, which fails by its number or where the device refuses it.
    ///
    /// # Errors
    /// `Failed` exactly where the number of the call is one that fails, or the device refuses it. The fault is counted
    /// then.
    pub fn call(&mut self, is_refused: bool) -> Result<(), Failed>
        ensures fails { IsErr result ↔ IsTrue (next_fails self.old || is_refused) }
        ensures cause { HasCause self.old.faults self.new.faults result }
        ensures after { self.new ≡ after_call self.old (next_fails self.old || is_refused) }
    {
        let fails = self.is_next_failing() || is_refused;
        self.made = self.made.saturating_add(1);
        if fails {
            self.faults = self.faults.saturating_add(1);
            return Err(Failed);
        }
        Ok(())
    }

    /// Whether the next call fails by its number.
    fn is_next_failing(&self) -> bool
        ensures { result ≡ next_fails self.now }
    {
        match self.made.checked_add(1) {
            Some(number) => self.fails.contains(&number),
            None => false,
        }
    }
}
