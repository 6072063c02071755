//! A sink in memory, for the replies that wait until what they acknowledge is saved.
ghost use Rattle.std.specs.Prelude.{◌≡◌, []};

use ded_io::{Failed, Sink};
use std::alloc::Global;

/// Bytes that wait. It fails where there is no memory for more.
#[derive(Drop)]
pub(crate) struct Draft {
    pub(crate) bytes: Vec<u8>,
    faults: u64,
}

impl Draft {
    /// No bytes.
    pub(crate) fn new(alloc: Global) -> Draft
        ensures { result.bytes.items ≡ [] }
    {
        Draft {
            bytes: Vec::new(alloc),
            faults: 0,
        }
    }
}

impl Sink for Draft {
    ghost use Rattle.std.specs.Prelude.{Some};

    ghost contents = { λ d. Some d.bytes.items };

    ghost faults = { λ d. d.faults };

    fn write(&mut self, bytes: &[u8]) -> Result<usize, Failed> {
        if self.bytes.extend_from_slice(bytes).is_ok() {
            return Ok(bytes.len());
        }
        self.faults = self.faults.saturating_add(1);
        Err(Failed)
    }
}
