//! Where a script comes from and where the replies go.
//!
//! A `Source` gives bytes and a `Sink` takes them. Each tells its bytes to contracts where it knows
//! them, and counts its faults: a call fails only where that count rose, and then nothing was
//! given or taken. `send` writes a piece whole. There are devices in memory, for tests and proofs,
//! of which it is known what each call does, and `StdSource` and `StdSink` over the readers and
//! writers of the standard library, for a program's own streams.
//!
//! It stands on the standard library, and on `ded_model` for the error of an allocation.
#![tactic(auto)]

mod device;
mod memory_sink;
mod memory_source;
mod schedule;
mod standard;
mod unread;

pub use device::{Failed, Sink, Source, send};
pub use memory_sink::{BytesSink, SureSink};
pub use memory_source::{BytesSource, SureSource};
pub use standard::{StdSink, StdSource};
