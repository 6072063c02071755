//! The limits of what users write and store, in the order of the manual.

/// The bytes of a statement, at most.
pub const STATEMENT_BYTES: usize = 65_536;

/// The bytes of a name, at most.
pub const NAME_BYTES: usize = 64;

/// The greatest magnitude of a number that is written.
pub const GREATEST_NUMBER: u64 = 9_223_372_036_854_775_807;

/// The least magnitude that no written number has.
pub const TOO_GREAT: u64 = GREATEST_NUMBER + 1;

/// The nested formulas of a formula, at most.
pub const NESTING: usize = 64;

/// The columns of a heading, at most.
pub const COLUMNS: usize = 16;

/// The columns of a heading and the quantifiers of its formula together, at most.
pub const PLACES: usize = 64;

/// The level of a view, at most: 1 more than the greatest level of the names that it mentions.
pub const LEVELS: u32 = 16;

/// The inserts that a relation accepts, at most.
pub const INSERTS: u32 = u32::MAX;

/// The tuples that a relation may be allowed to hold, at most.
pub const TUPLES: u32 = 1_000_000;

/// The tuples that a relation holds at most where the command line says nothing.
pub const DEFAULT_TUPLES: u32 = 100_000;

/// The bytes of an input, at most.
pub const INPUT_BYTES: u64 = 1 << 40;
