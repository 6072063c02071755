//! A piece of an input, as a splitter leaves it to who answers statements.

/// What stands between two ends of statements.
#[derive(Clone, Copy)]
pub enum Piece<'a> {
    /// A whole piece of at most 65,536 bytes.
    Whole(&'a [u8]),
    /// A piece of more bytes.
    Long,
    /// A last piece that no `;` ends, of at most 65,536 bytes, and not blank.
    Cut,
}
