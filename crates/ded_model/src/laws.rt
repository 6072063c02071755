//! What crates above rest on, as contracts of functions that do nothing: each law is proved once, here. Those on what
//! the data means stand in `ded_laws`.

pub mod sameness;
