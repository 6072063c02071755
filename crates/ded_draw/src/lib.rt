//! Runs a script as `ded_run` does, and writes one picture of the tuples of its replies.
//!
//! A session answers the statements, in the loop of `ded_dialogue`, and its replies are gathered. When the script has
//! ended, the picture of what they tell (`ded_drawing`) is made, and its text is written (`ded_svg`): so the sink gets
//! the whole picture or, where it fails, a front of it, and nothing where the script isn't read to its end or memory is
//! wanting (`specs/Outcome.antt`). [`run`] has the words of the command line read first (`specs/Words.antt`).
//!
//! It stands on `ded_run` for a session's replies and for words, on `ded_dialogue` for the loop, on `ded_session` for
//! replies, on `ded_figures`, `ded_axes` and `ded_drawing` for pictures, on `ded_svg` for their texts, on `clap` for
//! the words, and on `ded_io` for the source and the sink.
#![tactic(auto)]

mod gathering;
mod program;
mod words;

pub use program::{run, serve};
pub use words::DrawOptions;
