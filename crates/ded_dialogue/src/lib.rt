//! The loop of a program that answers statements: it cuts what it reads into pieces, has each answered as its last byte
//! comes, and writes the replies.
//!
//! What answers a piece is an [`Answering`]: it says which replies a statement may get in each of its states, and a
//! [`Dialogue`] over it answers bytes as they come ([`Dialogue::feed`], [`Dialogue::finish`]). [`serve`] reads a source
//! to its end; [`serve_dialogue`] does so with a dialogue, which gives its machine back ([`Dialogue::into_machine`]),
//! or lends it between two calls ([`Dialogue::machine_mut`]). It keeps a buffer for the statement that is coming in and
//! one of 4,096 bytes for a read, and nothing else of the input. Replies of one line to the statements of one read wait
//! for each other, up to 1,024 bytes, and go to the sink in one write. Where it is done, the whole input was read, and
//! the sink holds what it held, then the text of one reply for each statement, in order (`specs/Outcome.antt`). Where a
//! device fails, or the input is too long, the contract says what stands written. [`Status::exit_number`] is the exit
//! status of a program whose run ended so. All this is said of the texts of replies; `specs/Forms.antt` has what a
//! machine with replies of its own says of these, and `proofs/Hearing.antt` carries a run over to them.
//!
//! It stands on `ded_lex` for statements and pieces, and on `ded_io` for the source and the sink.
#![tactic(auto)]

mod answering;
mod dialogue;
mod lending;
mod pending;
mod serving;
mod status;

pub use answering::Answering;
pub use dialogue::Dialogue;
pub use serving::{conclude, serve, serve_dialogue};
pub use status::Status;
