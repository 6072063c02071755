//! A database that is kept in a file: a session whose changes survive a crash.
//!
//! A journal (`ded_journal`) has the header `dedale 2;` and then each statement that changed something, as it was
//! written, with its `;`. [`open_kept`] opens one in a database file and its log. [`run_kept`] brings back the
//! catalogue and the kept views that these statements define (`specs/Defining.antt`), and reads a script: statements
//! are read in the second language, and a header may come first, which is answered and not kept. Each reply is one by
//! the rules of `ded_session`. What the statements of one read change is kept, all of it committed at once, before the
//! first of their replies is written. So whatever a crash leaves has the statements of a front of the input, and each
//! reply that was written is to one of these (`Survives` of `ded_recording`); and what it leaves defines the catalogue
//! over which they were answered ([`laws`]).
//!
//! [`limit_in`] reads the words of a program, [`refusal_line`] and [`resuming_line`] say why there is no run, and
//! [`KeptStatus::exit_number`] is the exit status.
#![tactic(auto)]

mod answering;
pub mod laws;
mod opening;
mod program;
mod reason;
mod resuming;
mod session;
mod words;

pub use opening::open_kept;
pub use program::{KeptStatus, run_kept};
pub use reason::{refusal_line, resuming_line};
pub use resuming::{NotResumed, resume};
pub use session::KeptSession;
pub use words::limit_in;
