//! The loop of a program that keeps what it answers: what a machine lists is saved in a journal before the replies that
//! acknowledge it are sent.
//!
//! What answers is a [`Recording`]: an `Answering` of `ded_dialogue` that lists a text for each statement that has to
//! be kept. [`serve_recorded`] reads a source to its end. The statements that end in the bytes of one read are
//! answered, what they list is saved and committed at once, and then the texts of their replies are sent. So where a
//! device fails or the program is stopped, at whichever call, the journal is found with the texts of a front of the
//! statements, and each reply that was written, or begun, is the reply to one of these (`specs/Surviving.antt`).
//!
//! It stands on `ded_dialogue` for the answers to bytes as they come, on `ded_journal` for the list on disk, and on
//! `ded_io` for the source and the sink. The texts of the replies to one read are held in memory.
#![tactic(auto)]

mod draft;
mod recording;
mod saving;
mod serving;
mod settling;

pub use recording::Recording;
pub use serving::serve_recorded;
