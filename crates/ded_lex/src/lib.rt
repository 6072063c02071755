//! From bytes to statements, and from the bytes of a statement to its tokens.
//!
//! A [`Splitter`] is fed an input byte by byte. It says at which byte a piece ends and, at the end, whether the rest is
//! blank or cut. The pieces that ended are the whole pieces of the input as `specs/Pieces.antt` defines them, with no
//! machine in the definition, whatever the input and however it comes. It has one buffer of 65,536 bytes: of a longer
//! piece it only tells that it is longer. Feeding and finishing don't allocate. A [`Piece`] is what is handed on to who
//! answers statements.
//!
//! [`tokens`] gives the tokens of bytes with the places where they stand, exactly where the bytes are tokens, blanks
//! and comments (`specs/Tokens.antt`); there is one list at most. What a token says, a word, the digits of a number,
//! the value of a quoted text or a sign, is the `lexeme` of its kind and its bytes. That a word is reserved is not
//! decided here. [`front_of`] gives the first token or gap alone, and needs no memory.
//!
//! The laws of the definitions are the contracts of functions that do nothing. The crate stands on `ded_model` for
//! `NoMemory` alone.
#![tactic(auto)]

mod byte;
mod front;
mod laws;
mod lexer;
mod piece;
mod splitter;
mod state;
mod token;

pub use front::{Front, front_of};
pub use laws::{
    blank_bytes_have_no_token, cut_goes_on, each_input_is_cut, one_cut, one_token_list,
    piece_stays_whole, tokens_say_what_bytes_say, tokens_stand_in_order,
};
pub use lexer::tokens;
pub use piece::Piece;
pub use splitter::{Fed, Splitter, Unended};
pub use token::{Token, TokenKind, TokenList};
