//! The tokens of bytes.
ghost use Rattle.std.specs.Prelude.{◌≡◌, ◌<◌, ◌≤◌, ◌+◌, ◌++◌, List, length, IfOk, IfErr, All};
ghost use Rattle.ded_lex.specs.declared.token.Token.{Token};
ghost use Rattle.ded_lex.specs.Fronts.{front_tokens};
ghost use Rattle.ded_lex.specs.Tokens.{AreTokens};

use crate::front::{Front, front_of};
use crate::token::{Token, TokenList};
use ded_model::fault::ParseFault;
use std::alloc::{AllocError, Global};

/// Adds the token that the front at this place is, or nothing where it is a gap.
fn add(tokens: &mut Vec<Token>, front: Front, at: usize) -> Result<(), AllocError>
    requires { at + front.length < 4294967296 }
    ensures { IfOk result (λ _. tokens.new.items ≡
        tokens.old.items ++ front_tokens front.kind at (at + front.length)) }
{
    let Some(kind) = front.kind else {
        return Ok(());
    };
    tokens.push(Token {
        kind,
        start: at as u32,
        end: (at + front.length) as u32,
    })?;
    Ok(())
}

/// The tokens of the bytes, in order; blanks and comments between them are dropped.
///
/// # Errors
/// `NotRead` where the bytes aren't tokens, blanks and comments; `Memory` where there is no memory for the list.
pub fn tokens(alloc: Global, bytes: &[u8]) -> Result<TokenList, ParseFault>
    requires { length bytes.now < 4294967296 }
    ensures tokens { IfOk result (λ list. AreTokens bytes.now list) }
    ensures spans { IfOk result (λ list.
        All (λ token. (token.start < token.end) × (token.end ≤ length bytes.now)) list) }
    ensures no_token { IfErr result (λ fault. fault ≡ ParseFault.NotRead →
        (list : List Token) → AreTokens bytes.now list → ⊥) }
{
    let mut list = Vec::new(alloc);
    let mut at = 0;
    while at < bytes.len() {
        let Some(front) = front_of(&bytes[at..]) else {
            return Err(ParseFault::NotRead);
        };
        add(&mut list, front, at)?;
        at += front.length;
    }
    Ok(TokenList::of(list))
}
