//! Tokens and where they stand.
ghost use Rattle.std.specs.Prelude.{◌≡◌, List};

use std::marker::Model;

/// What a token is.
#[derive(Clone, Copy, Debug, PartialEq, Eq)]
pub enum TokenKind {
    /// A letter or `_`, and letters, digits and `_`.
    Word,
    /// Digits.
    Number,
    /// Digits, a point, and digits.
    Decimal,
    /// A text between quotes, in which each quote is doubled.
    Quoted,
    /// One of `( ) { } , : := < <= = != >= > + - * /`.
    Sign,
}

/// A token, with the place of its first byte and the place after its last one.
#[derive(Clone, Copy, Debug, PartialEq, Eq)]
pub struct Token {
    pub kind: TokenKind,
    pub start: u32,
    pub end: u32,
}

/// The tokens of some bytes, in order.
#[derive(Drop)]
pub struct TokenList {
    tokens: Vec<Token>,
}

impl Model for TokenList {
    ghost use Rattle.std.specs.Prelude.{List};
    ghost use Rattle.ded_lex.specs.declared.token.Token.{Token};

    ghost Value = { List Token };

    ghost view = { λ list. list.tokens.items };
}

impl TokenList {
    /// The tokens as a list. It doesn't allocate.
    pub fn list(&self) -> &[Token]
        ensures { result.now ≡ self.now }
    {
        &self.tokens
    }

    /// The list of these tokens.
    pub(crate) fn of(tokens: Vec<Token>) -> TokenList
        ensures { result ≡ tokens.items }
    {
        TokenList { tokens }
    }
}
