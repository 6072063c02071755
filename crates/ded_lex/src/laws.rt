//! Laws of the cut of an input into statements. Each is the contract of a function that does nothing.
ghost use Rattle.std.specs.Prelude.{◌≡◌, ◌++◌, ◌∷◌, [], List, ℕ, map, length, ◌↔◌};
ghost use Rattle.ded_lex.specs.Gaps.{IsBlank};
ghost use Rattle.ded_lex.specs.Pieces.{IsWhole, IsCut, Statement, Whole, AreStatements};
ghost use Rattle.ded_lex.specs.declared.token.Token.{Token};
ghost use Rattle.ded_lex.specs.Lexemes.{Lexeme};
ghost use Rattle.ded_lex.specs.Tokens.{AreTokens, AreInOrder, AreLexemes, lexeme};

/// Each input is cut into whole pieces and a rest, and has a list of statements. Nothing is cut into nothing.
pub fn each_input_is_cut()
    ensures nothing { IsCut [] [] [] }
    ensures cut { (input : List ℕ) → (pieces : List (List ℕ)) × (rest : List ℕ) × IsCut input pieces rest }
    ensures statements { (input : List ℕ) → (statements : List Statement) × AreStatements input statements }
{}

/// There is one cut of an input alone, and one list of statements.
pub fn one_cut()
    ensures cut { (input rest end : List ℕ) (pieces others : List (List ℕ)) →
        IsCut input pieces rest → IsCut input others end → (pieces ≡ others) × (rest ≡ end) }
    ensures statements { (input : List ℕ) (these those : List Statement) →
        AreStatements input these → AreStatements input those → these ≡ those }
{}

/// Whether a piece is whole before its `;` is no matter of what stands behind that.
pub fn piece_stays_whole()
    ensures { (piece after other : List ℕ) → IsWhole piece (59 ∷ after) → IsWhole piece (59 ∷ other) }
{}

/// An input that grows keeps its whole pieces and goes on from its rest.
pub fn cut_goes_on()
    ensures cut { (taken more rest end : List ℕ) (pieces others : List (List ℕ)) →
        IsCut taken pieces rest → IsCut (rest ++ more) others end →
        IsCut (taken ++ more) (pieces ++ others) end }
    ensures statements { (taken more rest : List ℕ) (pieces : List (List ℕ)) (statements : List Statement) →
        IsCut taken pieces rest → AreStatements (rest ++ more) statements →
        AreStatements (taken ++ more) (map Whole pieces ++ statements) }
{}

/// Bytes have one list of tokens at most.
pub fn one_token_list()
    ensures { (bytes : List ℕ) (these those : List Token) →
        AreTokens bytes these → AreTokens bytes those → these ≡ those }
{}

/// The tokens of bytes stand in order within them, each with a byte at least.
pub fn tokens_stand_in_order()
    ensures { (bytes : List ℕ) (tokens : List Token) → AreTokens bytes tokens →
        AreInOrder 0 (length bytes) tokens }
{}

/// What the tokens of bytes say, each taken from its kind and text, is what the bytes say; and where bytes say
/// anything, they have tokens.
pub fn tokens_say_what_bytes_say()
    ensures told { (bytes : List ℕ) (tokens : List Token) → AreTokens bytes tokens →
        AreLexemes bytes (map (lexeme bytes) tokens) }
    ensures only { (bytes : List ℕ) (lexemes : List Lexeme) → AreLexemes bytes lexemes →
        (tokens : List Token) × AreTokens bytes tokens × (lexemes ≡ map (lexeme bytes) tokens) }
{}

/// Blank bytes are those without a token.
pub fn blank_bytes_have_no_token()
    ensures { (bytes : List ℕ) → IsBlank bytes ↔ AreTokens bytes [] }
{}
