//! The cut of an input into pieces, byte by byte.
ghost use Rattle.std.specs.Prelude.{◌≡◌, ◌≤◌, vec_len};

use crate::state::{State, is_still_blank, may_end_blank, turn};
use ded_model::limits::STATEMENT_BYTES;
use ded_model::memory::NoMemory;
use std::alloc::Global;

/// What a byte did.
#[derive(Clone, Copy, Debug, PartialEq, Eq)]
pub enum Fed {
    /// The piece goes on.
    More,
    /// A piece of at most 65,536 bytes ended before this byte.
    Ended,
    /// A piece of more than 65,536 bytes ended before this byte.
    EndedLong,
}

/// What the bytes behind the last ended piece are.
#[derive(Clone, Copy, Debug, PartialEq, Eq)]
pub enum Unended {
    /// Blanks and comments alone, however many.
    Blank,
    /// Anything else, of at most 65,536 bytes.
    Cut,
    /// Anything else, of more than 65,536 bytes.
    CutLong,
}

/// Cuts a stream of bytes into pieces, a byte at a time, in one buffer of 65,536 bytes. Of a longer piece it keeps no
/// more than that.
#[derive(Drop)]
pub struct Splitter {
    kept: Vec<u8>,
    count: usize,
    state: State,
    blank: bool,
    ended: usize,
    ghost room: { vec_len kept ≡ 65536 },
    ghost within: { count ≤ 65537 },
    ghost last: { ended ≤ 65536 },
}

impl Splitter {
    ghost use Rattle.std.specs.Prelude.{◌≡◌, ◌≤◌, ◌<◌, ◌∷◌, ◌++◌, [], List, ℕ, IfOk, length, ◌&&◌};
    ghost use Rattle.ded_lex.specs.Machine.{ends_blank};
    ghost use Rattle.ded_lex.specs.Gaps.{IsBlank};
    ghost use Rattle.ded_lex.specs.Pieces.{IsCut, EndsPiece};
    ghost use Rattle.ded_lex.specs.Splits.{Since, ended_piece};

    /// A splitter that was fed nothing.
    ///
    /// # Errors
    /// Out of memory for its buffer.
    #[tactic(auto, unfolding(crate::specs::Splits::Since))]
    pub fn new(alloc: Global) -> Result<Splitter, NoMemory>
        ensures { IfOk result (λ s. Since s []) }
    {
        Ok(Splitter {
            kept: vec![in alloc; 0u8; STATEMENT_BYTES]?,
            count: 0,
            state: State::Plain,
            blank: true,
            ended: 0,
        })
    }

    /// The piece that ended at the last byte, where that byte's answer was `Ended`.
    #[tactic(auto, unfolding(crate::specs::Splits::ended_piece))]
    pub fn piece(&self) -> &[u8]
        ensures { result.now ≡ ended_piece self.now }
    {
        &self.kept[..self.ended]
    }

    /// Takes the next byte, and tells what it did. It doesn't allocate.
    #[tactic(auto, unfolding(crate::specs::Splits::Since))]
    pub fn feed(&mut self, byte: u8) -> Fed
        ensures more { result ≡ Fed.More → (bytes : List ℕ) → Since self.old bytes →
            Since self.new (bytes ++ byte ∷ []) × IsCut (bytes ++ byte ∷ []) [] (bytes ++ byte ∷ []) }
        ensures ended { result ≡ Fed.Ended → (bytes : List ℕ) → Since self.old bytes →
            EndsPiece bytes byte × (length bytes ≤ 65536) × (ended_piece self.new ≡ bytes) × Since self.new [] }
        ensures ended_long { result ≡ Fed.EndedLong → (bytes : List ℕ) → Since self.old bytes →
            EndsPiece bytes byte × (65536 < length bytes) × Since self.new [] }
    {
        match turn(self.state, byte) {
            Some(next) => {
                self.blank = is_still_blank(self.blank, self.state, byte);
                self.state = next;
                if self.count >= STATEMENT_BYTES {
                    self.count = STATEMENT_BYTES + 1;
                    return Fed::More;
                }
                self.kept[self.count] = byte;
                self.count += 1;
                Fed::More
            }
            None => {
                let long = self.count > STATEMENT_BYTES;
                self.ended = self.count.min(STATEMENT_BYTES);
                self.count = 0;
                self.state = State::Plain;
                self.blank = true;
                if long { Fed::EndedLong } else { Fed::Ended }
            }
        }
    }

    /// Whether the bytes since the last end are blanks and comments alone.
    fn is_blank(&self) -> bool
        ensures { result ≡ (self.now.blank && ends_blank self.now.state) }
    {
        self.blank && may_end_blank(self.state)
    }

    /// What the bytes are that were fed since the last piece ended. It doesn't allocate.
    pub fn finish(&self) -> Unended
        ensures rest { (bytes : List ℕ) → Since self.now bytes → IsCut bytes [] bytes }
        ensures blank { result ≡ Unended.Blank → (bytes : List ℕ) → Since self.now bytes → IsBlank bytes }
        ensures cut { result ≡ Unended.Cut → (bytes : List ℕ) → Since self.now bytes →
            (IsBlank bytes → ⊥) × (length bytes ≤ 65536) }
        ensures cut_long { result ≡ Unended.CutLong → (bytes : List ℕ) → Since self.now bytes →
            (IsBlank bytes → ⊥) × (65536 < length bytes) }
    {
        if self.is_blank() {
            return Unended::Blank;
        }
        if self.count > STATEMENT_BYTES {
            return Unended::CutLong;
        }
        Unended::Cut
    }
}
