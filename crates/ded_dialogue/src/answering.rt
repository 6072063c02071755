//! What answers the pieces of an input.
ghost use Rattle.std.specs.Prelude.{◌≡◌};
ghost use Rattle.ded_io.specs.Causes.{HasCause};
ghost use Rattle.ded_io.specs.Devices.{AddsAll};
ghost use Rattle.ded_lex.specs.Pieces.{Statement};
ghost use Rattle.ded_lex.specs.Pieces.{IsShortPiece};
ghost use Rattle.ded_dialogue.specs.Replies.{Said};
ghost use Rattle.ded_dialogue.specs.Runs.{SomeAnswer, StandsFor};

use ded_io::{Failed, Sink};
use ded_lex::Piece;

/// What answers statements one after another, and may change with each.
pub trait Answering {
    /// What a statement is answered.
    type Reply: Drop;

    /// What it stands for between two statements.
    ghost State: { Type 0 };

    /// What it stands for.
    ghost state: { Self → Self.State };

    /// Which reply a statement may get in a state, and the state behind it.
    ghost answers: { Self.State → Statement → Said → Self.State → Type 0 };

    /// The text of a reply, and whether it is a refusal.
    ghost said: { Self.Reply → Said };

    /// Answers the next statement: whichever statement the piece stands for, it may get this reply.
    fn answer(&mut self, piece: Piece<'_>) -> Self::Reply
        requires { IsShortPiece piece }
        ensures { (s : Statement) → StandsFor piece.entry s
            → answers (state self.old) s (said result) (state self.new) };

    /// Whether the reply is a refusal.
    fn is_refusal(reply: &Self::Reply) -> bool
        ensures { result ≡ (said reply.now).refuses };

    /// Whether the text of a reply is taken for one line, which may wait for further replies. It decides only how many
    /// writes there are.
    fn is_line(reply: &Self::Reply) -> bool;

    /// Writes the text of a reply, or a front of it where the sink fails.
    ///
    /// # Errors
    /// `Failed` only where the sink's count of faults rose.
    fn write<K: Sink>(reply: &Self::Reply, sink: &mut K) -> Result<(), Failed>
        ensures bytes { AddsAll (K.contents sink.old) (K.contents sink.new) result (said reply.now).text }
        ensures cause { HasCause (K.faults sink.old) (K.faults sink.new) result };

    /// Behind a statement that was answered any other may get some reply: so a run can be told to its end where the
    /// sink fails before.
    ghost goes_on: { (m n : Self.State) (s next : Statement) (reply : Said) → answers m s reply n
        → SomeAnswer answers n next };
}
