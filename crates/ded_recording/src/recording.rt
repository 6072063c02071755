//! What answers the pieces of an input, and lists texts that have to be kept.
ghost use Rattle.std.specs.Prelude.{◌≡◌, ◌<◌, ℕ, List, [], Some, length, slice_get};
ghost use Rattle.ded_lex.specs.Pieces.{Statement};
ghost use Rattle.ded_dialogue.specs.Replies.{Said};
ghost use Rattle.ded_recording.specs.Listings.{IsToldBy, SomeGiven};

use ded_dialogue::Answering;

/// What answers statements one after another, and lists texts for what has to be kept of them.
pub trait Recording: Answering {
    /// What it stands for beside its list.
    ghost Rest: { Type 0 };

    /// What it stands for beside its list, now.
    ghost rest: { Self → Self.Rest };

    /// The texts that it lists, in order.
    ghost listed: { Self → List (List ℕ) };

    /// Which reply a statement may get, which texts it adds to the list, and what the machine stands for behind it.
    ghost gives: { Self.Rest → Statement → Said → List (List ℕ) → Self.Rest → Type 0 };

    /// How many texts are listed.
    fn count(&self) -> usize
        ensures { result ≡ length (listed self.now) };

    /// The text at this place of the list, counted from 0.
    fn text(&self, at: usize) -> &[u8]
        requires { at < length (listed self.now) }
        ensures { slice_get (listed self.now) at ≡ Some result.now };

    /// Takes all texts from the list.
    fn clear(&mut self)
        ensures none { listed self.new ≡ [] }
        ensures stays { rest self.new ≡ rest self.old };

    /// Its answers are those that it gives, and each text that a statement adds stands behind those before.
    ghost told: { IsToldBy Self.Answering.answers Self.Answering.state gives rest listed };

    /// Each statement may get some reply.
    ghost some_next: { (m : Self.Rest) (s : Statement) → SomeGiven gives m s };
}
