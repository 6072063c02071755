//! Laws of what is kept. Each is the contract of a function that does nothing but call the laws that it rests on.
ghost use Rattle.std.specs.Prelude.{ℕ, List};
ghost use Rattle.ded_dialogue.specs.Replies.{Said};
ghost use Rattle.ded_dialogue.specs.Runs.{Steps};
ghost use Rattle.ded_lex.specs.Pieces.{Statement};
ghost use Rattle.ded_recording.specs.Listings.{Listing, MayList};
ghost use Rattle.ded_kept.specs.Answering.{KeptState, keeps};
ghost use Rattle.ded_kept.specs.Defining.{IsDefinedBy};

/// What is kept defines the catalogue, behind each statement: where it does before some, it does behind them. So it
/// does in each run that follows another, and the list that a crash leaves defines the catalogue over which the replies
/// were given that were written.
pub fn defined_catalogues()
    ensures { (limit : ℕ) (m n : Listing KeptState) (statements : List Statement) (replies : List Said)
        → IsDefinedBy limit m.list m.rest.catalogue
        → Steps (MayList keeps) m statements replies n
        → IsDefinedBy limit n.list n.rest.catalogue }
{}
