//! Laws of what may be replied. Each is the contract of a function that does nothing but call the laws
//! that it rests on.
ghost use Rattle.std.specs.List.{AllByRecursion};
ghost use Rattle.ded_lex.specs.Pieces.{Statement};
ghost use Rattle.ded_model.specs.declared.command.Language.{Language};
ghost use Rattle.ded_model.specs.Catalogue.{Catalogue};
ghost use Rattle.ded_model.specs.Known.{IsWellFormed};
ghost use Rattle.ded_model.specs.ShortRows.{HasShortRows};
ghost use Rattle.ded_session.specs.Steps.{Accepts};
ghost use Rattle.ded_progress.specs.Progress.{IsAnswered, HasReply, IsTightQuery, IsAnswerable};

/// Over a well formed catalogue each statement may get a reply other than that memory is wanted, unless it is accepted
/// and asks for the tuples of a tight formula. An accepted one, which none of the refusals 1 to 19 stops, may get a
/// reply that is no refusal, but where it is a query, asks for the box of a relation that isn't narrow for it and of
/// which some stored row is no order row, or for certificates of relations of which some pair of tuples is wide.
pub fn progress()
    ensures answers { (language : Language) (c : Catalogue) (s : Statement) → IsWellFormed c
        → AllByRecursion HasShortRows c.entries → Accepts language s c (IsAnswerable c) → IsAnswered language c s }
    ensures replies { (language : Language) (c : Catalogue) (s : Statement) → IsWellFormed c
        → AllByRecursion HasShortRows c.entries → (Accepts language s c (IsTightQuery c) → ⊥) → HasReply language c s }
{
    ded_resolve::laws::normal_goals();
}
