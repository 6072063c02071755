//! What a command is answered that may find no reply.
ghost use Rattle.std.specs.Prelude.{◌≡◌, None, IfOk, IsErrOf};
ghost use Rattle.ded_model.specs.declared.memory.Refused.TheVariants.{Wide};
ghost use Rattle.ded_model.specs.Catalogue as model;
ghost use Rattle.ded_model.specs.Command.{CommandForm};
ghost use Rattle.ded_session.specs.Answered.{reply_form};
ghost use Rattle.ded_session.specs.Carrying.{Carries, refusal_left};
ghost use Rattle.ded_session.specs.Steps.{Does, MayBeWide};

use crate::reply::Reply;
use ded_model::command::Refusal;
use ded_model::memory::Refused;

/// The reply that was found to a command that changes nothing, or the refusal where none was found.
pub(crate) fn reply_of(found: Result<Reply, Refused>) -> Reply
    ensures { (x : CommandForm) (c : model.Catalogue) → refusal_left c x ≡ None
        → IfOk found (λ r. Does x c (reply_form r) c) → (IsErrOf found Wide → MayBeWide x c)
        → Carries x c (reply_form result) c }
{
    match found {
        Ok(reply) => reply,
        Err(Refused::Wide) => Reply::Refused(Refusal::Wide),
        Err(Refused::Memory) => Reply::Refused(Refusal::Memory),
    }
}
