//! What a tagged statement is answered.
ghost use Rattle.std.specs.Prelude.{◌≡◌};
ghost use Rattle.ded_shared.specs.Answered.{shared_form};
ghost use Rattle.ded_shared.specs.Forms.{refuses};

use ded_model::name::Name;
use ded_session::Reply;

/// The reply to a tagged statement.
#[derive(Drop)]
pub enum SharedReply {
    /// As a session answers it.
    Plain(Reply),
    /// The session's transaction was begun before, and stays open.
    Begun,
    /// The session has no open transaction.
    NotBegun,
    /// The transaction is given up: it touched or changed the name, and others have changed it since its begin. It is
    /// the least of these names.
    Conflict(Name),
}

impl SharedReply {
    /// Whether the reply is a refusal.
    pub fn is_refusal(&self) -> bool
        ensures { result ≡ refuses (shared_form self.now) }
    {
        match self {
            SharedReply::Plain(reply) => reply.is_refusal(),
            SharedReply::Begun | SharedReply::NotBegun | SharedReply::Conflict(_) => true,
        }
    }
}
