//! The views whose evaluation as a whole was begun in a question.
ghost use Rattle.std.specs.Prelude.{◌≡◌, ◌++◌, ◌∷◌, [], false, OnOk, OnErr};
ghost use Rattle.std.specs.Str.{bytes_eq};
ghost use Rattle.std.specs.List.{list_any};

use ded_model::memory::NoMemory;
use ded_model::name::Name;
use std::alloc::Global;
use std::marker::Model;

/// The views whose evaluation as a whole was begun in a question, each once, in the order in which it was. Contracts
/// see their names.
#[derive(Drop)]
pub(crate) struct Tried {
    names: Vec<Name>,
}

impl Model for Tried {
    ghost use Rattle.std.specs.Prelude.{List, ℕ};
    ghost use Rattle.ded_plan.specs.ScannedNames.{AreDistinctNames};

    ghost Value = { List (List ℕ) };

    ghost view = { λ t. t.names.items };

    ghost invariant = { λ t. AreDistinctNames t.names.items };
}

impl Tried {
    /// No views. It does not allocate.
    pub(crate) fn new(alloc: Global) -> Tried
        ensures { result ≡ [] }
    {
        Tried {
            names: Vec::new(alloc),
        }
    }

    /// Whether the view's evaluation was begun. It does not allocate.
    pub(crate) fn has(&self, name: &Name) -> bool
        ensures { result ≡ list_any (bytes_eq name.now) self.now }
    {
        self.names.contains(name)
    }

    /// Begins with a view that wasn't tried.
    ///
    /// # Errors
    /// Out of memory; nothing is changed then.
    pub(crate) fn begin(&mut self, name: &Name) -> Result<(), NoMemory>
        requires fresh { list_any (bytes_eq name.now) self.old ≡ false }
        ensures ok { OnOk result (self.new ≡ self.old ++ name.now ∷ []) }
        ensures err { OnErr result (self.new ≡ self.old) }
    {
        self.names.push(name.copy()?)?;
        Ok(())
    }
}
