//! The machine of a dialogue, lent between two calls.
ghost use Rattle.std.specs.Borrow.{sem};
ghost use Rattle.std.specs.Prelude.{◌≡◌};
ghost use Rattle.ded_dialogue.specs.Lending.{lends_machine};

use crate::dialogue::Dialogue;

impl<A> Dialogue<A> {
    /// The machine, to be asked or changed between two calls. What else the dialogue has stays as it is.
    pub fn machine_mut(&mut self) -> &mut A
        ensures* writes_back { sem 𝓛 (lends_machine A.row self.entry result) }
        ensures value { result.now ≡ self.old.machine }
    {
        &mut self.machine
    }
}
