//! The relations of a catalogue where they stand, and what is given under other names.
ghost use Rattle.std.specs.Prelude.{◌≡◌, ◌&&◌, not};

use ded_algebra::{Given, Relations};
use ded_catalog::Snapshot;
use ded_model::memory::NoMemory;
use ded_model::name::Name;
use ded_model::steps::Steps;
use ded_packed::Lent;
use ded_ranges::Window;
use std::alloc::Global;
use std::sync::ledger::Ledger;

/// What is given, and the relations of a catalogue under all other names but the hidden one. Nothing is copied.
#[derive(Drop)]
pub struct Over<'a, 'b, 'c> {
    pub snapshot: &'a Snapshot<'b>,
    pub given: &'c Given,
    pub hidden: Option<&'b Name>,
}

impl<'a, 'b, 'c> Over<'a, 'b, 'c> {
    ghost use Rattle.std.specs.Option.{option_map};
    ghost use Rattle.ded_query.specs.Over.{is_hidden};

    /// Whether the name is the hidden one. It doesn't allocate.
    fn hides(&self, name: &Name) -> bool
        ensures { result ≡ is_hidden (option_map (λ n. n.now) self.now.hidden) name.now }
    {
        match self.hidden {
            Some(hidden) => name.is_same(hidden),
            None => false,
        }
    }
}

impl<'a, 'b, 'c> Relations for Over<'a, 'b, 'c> {
    ghost use Rattle.std.specs.Option.{option_map};
    ghost use Rattle.ded_catalog.specs.Snapshots.{snapshot_of};
    ghost use Rattle.ded_algebra.specs.Given.{given_catalogue, has_name};
    ghost use Rattle.ded_query.specs.Over.{over_relations, is_hidden, AreStepsOver};

    ghost catalogue = { λ o. given_catalogue (over_relations (snapshot_of o.snapshot.now)
        (option_map (λ n. n.now) o.hidden) o.given.now) };

    ghost indexed = { λ o n. not (has_name n o.given.now) && not (is_hidden (option_map (λ n. n.now) o.hidden) n) };

    ghost reads = { λ o n w before after. AreStepsOver o.snapshot.now o.given.now n w before after };

    fn formed(&self) {
        self.snapshot.formed();
        self.given.formed();
    }

    fn near<L: Ledger>(
        &self,
        alloc: Global,
        name: &Name,
        window: &Window,
        steps: &mut Steps<L>,
    ) -> Result<Option<Vec<Lent<'_>>>, NoMemory> {
        self.snapshot.formed();
        if self.given.has(name) {
            self.given.near(alloc, name, window, steps)
        } else if self.hides(name) {
            Ok(None)
        } else {
            self.snapshot.near(alloc, name, window, steps)
        }
    }

    fn all(&self, alloc: Global, name: &Name) -> Result<Option<Vec<Lent<'_>>>, NoMemory> {
        self.snapshot.formed();
        if self.given.has(name) {
            self.given.all(alloc, name)
        } else if self.hides(name) {
            Ok(None)
        } else {
            self.snapshot.all(alloc, name)
        }
    }

    fn is_indexed(&self, name: &Name) -> bool {
        !self.given.has(name) && !self.hides(name)
    }
}
