//! How names are hashed.
ghost use Rattle.std.specs.Prelude.{◌≡◌};
ghost use Rattle.ded_relation.specs.Hashing.{keyed};

use std::hash::{BuildHasher, DefaultHasher, Hasher};

/// The state of a hasher that two keys were written to, from which each name is hashed. Whoever doesn't know the keys
/// can't choose names that collide.
#[derive(Clone, Copy)]
pub struct NameHashing {
    pub(crate) state: DefaultHasher,
}

impl NameHashing {
    /// Hashing behind the keys.
    #[tactic(auto, unfolding(crate::specs::Hashing::keyed))]
    pub fn new(keys: (u64, u64)) -> NameHashing
        ensures { result ≡ keyed keys }
    {
        let mut state = DefaultHasher::new();
        state.write_u64(keys.0);
        state.write_u64(keys.1);
        NameHashing { state }
    }
}

impl BuildHasher for NameHashing {
    type Hasher = DefaultHasher;

    ghost build_hasher = { λ s. s.state };

    fn build_hasher(&self) -> DefaultHasher {
        self.state
    }
}
