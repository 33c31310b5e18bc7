//! How texts are hashed.

ghost use Rattle.std.specs.Prelude.{◌≡◌};

use std::hash::{BuildHasher, DefaultHasher, RandomState};

/// How texts are hashed: each from the same state. A file's writer chooses its texts. With a known seed many texts that
/// collide can be written, and a set of them takes time proportional to the square of their number.
#[derive(Clone, Copy)]
pub struct Hashing {
    initial: DefaultHasher,
}

impl Hashing {
    /// With a seed that all runs share: for texts that nobody chooses so that they collide.
    pub fn with_shared_seed() -> Hashing {
        Hashing {
            initial: DefaultHasher::new(),
        }
    }

    /// With the seed of this run, which the writers of files don't know.
    pub fn with_seed(seed: RandomState) -> Hashing
        ensures { ⟦<Hashing as BuildHasher>⟧.build_hasher result
            ≡ ⟦<RandomState as BuildHasher>⟧.build_hasher seed }
    {
        Hashing {
            initial: seed.build_hasher(),
        }
    }
}

impl BuildHasher for Hashing {
    type Hasher = DefaultHasher;

    ghost build_hasher = { λ h. h.initial };

    fn build_hasher(&self) -> DefaultHasher {
        self.initial
    }
}
