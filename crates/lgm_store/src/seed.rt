//! How points are hashed.

ghost use Rattle.std.specs.Prelude.{◌≡◌};
ghost use Rattle.lgm_store.specs.inner.Seed.{seeded_by};

use std::hash::{BuildHasher, DefaultHasher, Hasher};
use std::marker::Model;
use std::random::RandomSource;

/// The seed of the hash of points: sixteen bytes. Contracts see these bytes. No answer depends on it.
///
/// Points come from strangers. Whoever knows the seed can craft colliding points and make lookups linear.
#[derive(Clone, Copy)]
pub struct Seed {
    /// The bytes.
    bytes: [u8; 16],
    /// A hasher that has consumed them.
    seeded: DefaultHasher,
}

impl Model for Seed {
    ghost use Rattle.std.specs.Prelude.{◌≡◌, ℕ, List, refl};
    ghost use Rattle.lgm_store.specs.inner.Seed.{seeded_by};

    ghost Value = { List ℕ };

    ghost view = { λ s. s.bytes };

    ghost invariant = { λ s. s.seeded ≡ seeded_by s.bytes };

    ghost inverse = { λ bytes. record { bytes = bytes; seeded = seeded_by bytes } };

    ghost inverse_ok = { λ s h. rw h refl };
}

impl Seed {
    /// The seed of these bytes.
    pub fn new(bytes: [u8; 16]) -> Seed
        ensures { result ≡ bytes }
    {
        let mut seeded = DefaultHasher::new();
        seeded.write(&bytes);
        Seed { bytes, seeded }
    }

    /// The bytes.
    pub fn bytes(&self) -> [u8; 16]
        ensures { result ≡ self.now }
    {
        self.bytes
    }

    /// A seed of the system's random bytes, which nobody knows; the seed of zeros if the system has none.
    pub fn random<Rt: RandomSource>(rt: &Rt) -> Seed {
        let mut bytes = [0; 16];
        match rt.fill_bytes(&mut bytes) {
            Ok(()) => Seed::new(bytes),
            Err(_) => Seed::new([0; 16]),
        }
    }
}

impl BuildHasher for Seed {
    type Hasher = DefaultHasher;

    ghost build_hasher = { seeded_by };

    fn build_hasher(&self) -> DefaultHasher {
        self.seeded
    }
}
