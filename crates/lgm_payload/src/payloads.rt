//! Lists of payloads.

ghost use Rattle.std.specs.Prelude.{◌≡◌, ℕ, List};

use lgm_gossip::Bytes;
use std::marker::Model;

/// The payloads of a route's hops, in order, each as its bytes. Contracts see the list of lists of
/// bytes.
#[derive(Debug, Drop)]
pub struct Payloads {
    items: Vec<Bytes>,
}

impl Model for Payloads {
    ghost Value = { List (List ℕ) };

    ghost view = { λ p. p.items.items };
}

impl Payloads {
    /// Wraps a vector, without a copy.
    pub fn from_vec(items: Vec<Bytes>) -> Payloads
        ensures { result ≡ items.items }
    {
        Payloads { items }
    }

    /// The payloads, borrowed.
    pub fn as_slice(&self) -> &[Bytes]
        ensures { result.now ≡ self.now }
    {
        self.items.as_slice()
    }

    /// The vector, without a copy.
    pub fn into_vec(self) -> Vec<Bytes>
        ensures { result.items ≡ self }
    {
        let Payloads { items } = self;
        items
    }
}
