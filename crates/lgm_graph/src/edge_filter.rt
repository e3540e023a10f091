//! A filter in front of a table of edges.

ghost use Rattle.std.specs.Prelude.{◌≡◌, ◌<◌, ℕ, [], length, nat_eq, OnOk, OnErr, IfOk};
ghost use Rattle.lgm_graph.specs.inner.Filtering.{class_of, bit_of};

use lgm_gossip::{Point, Scid};
use std::alloc::{AllocError, Global};
use std::marker::Model;

/// The number of classes: a bit for each takes 32 KiB, which a processor's first cache has room for.
const CLASSES: u64 = 262_144;

/// The number of words of 64 bits for these.
const WORDS: usize = 4_096;

/// A bit for each class of edges, set if some edge of the class may be known. So a lookup of an edge of which nothing is
/// known mostly ends here. Nothing is allocated before the first edge. Contracts see the words.
#[derive(Drop)]
pub(crate) struct EdgeFilter {
    words: Vec<u64>,
}

impl Model for EdgeFilter {
    ghost use Rattle.std.specs.Prelude.{ℕ, List};
    ghost use Rattle.lgm_graph.specs.inner.Filtering.{IsSized};

    ghost Value = { List ℕ };

    ghost view = { λ f. f.words.items };

    ghost invariant = { λ f. IsSized f.words.items };
}

/// The class of an edge: a block's channels are in neighboring ones.
#[inline(always)]
fn class_of(scid: Scid, from: &Point) -> u64
    ensures class { result ≡ class_of scid from.now }
    ensures small { result < 262144 }
{
    let id = scid.to_u64();
    let node = u64::from(from.0[32]);
    ((id >> 16) + (id >> 40) * 4_099 + node * 1_031) % CLASSES
}

impl EdgeFilter {
    /// No edge is known.
    pub(crate) fn new(alloc: Global) -> EdgeFilter
        ensures { result ≡ [] }
    {
        EdgeFilter {
            words: Vec::new(alloc),
        }
    }

    /// Whether an edge may be known.
    #[inline(always)]
    pub(crate) fn may_have(&self, scid: Scid, from: &Point) -> bool
        ensures { result ≡ nat_eq (bit_of self.now (class_of scid from.now)) 1 }
    {
        let class = class_of(scid, from);
        match self.words.get((class / 64) as usize) {
            Some(word) => (*word >> (class % 64)) & 1 == 1,
            None => false,
        }
    }

    /// An edge may be known from now on. Out of memory, which comes before the first edge alone, changes nothing.
    pub(crate) fn add(&mut self, scid: Scid, from: &Point) -> Result<(), AllocError>
        ensures here { OnOk result (bit_of self.new (class_of scid from.now) ≡ 1) }
        ensures kept { (class : ℕ) → bit_of self.old class ≡ 1 → bit_of self.new class ≡ 1 }
        ensures first { OnErr result (self.old ≡ []) }
    {
        self.grow()?;
        let class = class_of(scid, from);
        let place = (class / 64) as usize;
        self.words[place] |= 1 << (class % 64);
        Ok(())
    }

    /// Ensures that there is a word for each 64 classes. Memory runs out only where there was none.
    fn grow(&mut self) -> Result<(), AllocError>
        ensures long { OnOk result (length self.new ≡ 4096) }
        ensures kept { (class : ℕ) → bit_of self.old class ≡ 1 → bit_of self.new class ≡ 1 }
        ensures first { OnErr result (self.old ≡ []) }
    {
        if !self.words.is_empty() {
            return Ok(());
        }
        self.words.resize(WORDS, 0)?;
        Ok(())
    }

    /// A copy.
    pub(crate) fn copy(&self) -> Result<EdgeFilter, AllocError>
        ensures { IfOk result (λ copy. copy ≡ self.now) }
    {
        Ok(EdgeFilter {
            words: self.words.clone()?,
        })
    }
}
