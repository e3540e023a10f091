//! What a payer believes of one edge, and the edge's name.

ghost use Rattle.std.specs.Prelude.{◌≡◌, nat_eq};
ghost use Rattle.std.specs.Cmp.Rules.{comparing, hashing};
ghost use Rattle.std.specs.Cmp.Lexicographic.{pointwise};
ghost use Rattle.std.specs.Hash as fed;
ghost use Rattle.std.specs.Ordering.{on, eq_of_both};
ghost use Rattle.std.proofs.Common.{rules};
ghost use Rattle.lgm_graph.specs.Estimates.{carried, failed};

use lgm_gossip::{Point, Scid};
use std::hash::{Hash, Hasher};

/// What a payer believes of one edge.
#[derive(Clone, Copy, Debug, PartialEq, Eq)]
pub struct Estimate {
    /// It surely carries this much, in msat: up to it a payment has no penalty for a failure.
    pub least: u64,
    /// It surely carries no more than this, in msat: the odds of a failure count on a balance up to it.
    pub most: u64,
    /// What the payer would rather pay than use it, in msat.
    pub penalty: u32,
}

/// What a payer believes of an edge of which nothing is known.
pub const NO_ESTIMATE: Estimate = Estimate {
    least: 0,
    most: u64::MAX,
    penalty: 0,
};

/// The name of an edge: its id, and the node that it leaves, which resolves the id among its own channels.
#[derive(Clone, Copy, Debug)]
pub struct EdgeKey {
    /// The channel id.
    pub scid: Scid,
    /// The node that the edge leaves.
    pub from: Point,
}

impl Estimate {
    /// What is believed once the edge has carried an amount, in msat: it surely carries as much.
    pub fn carried(self, amount: u64) -> Estimate
        ensures { result ≡ carried amount self }
    {
        Estimate {
            least: self.least.max(amount),
            most: self.most.max(amount),
            penalty: self.penalty,
        }
    }

    /// What is believed once the edge has failed to carry an amount, in msat: it surely carries less.
    pub fn failed(self, amount: u64) -> Estimate
        ensures { result ≡ failed amount self }
    {
        let most = amount.saturating_sub(1);
        Estimate {
            least: self.least.min(most),
            most: self.most.min(most),
            penalty: self.penalty,
        }
    }
}

impl PartialEq for EdgeKey {
    ghost eq = { eq_of_both (on (λ k. k.scid) nat_eq) (on (λ k. k.from.0) (pointwise nat_eq)) };

    ghost laws = { Prim.search (comparing, rules) };

    #[inline(always)]
    fn eq(&self, other: &EdgeKey) -> bool {
        self.scid == other.scid && self.from == other.from
    }
}

impl Eq for EdgeKey {
    ghost laws = { Prim.search (comparing, rules) };
}

/// Only the id is hashed: a channel has two directions, so at most two keys share it, but for ids that nodes chose alike.
impl Hash for EdgeKey {
    ghost hash_input = { λ k. fed.u64 k.scid };

    ghost respects_eq = { Prim.search (hashing, rules) };

    #[inline(always)]
    fn hash<H: Hasher>(&self, state: &mut H) {
        state.write_u64(self.scid.to_u64());
    }
}
