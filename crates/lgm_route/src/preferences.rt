//! What a payer would rather pay than have a payment fail.

ghost use Rattle.std.specs.Prelude.{◌≡◌, ◌*◌, ◌^◌, ◌≤◌, ◌&&◌, nat_eq, Some, slice_get};
ghost use Rattle.lgm_route.specs.Odds.{odds, penalty_by};
ghost use Rattle.lgm_route.specs.Preferred.{no_preferences};
ghost use Rattle.lgm_route.specs.inner.Numbered.{known_from, penalty_of};

use crate::penalties::Penalties;
use lgm_graph::{Edge, Estimate, Estimates, NO_ESTIMATE, RoutingGraph};
use std::alloc::AllocError;

/// What a payer would rather pay than have a payment fail, or take longer: the price of uncertainty.
///
/// An edge has a penalty for an amount: `hop_msat`, the penalty of its [`Estimate`], and `failure_msat` times the odds of a
/// failure if the balance is anything from what it surely carries to what it may carry at most, all equally likely. These
/// are the amount above the one, over what is left below the other, plus one; at most 100 to 1. The payer's own edge has
/// none: what it carries is said by an overlay's limits. All zeros prefer nothing.
#[derive(Clone, Copy, Debug, PartialEq, Eq)]
pub struct Preferences {
    /// What a failed try is worth to the payer, in msat.
    pub failure_msat: u32,
    /// What each hop is, in msat.
    pub hop_msat: u32,
}

impl Preferences {
    /// No preferences: what a route costs is what it sends, unless an estimate has a penalty.
    pub fn none() -> Preferences
        ensures { result ≡ no_preferences }
    {
        Preferences {
            failure_msat: 0,
            hop_msat: 0,
        }
    }

    /// Whether there are none.
    pub(crate) fn are_none(&self) -> bool
        ensures { result ≡ (nat_eq self.now.failure_msat 0 && nat_eq self.now.hop_msat 0) }
    {
        self.failure_msat == 0 && self.hop_msat == 0
    }

    /// The penalty of an edge with this maximum for an amount, in msat.
    #[inline(always)]
    fn penalty(&self, estimate: Estimate, max: u64, amount: u64) -> u64
        ensures exact { result ≡ penalty_by self.now.failure_msat self.now.hop_msat estimate max amount }
        ensures low { result ≤ 2 ^ 40 }
    {
        let odds = odds(
            self.failure_msat,
            estimate.least,
            max.min(estimate.most),
            amount,
        );
        let flat = estimate.penalty.min(MAX_PENALTY);
        (u64::from(self.hop_msat) + flat + odds).min(MAX_PENALTY)
    }
}

/// The greatest penalty of an edge, in msat: 2^40.
const MAX_PENALTY: u64 = 0x100_0000_0000;

/// What a failure costs times its odds.
#[inline(always)]
fn odds(failure: u32, least: u64, most: u64, amount: u64) -> u64
    ensures exact { result ≡ odds failure least most amount }
    ensures low { result ≤ 100 * 2 ^ 32 }
{
    if amount <= least {
        return 0;
    }
    let over = amount - least;
    let room = most.saturating_sub(amount) + 1;
    let top = u64::from(failure) * 100;
    // A 128-bit division is a function call.
    if over < 4_294_967_296 {
        return (u64::from(failure) * over / room).min(top);
    }
    (u128::from(failure) * u128::from(over) / u128::from(room)).min(u128::from(top)) as u64
}

/// What a payer prefers, and what it knows of the edges of a graph.
pub(crate) struct Weights<'a, V: RoutingGraph> {
    pub(crate) graph: &'a V,
    pub(crate) preferences: Preferences,
    pub(crate) estimates: &'a Estimates,
}

impl<'a, V: RoutingGraph> Clone for Weights<'a, V> {
    fn clone(&self) -> Result<Self, AllocError> {
        Ok(*self)
    }
}

impl<'a, V: RoutingGraph> Copy for Weights<'a, V> {}

impl<'a, V: RoutingGraph> Weights<'a, V> {
    /// What is known of an edge.
    #[inline(always)]
    fn estimate(&self, edge: &Edge) -> Estimate
        ensures { result ≡ known_from self.now.estimates.now edge.now.scid
            (slice_get (V.graph self.now.graph.now).points edge.now.from) }
    {
        match self.graph.point(edge.from) {
            Some(from) => self.estimates.get(edge.scid, from),
            None => NO_ESTIMATE,
        }
    }
}

impl<'a, V: RoutingGraph> Penalties for Weights<'a, V> {
    ghost terms = { λ w. Some (record {
      failure = w.preferences.failure_msat;
      hop = w.preferences.hop_msat;
      points = (V.graph w.graph.now).points;
      known = w.estimates.now;
    }) };

    #[inline(always)]
    fn add(&self, spent: u64, edge: &Edge, amount: u64) -> u64 {
        let estimate = self.estimate(edge);
        spent + self.preferences.penalty(estimate, edge.max, amount)
    }
}
