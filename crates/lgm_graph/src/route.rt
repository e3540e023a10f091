//! Routes.

ghost use Rattle.std.specs.Prelude.{◌≡◌, ◌≤◌, List, length, IfOk};
ghost use Rattle.lgm_graph.specs.Route.{sent, expiry};
ghost use Rattle.lgm_graph.specs.declared.route.Hop.{Hop};

use lgm_gossip::{Point, Scid};
use std::alloc::{AllocError, Global};
use std::marker::Model;

/// One channel of a route, with the HTLC offered over it (BOLT 7, "HTLC Fees").
#[derive(Clone, Copy, Debug, PartialEq, Eq)]
pub struct Hop {
    /// The channel.
    pub scid: Scid,
    /// The node that offers the HTLC.
    pub from: Point,
    /// The node to which it is offered.
    pub to: Point,
    /// The amount of the HTLC, in msat.
    pub amount: u64,
    /// The block height at which the HTLC expires.
    pub expiry: u32,
}

/// The 1 to 20 channels of a payment, from the payer to the payee. Contracts see the list.
#[derive(Debug, Drop)]
pub struct Route {
    hops: Vec<Hop>,
}

impl Model for Route {
    ghost Value = { List Hop };

    ghost view = { λ r. r.hops.items };

    ghost invariant = { λ r. (1 ≤ length r.hops.items) × (length r.hops.items ≤ 20) };
}

impl Route {
    /// The route of 1 to 20 hops. That they are consecutive, and that each node gets its fee, isn't checked.
    pub fn of(alloc: Global, hops: &[Hop]) -> Result<Route, AllocError>
        requires some { 1 ≤ length hops.now }
        requires few { length hops.now ≤ 20 }
        ensures { IfOk result (λ route. route ≡ hops.now) }
    {
        Ok(Route {
            hops: Vec::from_slice(alloc, hops)?,
        })
    }

    /// The route of the hops of a vector, without a copy.
    pub fn from_vec(hops: Vec<Hop>) -> Route
        requires some { 1 ≤ length hops.items }
        requires few { length hops.items ≤ 20 }
        ensures { result ≡ hops.items }
    {
        Route { hops }
    }

    /// The hops, the payer's first. There are 1 to 20.
    pub fn as_slice(&self) -> &[Hop]
        ensures hops { result.now ≡ self.now }
        ensures some { 1 ≤ length result.now }
        ensures few { length result.now ≤ 20 }
    {
        self.hops.as_slice()
    }

    /// The vector of its hops, without a copy. It has 1 to 20.
    pub fn into_vec(self) -> Vec<Hop>
        ensures hops { result.items ≡ self }
        ensures some { 1 ≤ length result.items }
        ensures few { length result.items ≤ 20 }
    {
        let Route { hops } = self;
        hops
    }

    /// What the payer sends, in msat: the amount over the first channel.
    pub fn sent(&self) -> u64
        ensures { result ≡ sent self.now }
    {
        self.hops[0].amount
    }

    /// The block height at which what the payer offers expires.
    pub fn expiry(&self) -> u32
        ensures { result ≡ expiry self.now }
    {
        self.hops[0].expiry
    }
}
