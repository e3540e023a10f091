//! A numbered node, with its edges.

ghost use Rattle.std.specs.Prelude.{◌≡◌, filter};
ghost use Rattle.lgm_graph.specs.Graph.{bare_node, open_into};
ghost use Rattle.lgm_graph.specs.inner.Sound.{node_in, kept_in};
ghost use Rattle.lgm_graph.specs.inner.Sound.{is_not_of, is_allowed, banned_at};

use crate::edge::Edge;
use crate::edges;
use indexmap::IndexSet;
use lgm_gossip::{Point, Scid};
use lgm_store::{Map, Seed};
use std::alloc::{AllocError, Global};

/// Whether a node takes payments, and the edges into it and out of it, by id and direction.
#[derive(Drop)]
pub(crate) struct Node {
    pub(crate) accepts_payments: bool,
    pub(crate) into: Vec<Edge>,
    pub(crate) out: Vec<Edge>,
}

impl Node {
    /// A node without edges. Allocates nothing.
    pub(crate) fn new(alloc: Global, accepts_payments: bool) -> Node
        ensures { node_in result ≡ bare_node accepts_payments }
    {
        Node {
            accepts_payments,
            into: Vec::new(alloc),
            out: Vec::new(alloc),
        }
    }

    /// The edges that payments can take into it.
    #[inline(always)]
    pub(crate) fn open_into(&self) -> &[Edge]
        ensures { result.now ≡ open_into (node_in self.now) }
    {
        if self.accepts_payments {
            self.into.as_slice()
        } else {
            &[]
        }
    }
}

impl Node {
    /// Reserves capacity for exactly this many more edges into it and out of it.
    pub(crate) fn reserve_exact(&mut self, into: u32, out: u32) -> Result<(), AllocError>
        ensures { node_in self.new ≡ node_in self.old }
    {
        self.into.reserve_exact(into as usize)?;
        self.out.reserve_exact(out as usize)
    }
}

/// Removes the edges of a channel.
fn drop_channel(edges: &mut Vec<Edge>, scid: Scid)
    ensures { edges.new.items ≡ filter (is_not_of scid) edges.old.items }
{
    edges.retain(
        |edge: &Edge| -> bool
            ensures { result ≡ is_not_of scid edge.now }
        { edge.scid != scid },
    );
    edges::shrink(edges);
}

/// Whether the point of a number is banned.
fn is_banned(points: &IndexSet<Point, Seed>, stored: &Map, number: u32) -> bool
    ensures { result ≡ banned_at points.now.keys stored.now.banned number }
{
    match points.get_index(number as usize) {
        Some(point) => stored.banned(point),
        None => false,
    }
}

/// Removes the edges from or to a banned node.
fn drop_banned(edges: &mut Vec<Edge>, points: &IndexSet<Point, Seed>, stored: &Map)
    ensures { edges.new.items ≡ filter (is_allowed points.now.keys stored.now.banned) edges.old.items }
{
    edges.retain(
        |edge: &Edge| -> bool
            ensures { result ≡ is_allowed points.entry.now.keys stored.entry.now.banned edge.now }
        { !(is_banned(points, stored, edge.from) || is_banned(points, stored, edge.to)) },
    );
    edges::shrink(edges);
}

impl Node {
    /// Removes the edges of a closed channel. The node takes payments from now on, or doesn't.
    pub(crate) fn close(&mut self, scid: Scid, accepts_payments: bool)
        ensures { node_in self.new ≡ kept_in accepts_payments (is_not_of scid) (node_in self.old) }
    {
        self.accepts_payments = accepts_payments;
        drop_channel(&mut self.into, scid);
        drop_channel(&mut self.out, scid);
    }

    /// Removes the edges from or to banned nodes. The node takes payments from now on, or doesn't.
    pub(crate) fn ban(
        &mut self,
        points: &IndexSet<Point, Seed>,
        stored: &Map,
        accepts_payments: bool,
    )
        ensures { node_in self.new
            ≡ kept_in accepts_payments (is_allowed points.now.keys stored.now.banned) (node_in self.old) }
    {
        self.accepts_payments = accepts_payments;
        drop_banned(&mut self.into, points, stored);
        drop_banned(&mut self.out, points, stored);
    }
}
