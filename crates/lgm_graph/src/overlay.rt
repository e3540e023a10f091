//! What a payer knows beside the map.

ghost use Rattle.std.specs.Prelude.{◌≡◌, ◌++◌, ◌∷◌, [], map, length, true, OnOk, OnErr};
ghost use Rattle.lgm_graph.specs.Overlay.{extra_edge, no_overlay};

use lgm_gossip::{Point, Scid};
use std::alloc::{AllocError, Global};
use std::cmp::Ordering;
use std::marker::Model;

/// An edge beside the map's: a direction of a channel of the payer's, or one of an invoice's route hints (BOLT 11, `r`).
///
/// Nothing is checked of it, and it has no capacity: it is usable on these terms, by the caller's word.
#[derive(Clone, Copy, Debug)]
pub struct ExtraEdge {
    /// The channel id, as the node that the edge leaves resolves it.
    pub scid: Scid,
    /// The node that it leaves.
    pub from: Point,
    /// The node that it leads to.
    pub to: Point,
    /// The base fee, in msat.
    pub base: u32,
    /// The proportional fee, in millionths of the amount (ppm).
    pub millionths: u32,
    /// The `cltv_expiry_delta`, in blocks.
    pub delta: u16,
    /// The least amount that it forwards, in msat.
    pub min: u64,
    /// The greatest amount that it forwards, in msat.
    pub max: u64,
}

/// What the edge with an id out of a node carries at most. With 0 the edge is excluded, since every amount is 1 msat or
/// more.
#[derive(Clone, Copy, Debug)]
pub struct Limit {
    /// The channel id.
    pub scid: Scid,
    /// The node that the edge leaves.
    pub from: Point,
    /// The greatest amount that it carries, in msat.
    pub most: u64,
}

/// What a payer knows beside the map, as a layer of Core Lightning's askrene: extra edges, limits of what edges carry,
/// and silent nodes, whose edges in the map aren't used.
///
/// An edge is named by its id and the node that it leaves, since a node resolves an id among its own channels.
#[derive(Drop)]
pub struct Overlay {
    extra: Vec<ExtraEdge>,
    limits: Vec<Limit>,
    silent: Vec<Point>,
}

impl Model for Overlay {
    ghost use Rattle.std.specs.Prelude.{map};
    ghost use Rattle.lgm_graph.specs.Overlay.{OverlayParts, extra_edge};

    ghost Value = { OverlayParts };

    ghost view = { λ o. record {
      extra = map extra_edge o.extra.items;
      limits = o.limits.items;
      silent = o.silent.items;
    } };
}

impl Overlay {
    /// An overlay that changes nothing. Allocates nothing.
    pub fn new(alloc: Global) -> Overlay
        ensures { result ≡ no_overlay }
    {
        Overlay {
            extra: Vec::new(alloc),
            limits: Vec::new(alloc),
            silent: Vec::new(alloc),
        }
    }

    /// Adds an edge, which replaces the map's with its id out of its node. Of such extra edges the first counts. Out of
    /// memory changes nothing.
    pub fn add(&mut self, edge: ExtraEdge) -> Result<(), AllocError>
        ensures added { OnOk result
            (self.new ≡ record self.old { extra = self.old.extra ++ extra_edge edge ∷ [] }) }
        ensures stays { OnErr result (self.new ≡ self.old) }
    {
        self.extra.push(edge)?;
        Ok(())
    }

    /// Adds a limit. The least limit of an edge counts, also of an extra one. Out of memory changes nothing.
    pub fn limit(&mut self, limit: Limit) -> Result<(), AllocError>
        ensures added { OnOk result
            (self.new ≡ record self.old { limits = self.old.limits ++ limit ∷ [] }) }
        ensures stays { OnErr result (self.new ≡ self.old) }
    {
        self.limits.push(limit)?;
        Ok(())
    }

    /// Excludes a node: no edge of the map that leaves it is used. Edges to it are, and extra edges out of it. Out
    /// of memory changes nothing.
    pub fn silence(&mut self, node: Point) -> Result<(), AllocError>
        ensures added { OnOk result
            (self.new ≡ record self.old { silent = self.old.silent ++ node ∷ [] }) }
        ensures stays { OnErr result (self.new ≡ self.old) }
    {
        self.silent.push(node)?;
        Ok(())
    }

    /// Whether it changes nothing: no edge, limit or silent node was added.
    pub fn is_empty(&self) -> bool
        ensures { result ≡ true → self.now ≡ no_overlay }
    {
        self.extra.is_empty() && self.limits.is_empty() && self.silent.is_empty()
    }

    /// The number of extra edges that were added.
    pub fn extra_count(&self) -> usize
        ensures { result ≡ length self.now.extra }
    {
        self.extra.len()
    }

    /// The extra edges.
    pub(crate) fn extra(&self) -> &[ExtraEdge]
        ensures { map extra_edge result.now ≡ self.now.extra }
    {
        self.extra.as_slice()
    }

    /// The limits.
    pub(crate) fn limits(&self) -> &[Limit]
        ensures { result.now ≡ self.now.limits }
    {
        self.limits.as_slice()
    }

    /// The silent nodes.
    pub(crate) fn silent(&self) -> &[Point]
        ensures { result.now ≡ self.now.silent }
    {
        self.silent.as_slice()
    }
}

impl ExtraEdge {
    /// Whether it leaves the greater one of its nodes: it is then the direction from node 2 of the channel.
    pub(crate) fn is_second(&self) -> bool
        ensures { result ≡ (extra_edge self.now).second }
    {
        self.from.cmp(&self.to) == Ordering::Greater
    }
}
