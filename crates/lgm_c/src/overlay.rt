//! What a payer knows beside the map, as C says it.

ghost use Rattle.std.specs.Prelude.{◌≡◌, [], map, nat_eq, IfOk};
ghost use Rattle.std.specs.List.{list_any};
ghost use Rattle.lgm_c.specs.Attempts.{extra_given, limit_given, point_given, overlay_given};

use lgm_gossip::{Point, Scid};
use lgm_graph::{ExtraEdge, Limit, Overlay};
use std::alloc::{AllocError, Global};

/// The most edges beside the map's of one call, so that a view numbers their nodes behind those of any map.
pub(crate) const MAX_EDGES: usize = 100_000;

/// The most limits of one call.
pub(crate) const MAX_LIMITS: usize = 300_000;

/// An edge beside the map's: a channel of the payer's, or a hint of an invoice (BOLT 11, `r`).
#[repr(C)]
#[derive(Clone, Copy)]
pub struct LgmEdge {
    /// The channel, as the node that the edge leaves resolves it.
    pub scid: u64,
    /// The least amount of a payment over it, in msat.
    pub htlc_minimum_msat: u64,
    /// The greatest amount that it carries, in msat: at least 1.
    pub htlc_maximum_msat: u64,
    /// The base fee, in msat.
    pub fee_base_msat: u32,
    /// The proportional fee, in millionths.
    pub fee_proportional_millionths: u32,
    /// The `cltv_expiry_delta`, in blocks.
    pub cltv_expiry_delta: u16,
    /// The node that it leaves.
    pub from: [u8; 33],
    /// The node that it leads to.
    pub to: [u8; 33],
}

/// What the edge with an id out of a node carries at most.
#[repr(C)]
#[derive(Clone, Copy)]
pub struct LgmLimit {
    /// The channel.
    pub scid: u64,
    /// The greatest amount, in msat: 0 excludes the edge.
    pub most_msat: u64,
    /// The node that the edge leaves.
    pub from: [u8; 33],
}

/// A node.
#[repr(C)]
#[derive(Clone, Copy)]
pub struct LgmPoint {
    /// Its compressed public key.
    pub point: [u8; 33],
}

/// Whether the maximum of one of the edges is 0 msat.
pub(crate) fn any_carries_nothing(edges: &[LgmEdge]) -> bool
    ensures { result ≡ list_any (λ edge. nat_eq edge.htlc_maximum_msat 0) edges.now }
{
    edges.iter().any(|edge| edge.htlc_maximum_msat == 0)
}

/// An edge as crates have it.
pub(crate) fn extra_edge(edge: &LgmEdge) -> ExtraEdge
    ensures { result ≡ extra_given edge.now }
{
    ExtraEdge {
        scid: Scid::from_u64(edge.scid),
        from: Point(edge.from),
        to: Point(edge.to),
        base: edge.fee_base_msat,
        millionths: edge.fee_proportional_millionths,
        delta: edge.cltv_expiry_delta,
        min: edge.htlc_minimum_msat,
        max: edge.htlc_maximum_msat,
    }
}

/// A limit as crates have it.
pub(crate) fn limit_of(limit: &LgmLimit) -> Limit
    ensures { result ≡ limit_given limit.now }
{
    Limit {
        scid: Scid::from_u64(limit.scid),
        from: Point(limit.from),
        most: limit.most_msat,
    }
}

/// An overlay of edges alone.
pub(crate) fn overlay_of_edges(alloc: Global, edges: &[LgmEdge]) -> Result<Overlay, AllocError>
    ensures { IfOk result (λ overlay. overlay ≡ overlay_given edges.now [] []) }
{
    let mut overlay = Overlay::new(alloc);
    for edge in edges {
        overlay.add(extra_edge(edge))?;
    }
    Ok(overlay)
}

/// Adds limits to an overlay without any.
pub(crate) fn with_limits(overlay: Overlay, limits: &[LgmLimit]) -> Result<Overlay, AllocError>
    requires { overlay.limits ≡ [] }
    ensures { IfOk result (λ limited. limited ≡ record overlay { limits = map limit_given limits.now }) }
{
    let mut limited = overlay;
    for limit in limits {
        limited.limit(limit_of(limit))?;
    }
    Ok(limited)
}

/// Adds silent nodes to an overlay without any.
pub(crate) fn with_silent(overlay: Overlay, silent: &[LgmPoint]) -> Result<Overlay, AllocError>
    requires { overlay.silent ≡ [] }
    ensures { IfOk result (λ silenced. silenced ≡ record overlay { silent = map point_given silent.now }) }
{
    let mut silenced = overlay;
    for node in silent {
        silenced.silence(Point(node.point))?;
    }
    Ok(silenced)
}
