//! Maps, overlays and estimates, made of short lists.

use lgm_gossip::{Point, Scid};
use lgm_graph::{Estimate, Estimates, ExtraEdge, Limit, Overlay};
use lgm_test_gossip::point;
pub use lgm_test_gossip::{Item, Way, charging, free, items_of, map_of, row, up_to};
use std::alloc::{AllocError, Global};

/// The number of a node's point: its last byte.
pub fn number(point: &Point) -> u16 {
    u16::from(point.0[32])
}

/// What an overlay is made of.
#[derive(Clone, Copy, Debug)]
pub struct Parts<'a> {
    pub extra: &'a [Way],
    /// Ids, the nodes that the edges leave, and amounts.
    pub limits: &'a [(u64, u16, u64)],
    pub silent: &'a [u16],
}

/// An overlay that changes nothing.
pub const NOTHING: Parts = Parts {
    extra: &[],
    limits: &[],
    silent: &[],
};

fn extra_edge(way: &Way) -> ExtraEdge {
    ExtraEdge {
        scid: Scid::from_u64(way.id),
        from: point(way.from),
        to: point(way.to),
        base: way.terms.base,
        millionths: way.terms.millionths,
        delta: way.terms.delta,
        min: way.terms.min,
        max: way.terms.max,
    }
}

/// The overlay of these parts.
pub fn overlay_of(alloc: Global, parts: Parts) -> Result<Overlay, AllocError> {
    let mut overlay = Overlay::new(alloc);
    for way in parts.extra {
        overlay.add(extra_edge(way))?;
    }
    for (id, from, most) in parts.limits {
        overlay.limit(Limit {
            scid: Scid::from_u64(*id),
            from: point(*from),
            most: *most,
        })?;
    }
    for number in parts.silent {
        overlay.silence(point(*number))?;
    }
    Ok(overlay)
}

/// What is known of edges: ids, the nodes that they leave, and the least, the most and the penalty of each.
pub fn estimates_of(
    alloc: Global,
    rows: &[(u64, u16, u64, u64, u64)],
) -> Result<Box<Estimates>, AllocError> {
    let mut estimates = Box::new(alloc, Estimates::new(alloc))?;
    for (id, from, least, most, penalty) in rows {
        let estimate = Estimate {
            least: *least,
            most: *most,
            penalty: *penalty,
        };
        estimates.set(Scid::from_u64(*id), &point(*from), estimate)?;
    }
    Ok(estimates)
}
