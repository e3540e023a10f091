//! What a payment knows beside the map.

ghost use Rattle.std.specs.Prelude.{◌≡◌, ◌++◌, map, if◌then◌else◌, IfOk, OnOk};
ghost use Rattle.lgm_store.specs.Rows.{is_point};
ghost use Rattle.lgm_graph.specs.Overlay.{extra_edge};
ghost use Rattle.lgm_payer.specs.Searches.{room_out};
ghost use Rattle.lgm_payer.specs.Overlays.{listed, spared, limit_of, capacity_limit, capacity_limits, limits_left, all_silenced};

use crate::exclusions::{limit_left, silenced};
use crate::part::Part;
use lgm_gossip::Point;
use lgm_graph::{ExtraEdge, Hop, Limit, Overlay};
use lgm_odds::carried_over;
use lgm_store::Map;
use std::alloc::{AllocError, Global};

/// An edge with what is left of it beside these hops.
fn spared(edge: &ExtraEdge, busy: &[Hop]) -> ExtraEdge
    ensures { result ≡ spared busy.now edge.now }
{
    let carried = carried_over(busy, edge.scid, &edge.from);
    ExtraEdge {
        max: edge.max.saturating_sub(carried),
        ..*edge
    }
}

/// Adds edges, each with what is left of it beside some hops.
pub(crate) fn add_spared(
    extra: &mut Vec<ExtraEdge>,
    edges: &[ExtraEdge],
    busy: &[Hop],
) -> Result<(), AllocError>
    ensures { OnOk result (extra.new.items ≡ extra.old.items ++ map (spared busy.now) edges.now) }
{
    for edge in edges {
        extra.push(spared(edge, busy))?;
    }
    Ok(())
}

/// What an edge carries, in msat, if it is out of a node.
fn most_out(payer: &Point, edge: &ExtraEdge) -> u64
    ensures { result ≡ (if is_point edge.now.from payer.now then edge.now.max else 0) }
{
    if edge.from == *payer { edge.max } else { 0 }
}

/// What edges out of a node carry together, in msat, and 2^64 - 1 at most.
pub(crate) fn room_out(payer: &Point, extra: &[ExtraEdge]) -> u64
    ensures { result ≡ room_out payer.now extra.now }
{
    let mut room = 0u64;
    for edge in extra {
        room = room.saturating_add(most_out(payer, edge));
    }
    room
}

/// A limit of what a hop's edge carries, in msat.
pub(crate) fn limit_of(hop: &Hop, most: u64) -> Limit
    ensures { result ≡ limit_of hop.now most }
{
    Limit {
        scid: hop.scid,
        from: hop.from,
        most,
    }
}

/// What is left of the capacity of a hop's channel beside these hops, if the map has it and it isn't the payer's.
fn capacity_limit(map: &Map, payer: &Point, busy: &[Hop], hop: &Hop) -> Option<Limit>
    ensures { result ≡ capacity_limit map.now payer.now busy.now hop.now }
{
    if hop.from == *payer {
        return None;
    }
    let capacity = map.channel(hop.scid)?.sat.saturating_mul(1_000);
    let carried = carried_over(busy, hop.scid, &hop.from);
    Some(limit_of(hop, capacity.saturating_sub(carried)))
}

/// Adds a limit, if there is one. Out of memory changes nothing.
fn add_limit(limits: &mut Vec<Limit>, limit: Option<Limit>) -> Result<(), AllocError>
    ensures { OnOk result (limits.new.items ≡ limits.old.items ++ listed limit) }
{
    if let Some(limit) = limit {
        limits.push(limit)?;
    }
    Ok(())
}

/// Adds a silent node, if there is one. Out of memory changes nothing.
fn add_silent(silent: &mut Vec<Point>, node: Option<Point>) -> Result<(), AllocError>
    ensures { OnOk result (silent.new.items ≡ silent.old.items ++ listed node) }
{
    if let Some(node) = node {
        silent.push(node)?;
    }
    Ok(())
}

/// Adds the limits that capacities leave beside some hops.
pub(crate) fn limit_by_capacity(
    limits: &mut Vec<Limit>,
    map: &Map,
    payer: &Point,
    busy: &[Hop],
) -> Result<(), AllocError>
    ensures { OnOk result (limits.new.items ≡ limits.old.items ++ capacity_limits map.now payer.now busy.now) }
{
    for hop in busy {
        add_limit(limits, capacity_limit(map, payer, busy, hop))?;
    }
    Ok(())
}

/// Adds the limits that parts' ends leave.
pub(crate) fn limit_by_failures(
    limits: &mut Vec<Limit>,
    payer: &Point,
    hints: &[ExtraEdge],
    parts: &[Part],
) -> Result<(), AllocError>
    ensures { OnOk result (limits.new.items ≡ limits.old.items ++ limits_left payer.now hints.now parts.now) }
{
    for part in parts {
        add_limit(limits, limit_left(payer, hints, part))?;
    }
    Ok(())
}

/// Adds the nodes that parts' ends silence.
pub(crate) fn silence_by_failures(
    silent: &mut Vec<Point>,
    payer: &Point,
    hints: &[ExtraEdge],
    parts: &[Part],
) -> Result<(), AllocError>
    ensures { OnOk result (silent.new.items ≡ silent.old.items ++ all_silenced payer.now hints.now parts.now) }
{
    for part in parts {
        add_silent(silent, silenced(payer, hints, part))?;
    }
    Ok(())
}

fn overlay_edges(overlay: &mut Overlay, edges: &[ExtraEdge]) -> Result<(), AllocError>
    ensures { OnOk result (overlay.new ≡ record overlay.old { extra = overlay.old.extra ++ map extra_edge edges.now }) }
{
    for edge in edges {
        overlay.add(*edge)?;
    }
    Ok(())
}

fn overlay_limits(overlay: &mut Overlay, limits: &[Limit]) -> Result<(), AllocError>
    ensures { OnOk result (overlay.new ≡ record overlay.old { limits = overlay.old.limits ++ limits.now }) }
{
    for limit in limits {
        overlay.limit(*limit)?;
    }
    Ok(())
}

fn overlay_silent(overlay: &mut Overlay, silent: &[Point]) -> Result<(), AllocError>
    ensures { OnOk result (overlay.new ≡ record overlay.old { silent = overlay.old.silent ++ silent.now }) }
{
    for node in silent {
        overlay.silence(*node)?;
    }
    Ok(())
}

pub(crate) fn overlaid(
    alloc: Global,
    extra: &[ExtraEdge],
    limits: &[Limit],
    silent: &[Point],
) -> Result<Overlay, AllocError>
    ensures { IfOk result (λ overlay.
        overlay ≡ record { extra = map extra_edge extra.now; limits = limits.now; silent = silent.now }) }
{
    let mut overlay = Overlay::new(alloc);
    overlay_edges(&mut overlay, extra)?;
    overlay_limits(&mut overlay, limits)?;
    overlay_silent(&mut overlay, silent)?;
    Ok(overlay)
}
