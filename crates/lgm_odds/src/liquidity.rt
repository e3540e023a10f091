//! What edges can carry in all, as a payer knows it.

ghost use Rattle.std.specs.Prelude.{◌≡◌, ◌++◌, flat_map, option_to_list, IfOk, OnOk};
ghost use Rattle.lgm_graph.specs.Estimates.{estimate_of};
ghost use Rattle.lgm_odds.specs.Cut.{Capacities, capacities_of, is_open, edge_from, edge_at, edge_by, extra_cut_edge, extra_at, edges_by, edges_at};

use crate::edge_most::most_of;
use crate::room::{other_end, room_from};
use lgm_check::ChannelRow;
use lgm_gossip::{Point, Scid};
use lgm_graph::{Estimates, ExtraEdge, Limit};
use lgm_store::Map;
use std::alloc::{AllocError, Global};

/// What a payer knows of what edges can carry.
#[derive(Clone, Copy)]
pub struct Liquidity<'a> {
    /// The map, of whose channels there may be more edges.
    pub map: &'a Map,
    /// Edges beside the map, among them the payer's channels.
    pub extra: &'a [ExtraEdge],
    /// Limits of what edges carry.
    pub limits: &'a [Limit],
    /// What is believed of edges.
    pub estimates: &'a Estimates,
    /// The payer: none of the map's edges out of it is used.
    pub payer: Point,
}

/// An edge, with what it can carry in all, by however many HTLCs.
#[derive(Clone, Copy, Debug)]
pub struct CutEdge {
    /// The channel id.
    pub scid: Scid,
    /// The node that it leaves.
    pub from: Point,
    /// The node that it leads to.
    pub to: Point,
    /// What it can carry in all, in msat.
    pub room: u64,
}

/// Adds an edge, if there is one. Out of memory changes nothing.
fn add_edge(edges: &mut Vec<CutEdge>, edge: Option<CutEdge>) -> Result<(), AllocError>
    ensures { OnOk result (edges.new.items ≡ edges.old.items ++ option_to_list edge) }
{
    if let Some(edge) = edge {
        edges.push(edge)?;
    }
    Ok(())
}

impl<'a> Liquidity<'a> {
    /// Whether the direction of a channel from a node that isn't the payer has an update that doesn't disable it.
    fn is_open(&self, channel: &ChannelRow<'_>, from: &Point) -> bool
        ensures { result ≡ is_open (capacities_of self.now) channel.now from.now }
    {
        if *from == self.payer {
            return false;
        }
        let second = channel.message.node_id_2 == *from;
        match self.map.update(channel.message.short_channel_id, second) {
            Some(update) => update.message.channel_flags / 2 % 2 == 0,
            None => false,
        }
    }

    /// What a channel of the map can carry from a node to another one.
    fn edge_from(&self, channel: &ChannelRow<'_>, from: &Point, to: &Point) -> CutEdge
        ensures { result ≡ edge_from (capacities_of self.now) channel.now from.now to.now }
    {
        let room = if self.is_open(channel, from) {
            room_from(self.limits, self.estimates, from, channel)
        } else {
            0
        };
        CutEdge {
            scid: channel.message.short_channel_id,
            from: *from,
            to: *to,
            room,
        }
    }

    /// The edge of a channel into a node if `inward`, else out of it.
    fn edge_at(&self, inward: bool, node: &Point, channel: &ChannelRow<'_>) -> CutEdge
        ensures { result ≡ edge_at (capacities_of self.now) inward node.now channel.now }
    {
        let other = other_end(channel, node);
        if inward {
            self.edge_from(channel, &other, node)
        } else {
            self.edge_from(channel, node, &other)
        }
    }

    /// That of the channel with an id.
    fn edge_by(&self, inward: bool, node: &Point, id: Scid) -> Option<CutEdge>
        ensures { result ≡ edge_by (capacities_of self.now) inward node.now id }
    {
        let channel = self.map.channel(id)?;
        Some(self.edge_at(inward, node, &channel))
    }

    /// An edge beside the map, if it leads into a node if `inward`, else out of it.
    fn extra_at(&self, inward: bool, node: &Point, edge: &ExtraEdge) -> Option<CutEdge>
        ensures { result ≡ extra_at (capacities_of self.now) inward node.now edge.now }
    {
        let end = if inward { edge.to } else { edge.from };
        if end != *node {
            return None;
        }
        Some(CutEdge {
            scid: edge.scid,
            from: edge.from,
            to: edge.to,
            room: most_of(self.limits, edge.scid, &edge.from, edge.max),
        })
    }

    /// Adds the edges beside the map that do.
    fn add_extra_at(
        &self,
        edges: &mut Vec<CutEdge>,
        inward: bool,
        node: &Point,
    ) -> Result<(), AllocError>
        ensures { OnOk result (edges.new.items ≡ edges.old.items
            ++ flat_map (λ edge. option_to_list (extra_at (capacities_of self.now) inward node.now edge)) self.now.extra.now) }
    {
        for edge in self.extra {
            add_edge(edges, self.extra_at(inward, node, edge))?;
        }
        Ok(())
    }

    /// Adds the edges of the channels with some ids.
    fn add_edges_by(
        &self,
        edges: &mut Vec<CutEdge>,
        inward: bool,
        node: &Point,
        ids: &[Scid],
    ) -> Result<(), AllocError>
        ensures { OnOk result (edges.new.items ≡ edges.old.items
            ++ flat_map (λ id. option_to_list (edge_by (capacities_of self.now) inward node.now id)) ids.now) }
    {
        for id in ids {
            add_edge(edges, self.edge_by(inward, node, *id))?;
        }
        Ok(())
    }

    /// The edges into a node if `inward`, else out of it, by the ids of its channels.
    pub(crate) fn edges_by(
        &self,
        alloc: Global,
        inward: bool,
        node: &Point,
        ids: &[Scid],
    ) -> Result<Vec<CutEdge>, AllocError>
        ensures { IfOk result (λ edges. edges.items ≡ edges_by (capacities_of self.now) inward node.now ids.now) }
    {
        let mut edges = Vec::with_capacity(alloc, ids.len())?;
        self.add_extra_at(&mut edges, inward, node)?;
        self.add_edges_by(&mut edges, inward, node, ids)?;
        Ok(edges)
    }

    /// The edges into a node if `inward`, else out of it.
    pub(crate) fn edges_at(
        &self,
        alloc: Global,
        inward: bool,
        node: &Point,
    ) -> Result<Vec<CutEdge>, AllocError>
        ensures { IfOk result (λ edges. edges.items ≡ edges_at (capacities_of self.now) inward node.now) }
    {
        let ids = self.map.ids_at(alloc, node)?;
        self.edges_by(alloc, inward, node, ids.as_slice())
    }
}
