//! Edges: directions of channels.

ghost use Rattle.std.specs.Prelude.{◌≡◌, ◌^◌, ◌<◌};
ghost use Rattle.std.specs.Option.{option_map};
ghost use Rattle.lgm_check.specs.declared.row.ChannelRow.{ChannelRow as AChannel};
ghost use Rattle.lgm_graph.specs.Edges.{can_carry, edge_of, edge_on};
ghost use Rattle.lgm_graph.specs.Graph.{numbered_as};

use lgm_check::{ChannelRow, UpdateRow};
use lgm_gossip::{Scid, has_even_bit};

/// A direction of a channel that payments can use: from one numbered node to another, on the terms of its
/// `channel_update` (BOLT 7). It has 48 bytes.
#[derive(Clone, Copy, Debug)]
pub struct Edge {
    /// The channel id.
    pub scid: Scid,
    /// The greatest amount that it forwards, in msat.
    pub max: u64,
    /// The least amount that it forwards, in msat.
    pub min: u64,
    /// The index of the node that it leaves.
    pub from: u32,
    /// The index of the node that it leads to.
    pub to: u32,
    /// The base fee, in msat.
    pub base: u32,
    /// The proportional fee, in millionths of the amount (ppm).
    pub millionths: u32,
    /// The `cltv_expiry_delta`, in blocks.
    pub delta: u16,
    /// Whether it is the direction from node 2 of the channel.
    pub second: bool,
}

/// The edge of an update of a channel, between nodes with these numbers, if it can carry payments.
#[inline(always)]
pub(crate) fn edge_on(
    channel: &ChannelRow,
    update: &UpdateRow,
    from: usize,
    to: usize,
) -> Option<Edge>
    requires from { from < 2 ^ 32 }
    requires to { to < 2 ^ 32 }
    ensures { result ≡ option_map (λ e. numbered_as e from to) (edge_on channel.now update.now) }
{
    if can_carry(channel, update) {
        Some(edge_of(update, from, to))
    } else {
        None
    }
}

/// The edge of an update, between nodes with these numbers.
#[tactic(auto, unfolding(crate::specs::Edges::edge_of))]
#[inline(always)]
fn edge_of(update: &UpdateRow, from: usize, to: usize) -> Edge
    requires from { from < 2 ^ 32 }
    requires to { to < 2 ^ 32 }
    ensures { (channel : AChannel) → result ≡ numbered_as (edge_of channel update.now) from to }
{
    let message = &update.message;
    Edge {
        scid: message.short_channel_id,
        max: message.htlc_maximum_msat,
        min: message.htlc_minimum_msat,
        from: from as u32,
        to: to as u32,
        base: message.fee_base_msat,
        millionths: message.fee_proportional_millionths,
        delta: message.cltv_expiry_delta,
        second: update.is_second(),
    }
}

/// Whether payments can use this direction, regardless of the features of the node it leads to.
#[inline(always)]
fn can_carry(channel: &ChannelRow, update: &UpdateRow) -> bool
    ensures { result ≡ can_carry channel.now update.now }
{
    let (sat, max) = (channel.sat, update.message.htlc_maximum_msat);
    let enabled = update.message.channel_flags / 2 % 2 == 0;
    let holds = u128::from(max) <= u128::from(sat) * 1000;
    enabled && holds && !has_even_bit(channel.message.features.as_slice())
}
