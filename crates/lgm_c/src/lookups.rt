//! Looking up channels and nodes.

ghost use Rattle.std.specs.Prelude.{◌≡◌};
ghost use Rattle.std.specs.Option.{option_map};
ghost use Rattle.lgm_c.specs.Looking.{count_of, c_direction, channel_found};
ghost use Rattle.lgm_c.specs.Looking.{c_node, node_found, WritesNode};
ghost use Rattle.lgm_c.specs.Status.{if_open, status_of, Finds};
ghost use Rattle.lgm_c.specs.Writing.{buffer};

use crate::fault::{Fault, status};
use crate::handle::{Handle, with_held};
use crate::map_handle::LgmMap;
use crate::output::write_bytes;
use lgm_check::{NodeRow, Refusal, UpdateRow};
use lgm_gossip::{Point, Scid};
use lgm_store::Map;
use std::alloc::Global;

/// The terms of a channel's direction, from its `channel_update` (BOLT 7, "The channel_update Message").
#[repr(C)]
#[derive(Clone, Copy)]
pub struct LgmDirection {
    /// Whether the map has an update. If not, all else is 0.
    pub is_held: bool,
    /// The update's message_flags.
    pub message_flags: u8,
    /// The update's channel_flags: bit 0 is the direction, bit 1 disables it.
    pub channel_flags: u8,
    /// The blocks between the expiries of the HTLC that the node receives and the one that it offers.
    pub cltv_expiry_delta: u16,
    /// The update's timestamp, in seconds since 1970.
    pub timestamp: u32,
    /// The fixed part of the fee, in msat.
    pub fee_base_msat: u32,
    /// The proportional part, in millionths of the amount (ppm).
    pub fee_proportional_millionths: u32,
    /// The least amount that is forwarded, in msat.
    pub htlc_minimum_msat: u64,
    /// The greatest amount that is forwarded, in msat.
    pub htlc_maximum_msat: u64,
}

/// A channel.
#[repr(C)]
#[derive(Clone, Copy)]
pub struct LgmChannel {
    /// Its capacity, in satoshi.
    pub capacity_sat: u64,
    /// Node 1, the lesser one byte by byte.
    pub node_1: [u8; 33],
    /// Node 2.
    pub node_2: [u8; 33],
    /// The terms from node 1 to node 2, which node 1 sets.
    pub from_1: LgmDirection,
    /// The terms from node 2 to node 1.
    pub from_2: LgmDirection,
}

/// A node, from its `node_announcement` (BOLT 7, "The node_announcement Message").
#[repr(C)]
#[derive(Clone, Copy)]
pub struct LgmNode {
    /// The announcement's timestamp, in seconds since 1970.
    pub timestamp: u32,
    /// The node's color: red, green and blue.
    pub rgb: [u8; 3],
    /// The alias: any bytes.
    pub alias: [u8; 32],
}

/// The number of channels of a handle's map: 0 of a closed one.
#[unsafe(no_mangle)]
pub extern "C" fn lgm_count(alloc: Global, map: &mut LgmMap) -> usize
    ensures same { map.new.value ≡ map.old.value }
    ensures count { result ≡ count_of (option_map (λ state. state.rows) map.old.value) }
{
    with_held!(alloc, map, 0, |state| state.map().count())
}

fn c_direction(update: Option<UpdateRow<'_>>) -> LgmDirection
    ensures { result ≡ c_direction update.entry }
{
    match update {
        Some(row) => LgmDirection {
            is_held: true,
            message_flags: row.message.message_flags,
            channel_flags: row.message.channel_flags,
            cltv_expiry_delta: row.message.cltv_expiry_delta,
            timestamp: row.message.timestamp,
            fee_base_msat: row.message.fee_base_msat,
            fee_proportional_millionths: row.message.fee_proportional_millionths,
            htlc_minimum_msat: row.message.htlc_minimum_msat,
            htlc_maximum_msat: row.message.htlc_maximum_msat,
        },
        None => LgmDirection {
            is_held: false,
            message_flags: 0,
            channel_flags: 0,
            cltv_expiry_delta: 0,
            timestamp: 0,
            fee_base_msat: 0,
            fee_proportional_millionths: 0,
            htlc_minimum_msat: 0,
            htlc_maximum_msat: 0,
        },
    }
}

/// What a map has of a channel.
fn find_channel(map: &Map, scid: Scid) -> Result<LgmChannel, Fault>
    ensures { result ≡ channel_found scid map.now }
{
    let Some(state) = map.channel_info(scid) else {
        return Err(Fault::Refused(Refusal::UnknownChannel));
    };
    let node_1 = state.node(false).0;
    let node_2 = state.node(true).0;
    Ok(LgmChannel {
        capacity_sat: state.row().sat,
        node_1,
        node_2,
        from_1: c_direction(state.update(false)),
        from_2: c_direction(state.update(true)),
    })
}

/// Writes what a map has of a channel.
fn write_channel(map: &Map, scid: Scid, channel: &mut LgmChannel) -> Result<(), Fault>
    ensures { Finds (channel_found scid map.now) (status_of result) channel.old channel.new }
{
    *channel = find_channel(map, scid)?;
    Ok(())
}

/// What the map has of a channel.
#[unsafe(no_mangle)]
pub extern "C" fn lgm_channel(
    alloc: Global,
    map: &mut LgmMap,
    scid: u64,
    channel: &mut LgmChannel,
) -> u32
    ensures same { map.new.value ≡ map.old.value }
    ensures channel { Finds (if_open map.old.value (λ state. channel_found scid state.rows)) result
        channel.old channel.new }
{
    with_held!(
        alloc,
        map,
        |state| status(&write_channel(state.map(), Scid::from_u64(scid), channel))
    )
}

fn c_node(row: &NodeRow<'_>) -> LgmNode
    ensures { result ≡ c_node row.now }
{
    LgmNode {
        timestamp: row.message.timestamp,
        rgb: row.message.rgb_color,
        alias: row.message.alias,
    }
}

/// Writes what a map has of a node.
fn write_node(
    map: &Map,
    point: &Point,
    node: &mut LgmNode,
    addresses: &mut [u8],
    needed: &mut usize,
) -> Result<(), Fault>
    ensures { WritesNode (node_found point.now.0 map.now) (status_of result) node.old node.new
        (buffer addresses.old needed.old) (buffer addresses.new needed.new) }
{
    let Some(row) = map.node(point) else {
        return Err(Fault::NotAnnounced);
    };
    *node = c_node(&row);
    write_bytes(row.message.addresses.as_slice(), addresses, needed)
}

/// What the map has of a node, and its addresses as they were announced: descriptors one after the other.
#[unsafe(no_mangle)]
pub extern "C" fn lgm_node(
    alloc: Global,
    map: &mut LgmMap,
    point: &[u8; 33],
    node: &mut LgmNode,
    addresses: &mut [u8],
    needed: &mut usize,
) -> u32
    ensures same { map.new.value ≡ map.old.value }
    ensures node { WritesNode (if_open map.old.value (λ state. node_found point.now state.rows)) result
        node.old node.new (buffer addresses.old needed.old) (buffer addresses.new needed.new) }
{
    with_held!(
        alloc,
        map,
        |state| status(&write_node(state.map(), &Point(*point), node, addresses, needed))
    )
}
