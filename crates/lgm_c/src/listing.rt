//! Going through the channels, the nodes and the bans of a map.

ghost use Rattle.std.specs.Prelude.{◌≡◌};
ghost use Rattle.lgm_c.specs.Listing.{above, next_channel_found, next_node_found, next_banned_found};
ghost use Rattle.lgm_c.specs.Status.{if_open, status_of, Finds};

use crate::fault::{Fault, status};
use crate::handle::{Handle, with_held};
use crate::map_handle::LgmMap;
use lgm_gossip::{Point, Scid};
use lgm_store::Map;
use std::alloc::Global;

/// No key if the first is wanted, else this one.
fn above<K: Drop>(is_first: bool, key: K) -> Option<K>
    ensures { result ≡ above is_first key }
{
    if is_first { None } else { Some(key) }
}

fn write_next_channel(map: &Map, is_first: bool, scid: &mut u64) -> Result<(), Fault>
    ensures { Finds (next_channel_found (above is_first scid.old) map.now) (status_of result) scid.old scid.new }
{
    let Some(row) = map.next_channel(above(is_first, Scid::from_u64(*scid))) else {
        return Err(Fault::None);
    };
    *scid = row.scid().to_u64();
    Ok(())
}

/// Replaces an id by the least one above it of which the map has a channel, or by the least of all.
#[unsafe(no_mangle)]
pub extern "C" fn lgm_next_channel(
    alloc: Global,
    map: &mut LgmMap,
    is_first: bool,
    scid: &mut u64,
) -> u32
    ensures same { map.new.value ≡ map.old.value }
    ensures next { Finds (if_open map.old.value
        (λ state. next_channel_found (above is_first scid.old) state.rows)) result scid.old scid.new }
{
    with_held!(
        alloc,
        map,
        |state| status(&write_next_channel(state.map(), is_first, scid))
    )
}

fn write_next_node(map: &Map, is_first: bool, point: &mut [u8; 33]) -> Result<(), Fault>
    ensures { Finds (next_node_found (above is_first (record { 0 = point.old })) map.now) (status_of result)
        point.old point.new }
{
    let after = above(is_first, Point(*point));
    let Some(row) = map.next_node(after.as_ref()) else {
        return Err(Fault::None);
    };
    let Point(next) = row.node();
    *point = next;
    Ok(())
}

/// Replaces a point by the least one above it, byte by byte, of which the map has a node's announcement, or by the least of
/// all.
#[unsafe(no_mangle)]
pub extern "C" fn lgm_next_node(
    alloc: Global,
    map: &mut LgmMap,
    is_first: bool,
    point: &mut [u8; 33],
) -> u32
    ensures same { map.new.value ≡ map.old.value }
    ensures next { Finds (if_open map.old.value
        (λ state. next_node_found (above is_first (record { 0 = point.old })) state.rows)) result point.old point.new }
{
    with_held!(
        alloc,
        map,
        |state| status(&write_next_node(state.map(), is_first, point))
    )
}

fn write_next_banned(map: &Map, is_first: bool, point: &mut [u8; 33]) -> Result<(), Fault>
    ensures { Finds (next_banned_found (above is_first (record { 0 = point.old })) map.now) (status_of result)
        point.old point.new }
{
    let after = above(is_first, Point(*point));
    let Some(next) = map.next_banned(after) else {
        return Err(Fault::None);
    };
    let Point(next) = next;
    *point = next;
    Ok(())
}

/// Replaces a point by the least one above it, byte by byte, of a banned node, or by the least of all.
#[unsafe(no_mangle)]
pub extern "C" fn lgm_next_banned(
    alloc: Global,
    map: &mut LgmMap,
    is_first: bool,
    point: &mut [u8; 33],
) -> u32
    ensures same { map.new.value ≡ map.old.value }
    ensures next { Finds (if_open map.old.value
        (λ state. next_banned_found (above is_first (record { 0 = point.old })) state.rows)) result point.old point.new }
{
    with_held!(
        alloc,
        map,
        |state| status(&write_next_banned(state.map(), is_first, point))
    )
}
