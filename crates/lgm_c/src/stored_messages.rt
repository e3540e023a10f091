//! The messages of channels and nodes, as they were received.

ghost use Rattle.std.specs.Prelude.{◌≡◌};
ghost use Rattle.lgm_c.specs.Looking.{channel_message_found, node_message_found};
ghost use Rattle.lgm_c.specs.Status.{if_open, status_of};
ghost use Rattle.lgm_c.specs.Writing.{Writes, buffer};

use crate::argument_fault::ArgumentFault;
use crate::fault::{Fault, status};
use crate::handle::{Handle, with_held};
use crate::map_handle::LgmMap;
use crate::output::write_bytes;
use lgm_check::Refusal;
use lgm_gossip::{Point, Scid};
use lgm_store::Map;
use std::alloc::Global;

/// Writes a message of a channel: the announcement for 0, the update of node 1 for 1 and that of node 2 for 2.
fn write_channel_message(
    map: &Map,
    scid: Scid,
    which: u32,
    room: &mut [u8],
    needed: &mut usize,
) -> Result<(), Fault>
    ensures { Writes (channel_message_found scid which map.now) (status_of result)
        (buffer room.old needed.old) (buffer room.new needed.new) }
{
    if which > 2 {
        return Err(Fault::Argument(ArgumentFault::Which));
    }
    let Some(stored) = map.channel_info(scid) else {
        return Err(Fault::Refused(Refusal::UnknownChannel));
    };
    if which == 0 {
        return write_bytes(stored.raw(), room, needed);
    }
    match stored.update_raw(which == 2) {
        Some(bytes) => write_bytes(bytes, room, needed),
        None => Err(Fault::None),
    }
}

/// A message of a channel: its announcement for 0, the update of node 1 for 1 and that of node 2 for 2.
#[unsafe(no_mangle)]
pub extern "C" fn lgm_channel_message(
    alloc: Global,
    map: &mut LgmMap,
    scid: u64,
    which: u32,
    message: &mut [u8],
    needed: &mut usize,
) -> u32
    ensures same { map.new.value ≡ map.old.value }
    ensures message { Writes (if_open map.old.value (λ state. channel_message_found scid which state.rows)) result
        (buffer message.old needed.old) (buffer message.new needed.new) }
{
    with_held!(
        alloc,
        map,
        |state| status(&write_channel_message(
            state.map(),
            Scid::from_u64(scid),
            which,
            message,
            needed
        ))
    )
}

/// Writes the announcement of a node.
fn write_node_message(
    map: &Map,
    point: &Point,
    room: &mut [u8],
    needed: &mut usize,
) -> Result<(), Fault>
    ensures { Writes (node_message_found point.now.0 map.now) (status_of result)
        (buffer room.old needed.old) (buffer room.new needed.new) }
{
    let Some(row) = map.node(point) else {
        return Err(Fault::NotAnnounced);
    };
    write_bytes(row.raw.as_slice(), room, needed)
}

/// The announcement of a node.
#[unsafe(no_mangle)]
pub extern "C" fn lgm_node_message(
    alloc: Global,
    map: &mut LgmMap,
    point: &[u8; 33],
    message: &mut [u8],
    needed: &mut usize,
) -> u32
    ensures same { map.new.value ≡ map.old.value }
    ensures message { Writes (if_open map.old.value (λ state. node_message_found point.now state.rows)) result
        (buffer message.old needed.old) (buffer message.new needed.new) }
{
    with_held!(
        alloc,
        map,
        |state| status(&write_node_message(state.map(), &Point(*point), message, needed))
    )
}
