//! Whether a message is worth verifying.

ghost use Rattle.std.specs.Prelude.{◌≡◌};
ghost use Rattle.lgm_store.specs.Rows.{channel_of};
ghost use Rattle.lgm_c.specs.Status.{status_of};
ghost use Rattle.lgm_c.specs.Wanting.{signed_by, setter_in, right_verdicts, TellsOf, Wants, NoneMends};

use crate::fault::{Fault, status};
use crate::handle::{Handle, with_held};
use crate::map_handle::LgmMap;
use crate::verdict::verdict;
use lgm_check::{Evidence, Funding, Sig};
use lgm_gossip::{ChainHash, ChannelUpdate, Layout, NodeAnnounce, Point, Scid, layout_of};
use lgm_store::Map;
use std::alloc::Global;

/// The verdict that the one signature of a message is valid for a key.
fn signed_by(point: Point) -> Evidence
    ensures { result ≡ signed_by point }
{
    Evidence {
        sig: Sig::By(point),
        funding: Funding::NotAsked,
    }
}

/// The node that sets the terms of a direction, if its channel is in the map, else the other key.
fn setter(map: &Map, scid: Scid, second: bool, other: Point) -> Point
    ensures { result ≡ setter_in (channel_of map.now.channels scid) second other }
{
    match map.channel_info(scid) {
        Some(stored) => *stored.node(second),
        None => other,
    }
}

/// The right verdicts on the message of these bytes, with the other key where it decides nothing.
fn right_verdicts(map: &Map, bytes: &[u8], other: Point) -> Evidence
    ensures { result ≡ right_verdicts map.now bytes.now other }
{
    match layout_of(bytes) {
        Layout::Announce => Evidence {
            sig: Sig::AllFour(true),
            funding: Funding::Unspent(0),
        },
        Layout::Update => {
            let update = ChannelUpdate::in_bytes(bytes);
            let (scid, second) = (update.short_channel_id, update.channel_flags % 2 == 1);
            signed_by(setter(map, scid, second, other))
        }
        Layout::Node => signed_by(NodeAnnounce::in_bytes(bytes).node_id),
        Layout::Other => signed_by(other),
    }
}

/// Writes the key whose signature is to be verified, if the message would be accepted with the right verdicts.
fn write_wanted(
    alloc: Global,
    chain: &ChainHash,
    map: &Map,
    bytes: &[u8],
    signer: &mut [u8; 33],
) -> Result<(), Fault>
    ensures { TellsOf bytes.now chain.now map.now (status_of result) signer.old signer.new }
{
    let evidence = right_verdicts(map, bytes, Point(*signer));
    verdict(alloc, chain, map, bytes, &evidence)?;
    if let Sig::By(point) = evidence.sig {
        let Point(key) = point;
        *signer = key;
    }
    Ok(())
}

/// Whether a message would be accepted with the right verdicts, and the key whose signature is to be verified.
#[unsafe(no_mangle)]
pub extern "C" fn lgm_wanted(
    alloc: Global,
    map: &mut LgmMap,
    message: &[u8],
    signer: &mut [u8; 33],
) -> u32
    ensures same { map.new.value ≡ map.old.value }
    ensures wanted { Wants message.now map.old.value result signer.old signer.new }
    ensures mended { NoneMends message.now signer.old map.old.value }
{
    with_held!(
        alloc,
        map,
        |state| status(&write_wanted(alloc, state.chain(), state.map(), message, signer))
    )
}
