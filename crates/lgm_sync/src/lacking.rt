//! What a map lacks of a peer's channels.

ghost use Rattle.std.specs.Prelude.{◌≡◌, IfOk, OnOk, ◌++◌, if◌then◌else◌};
ghost use Rattle.lgm_sync.specs.Lacking.{flags_lacking, if_newer, is_behind, entry, entry_behind, latest, lacking_of, first_times, times_of};

use lgm_gossip::{RangeReply, Scid, Timestamps};
use lgm_store::Map;
use std::alloc::{AllocError, Global};

/// A channel of which a map lacks messages that a peer has.
#[derive(Clone, Copy, Debug, PartialEq, Eq)]
pub struct Lacking {
    /// The channel.
    pub scid: Scid,
    /// Which messages are lacking, as a query asks for them: bit 0 its announcement, bits 1 and 2 its updates by node 1 and by
    /// node 2, bits 3 and 4 the announcements of these nodes (BOLT 7, `query_flag`).
    pub flags: u8,
    /// The timestamps of the peer's updates, in seconds since 1970; 0 without an update, or if the reply tells none.
    pub times: Timestamps,
}

/// What the map lacks of the channels in a reply, by ascending id: all messages of a channel that it doesn't have, and the
/// updates whose timestamps are above those of its own. Ids that don't ascend are passed over (BOLT 7 requires that they
/// do).
pub fn lacking_of(alloc: Global, map: &Map, reply: &RangeReply) -> Result<Vec<Lacking>, AllocError>
    ensures { IfOk result (λ found. found.items ≡ lacking_of map.now reply.now) }
{
    let mut found = Vec::new(alloc);
    let mut after: Option<Scid> = None;
    let mut times = times_of(reply);
    for scid in reply.ids.as_slice() {
        let (own, rest) = first_times(times);
        push_behind(map, &after, *scid, own, &mut found)?;
        after = latest(&after, *scid);
        times = rest;
    }
    Ok(found)
}

/// The timestamps in a reply, or none.
fn times_of(reply: &RangeReply) -> &[Timestamps]
    ensures { result.now ≡ times_of reply.now }
{
    match &reply.timestamps {
        Some(times) => times.as_slice(),
        None => &[],
    }
}

/// The first timestamps, or none, and those behind them.
fn first_times(times: &[Timestamps]) -> (Timestamps, &[Timestamps])
    ensures { (result.0 ≡ (first_times times.now).0) × (result.1.now ≡ (first_times times.now).1) }
{
    match times {
        [first, rest @ ..] => (*first, rest),
        [] => (
            Timestamps {
                node_1: 0,
                node_2: 0,
            },
            times,
        ),
    }
}

/// Whether an id is behind another one, if there is one.
fn is_behind(after: &Option<Scid>, scid: Scid) -> bool
    ensures { result ≡ is_behind after.now scid }
{
    match after {
        Some(after) => *after < scid,
        None => true,
    }
}

/// The last id, with one more.
fn latest(after: &Option<Scid>, scid: Scid) -> Option<Scid>
    ensures { result ≡ latest after.now scid }
{
    match after {
        Some(after) if scid <= *after => Some(*after),
        _ => Some(scid),
    }
}

/// Appends what is lacking of a channel whose id is behind the last one.
fn push_behind(
    map: &Map,
    after: &Option<Scid>,
    scid: Scid,
    times: Timestamps,
    found: &mut Vec<Lacking>,
) -> Result<(), AllocError>
    ensures { OnOk result (found.new.items ≡ found.old.items ++ entry_behind map.now after.now scid times) }
{
    if !is_behind(after, scid) {
        return Ok(());
    }
    push_entry(map, scid, times, found)
}

/// Appends what is lacking of a channel, if anything is.
fn push_entry(
    map: &Map,
    scid: Scid,
    times: Timestamps,
    found: &mut Vec<Lacking>,
) -> Result<(), AllocError>
    ensures { OnOk result (found.new.items ≡ found.old.items ++ entry map.now scid times) }
{
    let flags = flags_lacking(map, scid, &times);
    if flags != 0 {
        found.push(Lacking { scid, flags, times })?;
    }
    Ok(())
}

/// Which messages of a channel are lacking.
fn flags_lacking(map: &Map, scid: Scid, times: &Timestamps) -> u8
    ensures { result ≡ flags_lacking map.now scid times.now }
{
    match map.channel_info(scid) {
        None => 31,
        Some(stored) => {
            let own = stored.timestamps();
            if_newer(own.node_1, times.node_1, 2) + if_newer(own.node_2, times.node_2, 4)
        }
    }
}

/// The flag, if the peer's timestamp is above the map's.
fn if_newer(own: u32, peers: u32, flag: u8) -> u8
    ensures { result ≡ if_newer own peers flag }
{
    if own < peers { flag } else { 0 }
}
