//! Channels that may be pruned, as they are old.

ghost use Rattle.std.specs.Prelude.{◌≡◌, IfOk};
ghost use Rattle.lgm_sync.specs.Pruning.{has_update, latest_time, is_prunable, as_stale, prunable_of};

use lgm_gossip::Scid;
use lgm_store::{ChannelInfo, Map};
use std::alloc::{AllocError, Global};

/// A channel that may be pruned.
#[derive(Clone, Copy, Debug, PartialEq, Eq)]
pub struct StaleChannel {
    /// The channel.
    pub scid: Scid,
    /// The timestamp of its latest update, in seconds since 1970; 0 without one.
    pub time: u32,
}

/// The channels that may be pruned, by ascending id: those whose latest update, of both directions, has a timestamp below
/// `before`, in seconds since 1970, and those that have no update and whose funding output is in a block below `block` (BOLT 7,
/// "Recommendation on Pruning Stale Entries", where `before` is two weeks ago). The map is read once, and not copied.
pub fn prunable(
    alloc: Global,
    map: &Map,
    before: u32,
    block: u32,
) -> Result<Vec<StaleChannel>, AllocError>
    ensures { IfOk result (λ found. found.items ≡ prunable_of map.now before block) }
{
    let mut found = Vec::new(alloc);
    for stored in map.channels().together(false) {
        if is_prunable(stored, before, block) {
            found.push(as_stale(stored))?;
        }
    }
    Ok(found)
}

/// Whether the latest update of a channel is from before a time, or, if it has none, its block is below one.
fn is_prunable(stored: &ChannelInfo, before: u32, block: u32) -> bool
    ensures { result ≡ is_prunable before block stored.now }
{
    if has_update(stored) {
        latest_time(stored) < before
    } else {
        stored.scid().block() < block
    }
}

/// Whether a channel has an update, of either direction.
fn has_update(stored: &ChannelInfo) -> bool
    ensures { result ≡ has_update stored.now }
{
    stored.update_time(false).is_some() || stored.update_time(true).is_some()
}

/// The timestamp of the latest update of a channel, or 0 without one.
fn latest_time(stored: &ChannelInfo) -> u32
    ensures { result ≡ latest_time stored.now }
{
    let times = stored.timestamps();
    times.node_1.max(times.node_2)
}

/// The id of a channel, with the time of its latest update.
fn as_stale(stored: &ChannelInfo) -> StaleChannel
    ensures { result ≡ as_stale stored.now }
{
    StaleChannel {
        scid: stored.scid(),
        time: latest_time(stored),
    }
}
