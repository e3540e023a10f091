//! Closing channels since they are old.

ghost use Rattle.std.specs.Prelude.{◌≡◌, ◌≤◌, length, take};
ghost use Rattle.lgm_timeline.specs.Timeline.{newest};
ghost use Rattle.lgm_sync.specs.Pruning.{prunable_of};
ghost use Rattle.lgm_c.specs.Pruning.{c_pruned, entries, ClosesEach, Prunes};
ghost use Rattle.lgm_c.specs.Status.{status_of};
ghost use Rattle.lgm_c.specs.inner.Closing.{behind_each};

use crate::fault::{Fault, status};
use crate::handle::{Handle, with_held};
use crate::map_handle::LgmMap;
use crate::output::map_in_front;
use lgm_store::Op;
use lgm_sync::{StaleChannel, prunable};
use lgm_timeline::Timeline;
use std::alloc::Global;

/// A channel that was closed since it is old.
#[repr(C)]
#[derive(Clone, Copy)]
pub struct LgmPruned {
    /// Its id.
    pub scid: u64,
    /// The timestamp of its latest update, in seconds since 1970; 0 without one.
    pub timestamp: u32,
}

fn c_pruned(stale: &StaleChannel) -> LgmPruned
    ensures { result ≡ c_pruned stale.now }
{
    LgmPruned {
        scid: stale.scid.to_u64(),
        timestamp: stale.time,
    }
}

/// Closes channels, in their order, and returns how many: fewer than all only if memory runs out.
fn close_each(alloc: Global, timeline: &mut Timeline, stale: &[StaleChannel]) -> usize
    ensures few { result ≤ length stale.now }
    ensures newest { newest timeline.new ≡ behind_each (newest timeline.old) (take result stale.now) }
    ensures marked { timeline.new.marked ≡ timeline.old.marked }
{
    for place in 0..stale.len() {
        if timeline
            .absorb(alloc, Op::Close(stale[place].scid))
            .is_err()
        {
            return place;
        }
    }
    stale.len()
}

/// Closes the channels of a map whose latest updates are from before a time, and those without one below a block, and tells
/// which; or their number alone if there is no room for them.
pub(crate) fn close_stale(
    alloc: Global,
    timeline: &mut Timeline,
    before: u32,
    block: u32,
    room: &mut [LgmPruned],
    needed: &mut usize,
) -> Result<(), Fault>
    ensures closes { ClosesEach (prunable_of timeline.old.network.rows before block)
        (λ these. newest timeline.new ≡ behind_each (newest timeline.old) these) (status_of result)
        (entries room.old needed.old) (entries room.new needed.new) }
    ensures marked { timeline.new.marked ≡ timeline.old.marked }
{
    *needed = 0;
    let stale = prunable(alloc, timeline.network().map(), before, block)?;
    if room.len() < stale.len() {
        *needed = stale.len();
        return Err(Fault::Room);
    }
    let closed = close_each(alloc, timeline, &stale);
    map_in_front(&stale[..closed], room, c_pruned);
    *needed = closed;
    if closed < stale.len() {
        return Err(Fault::NoMemory);
    }
    Ok(())
}

/// Closes the channels that may be pruned: those whose latest update has a timestamp below `before`, in seconds since 1970, and
/// those without an update that were funded below a block (BOLT 7, "Recommendation on Pruning Stale Entries").
#[unsafe(no_mangle)]
pub extern "C" fn lgm_prune(
    alloc: Global,
    map: &mut LgmMap,
    before: u32,
    block: u32,
    pruned: &mut [LgmPruned],
    needed: &mut usize,
) -> u32
    ensures { Prunes before block result map.old.value map.new.value
        (entries pruned.old needed.old) (entries pruned.new needed.new) }
{
    with_held!(
        alloc,
        map,
        |state| status(&state.prune(alloc, before, block, pruned, needed))
    )
}
