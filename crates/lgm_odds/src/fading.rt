//! How what is believed of edges fades with time.

ghost use Rattle.std.specs.Prelude.{◌≡◌, ◌≤◌, ◌<◌, ◌+◌, ◌*◌, ◌^◌, ℕ, length, slice_get, IfOk, IfSome, OnOk};
ghost use Rattle.lgm_odds.specs.Fading.{share_kept, kept, faded, says_little, kept_of, capacity_of, faded_in, IsFadedAt, AreFaded};

use lgm_gossip::Scid;
use lgm_graph::{EdgeKey, Estimate, Estimates};
use lgm_store::Map;
use std::alloc::{AllocError, Global};

/// How much time went by.
#[derive(Clone, Copy, Debug, PartialEq, Eq)]
pub struct Elapsed {
    /// After so much time half of what is believed is left, in the unit of the other; 0 counts as 1.
    pub half_life: u32,
    /// The time since what is believed faded last.
    pub elapsed: u32,
}

/// In millionths what is left after some millionths of a half-life.
fn share_kept(part: u64) -> u64
    requires { part < 1000000 }
    ensures exact { result ≡ share_kept part }
    ensures low { result ≤ 1000000 }
{
    let bend = 193_147 * part * part / 1_000_000;
    1_000_000 - (693_147 * part).saturating_sub(bend) / 1_000_000
}

/// What is left of an amount.
fn kept(time: Elapsed, amount: u64) -> u64
    ensures { result ≡ kept time amount }
{
    let half_life = u64::from(time.half_life).max(1);
    let elapsed = u64::from(time.elapsed);
    let share = share_kept(elapsed % half_life * 1_000_000 / half_life);
    let halvings = (elapsed / half_life).min(64) as u32;
    (u128::from(amount) * u128::from(share) / 1_000_000 / 2u128.pow(halvings)) as u64
}

/// What is believed of an edge of a channel with a capacity, in msat.
fn faded(time: Elapsed, capacity: u64, estimate: Estimate) -> Estimate
    ensures { result ≡ faded time capacity estimate }
{
    Estimate {
        least: kept(time, estimate.least),
        most: capacity.saturating_sub(kept(time, capacity.saturating_sub(estimate.most))),
        penalty: kept(time, estimate.penalty),
    }
}

/// Whether that says at most a sixteenth of the capacity, and nothing else.
fn says_little(capacity: u64, estimate: Estimate) -> bool
    ensures { result ≡ says_little capacity estimate }
{
    let above = capacity.saturating_sub(estimate.most);
    16 * u128::from(estimate.least) <= u128::from(capacity)
        && 16 * u128::from(above) <= u128::from(capacity)
        && estimate.penalty == 0
}

/// What is believed then, unless that says little.
fn kept_of(capacity: u64, estimate: Estimate) -> Option<Estimate>
    ensures { result ≡ kept_of capacity estimate }
{
    if says_little(capacity, estimate) {
        None
    } else {
        Some(estimate)
    }
}

/// The capacity of a channel, in msat, if the map has it.
fn capacity_of(map: &Map, scid: Scid) -> Option<u64>
    ensures { result ≡ capacity_of map.now scid }
{
    let channel = map.channel(scid)?;
    Some(channel.sat.saturating_mul(1_000))
}

/// What is believed of an edge of a channel, unless that says little, or the map hasn't the channel.
fn faded_in(map: &Map, time: Elapsed, scid: Scid, estimate: Estimate) -> Option<Estimate>
    ensures { result ≡ faded_in map.now time scid estimate }
{
    let capacity = capacity_of(map, scid)?;
    kept_of(capacity, faded(time, capacity, estimate))
}

/// Adds what is left of what is believed of an edge.
fn add_faded(
    left: &mut Estimates,
    map: &Map,
    learnt: &Estimates,
    time: Elapsed,
    key: &EdgeKey,
) -> Result<(), AllocError>
    ensures { OnOk result (IsFadedAt map.now time learnt.now key.now left.old left.new) }
{
    let known = learnt.get(key.scid, &key.from);
    if let Some(estimate) = faded_in(map, time, key.scid, known) {
        left.set(key.scid, &key.from, estimate)?;
    }
    Ok(())
}

/// Adds what is left of what is believed of the edge at a place.
fn add_faded_at(
    left: &mut Estimates,
    map: &Map,
    learnt: &Estimates,
    time: Elapsed,
    place: usize,
) -> Result<(), AllocError>
    ensures { OnOk result (IfSome (slice_get learnt.now place) (λ entry.
        IsFadedAt map.now time learnt.now entry.0 left.old left.new)) }
{
    let Some((key, _)) = learnt.at(place) else {
        return Ok(());
    };
    add_faded(left, map, learnt, time, &key)
}

/// What is left of what was learnt of edges once time went by: of each half for each half-life, since balances move.
/// What an edge surely carries falls to nothing, the most that it may carry rises to its channel's capacity, and its
/// penalty falls. What then says little is forgotten, and so are edges of channels that the map hasn't.
pub fn fade(
    alloc: Global,
    map: &Map,
    learnt: &Estimates,
    time: Elapsed,
) -> Result<Estimates, AllocError>
    ensures { IfOk result (λ left. AreFaded map.now time learnt.now left) }
{
    let mut left = Estimates::new(alloc);
    for place in 0..learnt.len() {
        add_faded_at(&mut left, map, learnt, time, place)?;
    }
    Ok(left)
}
