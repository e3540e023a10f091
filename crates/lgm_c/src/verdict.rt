//! Messages and bans, offered to a map that changes.

ghost use Rattle.std.specs.Prelude.{◌≡◌, Ok, IfOk, IfErr, OnOk, OnErr};
ghost use Rattle.lgm_gossip.specs.Memory.{TakesMemory};
ghost use Rattle.lgm_store.specs.Admission.{verdict_of};
ghost use Rattle.lgm_timeline.specs.Timeline.{newest, Advances, RefusesOrRunsOut};
ghost use Rattle.lgm_c.specs.inner.Following.{Fails, Refuses, Follows};
ghost use Rattle.lgm_c.specs.Offering.{offered_to, admitted_ban};

use lgm_check::{BanRow, Evidence, Refusal, precheck};
use lgm_gossip::{ChainHash, Point};
use lgm_store::{CheckedMessage, Hint, Map, Op, Shared};
use lgm_timeline::Timeline;
use std::alloc::Global;

/// Whether a message is accepted with these verdicts. Memory is allocated only by decoding.
pub(crate) fn verdict(
    alloc: Global,
    chain: &ChainHash,
    map: &Map,
    bytes: &[u8],
    evidence: &Evidence,
) -> Result<(), Refusal>
    ensures accepted { OnOk result (verdict_of (offered_to chain.now map.now bytes.now evidence.now) ≡ Ok tt) }
    ensures refused { IfErr result (λ refusal. Fails (TakesMemory bytes.now)
        (offered_to chain.now map.now bytes.now evidence.now) refusal) }
{
    let checked = precheck(alloc, chain, bytes, evidence)?;
    map.verdict(&checked)
}

/// The answer to a message that can't be applied since memory ran out: its refusal, or out of memory if it has none.
fn refusal_without_memory(
    alloc: Global,
    map: &Map,
    chain: &ChainHash,
    bytes: &[u8],
    evidence: &Evidence,
) -> Refusal
    ensures { Refuses (TakesMemory bytes.now)
        (offered_to chain.now map.now bytes.now evidence.now) result }
{
    match verdict(alloc, chain, map, bytes, evidence) {
        Ok(()) => Refusal::NoMemory,
        Err(refusal) => refusal,
    }
}

/// The operation that bans a node, unless it is banned. A refusal allocates nothing.
fn admit_ban(alloc: Global, map: &Map, point: Point) -> Result<Op, Refusal>
    ensures admitted { IfOk result (λ op. admitted_ban map.now point ≡ Ok op) }
    ensures refused { IfErr result (λ refusal. Refuses ⊥ (admitted_ban map.now point) refusal) }
{
    if map.banned(&point) {
        return Err(Refusal::Banned);
    }
    let ban = BanRow {
        held1: point,
        held2: point,
        new1: point,
        new2: point,
    };
    Ok(Op::Ban(Shared::new(alloc, ban)?))
}

/// Offers a message, with the verdicts on it. A refusal or out of memory changes nothing; out of memory may come in place of
/// a refusal.
fn offered(
    alloc: Global,
    timeline: &mut Timeline,
    chain: &ChainHash,
    bytes: &[u8],
    evidence: &Evidence,
) -> Result<(), Refusal>
    ensures accepted { OnOk result (Advances (offered_to chain.now timeline.old.network.rows bytes.now evidence.now)
        (newest timeline.old) (newest timeline.new)) }
    ensures refused { IfErr result
        (RefusesOrRunsOut (offered_to chain.now timeline.old.network.rows bytes.now evidence.now)) }
    ensures stays { OnErr result (newest timeline.new ≡ newest timeline.old) }
    ensures marked { timeline.new.marked ≡ timeline.old.marked }
{
    let message = CheckedMessage::precheck(alloc, chain, bytes, evidence)?;
    timeline.offer(alloc, message, Hint::none())
}

/// Offers a message, with the verdicts on it. A refusal or out of memory changes nothing, and a message that the map would
/// refuse is refused even if memory is short.
pub(crate) fn offer(
    alloc: Global,
    timeline: &mut Timeline,
    chain: &ChainHash,
    bytes: &[u8],
    evidence: &Evidence,
) -> Result<(), Refusal>
    ensures follows { Follows (TakesMemory bytes.now)
        (offered_to chain.now timeline.old.network.rows bytes.now evidence.now) result
        (newest timeline.old) (newest timeline.new) }
    ensures marked { timeline.new.marked ≡ timeline.old.marked }
{
    match offered(alloc, timeline, chain, bytes, evidence) {
        Err(Refusal::NoMemory) => Err(refusal_without_memory(
            alloc,
            timeline.network().map(),
            chain,
            bytes,
            evidence,
        )),
        result => result,
    }
}

/// Bans a node. A refusal or out of memory changes nothing.
pub(crate) fn ban(alloc: Global, timeline: &mut Timeline, point: Point) -> Result<(), Refusal>
    ensures follows { Follows ⊥ (admitted_ban timeline.old.network.rows point) result
        (newest timeline.old) (newest timeline.new) }
    ensures marked { timeline.new.marked ≡ timeline.old.marked }
{
    let op = admit_ban(alloc, timeline.network().map(), point)?;
    Ok(timeline.absorb(alloc, op)?)
}
