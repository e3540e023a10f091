//! The writer's side.

ghost use Rattle.std.specs.Prelude.{◌≡◌, ◌+◌, ◌<◌, ◌≤◌, List, [], ◌∷◌, ◌++◌, length, IfOk, OnOk, OnErr};
ghost use Rattle.lgm_script.specs.declared.grammar.item.Item.{Item};
ghost use Rattle.lgm_live.specs.Batches.{items_of};
ghost use Rattle.lgm_live.specs.inner.WriterResult.{IsWritten, ArePublished};
ghost use Rattle.lgm_wire.specs.reading.Reading.{Gives};
ghost use Rattle.lgm_store.specs.History.{absorbed, fold};
ghost use Rattle.lgm_answers.specs.Outcomes.{outcome_of};

use crate::fault::LiveFault;
use lgm_board::{AppendCause, MAX_OPERATIONS, Pen};
use lgm_check::Refusal;
use lgm_gossip::{ChainHash, Sequence};
use lgm_par::{Gate, Pool};
use lgm_script::Item;
use lgm_store::{CheckedMessage, Map, Op, Seed};
use std::alloc::Global;
use std::random::RandomSource;
use std::sync::Wait;

/// What the writer has done so far.
#[derive(Drop)]
pub(crate) struct WriterResult {
    /// For each item, why it was refused, or none.
    pub(crate) outcomes: Vec<Option<Refusal>>,
    /// The operations of the accepted items.
    pub(crate) ops: Vec<Op>,
    /// The number of operations after each batch.
    pub(crate) ends: Vec<u64>,
}

impl WriterResult {
    /// Nothing yet.
    fn new(alloc: Global) -> WriterResult
        ensures written { (chain : _) → IsWritten chain [] result }
        ensures ends { result.ends.items ≡ [] }
        ensures none { result.ops.items ≡ [] }
    {
        WriterResult {
            outcomes: Vec::new(alloc),
            ops: Vec::new(alloc),
            ends: Vec::new(alloc),
        }
    }

    /// Appends the operation of an accepted item, and stores a copy.
    fn append_op(&mut self, alloc: Global, pen: &mut Pen, op: Op) -> Result<(), LiveFault>
        requires few { length (pen.old.published ++ pen.old.pending) < MAX_OPERATIONS }
        ensures outcomes { self.new.outcomes ≡ self.old.outcomes }
        ensures ends { self.new.ends ≡ self.old.ends }
        ensures ops { OnOk result (self.new.ops.items ≡ self.old.ops.items ++ op ∷ []) }
        ensures board { pen.new.board ≡ pen.old.board }
        ensures published { pen.new.published ≡ pen.old.published }
        ensures pending { OnOk result (pen.new.pending ≡ pen.old.pending ++ op ∷ []) }
    {
        self.ops.push(op.copy(alloc)?)?;
        match pen.append(op) {
            Ok(()) => Ok(()),
            Err(fault) => match fault.cause {
                AppendCause::NoMemory => Err(LiveFault::NoMemory),
                AppendCause::Full => unreachable!(),
            },
        }
    }

    /// Offers one item to the map, which is that of the operations so far.
    fn offer_item(
        &mut self,
        alloc: Global,
        chain: &ChainHash,
        pen: &mut Pen,
        map: &mut Map,
        item: &Item,
    ) -> Result<(), LiveFault>
        requires map { map.old ≡ fold self.old.ops.items }
        requires few { length self.old.ops.items < MAX_OPERATIONS }
        requires appended { pen.old.published ++ pen.old.pending ≡ self.old.ops.items }
        ensures written { (items : List Item) → IsWritten chain.now items self.old
            → OnOk result (IsWritten chain.now (items ++ item.now ∷ []) self.new) }
        ensures map { OnOk result (map.new ≡ fold self.new.ops.items) }
        ensures ends { self.new.ends ≡ self.old.ends }
        ensures grows { OnOk result ((length self.old.ops.items ≤ length self.new.ops.items)
            × (length self.new.ops.items ≤ length self.old.ops.items + 1)) }
        ensures board { pen.new.board ≡ pen.old.board }
        ensures published { pen.new.published ≡ pen.old.published }
        ensures appended { OnOk result (pen.new.published ++ pen.new.pending ≡ self.new.ops.items) }
    {
        match admit(alloc, chain, map, item) {
            Ok(op) => {
                self.append_op(alloc, pen, op)?;
                self.outcomes.push(None)?;
            }
            Err(Refusal::NoMemory) => return Err(LiveFault::NoMemory),
            Err(refusal) => self.outcomes.push(Some(refusal))?,
        }
        Ok(())
    }

    /// Publishes what was appended, and stores the number of operations.
    fn publish<Rt: Wait>(&mut self, rt: &Rt, pen: &mut Pen) -> Result<(), LiveFault>
        requires appended { pen.old.published ++ pen.old.pending ≡ self.old.ops.items }
        ensures outcomes { self.new.outcomes ≡ self.old.outcomes }
        ensures ops { self.new.ops ≡ self.old.ops }
        ensures ends { OnOk result
            (self.new.ends.items ≡ self.old.ends.items ++ length self.old.ops.items ∷ []) }
        ensures board { pen.new.board ≡ pen.old.board }
        ensures published { OnOk result (pen.new.published ≡ self.old.ops.items) }
        ensures pending { OnOk result (pen.new.pending ≡ []) }
    {
        if pen.publish(rt).is_err() {
            return Err(LiveFault::NoMemory);
        }
        self.ends.push(pen.published())?;
        Ok(())
    }

    /// Offers a batch's items to the map, one after the other, and publishes what was accepted.
    fn publish_batch<Rt: Wait, G: Gate>(
        &mut self,
        pool: &Pool<'_, Rt, G>,
        chain: &ChainHash,
        pen: &mut Pen,
        map: &mut Map,
        batch: &[Item],
    ) -> Result<(), LiveFault>
        requires map { map.old ≡ fold self.old.ops.items }
        requires few { length self.old.ops.items + length batch.now ≤ MAX_OPERATIONS }
        requires pen { (pen.old.published ≡ self.old.ops.items) × (pen.old.pending ≡ []) }
        ensures written { (items : List Item) → IsWritten chain.now items self.old
            → OnOk result (IsWritten chain.now (items ++ batch.now) self.new) }
        ensures map { OnOk result (map.new ≡ fold self.new.ops.items) }
        ensures ends { OnOk result
            (self.new.ends.items ≡ self.old.ends.items ++ length self.new.ops.items ∷ []) }
        ensures grows { OnOk result ((length self.old.ops.items ≤ length self.new.ops.items)
            × (length self.new.ops.items ≤ length self.old.ops.items + length batch.now)) }
        ensures board { pen.new.board ≡ pen.old.board }
        ensures published { OnOk result ((pen.new.published ≡ self.new.ops.items) × (pen.new.pending ≡ [])) }
    {
        for item in batch {
            self.offer_item(pool.alloc, chain, pen, map, item)?;
        }
        pool.gate.pass(pool.workers);
        self.publish(pool.rt, pen)
    }
}

/// Offers each batch's items to a map, one after the other, and publishes what was accepted of each.
pub(crate) fn publish_batches<Rt: Wait + RandomSource, G: Gate>(
    pool: &Pool<'_, Rt, G>,
    chain: &ChainHash,
    pen: &mut Pen,
    batches: &[Sequence<Item>],
) -> Result<WriterResult, LiveFault>
    requires few { length (items_of batches.now) ≤ MAX_OPERATIONS }
    requires pen { (pen.old.published ≡ []) × (pen.old.pending ≡ []) }
    ensures board { pen.new.board ≡ pen.old.board }
    ensures published { IfOk result (ArePublished chain.now batches.now pen.new.published) }
{
    let mut map = Map::with_seed(pool.alloc, Seed::random(pool.rt))?;
    let mut written = WriterResult::new(pool.alloc);
    for batch in batches {
        written.publish_batch(pool, chain, pen, &mut map, batch.as_slice())?;
        pool.gate.published(written.ends.len());
    }
    Ok(written)
}

/// Admits an item and applies its operation, which is returned. A refusal or out of memory leaves the map unchanged.
#[tactic(auto, unfolding(lgm_answers::specs::Outcomes::outcome_of))]
pub(crate) fn admit(
    alloc: Global,
    chain: &ChainHash,
    map: &mut Map,
    item: &Item,
) -> Result<Op, Refusal>
    ensures outcome { Gives Refusal.NoMemory (λ op. op) result (outcome_of chain.now map.old item.now) }
    ensures accepted { IfOk result (λ op. map.new ≡ absorbed map.old op) }
    ensures refused { OnErr result (map.new ≡ map.old) }
{
    match item {
        Item::Gossip(bytes, evidence) => {
            let message = CheckedMessage::precheck(alloc, chain, bytes.as_slice(), evidence)?;
            map.offer_checked(alloc, message)
        }
        Item::Close(scid) => map.offer_close(*scid),
    }
}
