//! Loading a map.

ghost use Rattle.std.specs.Prelude.{◌≡◌, IfOk, Err};
ghost use Rattle.lgm_gossip.specs.Layout.{IsAnnounce, IsUpdate, IsNodeAnnounce};
ghost use Rattle.lgm_check.specs.Row.{channel_row, update_row, node_row};
ghost use Rattle.lgm_store.specs.declared.op.Op.TheVariants as ops;
ghost use Rattle.lgm_save.specs.Records.{IsRecord, op_of, ban_of};
ghost use Rattle.lgm_save.specs.Loaded.{IsLoaded, IsNotSaved};
ghost use Rattle.lgm_save.specs.declared.fault.LoadFault.TheVariants.{NotSaved};

use crate::fault::LoadFault;
use crate::reader::{body_of, next_record};
use crate::record::Record;
use lgm_check::{BanRow, StoredChannel, StoredNode, StoredUpdate};
use lgm_gossip::{ChainHash, Point};
use lgm_store::{Map, Op, Seed, Shared};
use std::alloc::{AllocError, Global};

/// The map of this chain that was saved as these bytes, whose points are hashed with the seed.
///
/// Bytes that were cut or changed, or are of another version or chain, are refused as a whole. Out of memory may come in place
/// of that.
pub fn load(alloc: Global, seed: Seed, chain: &ChainHash, bytes: &[u8]) -> Result<Map, LoadFault>
    ensures loaded { IfOk result (λ map. IsLoaded chain.now bytes.now map) }
    ensures refused { result ≡ Err NotSaved → IsNotSaved chain.now bytes.now }
{
    let Some(body) = body_of(chain, bytes) else {
        return Err(LoadFault::NotSaved);
    };
    let mut map = Map::with_seed(alloc, seed)?;
    let mut rest = body;
    'records: while !rest.is_empty() {
        let Some((record, behind)) = next_record(rest) else {
            return Err(LoadFault::NotSaved);
        };
        map.absorb(&op_of(alloc, &record)?)?;
        rest = behind;
    }
    Ok(map)
}

fn op_of(alloc: Global, record: &Record<'_>) -> Result<Op, AllocError>
    requires { IsRecord record.now }
    ensures { IfOk result (λ op. op ≡ op_of record.now) }
{
    match record {
        Record::Ban(point) => ban_op(alloc, point),
        Record::Channel(sat, message) => channel_op(alloc, *sat, message.as_slice()),
        Record::Update(message) => update_op(alloc, message.as_slice()),
        Record::Node(message) => node_op(alloc, message.as_slice()),
    }
}

fn ban_op(alloc: Global, point: &Point) -> Result<Op, AllocError>
    ensures { IfOk result (λ op. op ≡ ops.Ban (ban_of point.now)) }
{
    let ban = BanRow {
        held1: *point,
        held2: *point,
        new1: *point,
        new2: *point,
    };
    Ok(Op::Ban(Shared::new(alloc, ban)?))
}

fn channel_op(alloc: Global, sat: u64, message: &[u8]) -> Result<Op, AllocError>
    requires { IsAnnounce message.now }
    ensures { IfOk result (λ op. op ≡ ops.Channel (channel_row sat message.now)) }
{
    let row = StoredChannel::of_bytes(alloc, message, sat)?;
    Ok(Op::Channel(Shared::new(alloc, row)?))
}

fn update_op(alloc: Global, message: &[u8]) -> Result<Op, AllocError>
    requires { IsUpdate message.now }
    ensures { IfOk result (λ op. op ≡ ops.Update (update_row message.now)) }
{
    let row = StoredUpdate::of_bytes(alloc, message)?;
    Ok(Op::Update(Shared::new(alloc, row)?))
}

fn node_op(alloc: Global, message: &[u8]) -> Result<Op, AllocError>
    requires { IsNodeAnnounce message.now }
    ensures { IfOk result (λ op. op ≡ ops.Node (node_row message.now)) }
{
    let row = StoredNode::of_bytes(alloc, message)?;
    Ok(Op::Node(Shared::new(alloc, row)?))
}
