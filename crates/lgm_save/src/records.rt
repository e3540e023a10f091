//! The records of a map.

ghost use Rattle.std.specs.Prelude.{◌≡◌, IfOk, OnOk};
ghost use Rattle.std.specs.List.{AllByRecursion};
ghost use Rattle.lgm_save.specs.Records.{IsRecord, ban_records, channel_records, update_records, node_records, records_of};
ghost use Rattle.lgm_save.specs.inner.Pushing.{Pushes, OnUpdate, update_list};

use crate::record::Record;
use lgm_check::UpdateRow;
use lgm_gossip::{BorrowedBytes, Point};
use lgm_store::Map;
use std::alloc::{AllocError, Global};

/// What a map has, in the order in which it is saved: its bans, its channels, their updates, and its nodes.
pub(crate) fn records_of(alloc: Global, map: &Map) -> Result<Vec<Record<'_>>, AllocError>
    ensures records { IfOk result (λ records. records.items ≡ records_of map.now) }
    ensures lawful { IfOk result (λ records. AllByRecursion IsRecord records.items) }
{
    let mut records = Vec::with_capacity(alloc, map.count().saturating_mul(4))?;
    push_bans(map, &mut records)?;
    push_channels(map, &mut records)?;
    push_updates(map, &mut records)?;
    push_nodes(map, &mut records)?;
    Ok(records)
}

fn push_bans(map: &Map, records: &mut Vec<Record<'_>>) -> Result<(), AllocError>
    ensures { OnOk result (Pushes (ban_records map.now) records.old.items records.new.items) }
{
    map.rows_are_lawful();
    let mut after: Option<Point> = None;
    'bans: while let Some(point) = map.next_banned(after) {
        records.push(Record::Ban(point))?;
        after = Some(point);
    }
    Ok(())
}

fn push_channels<'a>(map: &'a Map, records: &mut Vec<Record<'a>>) -> Result<(), AllocError>
    ensures { OnOk result (Pushes (channel_records map.now) records.old.items records.new.items) }
{
    map.bytes_encode_rows();
    for stored in map.channels() {
        let row = stored.row();
        records.push(Record::Channel(row.sat, row.raw))?;
    }
    Ok(())
}

fn push_updates<'a>(map: &'a Map, records: &mut Vec<Record<'a>>) -> Result<(), AllocError>
    ensures { OnOk result (Pushes (update_records map.now) records.old.items records.new.items) }
{
    map.rows_are_lawful();
    map.bytes_encode_rows();
    for stored in map.channels() {
        push_update(stored.update(false), records)?;
        push_update(stored.update(true), records)?;
    }
    Ok(())
}

fn push_update<'a>(
    row: Option<UpdateRow<'a>>,
    records: &mut Vec<Record<'a>>,
) -> Result<(), AllocError>
    ensures { OnOk result (OnUpdate row.entry
        → Pushes (update_list row.entry) records.old.items records.new.items) }
{
    if let Some(row) = row {
        records.push(Record::Update(row.raw))?;
    }
    Ok(())
}

fn push_nodes<'a>(map: &'a Map, records: &mut Vec<Record<'a>>) -> Result<(), AllocError>
    ensures { OnOk result (Pushes (node_records map.now) records.old.items records.new.items) }
{
    map.bytes_encode_rows();
    for stored in map.nodes() {
        records.push(Record::Node(BorrowedBytes::new(stored.raw())))?;
    }
    Ok(())
}
