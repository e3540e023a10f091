//! Saving a map.

ghost use Rattle.std.specs.Prelude.{◌≡◌, ◌+◌, ◌<◌, ◌≤◌, ◌^◌, ◌++◌, List, ℕ, length, drop, IfOk, IfSome, IsNone};
ghost use Rattle.std.specs.List.{AllByRecursion, flat_map};
ghost use Rattle.lgm_wire.specs.declared.chain_hash.ChainHash.{ChainHash};
ghost use Rattle.lgm_save.specs.Records.{IsRecord, bytes_of, records_of};
ghost use Rattle.lgm_save.specs.Saved.{saved_as, headed};
ghost use Rattle.lgm_save.specs.inner.Filling.{IsFilled};

use crate::checksum::Sums;
use crate::filling::{put, put_records};
use crate::numbers::in_eight;
use crate::reader::opening;
use crate::record::Record;
use crate::records::records_of;
use lgm_gossip::ChainHash;
use lgm_store::Map;
use std::alloc::{AllocError, Global};
use std::marker::Model;

/// How many bytes a saved map has beside its records.
const AROUND: usize = 68;

/// A map that is to be saved. Contracts see its records.
#[derive(Drop)]
pub struct Saving<'a> {
    records: Vec<Record<'a>>,
    /// The number of bytes of the records.
    body: usize,
}

impl<'a> Model for Saving<'a> {
    ghost use Rattle.std.specs.Prelude.{◌≡◌, ◌+◌, ◌<◌, ◌^◌, List, length};
    ghost use Rattle.std.specs.List.{AllByRecursion, flat_map};
    ghost use Rattle.lgm_save.specs.declared.record.Record.{Record};
    ghost use Rattle.lgm_save.specs.Records.{IsRecord, bytes_of};

    ghost Value = { List Record };

    ghost view = { λ s. s.records.items };

    ghost invariant = { λ s. record {
      lawful : AllByRecursion IsRecord s.records.items;
      body_is : s.body ≡ length (flat_map bytes_of s.records.items);
      fits : s.body + 68 < 2 ^ 64;
    } };
}

impl<'a> Saving<'a> {
    /// A map, as it is saved.
    pub fn of(alloc: Global, map: &'a Map) -> Result<Saving<'a>, AllocError>
        ensures { IfOk result (λ saving. saving ≡ records_of map.now) }
    {
        let records = records_of(alloc, map)?;
        // No map has 2^64 bytes.
        let Some(body) = body_length(&records) else {
            return Err(AllocError);
        };
        Ok(Saving { records, body })
    }

    /// Each record has a lawful message. A call does nothing: its contract is the law.
    pub(crate) fn records_are_lawful(&self)
        ensures { AllByRecursion IsRecord self.now }
    {
        let _ = &self.records;
    }

    /// How many bytes it has.
    pub fn length(&self) -> usize
        ensures { (chain : ChainHash) → length chain.0 ≡ 32 → result ≡ length (saved_as chain self.now) }
    {
        self.body + AROUND
    }

    /// Writes its bytes to the front of a buffer that has room for them.
    pub fn write(&self, chain: &ChainHash, room: &mut [u8])
        requires { length (saved_as chain.now self.now) ≤ length room.old }
        ensures { room.new ≡ saved_as chain.now self.now ++ drop (length (saved_as chain.now self.now)) room.old }
    {
        let end = self.write_content(chain, room);
        let sums = Sums::of(&room[..end]);
        let behind = put(room, end, &in_eight(sums.first));
        put(room, behind, &in_eight(sums.second));
    }

    /// Writes all but the checksum, and returns how many bytes that are.
    fn write_content(&self, chain: &ChainHash, room: &mut [u8]) -> usize
        requires { length (headed chain.now (flat_map bytes_of self.now)) ≤ length room.old }
        ensures { IsFilled room.old (headed chain.now (flat_map bytes_of self.now)) result room.new }
    {
        let at = put(room, 0, &opening());
        let at = put(room, at, &chain.0);
        let at = put(room, at, &in_eight(self.body as u64));
        put_records(room, at, &self.records)
    }
}

/// The number of bytes of records, unless that and what is around them is beyond 2^64.
fn body_length(records: &[Record<'_>]) -> Option<usize>
    requires { AllByRecursion IsRecord records.now }
    ensures { IfSome result (λ body. (body ≡ length (flat_map bytes_of records.now)) × (body + 68 < 2 ^ 64)) }
{
    let mut sum: usize = 0;
    for record in records {
        sum = sum.checked_add(record.length()?)?;
    }
    sum.checked_add(AROUND)?;
    Some(sum)
}
