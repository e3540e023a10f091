//! Node announcements by node id.

ghost use Rattle.std.specs.Prelude.{◌≡◌, ◌≢◌, Bool, true, Ok, IfOk, OnOk, OnErr};
ghost use Rattle.std.specs.List.Sorted.{IsStrictlySortedBy};
ghost use Rattle.std.specs.Map.{lookup, keys_of, values_of};
ghost use Rattle.std.specs.BTreeMap.{is_at, insert_entry};
ghost use Rattle.std.specs.BTreeMap.Range.{entries_between, IsLeBy, IsLtBy};
ghost use Rattle.std.specs.Range.Bound.{IsForward};
ghost use Rattle.lgm_store.specs.Keys.{point_cmp, point_of};
ghost use Rattle.lgm_store.specs.Admission.{node_is_newer};
ghost use Rattle.lgm_store.specs.inner.SameKeys.{same_node};

use crate::channel_table::NODES;
use crate::iter::Nodes;
use crate::lookahead::lookup::NodeKey;
use crate::lookahead::lookup_cache::NO_GUESS;
use crate::shared::Shared;
use crate::slot_table::{Key, Keyed, SlotTable, place};
use lgm_check::StoredNode;
use lgm_gossip::Point;
use std::alloc::{AllocError, Global};
use std::ops::Bound;

/// Node announcements, by node id. Contracts see each id with its announcement's row, ascending.
pub(crate) type NodeTable = SlotTable<Point, Shared<StoredNode>>;

impl Key for Point {
    /// The first eight bytes of the x coordinate.
    fn cache_key(&self) -> u64 {
        NodeKey::of(self).front()
    }

    ghost same = { same_node };
}

impl Keyed<Point> for Shared<StoredNode> {
    ghost key_of = { point_of };

    fn key(&self) -> Point {
        self.get().node()
    }

    fn copied(&self) -> Result<Shared<StoredNode>, AllocError> {
        self.share()
    }
}

impl SlotTable<Point, Shared<StoredNode>> {
    /// Reads the rows of the announcements of the nodes that are cached by these, so that the processor's cache has them:
    /// in two looks, for the numbers, and for the rows, each for all.
    pub(crate) fn prefetch_rows(&self, keys: &[u64]) {
        let mut numbers = [NO_GUESS; NODES];
        for (number, key) in numbers.iter_mut().zip(keys) {
            *number = self.cache.raw_guess(*key);
        }
        for number in &numbers {
            if let Some(row) = self.slots.get(*number) {
                row.prefetch();
            }
        }
    }

    /// The announcements of the nodes whose ids are in a range, ascending.
    pub(crate) fn range(&self, start: Bound<Point>, end: Bound<Point>) -> Nodes<'_>
        requires { IsForward (IsLeBy point_cmp) (IsLtBy point_cmp) start end }
        ensures { result ≡ values_of (entries_between point_cmp start end self.now) }
    {
        Nodes::new(self.numbers.range((start, end)), &self.slots)
    }

    /// Stores an announcement, in place of its node's one before. Out of memory leaves the table unchanged.
    pub(crate) fn put(&mut self, row: Shared<StoredNode>) -> Result<(), AllocError>
        ensures ok { OnOk result (self.new ≡ insert_entry point_cmp self.old (point_of row) row) }
        ensures ascend { OnOk result (IsStrictlySortedBy point_cmp (keys_of self.new)) }
        ensures err { OnErr result (self.new ≡ self.old) }
    {
        let Some((number, row)) = place(&mut self.numbers, &mut self.slots, &mut self.cache, row)?
        else {
            return Ok(());
        };
        self.slots[number] = row;
        Ok(())
    }

    /// Stores an announcement, sharing its row, and returns true, unless its node has one that isn't older. Out of memory
    /// leaves the table unchanged.
    pub(crate) fn put_newer(&mut self, row: &Shared<StoredNode>) -> Result<bool, AllocError>
        ensures newer { (is_newer : Bool) → result ≡ Ok is_newer
            → node_is_newer (lookup (is_at (point_cmp (point_of row.now))) self.old) row.now ≡ is_newer }
        ensures put { result ≡ Ok true → self.new ≡ insert_entry point_cmp self.old (point_of row.now) row.now }
        ensures ascend { result ≡ Ok true → IsStrictlySortedBy point_cmp (keys_of self.new) }
        ensures same { result ≢ Ok true → self.new ≡ self.old }
    {
        let Some((number, shared)) = place(
            &mut self.numbers,
            &mut self.slots,
            &mut self.cache,
            row.share()?,
        )?
        else {
            return Ok(true);
        };
        if shared.get().timestamp() <= self.slots[number].get().timestamp() {
            return Ok(false);
        }
        self.slots[number] = shared;
        Ok(true)
    }

    /// A copy, without vacant slots if most are vacant.
    pub(crate) fn copy(&self, alloc: Global) -> Result<NodeTable, AllocError>
        ensures { IfOk result (λ copy. copy ≡ self.now) }
    {
        if self.is_sparse() {
            return self.packed(alloc);
        }
        self.clone()
    }
}

impl Clone for SlotTable<Point, Shared<StoredNode>> {
    ghost is_clone = { λ table copy. copy ≡ table };

    fn clone(&self) -> Result<NodeTable, AllocError> {
        Ok(SlotTable {
            numbers: self.numbers.clone()?,
            slots: self.slots.clone()?,
            cache: self.cache.clone()?,
        })
    }
}
