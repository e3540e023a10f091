//! Channels with their updates by id.

ghost use Rattle.std.specs.Prelude.{◌≡◌, ◌≢◌, true, false, is_some, IfOk, OnOk, OnErr};
ghost use Rattle.std.specs.Option.{option_map, option_and_then};
ghost use Rattle.std.specs.List.Sorted.{IsStrictlySortedBy};
ghost use Rattle.std.specs.Map.{lookup, keys_of, values_of};
ghost use Rattle.std.specs.BTreeMap.{is_at, insert_entry};
ghost use Rattle.std.specs.BTreeMap.Range.{entries_between, IsLeBy, IsLtBy};
ghost use Rattle.std.specs.Range.Bound.{IsForward};
ghost use Rattle.std.specs.Ordering.{nat_cmp};
ghost use Rattle.lgm_store.specs.ChannelInfo.{update_in};
ghost use Rattle.lgm_store.specs.Rows.{is_second};
ghost use Rattle.lgm_store.specs.Admission.{update_admission, Offers};
ghost use Rattle.lgm_store.specs.inner.Decided.{update_op};
ghost use Rattle.lgm_store.specs.inner.SameKeys.{same_id};
ghost use Rattle.lgm_store.specs.inner.ChannelTable.{id_in, with_update_at};

use crate::channel_info::ChannelInfo;
use crate::iter::Channels;
use crate::lookahead::lookup::Hint;
use crate::lookahead::lookup_cache::{NO_GUESS, unless};
use crate::shared::Shared;
use crate::slot_table::{Key, Keyed, SlotTable, number_of, place};
use arrayvec::ArrayVec;
use lgm_check::{Refusal, StoredUpdate};
use lgm_gossip::{Point, Scid};
use std::alloc::{AllocError, Global};
use std::ops::Bound;

/// The number of channels whose rows are read together.
pub const ROWS_TOGETHER: usize = 16;

/// The number of their nodes.
pub(crate) const NODES: usize = 2 * ROWS_TOGETHER;

/// Channels with their updates, by id. Contracts see each id with its channel, ascending.
pub(crate) type ChannelTable = SlotTable<Scid, ChannelInfo>;

impl Key for Scid {
    /// The id as a number.
    fn cache_key(&self) -> u64 {
        self.to_u64()
    }

    ghost same = { same_id };
}

impl Keyed<Scid> for ChannelInfo {
    ghost key_of = { id_in };

    fn key(&self) -> Scid {
        self.scid()
    }

    fn copied(&self) -> Result<ChannelInfo, AllocError> {
        self.clone()
    }
}

impl SlotTable<Scid, ChannelInfo> {
    /// The number that the cache has for a channel, or one that is too large.
    #[inline(always)]
    pub(crate) fn raw_guess(&self, scid: Scid) -> usize {
        self.cache.raw_guess(scid.cache_key())
    }

    /// The guessed number, or [`NO_GUESS`] if its slot has another channel. It reads what the admission of an update
    /// compares, which is in the processor's cache then.
    #[inline(always)]
    pub(crate) fn prefetch(&self, number: usize, scid: Scid, second: bool) -> usize {
        match self.slots.get(number) {
            Some(stored) => unless(!stored.is_likely(scid, second), number),
            None => NO_GUESS,
        }
    }

    /// Reads the rows of the first [`ROWS_TOGETHER`] of these channels, so that the processor's cache has them, and returns what
    /// their nodes are cached by: in three looks, for the numbers, for what the slots have, and for the rows, each for all.
    pub(crate) fn prefetch_rows(&self, scids: &[Scid]) -> ArrayVec<u64, NODES> {
        let mut numbers = [NO_GUESS; ROWS_TOGETHER];
        for (number, scid) in numbers.iter_mut().zip(scids) {
            *number = self.raw_guess(*scid);
        }
        for (number, scid) in numbers.iter_mut().zip(scids) {
            *number = self.prefetch(*number, *scid, true);
        }
        let mut nodes = ArrayVec::new();
        for number in &numbers {
            if let Some(stored) = self.slots.get(*number) {
                stored.prefetch();
                let _ = nodes.try_push(stored.node(false).cache_key());
                let _ = nodes.try_push(stored.node(true).cache_key());
            }
        }
        nodes
    }

    /// The number that a channel may have: the one of the hint, or else the cached one.
    fn guess(&self, hint: Hint, scid: Scid) -> Option<usize> {
        match hint.slot() {
            Some(number) => Some(number),
            None => self.cache.guess(scid.cache_key()),
        }
    }

    /// The channels whose ids are in a range, ascending.
    pub(crate) fn range(&self, start: Bound<Scid>, end: Bound<Scid>) -> Channels<'_>
        requires { IsForward (IsLeBy nat_cmp) (IsLtBy nat_cmp) start end }
        ensures { result ≡ values_of (entries_between nat_cmp start end self.now) }
    {
        Channels::new(self.numbers.range((start, end)), &self.slots)
    }

    /// Adds a channel, and returns true, unless its id is in the table. Out of memory leaves the table unchanged.
    pub(crate) fn insert(&mut self, stored: ChannelInfo) -> Result<bool, AllocError>
        ensures new { result ≡ Ok true → lookup (is_at (nat_cmp (id_in stored))) self.old ≡ None }
        ensures added { result ≡ Ok true → self.new ≡ insert_entry nat_cmp self.old (id_in stored) stored }
        ensures ascend { result ≡ Ok true → IsStrictlySortedBy nat_cmp (keys_of self.new) }
        ensures present { result ≡ Ok false → is_some (lookup (is_at (nat_cmp (id_in stored))) self.old) ≡ true }
        ensures same { result ≢ Ok true → self.new ≡ self.old }
    {
        let placed = place(&mut self.numbers, &mut self.slots, &mut self.cache, stored)?;
        let Some(_) = placed else {
            return Ok(true);
        };
        Ok(false)
    }

    /// Replaces the update of a direction, if its channel is in the table.
    pub(crate) fn put_update(&mut self, row: Shared<StoredUpdate>)
        ensures { self.new ≡ with_update_at self.old row }
    {
        let (scid, second) = (row.get().scid(), row.get().is_second());
        let Some(number) = number_of(
            &self.numbers,
            &self.slots,
            self.cache.guess(scid.cache_key()),
            &scid,
        ) else {
            return;
        };
        self.cache.insert(scid.cache_key(), number);
        let stored = &mut self.slots[number];
        stored.put_update(second, row);
    }

    /// Stores an update if it is admitted, sharing its row; its channel is looked for at the hint first. A refusal leaves
    /// the table unchanged.
    pub(crate) fn offer_update(
        &mut self,
        row: &Shared<StoredUpdate>,
        signer: &Point,
        hint: Hint,
    ) -> Result<(), Refusal>
        ensures admission { let stored = lookup (is_at (nat_cmp row.now.message.short_channel_id)) self.old in
            Offers (update_op row.now result) (update_admission (option_map (λ h. h.channel) stored)
            (option_and_then (update_in (is_second row.now)) stored) row.now signer.now) }
        ensures accepted { OnOk result (self.new ≡ with_update_at self.old row.now) }
        ensures refused { OnErr result (self.new ≡ self.old) }
    {
        let scid = row.get().scid();
        let guess = self.guess(hint, scid);
        let Some(number) = number_of(&self.numbers, &self.slots, guess, &scid) else {
            return Err(Refusal::UnknownChannel);
        };
        self.cache.insert_unless(guess, scid.cache_key(), number);
        let stored = &mut self.slots[number];
        stored.offer_update(row, signer)
    }

    /// A copy, without vacant slots if most are vacant.
    pub(crate) fn copy(&self, alloc: Global) -> Result<ChannelTable, AllocError>
        ensures { IfOk result (λ copy. copy ≡ self.now) }
    {
        if self.is_sparse() {
            return self.packed(alloc);
        }
        self.clone()
    }
}

impl Clone for SlotTable<Scid, ChannelInfo> {
    ghost is_clone = { λ table copy. copy ≡ table };

    fn clone(&self) -> Result<ChannelTable, AllocError> {
        Ok(SlotTable {
            numbers: self.numbers.clone()?,
            slots: self.slots.clone()?,
            cache: self.cache.clone()?,
        })
    }
}
