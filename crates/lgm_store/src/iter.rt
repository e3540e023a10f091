//! Iterators over a map.

ghost use Rattle.std.specs.Prelude.{◌≡◌, ◌++◌, filter};
ghost use Rattle.std.specs.Map.{values_of};
ghost use Rattle.std.specs.Iterator.{YieldsFirstRef, item_count};
ghost use Rattle.lgm_store.specs.Keys.{point_of};
ghost use Rattle.lgm_store.specs.Reading.{is_between};
ghost use Rattle.lgm_store.specs.inner.Slots.{entries_in, HaveOwn};
ghost use Rattle.lgm_store.specs.inner.ChannelTable.{id_in};

use crate::channel_info::ChannelInfo;
use crate::channel_table::ROWS_TOGETHER;
use crate::shared::Shared;
use arrayvec::ArrayVec;
use lgm_check::StoredNode;
use lgm_gossip::{Point, Scid};
use slab::Slab;
use std::collections::btree_map::Range;
use std::marker::Model;

/// An iterator over the channels of a map with their updates, by id. Contracts see the list of those still to come.
///
/// A step needs no search, and allocates nothing.
#[derive(Drop)]
pub struct Channels<'a> {
    numbers: Range<'a, Scid, usize>,
    slots: &'a Slab<ChannelInfo>,
}

impl<'a> Model for Channels<'a> {
    ghost use Rattle.std.specs.Prelude.{List};
    ghost use Rattle.std.specs.Map.{values_of};
    ghost use Rattle.lgm_store.specs.declared.channel_info.ChannelInfo.{ChannelInfo};
    ghost use Rattle.lgm_store.specs.inner.Slots.{entries_in, HaveOwn};
    ghost use Rattle.lgm_store.specs.inner.ChannelTable.{id_in};

    ghost Value = { List ChannelInfo };

    ghost view = { λ c. values_of (entries_in c.slots.now.slots c.numbers) };

    ghost invariant = { λ c. HaveOwn id_in c.slots.now.slots c.numbers };
}

impl<'a> Channels<'a> {
    /// The channels of these slots, each of which has the channel of its id.
    pub(crate) fn new(numbers: Range<'a, Scid, usize>, slots: &'a Slab<ChannelInfo>) -> Channels<'a>
        requires { HaveOwn id_in slots.now.slots numbers }
        ensures { result ≡ values_of (entries_in slots.now.slots numbers.entry) }
    {
        Channels { numbers, slots }
    }

    /// The same channels, of which some are read together: what is stored inline, and if `rows` the beginning of each row.
    pub fn together(self, rows: bool) -> ChannelsTogether<'a>
        ensures { result ≡ self.entry }
    {
        let Channels { numbers, slots } = self;
        ChannelsTogether {
            ahead: ArrayVec::new(),
            place: 0,
            numbers,
            slots,
            rows,
            seen: 0,
        }
    }
}

impl<'a> Iterator for Channels<'a> {
    type Item = &'a ChannelInfo;

    ghost next_gives = { YieldsFirstRef (λ left. left) };

    ghost remaining = { item_count (λ left. left) };

    fn next(&mut self) -> Option<&'a ChannelInfo> {
        let (_, number) = self.numbers.next()?;
        Some(&self.slots[*number])
    }
}

/// The ids of some channels, and their slot numbers.
type Numbers = ArrayVec<(u64, usize), ROWS_TOGETHER>;

/// An iterator over the channels of a map, by id, for a caller that does little with each. Contracts see the list of those
/// still to come.
///
/// Reads that don't depend on each other wait for the memory at the same time. So some channels are read, and then given
/// one by one. A caller that does more has the processor read the next channels meanwhile.
#[derive(Drop)]
pub struct ChannelsTogether<'a> {
    /// The next channels, which were read.
    ahead: Numbers,
    /// The index of the next of these.
    place: usize,
    /// The channels behind these.
    numbers: Range<'a, Scid, usize>,
    slots: &'a Slab<ChannelInfo>,
    /// Whether the beginning of each row is read too.
    rows: bool,
    /// What was read of the slots. It is stored, since the compiler drops a read whose result isn't used. No contract
    /// depends on it.
    seen: u32,
}

impl<'a> Model for ChannelsTogether<'a> {
    ghost use Rattle.std.specs.Prelude.{List, ◌++◌, drop};
    ghost use Rattle.std.specs.Map.{values_of};
    ghost use Rattle.lgm_store.specs.declared.channel_info.ChannelInfo.{ChannelInfo};
    ghost use Rattle.lgm_store.specs.inner.Slots.{entries_in, HaveOwn};
    ghost use Rattle.lgm_store.specs.inner.ChannelTable.{id_in};

    ghost Value = { List ChannelInfo };

    ghost view = { λ c. values_of (entries_in c.slots.now.slots (drop c.place c.ahead.items ++ c.numbers)) };

    ghost invariant = { λ c. HaveOwn id_in c.slots.now.slots (drop c.place c.ahead.items ++ c.numbers) };
}

impl<'a> Iterator for ChannelsTogether<'a> {
    type Item = &'a ChannelInfo;

    ghost next_gives = { YieldsFirstRef (λ left. left) };

    ghost remaining = { item_count (λ left. left) };

    #[inline(always)]
    fn next(&mut self) -> Option<&'a ChannelInfo> {
        if let Some((_, number)) = self.ahead.get(self.place).copied() {
            self.place += 1;
            return Some(&self.slots[number]);
        }
        let (_, number) = self.numbers.next()?;
        take_next(&mut self.ahead, &mut self.numbers);
        self.place = 0;
        self.seen = read_slots(self.slots, &self.ahead, self.rows);
        Some(&self.slots[*number])
    }
}

/// Replaces these by the next ones, at most [`ROWS_TOGETHER`].
#[inline(never)]
fn take_next(ahead: &mut Numbers, numbers: &mut Range<'_, Scid, usize>)
    ensures { numbers.old ≡ ahead.new.items ++ numbers.new }
{
    ahead.clear();
    while !ahead.is_full() {
        let Some((scid, number)) = numbers.next() else {
            return;
        };
        ahead.push((scid.to_u64(), *number));
    }
}

/// Reads what an iteration reads of these slots, and then the beginning of each row if rows are read.
#[inline(never)]
fn read_slots(slots: &Slab<ChannelInfo>, ahead: &Numbers, rows: bool) -> u32 {
    let mut seen = 0;
    for (_, number) in ahead.as_slice() {
        if let Some(stored) = slots.get(*number) {
            seen ^= stored.inline_word();
        }
    }
    if rows {
        read_rows(slots, ahead);
    }
    seen
}

/// Reads the beginning of each row of these slots.
fn read_rows(slots: &Slab<ChannelInfo>, ahead: &Numbers) {
    for (_, number) in ahead.as_slice() {
        if let Some(stored) = slots.get(*number) {
            stored.prefetch();
        }
    }
}

/// An iterator over the channels funded in a range of blocks, with their updates, by id. Contracts see the list of
/// those still to come.
///
/// A step needs no search, and allocates nothing.
#[derive(Drop)]
pub struct ChannelsBetween<'a> {
    /// The channels still to come; those of other blocks are skipped.
    channels: ChannelsTogether<'a>,
    from: u64,
    to: u64,
}

impl<'a> Model for ChannelsBetween<'a> {
    ghost use Rattle.std.specs.Prelude.{List, filter};
    ghost use Rattle.lgm_store.specs.declared.channel_info.ChannelInfo.{ChannelInfo};
    ghost use Rattle.lgm_store.specs.Reading.{is_between};
    ghost use Rattle.lgm_store.specs.inner.ChannelTable.{id_in};

    ghost Value = { List ChannelInfo };

    ghost view = { λ c. filter (λ stored. is_between (id_in stored) c.from c.to) c.channels };
}

impl<'a> ChannelsBetween<'a> {
    pub(crate) fn new(channels: Channels<'a>, from: u64, to: u64) -> ChannelsBetween<'a>
        ensures { result ≡ filter (λ stored. is_between (id_in stored) from to) channels.entry }
    {
        ChannelsBetween {
            channels: channels.together(false),
            from,
            to,
        }
    }
}

impl<'a> Iterator for ChannelsBetween<'a> {
    type Item = &'a ChannelInfo;

    ghost next_gives = { YieldsFirstRef (λ left. left) };

    ghost remaining = { item_count (λ left. left) };

    fn next(&mut self) -> Option<&'a ChannelInfo> {
        while let Some(stored) = self.channels.next() {
            if is_between(stored.scid(), self.from, self.to) {
                return Some(stored);
            }
        }
        None
    }
}

/// Whether an id's block is at least `from` and below `to`.
fn is_between(scid: Scid, from: u64, to: u64) -> bool
    ensures { result ≡ is_between scid from to }
{
    let block = u64::from(scid.block());
    from <= block && block < to
}

/// An iterator over the node announcements of a map, by node id. Contracts see the list of those still to come.
///
/// A step needs no search, and allocates nothing.
#[derive(Drop)]
pub struct Nodes<'a> {
    numbers: Range<'a, Point, usize>,
    slots: &'a Slab<Shared<StoredNode>>,
}

impl<'a> Model for Nodes<'a> {
    ghost use Rattle.std.specs.Prelude.{List};
    ghost use Rattle.std.specs.Map.{values_of};
    ghost use Rattle.lgm_check.specs.declared.row.NodeRow.{NodeRow};
    ghost use Rattle.lgm_store.specs.Keys.{point_of};
    ghost use Rattle.lgm_store.specs.inner.Slots.{entries_in, HaveOwn};

    ghost Value = { List NodeRow };

    ghost view = { λ n. values_of (entries_in n.slots.now.slots n.numbers) };

    ghost invariant = { λ n. HaveOwn point_of n.slots.now.slots n.numbers };
}

impl<'a> Nodes<'a> {
    /// The announcements of these slots, each of which has that of its node.
    pub(crate) fn new(
        numbers: Range<'a, Point, usize>,
        slots: &'a Slab<Shared<StoredNode>>,
    ) -> Nodes<'a>
        requires { HaveOwn point_of slots.now.slots numbers }
        ensures { result ≡ values_of (entries_in slots.now.slots numbers.entry) }
    {
        Nodes { numbers, slots }
    }
}

impl<'a> Iterator for Nodes<'a> {
    type Item = &'a StoredNode;

    ghost next_gives = { YieldsFirstRef (λ left. left) };

    ghost remaining = { item_count (λ left. left) };

    fn next(&mut self) -> Option<&'a StoredNode> {
        let (_, number) = self.numbers.next()?;
        Some(self.slots[*number].get())
    }
}
