//! A cache in front of the B-tree of a [`SlotTable`](crate::slot_table::SlotTable), of the hash table of
//! [`ChannelsByNode`](crate::channels_by_node::ChannelsByNode), and of the numbers of a view's nodes.

use std::alloc::{AllocError, Global};

/// The number of sets of the smallest cache. It grows by doubling.
const LEAST: usize = 256;

/// The multiplier of the hash, which spreads keys: 2^64 divided by the golden ratio, an odd number.
const SPREAD: u64 = 0x9e37_79b9_7f4a_7c15;

/// The number of entries of a set.
const SET: usize = 4;

/// The numbers that an entry can have are below this.
const MOST: u32 = 1 << 24;

/// The numbers of some keys, of eight bytes each: a cache of sets of four entries, the newest first.
///
/// An entry may be wrong, since two keys may have the same set and the same tag, and entries of removed keys stay. So a
/// caller checks what has the number. No contract depends on the cache.
#[derive(Clone, Drop)]
pub struct LookupCache {
    /// An entry has a number below [`MOST`], and above it a tag of eight bits, which distinguishes a key from most others
    /// with the same set.
    sets: Vec<[u32; SET]>,
}

impl LookupCache {
    /// An empty cache. Allocates nothing.
    pub fn new(alloc: Global) -> LookupCache {
        LookupCache {
            sets: Vec::new(alloc),
        }
    }

    /// An empty cache for this many keys. It is smaller if memory is short.
    pub(crate) fn for_keys(alloc: Global, keys: usize) -> LookupCache {
        let mut cache = LookupCache::new(alloc);
        for _doubling in 0..usize::BITS {
            cache.reserve(keys);
        }
        cache
    }

    /// What may be the number of a key, if an entry of its set has its tag.
    #[inline(always)]
    pub fn guess(&self, key: u64) -> Option<usize> {
        guessed(self.raw_guess(key))
    }

    /// The same, or a number that is too large for an entry. Nothing is decided by what is in
    /// memory, so the processor goes on with the next lookup before that has come.
    #[inline(always)]
    pub(crate) fn raw_guess(&self, key: u64) -> usize {
        let own = tag(key);
        match self.sets.get(self.place(key)) {
            // With its tag an entry is its number, with another it is too large.
            Some([a, b, c, d]) => {
                let (a, b, c, d) = (*a ^ own, *b ^ own, *c ^ own, *d ^ own);
                a.min(b).min(c.min(d)) as usize
            }
            None => NO_GUESS,
        }
    }

    /// Stores the number of a key, if an entry can have it. It becomes the first of its set, the others follow, and the
    /// oldest one is dropped.
    pub fn insert(&mut self, key: u64, number: usize) {
        let number = match u32::try_from(number) {
            Ok(number) if number < MOST => number,
            _ => return,
        };
        let place = self.place(key);
        let Some(set) = self.sets.get_mut(place) else {
            return;
        };
        let mut moved = tag(key) | number;
        for entry in set {
            let before = *entry;
            *entry = moved;
            if before == 0 || (before ^ tag(key)) < MOST {
                return;
            }
            moved = before;
        }
    }

    /// Stores the number of a key, unless the guess was right.
    pub(crate) fn insert_unless(&mut self, guess: Option<usize>, key: u64, number: usize) {
        if guess != Some(number) {
            self.insert(key, number);
        }
    }

    /// Enlarges the cache if it has fewer than two entries for each of this many keys. Out of memory leaves it as it is:
    /// there are more misses then.
    pub fn reserve(&mut self, keys: usize) {
        if keys / (SET / 2) > self.sets.len() {
            let _ = self.grow();
        }
    }

    fn grow(&mut self) -> Result<(), AllocError> {
        if self.sets.is_empty() {
            self.sets.resize(LEAST, [0; SET])
        } else {
            self.sets.extend_from_within(..)
        }
    }

    /// The index of a key's set, by the bits of its hash above the lower 32. In a cache of twice the length it is the
    /// same, or higher by the old length.
    #[inline(always)]
    fn place(&self, key: u64) -> usize {
        let spread = spread(key) >> 32;
        spread as usize & self.sets.len().wrapping_sub(1)
    }
}

/// The number that is guessed of a key that is not in the cache.
pub(crate) const NO_GUESS: usize = usize::MAX;

/// A number that was guessed, unless it is too large for an entry.
#[inline(always)]
pub(crate) fn guessed(number: usize) -> Option<usize> {
    if number < MOST as usize {
        Some(number)
    } else {
        None
    }
}

/// [`NO_GUESS`] if the test holds, else the number, without a branch.
#[inline(always)]
pub(crate) fn unless(holds: bool, number: usize) -> usize {
    let mask: usize = 0;
    number | mask.wrapping_sub(usize::from(holds))
}

/// A hash of a key, whose upper bits depend on all of its bits.
#[inline(always)]
fn spread(key: u64) -> u64 {
    key.wrapping_mul(SPREAD)
}

/// The tag of a key, at its place in an entry: the upper eight bits of the hash's upper half. The index of the set is
/// made of the lower bits of that half.
#[inline(always)]
fn tag(key: u64) -> u32 {
    (spread(key) >> 32) as u32 / MOST * MOST
}
