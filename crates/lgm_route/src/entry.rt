//! Entries of a priority queue.

ghost use Rattle.std.specs.Prelude.{◌≡◌, ◌^◌, ◌-◌, ◌%◌, ◌/◌, ◌<◌, min};

/// The greatest amount that an entry distinguishes, in msat: 2^33 - 1.
const MAX_PACKED_AMOUNT: u64 = 8_589_934_591;

/// The number of indices that entries distinguish: 2^26.
const PLACES: u64 = 67_108_864;

/// The same for numbers of edges: 2^5.
const COUNTS: u64 = 32;

/// An index in a [`BinaryHeap`](std::collections::BinaryHeap): the least amount comes first, then the fewest edges.
/// Amounts from 2^33 - 1 msat on count as equal. No contract depends on the order: whoever pops an entry checks its
/// index.
#[derive(Clone, Copy, PartialEq, Eq, PartialOrd, Ord)]
pub(crate) struct Entry {
    key: u64,
}

impl Entry {
    pub(crate) fn new(amount: u64, hops: u32, place: usize) -> Entry
        ensures amount { (2 ^ 64 - 1 - result.key) / 2 ^ 31 ≡ min amount (2 ^ 33 - 1) }
        ensures place { (2 ^ 64 - 1 - result.key) % 2 ^ 26 ≡ place % 2 ^ 26 }
    {
        let amount = amount.min(MAX_PACKED_AMOUNT);
        let order = (amount * COUNTS + hops as u64 % COUNTS) * PLACES + place as u64 % PLACES;
        Entry {
            key: u64::MAX - order,
        }
    }

    /// The index, below 2^26.
    pub(crate) fn place(&self) -> usize
        ensures { result ≡ (2 ^ 64 - 1 - self.now.key) % 2 ^ 26 }
    {
        ((u64::MAX - self.key) % PLACES) as usize
    }

    /// The amount, up to 2^33 - 1 msat.
    pub(crate) fn amount(&self) -> u64
        ensures { result ≡ (2 ^ 64 - 1 - self.now.key) / 2 ^ 31 }
    {
        (u64::MAX - self.key) / (COUNTS * PLACES)
    }

    /// Whether the amount is the original one; if not, that may be greater.
    pub(crate) fn is_exact(&self) -> bool {
        self.amount() < MAX_PACKED_AMOUNT
    }

    /// Whether both have the same amount, up to 2^33 - 1 msat, and the same number of edges.
    pub(crate) fn is_level_with(self, other: Entry) -> bool {
        (u64::MAX - self.key) / PLACES == (u64::MAX - other.key) / PLACES
    }
}
