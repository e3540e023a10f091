//! Timestamp filters.

/// The gossip that a peer requests: timestamps from `first` on, for `range` seconds (BOLT 7, "The
/// gossip_timestamp_filter Message").
#[derive(Clone, Copy, Debug, PartialEq, Eq)]
pub struct Filter {
    /// The first timestamp that passes, in seconds since 1970.
    pub first: u32,
    /// The number of seconds from there on that pass; the range may extend beyond the greatest timestamp.
    pub range: u32,
}

impl Filter {
    ghost use Rattle.std.specs.Prelude.{◌≡◌};
    ghost use Rattle.lgm_query.specs.Backlog.{passes};

    /// Whether `first` ≤ timestamp < `first + range`, where the sum doesn't wrap.
    pub fn passes(&self, timestamp: u32) -> bool
        ensures { result ≡ passes self.now timestamp }
    {
        let end = u64::from(self.first) + u64::from(self.range);
        self.first <= timestamp && u64::from(timestamp) < end
    }
}
