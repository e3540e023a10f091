//! Timestamps of a channel's updates.

/// The timestamps of a channel's two updates, in seconds since 1970; 0 if there is none (BOLT 7, "The
/// query_channel_range and reply_channel_range Messages").
#[derive(Clone, Copy, Debug, PartialEq, Eq)]
pub struct Timestamps {
    /// Of the update by node 1.
    pub node_1: u32,
    /// Of the update by node 2.
    pub node_2: u32,
}
