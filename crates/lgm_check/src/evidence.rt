//! The caller's verdicts on signatures and the funding output.

use lgm_gossip::Point;

/// The caller's verdicts on a message.
#[derive(Clone, Copy, Debug, PartialEq, Eq)]
pub struct Evidence {
    /// The verdict on the signatures: all four of a channel announcement, the only one of any other message.
    pub sig: Sig,
    /// The verdict on the funding output, used for channel announcements alone.
    pub funding: Funding,
}

/// The verdict on a message's signatures.
#[derive(Clone, Copy, Debug, PartialEq, Eq)]
pub enum Sig {
    /// Whether all four signatures of a `channel_announcement` are valid.
    AllFour(bool),
    /// The signature is valid, and by this node.
    By(Point),
    /// The signature is no node's.
    Nobody,
}

/// The verdict on the funding output of a `channel_announcement`.
#[derive(Clone, Copy, Debug, PartialEq, Eq)]
pub enum Funding {
    /// Unspent, pays to the 2-of-2 of the two bitcoin keys, and has this many satoshi.
    Unspent(u64),
    /// Spent.
    Spent,
    /// Doesn't exist, or pays to something else.
    Wrong,
    /// No verdict was requested.
    NotAsked,
}
