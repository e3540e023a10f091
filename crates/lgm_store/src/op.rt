//! Operations on a map.

ghost use Rattle.std.specs.Prelude.{◌≡◌, IfOk};

use crate::shared::Shared;
use lgm_check::{BanRow, StoredChannel, StoredNode, StoredUpdate};
use lgm_gossip::Scid;
use std::alloc::{AllocError, Global};

/// What an accepted item does to a map. Its row is shared with the maps that it is applied to.
#[derive(Debug, Drop)]
pub enum Op {
    /// Adds a channel.
    Channel(Shared<StoredChannel>),
    /// Sets the update of a direction of a channel.
    Update(Shared<StoredUpdate>),
    /// Sets the announcement of a node.
    Node(Shared<StoredNode>),
    /// Removes a channel, its updates, and node announcements left without a channel.
    Close(Scid),
    /// Bans the nodes of two announcements of one channel, and removes all their channels as a close does.
    Ban(Shared<BanRow>),
}

impl Op {
    /// A copy, which shares the row. Allocates nothing; the only error is that the count of owners is full, at 2^63.
    pub fn copy(&self, _alloc: Global) -> Result<Op, AllocError>
        ensures { IfOk result (λ copy. copy ≡ self.now) }
    {
        match self {
            Op::Channel(row) => Ok(Op::Channel(row.share()?)),
            Op::Update(row) => Ok(Op::Update(row.share()?)),
            Op::Node(row) => Ok(Op::Node(row.share()?)),
            Op::Close(scid) => Ok(Op::Close(*scid)),
            Op::Ban(ban) => Ok(Op::Ban(ban.share()?)),
        }
    }

    /// Reads the beginning of the row, so that the processor's cache has it. A caller that drops many operations calls
    /// this for some of them first: reads that don't depend on each other wait for the memory at the same time.
    pub fn prefetch(&self) {
        match self {
            Op::Channel(row) => row.prefetch(),
            Op::Update(row) => row.prefetch(),
            Op::Node(row) => row.prefetch(),
            Op::Close(_) => {}
            Op::Ban(ban) => ban.prefetch(),
        }
    }
}
