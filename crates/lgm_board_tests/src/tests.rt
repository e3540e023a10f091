//! Boards and worlds over one channel, with answers that were worked out by hand.

mod boards;
mod bounds;
mod refused;
mod seeds;
mod shown;
mod two_channels;
mod worlds;

use lgm_gossip::Scid;
use lgm_store::Op;
use lgm_test_gossip::{FREE, ops};
use std::alloc::{AllocError, Global};

/// The channel's id: block 600,000.
fn scid() -> Scid {
    Scid::new(600_000, 0, 0)
}

/// The announcement of the channel between the nodes 10 and 11, of 100,000 sat.
fn channel(alloc: Global) -> Result<Op, AllocError> {
    ops::channel(alloc, scid(), (10, 11), 100_000, &[])
}

/// An update of the direction from node 10, which is 0, or from node 11, which is 1.
fn update(alloc: Global, direction: u8) -> Result<Op, AllocError> {
    ops::update(alloc, scid(), direction, &FREE)
}
