//! Gossip as a peer would send it, with the verdicts of a node.

use lgm_check::{Evidence, Funding, Sig};
use lgm_gossip::{Bytes, Point, Scid};
use lgm_test_gossip::{Channel, FREE, Terms, Update, repeated_point};
use std::alloc::{AllocError, Global};

/// A node by its number: a point of 33 bytes.
pub fn point(number: u8) -> Point {
    repeated_point(2, number)
}

/// A channel id by its number: this many blocks after block 600,000.
pub fn scid(number: u32) -> Scid {
    Scid::new(600_000 + number % 1_000, 0, 0)
}

/// The announcement of a channel of 100,000 sat between two nodes, with all four signatures valid.
pub fn announcement(
    alloc: Global,
    number: u32,
    first: u8,
    second: u8,
) -> Result<(Bytes, Evidence), AllocError> {
    let channel = Channel::new(scid(number), (point(first), point(second)));
    let evidence = Evidence {
        sig: Sig::AllFour(true),
        funding: Funding::Unspent(100_000),
    };
    Ok((channel.bytes(alloc)?, evidence))
}

/// An update by a channel's first node, with this base fee in msat, signed by the node.
pub fn update(
    alloc: Global,
    number: u32,
    from: u8,
    timestamp: u32,
    fee: u32,
) -> Result<(Bytes, Evidence), AllocError> {
    let update = Update {
        terms: Terms { base: fee, ..FREE },
        ..Update::new(scid(number), 0, timestamp)
    };
    let evidence = Evidence {
        sig: Sig::By(point(from)),
        funding: Funding::NotAsked,
    };
    Ok((update.bytes(alloc)?, evidence))
}
