//! Items for maps, by small numbers, and the messages that they are.

use lgm_check::{Evidence, Funding, Refusal, Sig, precheck};
use lgm_gossip::{Point, Scid};
use lgm_script::Item as Offer;
use lgm_store::{Map, Op};
use lgm_test_gossip::{CHAIN, Channel, Node, Update, repeated_point};
use std::alloc::{AllocError, Global};

/// What is offered to a map. Nodes are numbers from 0 to 5, which order as their points do.
#[derive(Clone, Copy, Debug)]
pub enum Item {
    /// A channel between two nodes, the lesser one first.
    Channel {
        id: u64,
        nodes: (u8, u8),
    },
    /// An update with these channel flags, signed by a node.
    Update {
        id: u64,
        flags: u8,
        timestamp: u32,
        signer: u8,
    },
    /// A node's announcement.
    Node {
        node: u8,
        timestamp: u32,
    },
    /// A channel is closed.
    Close {
        id: u64,
    },
}

/// The point of a node. Those of 0, 1 and 2 begin with 2, the others with 3.
pub fn point_of(node: u8) -> Point {
    let byte = match node % 3 {
        0 => 5,
        1 => 10,
        _ => 255,
    };
    repeated_point(if node < 3 { 2 } else { 3 }, byte)
}

/// Offers a message to a map, which absorbs what it admits.
pub fn take_message(
    alloc: Global,
    map: &mut Map,
    message: &[u8],
    evidence: &Evidence,
) -> Result<Op, Refusal> {
    let checked = precheck(alloc, &CHAIN, message, evidence)?;
    let op = map.admit(alloc, &checked)?;
    map.absorb(&op)?;
    Ok(op)
}

fn take_close(map: &mut Map, scid: Scid) -> Result<Op, Refusal> {
    let op = map.admit_close(scid)?;
    map.absorb(&op)?;
    Ok(op)
}

/// A verdict: the message's one signature is by this node.
pub fn by(node: Point) -> Evidence {
    Evidence {
        sig: Sig::By(node),
        funding: Funding::NotAsked,
    }
}

/// A verdict: the four signatures are right, and the output has this many satoshi.
pub fn funded(sat: u64) -> Evidence {
    Evidence {
        sig: Sig::AllFour(true),
        funding: Funding::Unspent(sat),
    }
}

/// What an item offers to a map. The mark follows the message's last field, and is also the capacity of a channel in
/// satoshi.
pub fn offer_of(alloc: Global, item: &Item, mark: u16) -> Result<Offer, AllocError> {
    let rest: &[u8] = &mark.to_be_bytes();
    let (message, evidence) = match *item {
        Item::Channel { id, nodes } => {
            let nodes = (point_of(nodes.0), point_of(nodes.1));
            let usual = Channel::new(Scid::from_u64(id), nodes);
            let message = Channel { rest, ..usual }.bytes(alloc)?;
            (message, funded(u64::from(mark)))
        }
        Item::Update {
            id,
            flags,
            timestamp,
            signer,
        } => {
            let usual = Update::new(Scid::from_u64(id), flags, timestamp);
            let message = Update { rest, ..usual }.bytes(alloc)?;
            (message, by(point_of(signer)))
        }
        Item::Node { node, timestamp } => {
            let usual = Node::new(point_of(node), timestamp);
            let message = Node { rest, ..usual }.bytes(alloc)?;
            (message, by(point_of(node)))
        }
        Item::Close { id } => return Ok(Offer::Close(Scid::from_u64(id))),
    };
    Ok(Offer::Gossip(message, evidence))
}

/// Offers this to a map, which absorbs what it admits.
pub fn take_offer(alloc: Global, map: &mut Map, offer: &Offer) -> Result<Op, Refusal> {
    match offer {
        Offer::Gossip(message, evidence) => {
            take_message(alloc, map, message.as_slice(), evidence)
        }
        Offer::Close(scid) => take_close(map, *scid),
    }
}

/// Offers an item to a map, with a mark.
pub fn take(alloc: Global, map: &mut Map, item: &Item, mark: u16) -> Result<Op, Refusal> {
    take_offer(alloc, map, &offer_of(alloc, item, mark)?)
}

/// The word of an item's outcome.
pub fn word_of(answer: &Result<Op, Refusal>) -> &'static str {
    match answer {
        Ok(_) => "accepted",
        Err(refusal) => refusal.word(),
    }
}
