//! Operations of few numbers, as a map absorbs them.

use crate::channel::Channel;
use crate::node::Node;
use crate::points::point;
use crate::terms::Terms;
use crate::update::Update;
use crate::writing::written;
use lgm_check::{BanRow, ChannelRow, NodeRow, StoredChannel, StoredNode, StoredUpdate, UpdateRow};
use lgm_gossip::{BorrowedBytes, Message, Scid};
use lgm_store::{Op, Shared};
use std::alloc::{AllocError, Global};

/// The announcement of a channel between two nodes, of this capacity in satoshi, with these features.
pub fn channel(
    alloc: Global,
    scid: Scid,
    nodes: (u16, u16),
    sat: u64,
    features: &[u8],
) -> Result<Op, AllocError> {
    let channel = Channel {
        features,
        ..Channel::new(scid, (point(nodes.0), point(nodes.1)))
    };
    let message = channel.message();
    let bytes = written(alloc, &Message::Announce(message.reborrow()))?;
    let raw = BorrowedBytes::new(bytes.as_slice());
    let kept = StoredChannel::of(alloc, &ChannelRow { message, sat, raw })?;
    Ok(Op::Channel(Shared::new(alloc, kept)?))
}

/// An update with these channel flags and terms.
pub fn update(alloc: Global, scid: Scid, flags: u8, terms: &Terms) -> Result<Op, AllocError> {
    let update = Update {
        terms: *terms,
        ..Update::new(scid, flags, 1)
    };
    let message = update.message();
    let bytes = written(alloc, &Message::ChannelUpdate(message.reborrow()))?;
    let raw = BorrowedBytes::new(bytes.as_slice());
    let kept = StoredUpdate::of(alloc, &UpdateRow { message, raw })?;
    Ok(Op::Update(Shared::new(alloc, kept)?))
}

/// The announcement of a node with these features.
pub fn node(alloc: Global, number: u16, features: &[u8]) -> Result<Op, AllocError> {
    let node = Node {
        features,
        ..Node::new(point(number), 1)
    };
    let message = node.message();
    let bytes = written(alloc, &Message::NodeAnnounce(message.reborrow()))?;
    let raw = BorrowedBytes::new(bytes.as_slice());
    let kept = StoredNode::of(alloc, &NodeRow { message, raw })?;
    Ok(Op::Node(Shared::new(alloc, kept)?))
}

/// A ban of four nodes: those of the channel in the map, and those of the conflicting announcement.
pub fn ban(alloc: Global, nodes: [u16; 4]) -> Result<Op, AllocError> {
    let [held1, held2, new1, new2] = nodes;
    let row = BanRow {
        held1: point(held1),
        held2: point(held2),
        new1: point(new1),
        new2: point(new2),
    };
    Ok(Op::Ban(Shared::new(alloc, row)?))
}
