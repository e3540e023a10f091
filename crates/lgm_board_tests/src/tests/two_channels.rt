//! Two channels, 600000x0x0 from A to B and 600000x1x0 from B to C, with an update of each by its first node.

use lgm_check::{ChannelRow, StoredChannel, StoredUpdate, UpdateRow};
use lgm_gossip::{BorrowedBytes, Message, Point, Scid};
use lgm_store::{Map, Op, Shared};
use lgm_test_gossip::{Channel, FREE, Terms, Update, repeated_point, written};
use std::alloc::{AllocError, Global};

/// A node: A by 0x0a, B by 0x0b, and C by 0x0c.
fn node(byte: u8) -> Point {
    repeated_point(2, byte)
}

/// The first channel.
pub fn first_channel() -> Channel<'static> {
    Channel::new(Scid::new(600_000, 0, 0), (node(0x0a), node(0x0b)))
}

fn second_channel() -> Channel<'static> {
    Channel::new(Scid::new(600_000, 1, 0), (node(0x0b), node(0x0c)))
}

/// The operation that adds a channel of 100,000 sat.
fn added(alloc: Global, channel: &Channel) -> Result<Op, AllocError> {
    let message = channel.message();
    let bytes = written(alloc, &Message::Announce(message.reborrow()))?;
    let row = ChannelRow {
        message,
        sat: 100_000,
        raw: BorrowedBytes::new(bytes.as_slice()),
    };
    Ok(Op::Channel(Shared::new(alloc, StoredChannel::of(alloc, &row)?)?))
}

/// The operation that sets an update of a channel's first node, with these terms.
fn updated(alloc: Global, channel: &Channel, terms: Terms) -> Result<Op, AllocError> {
    let message = Update {
        terms,
        ..Update::new(channel.scid, 0, 1)
    }
    .message();
    let bytes = written(alloc, &Message::ChannelUpdate(message.reborrow()))?;
    let raw = BorrowedBytes::new(bytes.as_slice());
    let row = StoredUpdate::of(alloc, &UpdateRow { message, raw })?;
    Ok(Op::Update(Shared::new(alloc, row)?))
}

/// Both channels, and then both updates.
pub fn two_channels(alloc: Global) -> Result<(Op, Op, Op, Op), AllocError> {
    let first = Terms { delta: 10, ..FREE };
    let second = Terms {
        delta: 20,
        base: 200,
        millionths: 2_000,
        ..FREE
    };
    Ok((
        added(alloc, &first_channel())?,
        added(alloc, &second_channel())?,
        updated(alloc, &first_channel(), first)?,
        updated(alloc, &second_channel(), second)?,
    ))
}

/// Whether a map has the whole row of the first channel: its capacity, and the bytes of its announcement.
pub fn has_row(map: &Map, bytes: &[u8]) -> bool {
    match map.channel(first_channel().scid) {
        Some(row) => row.sat == 100_000 && row.raw.as_slice() == bytes,
        None => false,
    }
}
