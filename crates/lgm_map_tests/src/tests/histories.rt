//! The history of a channel, and the maps of its prefixes.

use super::item::{by, funded, take_message, word_of};
use lgm_gossip::{Point, Scid};
use lgm_store::{Map, Op};
use lgm_test_gossip::{Channel, FREE, Terms, Update, empty_map, repeated_point};
use std::alloc::{AllocError, Global};
use std::process::Abort;
use std::test::Fail;

/// The channel 600000x1x0.
const ID: u64 = 0x0927_c000_0001_0000;

/// The node `02` and 32 times a byte.
fn point(byte: u8) -> Point {
    repeated_point(2, byte)
}

/// An update and its word: channel flags, timestamp, base fee in msat, and the node that signed it.
type Offered = (u8, u32, u32, Point, &'static str);

/// Offers an update, and adds what it does to the history.
fn offer(
    rt: &impl Abort,
    alloc: Global,
    map: &mut Map,
    history: &mut Vec<Op>,
    row: Offered,
) -> Result<(), AllocError> {
    let (flags, timestamp, base, signer, want) = row;
    let update = Update {
        terms: Terms { base, ..FREE },
        ..Update::new(Scid::from_u64(ID), flags, timestamp)
    };
    let message = update.bytes(alloc)?;
    let answer = take_message(alloc, map, message.as_slice(), &by(signer));
    assert_eq!(rt; word_of(&answer), want, "timestamp {timestamp}");
    if let Ok(op) = answer {
        history.push(op)?;
    }
    Ok(())
}

/// A map with the channel between `0a` and `0b`.
fn announced(alloc: Global, history: &mut Vec<Op>) -> Result<Box<Map>, Fail> {
    let mut map = empty_map(alloc)?;
    let nodes = (point(0x0a), point(0x0b));
    let message = Channel::new(Scid::from_u64(ID), nodes).bytes(alloc)?;
    let op = take_message(alloc, &mut map, message.as_slice(), &funded(100_000))?;
    history.push(op)?;
    Ok(map)
}

/// The accepted operations of the channel and of updates of both directions.
fn history(rt: &impl Abort, alloc: Global) -> Result<Vec<Op>, Fail> {
    let mut history = Vec::new(alloc);
    let mut map = announced(alloc, &mut history)?;
    let (a, b) = (point(0x0a), point(0x0b));
    let updates: [Offered; 6] = [
        (0, 5, 0, a, "accepted"),
        (0, 5, 7, a, "not-newer"),
        (0, 4, 0, a, "not-newer"),
        (0, 6, 0, a, "accepted"),
        (0, 7, 0, b, "signature"),
        (1, 1, 0, b, "accepted"),
    ];
    for row in updates {
        offer(rt, alloc, &mut map, &mut history, row)?;
    }
    Ok(history)
}

fn timestamp_of(map: &Map, second: bool) -> Option<u32> {
    let row = map.update(Scid::from_u64(ID), second)?;
    Some(row.message.timestamp)
}

/// One channel, whose directions have the timestamps 6 and 1.
fn assert_reads(rt: &impl Abort, map: &Map) {
    assert_eq!(rt; map.count(), 1);
    assert_eq!(rt; timestamp_of(map, false), Some(6));
    assert_eq!(rt; timestamp_of(map, true), Some(1));
}

/// The map that a history leaves, and its copy, read so.
fn assert_leaves(rt: &impl Abort, alloc: Global, history: &[Op]) -> Result<(), AllocError> {
    let map = Box::new(alloc, Map::replay(alloc, history)?)?;
    assert_reads(rt, &map);
    let copy = Box::new(alloc, map.copy(alloc)?)?;
    assert_reads(rt, &copy);
    Ok(())
}

fn copies_of(alloc: Global, history: &[Op]) -> Result<Vec<Op>, AllocError> {
    let mut copies = Vec::new(alloc);
    for op in history {
        copies.push(op.copy(alloc)?)?;
    }
    Ok(copies)
}

#[test]
fn replayed_and_copied(rt: HostRuntime) -> Result<(), Fail> {
    let alloc = rt.alloc();
    let history = history(&rt, alloc)?;
    assert_eq!(rt; history.len(), 4);
    assert_leaves(&rt, alloc, history.as_slice())?;
    let copies = copies_of(alloc, history.as_slice())?;
    assert_leaves(&rt, alloc, copies.as_slice())?;
    Ok(())
}
