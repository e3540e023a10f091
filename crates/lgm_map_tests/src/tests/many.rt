//! More channels than the smallest lookup cache has entries for, some of which reuse the slots of others.

use super::item::{Item, offer_of, word_of};
use lgm_check::Refusal;
use lgm_gossip::Scid;
use lgm_script::Item as Offer;
use lgm_store::{CheckedMessage, Map, Op};
use lgm_test_gossip::{CHAIN, empty_map};
use std::alloc::Global;
use std::process::Abort;
use std::test::Fail;

/// The id of a channel: each has a block of its own.
fn id_of(number: u16) -> u64 {
    let [high, low] = number.to_be_bytes();
    u64::from_be_bytes([9, high, low, 0, 0, 1, 0, 0])
}

/// The timestamp of a channel's update.
fn time_of(number: u16) -> u32 {
    u32::from(number) + 1
}

/// Offers an item to a map as a program does, a message once it is checked.
fn offer(alloc: Global, map: &mut Map, item: &Item, mark: u16) -> Result<Op, Refusal> {
    match offer_of(alloc, item, mark)? {
        Offer::Gossip(message, evidence) => {
            let message = CheckedMessage::precheck(alloc, &CHAIN, message.as_slice(), &evidence)?;
            map.offer_checked(alloc, message)
        }
        Offer::Close(scid) => {
            let op = map.admit_close(scid)?;
            map.absorb(&op)?;
            Ok(op)
        }
    }
}

fn announce(rt: &impl Abort, alloc: Global, map: &mut Map, number: u16) {
    let channel = Item::Channel {
        id: id_of(number),
        nodes: (0, 1),
    };
    let answer = offer(alloc, map, &channel, number);
    assert_eq!(rt; word_of(&answer), "accepted", "channel {number}");
}

/// Offers the update of a channel's first direction, and returns its word.
fn update(alloc: Global, map: &mut Map, number: u16) -> &'static str {
    let update = Item::Update {
        id: id_of(number),
        flags: 0,
        timestamp: time_of(number),
        signer: 0,
    };
    word_of(&offer(alloc, map, &update, number))
}

/// Announces a channel, and updates it.
fn open(rt: &impl Abort, alloc: Global, map: &mut Map, number: u16) {
    announce(rt, alloc, map, number);
    assert_eq!(rt;
        update(alloc, map, number),
        "accepted",
        "update of {number}"
    );
}

fn close(rt: &impl Abort, alloc: Global, map: &mut Map, number: u16) {
    let id = id_of(number);
    let answer = offer(alloc, map, &Item::Close { id }, number);
    assert_eq!(rt; word_of(&answer), "accepted", "close of {number}");
}

/// The timestamp of the first direction, if there is the channel, and an update of it.
fn timestamp_of(map: &Map, number: u16) -> Option<u32> {
    map.channel_info(Scid::from_u64(id_of(number)))?
        .update_time(false)
}

/// A map of 1,500 channels, of which each third was closed before 500 others were added.
fn map_of_many(rt: &impl Abort, alloc: Global) -> Result<Box<Map>, Fail> {
    let mut map = empty_map(alloc)?;
    for number in 0..1500u16 {
        open(rt, alloc, &mut map, number);
    }
    for number in 0..1500u16 {
        if number % 3 == 0 {
            close(rt, alloc, &mut map, number);
            assert_eq!(rt;
                update(alloc, &mut map, number),
                "unknown-channel",
                "{number}"
            );
        }
    }
    for number in 1500..2000u16 {
        open(rt, alloc, &mut map, number);
    }
    Ok(map)
}

#[test]
fn numbers_are_taken_back(rt: HostRuntime) -> Result<(), Fail> {
    let alloc = rt.alloc();
    let mut map = map_of_many(&rt, alloc)?;
    assert_eq!(rt; map.count(), 1500);
    for number in 0..2000u16 {
        let is_stored = number % 3 != 0 || number >= 1500;
        let want = if is_stored {
            Some(time_of(number))
        } else {
            None
        };
        assert_eq!(rt; timestamp_of(&map, number), want, "channel {number}");
    }
    // A channel that is announced again has none of its updates.
    announce(&rt, alloc, &mut map, 300);
    assert_eq!(rt; timestamp_of(&map, 300), None);
    assert_eq!(rt; update(alloc, &mut map, 300), "accepted");
    assert_eq!(rt; timestamp_of(&map, 300), Some(301));
    assert_eq!(rt; map.count(), 1501);
    Ok(())
}
