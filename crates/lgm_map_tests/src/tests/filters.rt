//! Backlogs of a map, and news between two, by their calls.

use super::item::take_offer;
use lgm_gossip::Scid;
use lgm_query::{Backlog, Filter, ReplyMessage, backlog, news};
use lgm_store::Map;
use lgm_test_gossip::empty_map;
use lgm_test_gossip::ops::channel;
use lgm_test_scripts::{item_of, spelled};
use std::alloc::{AllocError, Global};
use std::process::Abort;
use std::test::Fail;

/// Passes all timestamps but the last.
const ALL: Filter = Filter {
    first: 0,
    range: 4_294_967_295,
};

/// Offers the items of lines to a map that admits them.
fn take_lines(alloc: Global, map: &mut Map, lines: &str) -> Result<(), Fail> {
    let text = spelled(alloc, lines)?;
    for line in text.as_str().lines() {
        if let Some(item) = item_of(alloc, line)? {
            take_offer(alloc, map, &item)?;
        }
    }
    Ok(())
}

fn map_of(alloc: Global, lines: &str) -> Result<Box<Map>, Fail> {
    let mut map = empty_map(alloc)?;
    take_lines(alloc, &mut map, lines)?;
    Ok(map)
}

/// A line for each message, of its digits.
fn text_of(alloc: Global, messages: &[ReplyMessage<'_>]) -> Result<String, AllocError> {
    let mut text = String::new(alloc);
    for message in messages {
        for byte in message.as_slice() {
            text.push_str(format!(in alloc; "{byte:02x}")?.as_str())?;
        }
        text.push_str("\n")?;
    }
    Ok(text)
}

#[test]
fn a_range_ends_at_the_greatest_timestamp(rt: HostRuntime) -> Result<(), Fail> {
    let last = Filter {
        first: 4_294_967_295,
        range: 2,
    };
    assert!(rt; last.passes(4_294_967_295));
    assert!(rt; !last.passes(0));
    for first in [0, 5, 4_294_967_295] {
        let none = Filter { first, range: 0 };
        assert!(rt; !none.passes(0) && !none.passes(5) && !none.passes(4_294_967_295));
    }
    Ok(())
}

/// The messages of a map's backlog.
fn assert_backlog(
    rt: &impl Abort,
    alloc: Global,
    lines: &str,
    filter: Filter,
    want: &str,
) -> Result<(), Fail> {
    let map = map_of(alloc, lines)?;
    let messages = backlog(alloc, &map, &filter)?;
    let text = text_of(alloc, messages.as_slice())?;
    assert_eq!(rt; text.as_str(), spelled(alloc, want)?.as_str());
    Ok(())
}

#[test]
fn backlogs_of_a_map(rt: HostRuntime) -> Result<(), Fail> {
    let alloc = rt.alloc();
    let two = "m ca(1x0x0,A,B) all 100000\nm cu(1x0x0,0,5) A -\nm cu(1x0x0,1,9) B -\n";
    let five = Filter { first: 5, range: 1 };
    assert_backlog(&rt, alloc, two, five, "ca(1x0x0,A,B)\ncu(1x0x0,0,5)\n")?;
    let newer =
        "m ca(600000x1x0,A,B) all 100000\nm cu(600000x1x0,0,5) A -\nm cu(600000x1x0,0,6) A -\n";
    let six = Filter { first: 6, range: 1 };
    let want = "ca(600000x1x0,A,B)\ncu(600000x1x0,0,6)\n";
    assert_backlog(&rt, alloc, newer, six, want)?;
    let node = "m ca(1x0x0,A,B) all 100000\nm ca(2x0x0,B,C) all 100000\nm na(B,5) B -\n";
    assert_backlog(&rt, alloc, node, five, "na(B,5)\n")
}

/// The news of a map after it took further items.
fn assert_news(
    rt: &impl Abort,
    alloc: Global,
    before: &str,
    further: &str,
    want: &str,
) -> Result<(), Fail> {
    let map = map_of(alloc, before)?;
    let mut later = Box::new(alloc, map.copy(alloc)?)?;
    take_lines(alloc, &mut later, further)?;
    let messages = news(alloc, &map, &later, &ALL)?;
    let text = text_of(alloc, messages.as_slice())?;
    assert_eq!(rt; text.as_str(), spelled(alloc, want)?.as_str());
    Ok(())
}

/// An announcement is news once an update of its channel passes. What is announced again with the same bytes isn't.
#[test]
fn news_between_two_maps(rt: HostRuntime) -> Result<(), Fail> {
    let alloc = rt.alloc();
    let channel = "m ca(1x0x0,A,B) all 100000\n";
    let updated = "m ca(1x0x0,A,B) all 100000\nm cu(1x0x0,0,5) A -\n";
    assert_news(&rt, alloc, "", channel, "")?;
    let first = "ca(1x0x0,A,B)\ncu(1x0x0,0,5)\n";
    assert_news(&rt, alloc, channel, "m cu(1x0x0,0,5) A -\n", first)?;
    assert_news(
        &rt,
        alloc,
        updated,
        "m cu(1x0x0,0,6) A -\n",
        "cu(1x0x0,0,6)\n",
    )?;
    let again = "close 1x0x0\nm ca(1x0x0,A,B) all 100000\nm cu(1x0x0,0,5) A -\n";
    assert_news(&rt, alloc, updated, again, "")
}

/// An empty range passes nothing, and costs nothing: with a pass over 20,000 channels for each of 1,000,000 filters this
/// would take minutes.
#[test]
fn an_empty_range_walks_no_map(rt: HostRuntime) -> Result<(), Fail> {
    let alloc = rt.alloc();
    let mut map = empty_map(alloc)?;
    for number in 0..20_000u64 {
        map.absorb(&channel(alloc, Scid::from_u64(number), (10, 11), 100_000, &[])?)?;
    }
    let none = Filter { first: 0, range: 0 };
    let mut passing = 0u64;
    for _ in 0..1_000_000 {
        if Backlog::of(&map, &none).next().is_some() {
            passing = passing.saturating_add(1);
        }
    }
    assert_eq!(rt; passing, 0);
    Ok(())
}
