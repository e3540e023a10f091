//! The examples of BOLT 7 for queries and replies, on the chain for regression tests.

use super::words::{assert_fault, assert_kept, bytes_of};
use lgm_gossip::{DecodeFault, Message, RangeReply, Scid, Timestamps, decode};
use std::alloc::Global;
use std::test::Fail;

const CHAIN: &str = "0f9188f13cb7b2c71f2a335e3a4fc328bf5beb436012afca590b1a11466e2206";

/// Those that are written as they were read.
#[test]
fn plain(rt: HostRuntime) -> Result<(), Fail> {
    let ids = "0019 00 000000000000008e0000000000003c69000000000045a6c4";
    for words in [
        format!(in rt.alloc(); "0107 {CHAIN} 000186a0000005dc")?,
        format!(in rt.alloc(); "0107 {CHAIN} 000088b800000064 010103")?,
        format!(in rt.alloc(); "0108 {CHAIN} 000b8a06000005dc01 {ids}")?,
        format!(in rt.alloc(); "0105 {CHAIN} {ids}")?,
    ] {
        assert_kept(&rt, rt.alloc(), words.as_str())?;
    }
    Ok(())
}

/// The reply with timestamps and checksums.
fn full_reply(alloc: Global) -> Result<Option<RangeReply>, Fail> {
    let words = format!(in alloc;
        "0108 {CHAIN} 0001ddde000005dc01 0019 00 000000000000304300000000000778d6000000000046e1c1 \
         0119 00 000282c1000e77c5000778ad00490ab00000b57800955bff \
         0318 00000457000008ae00000d050000115c000015b300001a0a"
    )?;
    let bytes = bytes_of(alloc, words.as_str())?;
    match decode(alloc, bytes.as_slice())? {
        Message::RangeReply(reply) => Ok(Some(reply)),
        _ => Ok(None),
    }
}

#[test]
fn timestamps_of_a_reply(rt: HostRuntime) -> Result<(), Fail> {
    let reply = full_reply(rt.alloc())?.ok_or("another type")?;
    let want = [
        (164_545, 948_165),
        (489_645, 4_786_864),
        (46_456, 9_788_415),
    ]
    .map(|(node_1, node_2)| Timestamps { node_1, node_2 });
    let timestamps = reply.timestamps.ok_or("no timestamps")?;
    assert_eq!(rt; timestamps.as_slice(), want.as_slice());
    Ok(())
}

#[test]
fn ids_of_a_reply(rt: HostRuntime) -> Result<(), Fail> {
    let reply = full_reply(rt.alloc())?.ok_or("another type")?;
    assert_eq!(rt;
        (reply.first_blocknum, reply.number_of_blocks),
        (122_334, 1_500)
    );
    let want = [12_355, 489_686, 4_645_313].map(Scid::from_u64);
    assert_eq!(rt; reply.ids.as_slice(), want.as_slice());
    Ok(())
}

/// Flags that are compressed.
#[test]
fn compressed_flags(rt: HostRuntime) -> Result<(), Fail> {
    let words = format!(in rt.alloc();
        "0105 {CHAIN} 0019 00 0000000000002fc80000000000003cc4000000000045a6c4 010c 01 789c6364620100000e0008"
    )?;
    assert_fault(&rt, rt.alloc(), words.as_str(), DecodeFault::Encoding(1))
}
