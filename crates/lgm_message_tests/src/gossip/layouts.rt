//! The fields of each message, each with a value of its own, and the bytes that they are.

use super::words::{assert_kept, bytes_of};
use lgm_gossip::{
    Announce, BorrowedBytes, ChainHash, ChannelUpdate, FilterMsg, IdsEnd, IdsQuery, Message,
    NodeAnnounce, Point, QueryFlags, RangeQuery, RangeReply, Scid, Scids, Signature, TimestampList,
    Timestamps, encode,
};
use std::alloc::Global;
use std::process::Abort;
use std::test::Fail;

const CHAIN: ChainHash = ChainHash([0xc1; 32]);

const SIGNATURE: [u8; 64] = [1; 64];

/// Whether the message is written as the words, and these are read as it.
fn assert_spelled(
    rt: &impl Abort,
    alloc: Global,
    message: &Message,
    words: &str,
) -> Result<(), Fail> {
    let written = encode(alloc, message)?;
    let wanted = bytes_of(alloc, words)?;
    assert_eq!(rt; written.as_slice(), wanted.as_slice(), "writing {words}");
    assert_kept(rt, alloc, words)
}

#[test]
fn announcement(rt: HostRuntime) -> Result<(), Fail> {
    let (one, two, three, four) = ([1; 64], [2; 64], [3; 64], [4; 64]);
    let message = Message::Announce(Announce {
        node_signature_1: Signature::new(&one),
        node_signature_2: Signature::new(&two),
        bitcoin_signature_1: Signature::new(&three),
        bitcoin_signature_2: Signature::new(&four),
        features: BorrowedBytes::new(b"\xaa\xbb"),
        chain_hash: CHAIN,
        short_channel_id: Scid::new(600_000, 2, 3),
        node_id_1: Point([0x0a; 33]),
        node_id_2: Point([0x0b; 33]),
        bitcoin_key_1: Point([0x0c; 33]),
        bitcoin_key_2: Point([0x0d; 33]),
        rest: BorrowedBytes::new(b"\xdd"),
    });
    let words =
        "0100 01*64 02*64 03*64 04*64 0002 aabb c1*32 0927c00000020003 0a*33 0b*33 0c*33 0d*33 dd";
    assert_spelled(&rt, rt.alloc(), &message, words)
}

#[test]
fn node_announcement(rt: HostRuntime) -> Result<(), Fail> {
    let message = Message::NodeAnnounce(NodeAnnounce {
        signature: Signature::new(&SIGNATURE),
        features: BorrowedBytes::new(b"\xaa\xbb\xcc"),
        timestamp: 0x0203_0405,
        node_id: Point([0x0a; 33]),
        rgb_color: [6, 7, 8],
        alias: [9; 32],
        addresses: BorrowedBytes::new(b"\x01\x7f\x00\x00\x01\x26\x07"),
        rest: BorrowedBytes::new(b"\xdd"),
    });
    let words = "0101 01*64 0003 aabbcc 02030405 0a*33 060708 09*32 0007 017f0000012607 dd";
    assert_spelled(&rt, rt.alloc(), &message, words)
}

#[test]
fn update(rt: HostRuntime) -> Result<(), Fail> {
    let message = Message::ChannelUpdate(ChannelUpdate {
        signature: Signature::new(&SIGNATURE),
        chain_hash: CHAIN,
        short_channel_id: Scid::new(600_000, 2, 3),
        timestamp: 0x0203_0405,
        message_flags: 6,
        channel_flags: 7,
        cltv_expiry_delta: 0x0809,
        htlc_minimum_msat: 0x0a,
        fee_base_msat: 0x0b,
        fee_proportional_millionths: 0x0c,
        htlc_maximum_msat: 0x0d,
        rest: BorrowedBytes::new(b"\xdd"),
    });
    let words = "0102 01*64 c1*32 0927c00000020003 02030405 06 07 0809 \
                 000000000000000a 0000000b 0000000c 000000000000000d dd";
    assert_spelled(&rt, rt.alloc(), &message, words)
}

#[test]
fn ids_query(rt: HostRuntime) -> Result<(), Fail> {
    let alloc = rt.alloc();
    let ids = vec![in alloc; Scid::new(600_000, 2, 0), Scid::new(1, 0, 0)]?;
    let flags = vec![in alloc; 1u64, 300u64]?;
    let message = Message::IdsQuery(IdsQuery {
        chain_hash: CHAIN,
        ids: Scids::from_vec(ids),
        flags: Some(QueryFlags::from_vec(flags)),
    });
    let words = "0105 c1*32 0011 00 0927c00000020000 0000010000000000 0105 00 01 fd012c";
    assert_spelled(&rt, alloc, &message, words)
}

#[test]
fn ids_end(rt: HostRuntime) -> Result<(), Fail> {
    let message = Message::IdsEnd(IdsEnd {
        chain_hash: CHAIN,
        full_information: 7,
    });
    assert_spelled(&rt, rt.alloc(), &message, "0106 c1*32 07")
}

#[test]
fn range_query(rt: HostRuntime) -> Result<(), Fail> {
    for (options, words) in [
        (None, "0107 c1*32 000927b6 00000014"),
        (Some(0), "0107 c1*32 000927b6 00000014 0101 00"),
        (Some(3), "0107 c1*32 000927b6 00000014 0101 03"),
        (Some(0x100), "0107 c1*32 000927b6 00000014 0103 fd0100"),
        (Some(u64::MAX), "0107 c1*32 000927b6 00000014 0109 ff*9"),
    ] {
        let message = Message::RangeQuery(RangeQuery {
            chain_hash: CHAIN,
            first_blocknum: 599_990,
            number_of_blocks: 20,
            options,
        });
        assert_spelled(&rt, rt.alloc(), &message, words)?;
    }
    Ok(())
}

#[test]
fn range_reply(rt: HostRuntime) -> Result<(), Fail> {
    let alloc = rt.alloc();
    let ids = vec![in alloc; Scid::new(600_000, 2, 0)]?;
    let pair = Timestamps {
        node_1: 0x0102_0304,
        node_2: 0x0506_0708,
    };
    let timestamps = vec![in alloc; pair]?;
    let message = Message::RangeReply(RangeReply {
        chain_hash: CHAIN,
        first_blocknum: 599_990,
        number_of_blocks: 20,
        sync_complete: 9,
        ids: Scids::from_vec(ids),
        timestamps: Some(TimestampList::from_vec(timestamps)),
    });
    let words =
        "0108 c1*32 000927b6 00000014 09 0009 00 0927c00000020000 0109 00 01020304 05060708";
    assert_spelled(&rt, alloc, &message, words)
}

#[test]
fn filter(rt: HostRuntime) -> Result<(), Fail> {
    let message = Message::FilterMsg(FilterMsg {
        chain_hash: CHAIN,
        first_timestamp: 0x0102_0304,
        timestamp_range: 0x0506_0708,
    });
    assert_spelled(&rt, rt.alloc(), &message, "0109 c1*32 01020304 05060708")
}
