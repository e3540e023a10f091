//! The longest messages, and those that would be longer.

use super::words::{assert_fault, assert_kept, bytes_of};
use lgm_gossip::{
    BorrowedBytes, ChainHash, DecodeFault, EncodeFault, IdsQuery, Message, NodeAnnounce, Point,
    RangeReply, Scid, Scids, Signature, decode, encode,
};
use std::alloc::Global;
use std::test::Fail;

/// Of 65,535 bytes a message is read whole; of one more it isn't read.
#[test]
fn longest_announcement(rt: HostRuntime) -> Result<(), Fail> {
    let fields = "0100 00*256 0000 c1*32 0000010000000000 02 0a*32 02 0b*32 02 ee*32 02 ee*32";
    let longest = format!(in rt.alloc(); "{fields} 00*65103")?;
    let longer = format!(in rt.alloc(); "{fields} 00*65104")?;
    assert_kept(&rt, rt.alloc(), longest.as_str())?;
    assert_fault(&rt, rt.alloc(), longer.as_str(), DecodeFault::Long)
}

fn ids(alloc: Global, count: u16) -> Result<Vec<Scid>, Fail> {
    let mut ids = Vec::new(alloc);
    for index in 0..count {
        ids.push(Scid::new(600_000, u32::from(index), 0))?;
    }
    Ok(ids)
}

/// A reply of 4,000 ids with timestamps, as one that answers a query of many channels.
#[test]
fn long_reply(rt: HostRuntime) -> Result<(), Fail> {
    let alloc = rt.alloc();
    let mut bytes = bytes_of(alloc, "0108 c1*32 000927b6 0000000b 00 7d01 00")?;
    for id in ids(alloc, 4_000)?.as_slice() {
        bytes.extend_from_slice(&id.to_u64().to_be_bytes())?;
    }
    let timestamps = bytes_of(alloc, "01 fd7d01 00 00*32000")?;
    bytes.extend_from_slice(timestamps.as_slice())?;
    let written = encode(alloc, &decode(alloc, bytes.as_slice())?)?;
    assert_eq!(rt; written.as_slice().len(), 64_051);
    assert_eq!(rt; written.as_slice(), bytes.as_slice());
    Ok(())
}

fn written_len(alloc: Global, message: &Message) -> Result<usize, EncodeFault> {
    Ok(encode(alloc, message)?.as_slice().len())
}

fn node_len(
    alloc: Global,
    features: usize,
    addresses: usize,
) -> Result<Result<usize, EncodeFault>, Fail> {
    let features = vec![in alloc; 0u8; features]?;
    let addresses = vec![in alloc; 0u8; addresses]?;
    let signature = [0; 64];
    let message = Message::NodeAnnounce(NodeAnnounce {
        signature: Signature::new(&signature),
        features: BorrowedBytes::new(features.as_slice()),
        timestamp: 5,
        node_id: Point([2; 33]),
        rgb_color: [0; 3],
        alias: [0; 32],
        addresses: BorrowedBytes::new(addresses.as_slice()),
        rest: BorrowedBytes::new(&[]),
    });
    Ok(written_len(alloc, &message))
}

/// Features and addresses that fill a message of 65,535 bytes, one byte more, and more than their length can say.
#[test]
fn long_features_and_addresses(rt: HostRuntime) -> Result<(), Fail> {
    let table: [(usize, usize, Result<usize, EncodeFault>); 6] = [
        (65_393, 0, Ok(65_535)),
        (0, 65_393, Ok(65_535)),
        (65_394, 0, Err(EncodeFault::TooLong)),
        (1, 65_393, Err(EncodeFault::TooLong)),
        (65_536, 0, Err(EncodeFault::TooLong)),
        (0, 65_536, Err(EncodeFault::TooLong)),
    ];
    for (features, addresses, want) in table {
        let len = node_len(rt.alloc(), features, addresses)?;
        assert_eq!(rt; len, want, "of {features} and {addresses} bytes");
    }
    Ok(())
}

fn ids_query(alloc: Global, count: u16) -> Result<Message<'static>, Fail> {
    Ok(Message::IdsQuery(IdsQuery {
        chain_hash: ChainHash([0xc1; 32]),
        ids: Scids::from_vec(ids(alloc, count)?),
        flags: None,
    }))
}

fn range_reply(alloc: Global, count: u16) -> Result<Message<'static>, Fail> {
    Ok(Message::RangeReply(RangeReply {
        chain_hash: ChainHash([0xc1; 32]),
        first_blocknum: 0,
        number_of_blocks: 1,
        sync_complete: 1,
        ids: Scids::from_vec(ids(alloc, count)?),
        timestamps: None,
    }))
}

fn query_len(alloc: Global, count: u16) -> Result<Result<usize, EncodeFault>, Fail> {
    let message = ids_query(alloc, count)?;
    Ok(written_len(alloc, &message))
}

fn reply_len(alloc: Global, count: u16) -> Result<Result<usize, EncodeFault>, Fail> {
    let message = range_reply(alloc, count)?;
    Ok(written_len(alloc, &message))
}

/// The most ids of a query and of a reply, one more, and more than their length can say.
#[test]
fn many_ids(rt: HostRuntime) -> Result<(), Fail> {
    let too_long = Err(EncodeFault::TooLong);
    for (count, query, reply) in [
        (8_186, Ok(65_525), Ok(65_534)),
        (8_187, Ok(65_533), too_long),
        (8_188, too_long, too_long),
        (8_192, too_long, too_long),
    ] {
        assert_eq!(rt;
            query_len(rt.alloc(), count)?,
            query,
            "a query of {count} ids"
        );
        assert_eq!(rt;
            reply_len(rt.alloc(), count)?,
            reply,
            "a reply of {count} ids"
        );
    }
    Ok(())
}
