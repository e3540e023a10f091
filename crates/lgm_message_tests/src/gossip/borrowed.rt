//! Messages that are reborrowed.

use super::words::bytes_of;
use lgm_gossip::{Bytes, Message, decode, encode};
use std::alloc::Global;
use std::process::Abort;
use std::test::Fail;

/// The bytes of an announcement or an update that is reborrowed.
fn written_again(alloc: Global, message: &Message) -> Result<Bytes, Fail> {
    let again = match message {
        Message::Announce(m) => Message::Announce(m.reborrow()),
        Message::NodeAnnounce(m) => Message::NodeAnnounce(m.reborrow()),
        Message::ChannelUpdate(m) => Message::ChannelUpdate(m.reborrow()),
        _ => Err("a message of another type")?,
    };
    Ok(encode(alloc, &again)?)
}

fn assert_again(rt: &impl Abort, alloc: Global, words: &str) -> Result<(), Fail> {
    let bytes = bytes_of(alloc, words)?;
    let message = decode(alloc, bytes.as_slice())?;
    let written = written_again(alloc, &message)?;
    assert_eq!(rt; written.as_slice(), bytes.as_slice(), "{words}");
    Ok(())
}

/// An announcement whose fields all differ.
const ANNOUNCEMENT: &str =
    "0100 01*64 02*64 03*64 04*64 0002 aabb c1*32 0927c00000020003 0a*33 0b*33 0c*33 0d*33 dd";

/// A message whose fields all differ, reborrowed, is written as the message.
#[test]
fn reborrowed(rt: HostRuntime) -> Result<(), Fail> {
    for words in [
        ANNOUNCEMENT,
        "0101 01*64 0003 aabbcc 02030405 0a*33 060708 09*32 0007 017f0000012607 dd",
        "0102 01*64 c1*32 0927c00000020003 02030405 06 07 0809 0a*8 0b*4 0c*4 0d*8 dd",
    ] {
        assert_again(&rt, rt.alloc(), words)?;
    }
    Ok(())
}

/// The signatures of an announcement, each at its place.
#[test]
fn signatures(rt: HostRuntime) -> Result<(), Fail> {
    let bytes = bytes_of(rt.alloc(), ANNOUNCEMENT)?;
    let message = decode(rt.alloc(), bytes.as_slice())?;
    let Message::Announce(announcement) = &message else {
        return Err("a message of another type")?;
    };
    assert_eq!(rt; *announcement.node_signature_1.as_array(), [1; 64]);
    assert_eq!(rt; *announcement.node_signature_2.as_array(), [2; 64]);
    assert_eq!(rt; *announcement.bitcoin_signature_1.as_array(), [3; 64]);
    assert_eq!(rt; *announcement.bitcoin_signature_2.as_array(), [4; 64]);
    Ok(())
}
