//! Encoding of messages.

ghost use Rattle.std.specs.Prelude.{◌≡◌, ◌<◌, ◌↔◌, length, IfOk, Ok, Err};
ghost use Rattle.lgm_gossip.specs.Message.{Wire};
ghost use Rattle.lgm_gossip.specs.reading.MessageReading.{message_at};
ghost use Rattle.lgm_gossip.specs.Spelling.{spelling, MessageEncodes};

use crate::encode_fault::EncodeFault;
use crate::message::Message;
use crate::sequence::Bytes;
use std::alloc::Global;

fn bytes(alloc: Global, message: &Message) -> Result<Bytes, EncodeFault>
    ensures { MessageEncodes message.now result }
{
    match message {
        Message::Announce(m) => m.encode(alloc),
        Message::NodeAnnounce(m) => m.encode(alloc),
        Message::ChannelUpdate(m) => m.encode(alloc),
        Message::IdsQuery(m) => m.encode(alloc),
        Message::IdsEnd(m) => m.encode(alloc),
        Message::RangeQuery(m) => m.encode(alloc),
        Message::RangeReply(m) => m.encode(alloc),
        Message::FilterMsg(m) => m.encode(alloc),
    }
}

/// Encodes a message, beginning with the two bytes of its type (BOLT 7). [`decode`](crate::decoder) is the inverse.
///
/// Ids are written after a byte 0, even if there are none. An option is written as a record of type 1, and no other
/// record is written. It allocates once, the length of the encoding, and nothing if that is too long.
pub fn encode(alloc: Global, message: &Message) -> Result<Bytes, EncodeFault>
    // The bytes encode the message, and are decoded to it.
    ensures spelled { IfOk result (λ bytes. Wire message.now bytes) }
    ensures read { IfOk result (λ bytes. message_at bytes ≡ Ok message.now) }

    // Among its encodings they are the canonical one.
    ensures text { IfOk result (λ bytes. bytes ≡ spelling message.now) }

    // A segment that exceeds its length field makes the whole too long as well.
    ensures too_long { (result ≡ Err EncodeFault.TooLong) ↔ (65535 < length (spelling message.now)) }
{
    bytes(alloc, message)
}
