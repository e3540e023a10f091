//! Decoding of messages.

ghost use Rattle.std.specs.Prelude.{◌≡◌, Ok, IfOk, IfErr, MatchResult, ◌⊎◌, ◌<◌, ◌≤◌, ℕ, List, None, length, drop, slice_index};
ghost use Rattle.lgm_wire.specs.reading.Reading.{Sees, Gives};
ghost use Rattle.lgm_gossip.specs.Message.{Wire};
ghost use Rattle.lgm_gossip.specs.Memory.{GivesIf, BodyTakesMemory, TakesMemory};
ghost use Rattle.lgm_gossip.specs.reading.MessageReading.{body_at, kind_at, message_at, fault};
ghost use Rattle.lgm_gossip.specs.declared.message.Message.{Message};

use crate::announce::Announce;
use crate::channel_update::ChannelUpdate;
use crate::fault::DecodeFault;
use crate::filter_msg::FilterMsg;
use crate::ids_end::IdsEnd;
use crate::ids_query::IdsQuery;
use crate::message::{MAX_LEN, Message};
use crate::node_announce::NodeAnnounce;
use crate::range_query::RangeQuery;
use crate::range_reply::RangeReply;
use std::alloc::Global;

/// A query or a reply from the bytes after the type.
#[tactic(auto, unfolding(crate::specs::reading::MessageReading::body_at))]
fn body(alloc: Global, kind: u16, bytes: &[u8]) -> Result<Message<'_>, DecodeFault>
    ensures { GivesIf (BodyTakesMemory kind bytes.now) DecodeFault.NoMemory (λ m. m) result
        (body_at kind bytes.now) }
{
    match kind {
        261 => Ok(Message::IdsQuery(IdsQuery::read(alloc, bytes)?)),
        262 => Ok(Message::IdsEnd(IdsEnd::read(bytes)?)),
        263 => Ok(Message::RangeQuery(RangeQuery::read(alloc, bytes)?)),
        264 => Ok(Message::RangeReply(RangeReply::read(alloc, bytes)?)),
        265 => Ok(Message::FilterMsg(FilterMsg::read(bytes)?)),
        _ if kind % 2 == 0 => Err(DecodeFault::UnknownEven(kind)),
        _ => Err(DecodeFault::UnknownOdd(kind)),
    }
}

/// A message from all of its bytes.
#[tactic(auto, unfolding(crate::specs::reading::MessageReading::kind_at))]
fn of_kind(alloc: Global, kind: u16, raw: &[u8]) -> Result<Message<'_>, DecodeFault>
    requires { 2 ≤ length raw.now }
    ensures { GivesIf (BodyTakesMemory kind (drop 2 raw.now)) DecodeFault.NoMemory (λ m. m) result
        (kind_at kind raw.now) }
{
    match kind {
        256 => Ok(Message::Announce(Announce::read(raw)?)),
        257 => Ok(Message::NodeAnnounce(NodeAnnounce::read(raw)?)),
        258 => Ok(Message::ChannelUpdate(ChannelUpdate::read(raw)?)),
        _ => body(alloc, kind, &raw[2..]),
    }
}

#[tactic(auto, unfolding(crate::specs::reading::MessageReading::message_at))]
fn message(alloc: Global, bytes: &[u8]) -> Result<Message<'_>, DecodeFault>
    ensures { GivesIf (TakesMemory bytes.now) DecodeFault.NoMemory (λ m. m) result (message_at bytes.now) }
{
    if bytes.len() > MAX_LEN {
        return Err(DecodeFault::Long);
    }
    let [high, low, ..] = bytes else {
        return Err(DecodeFault::Short);
    };
    of_kind(alloc, u16::from_be_bytes([*high, *low]), bytes)
}

/// Decodes a message from its bytes, beginning with the two bytes of its type (BOLT 7).
///
/// Any bytes of any length are allowed. Length and type are checked first (`Long`, `Short`, `UnknownEven`,
/// `UnknownOdd`), then the fields from left to right; the first faulty field is reported (`Cut`, `Encoding`, `Ids`). In
/// the TLV stream after the fields a fault of the stream comes first (`Tlv`), else the first faulty record is reported:
/// `TlvKind` if its type is even and unknown, or it is malformed; `Encoding` if its encoding is unknown; `Flags` if
/// query flags are malformed or not one per id.
///
/// An announcement or an update borrows its signatures, features, addresses and trailing bytes from the input, and
/// nothing is allocated. Ids, flags and timestamps of a query or a reply are allocated, and a list of its records while
/// it is read.
pub fn decode(alloc: Global, bytes: &[u8]) -> Result<Message<'_>, DecodeFault>
    // A message is returned if and only if the bytes encode it.
    ensures found { IfOk result (λ m. Wire m bytes.now) }
    ensures only { (m : Message) → Wire m bytes.now
        → MatchResult result (λ found. found ≡ m) (λ e. e ≡ DecodeFault.NoMemory) }

    // Any fault but out of memory is the first one in the order above.
    ensures fault { IfErr result (λ e. (e ≡ DecodeFault.NoMemory) ⊎ (fault bytes.now ≡ Some e)) }

    // The same in one clause: the result of reading the bytes.
    ensures exact { Gives DecodeFault.NoMemory (λ m. m) result (message_at bytes.now) }

    // Out of memory comes only if something is allocated: otherwise the result is that of the reading.
    ensures memory { Sees (λ m. m) result (message_at bytes.now) ⊎ TakesMemory bytes.now }
{
    message(alloc, bytes)
}

/// Laws of the messages, stated by the contract; the call does nothing.
///
/// Reading the bytes from left to right returns a message if and only if they encode it. They encode at most one, and
/// exactly one if and only if they have no fault.
pub fn one_message()
    ensures read { (m : Message) (b : List ℕ) → ((i : ℕ) → slice_index b i < 256)
        → message_at b ≡ Ok m → Wire m b }
    ensures again { (m : Message) (b : List ℕ) → Wire m b → message_at b ≡ Ok m }
    ensures once { (m n : Message) (b : List ℕ) → Wire m b → Wire n b → m ≡ n }
    ensures spelled { (b : List ℕ) → ((i : ℕ) → slice_index b i < 256)
        → fault b ≡ None → (m : Message) × Wire m b }
    ensures faultless { (m : Message) (b : List ℕ) → Wire m b → fault b ≡ None }
{}
