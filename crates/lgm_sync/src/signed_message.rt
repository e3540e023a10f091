//! What a verifier needs of a message: which keys signed it, and which bytes.

ghost use Rattle.std.specs.Prelude.{◌≡◌, Ok};
ghost use Rattle.lgm_gossip.specs.Memory.{GivesIf, TakesMemory};
ghost use Rattle.lgm_gossip.specs.Message.{layout};
ghost use Rattle.lgm_check.specs.declared.refusal.Refusal.TheVariants.{NoMemory};
ghost use Rattle.lgm_sync.specs.SignedMessage.{keys_of, signers_of, channel_id, signed_message, signed_read};
ghost use Rattle.lgm_sync.specs.SignedMessage.{signature_count, signature_at, signed_from};

use lgm_check::Refusal;
use lgm_gossip::{Announce, Message, Point, Scid, decode};
use std::alloc::Global;

/// The keys of a `channel_announcement`, in the order of its signatures.
#[derive(Clone, Copy, Debug, PartialEq, Eq)]
pub struct ChannelKeys {
    /// Node 1, by its id.
    pub node_1: Point,
    /// Node 2.
    pub node_2: Point,
    /// Node 1's key of the funding output.
    pub bitcoin_1: Point,
    /// Node 2's key of the funding output.
    pub bitcoin_2: Point,
}

/// Who signed a message.
#[derive(Clone, Copy, Debug, PartialEq, Eq)]
pub enum Signers {
    /// A `channel_announcement` has four signatures, by these keys.
    Channel(ChannelKeys),
    /// A `node_announcement` has one, by its node.
    Node(Point),
    /// A `channel_update` has one, by the node that sets the terms: node 2 of the channel if true, else node 1. The message
    /// doesn't name it, so the channel's announcement has to be known.
    Setter(bool),
    /// A query or a reply has none.
    Nobody,
}

/// A message, as who verifies it sees it.
#[derive(Clone, Copy, Debug, PartialEq, Eq)]
pub struct SignedMessage {
    /// Its type: 256 is a `channel_announcement`, 257 a `node_announcement`, 258 a `channel_update`.
    pub kind: u16,
    /// The channel that an announcement or an update of one is of.
    pub scid: Option<Scid>,
    /// Whose signatures it has.
    pub signers: Signers,
}

/// Where the signature at a place begins, counted from the two bytes of the type, which come first. The places count from 0.
/// Each has 64 bytes, and they stand one after the other.
pub fn signature_at(place: u8) -> usize
    ensures { result ≡ signature_at place }
{
    2 + 64 * place as usize
}

impl Signers {
    /// How many signatures there are.
    pub fn count(&self) -> u8
        ensures { result ≡ signature_count self.now }
    {
        match self {
            Signers::Channel(_) => 4,
            Signers::Node(_) | Signers::Setter(_) => 1,
            Signers::Nobody => 0,
        }
    }
}

impl SignedMessage {
    /// Where the bytes begin whose double SHA-256 is signed, counted from the two bytes of the type: they end where the message
    /// does (BOLT 7: behind the signatures, of a `channel_announcement` from byte 256 of the fields on, of the others from byte
    /// 64). 2 without a signature.
    pub fn signed_from(&self) -> usize
        ensures { result ≡ signed_from self.now }
    {
        signature_at(self.signers.count())
    }
}

fn keys_of(announced: &Announce<'_>) -> ChannelKeys
    ensures { result ≡ keys_of announced.now }
{
    ChannelKeys {
        node_1: announced.node_id_1,
        node_2: announced.node_id_2,
        bitcoin_1: announced.bitcoin_key_1,
        bitcoin_2: announced.bitcoin_key_2,
    }
}

fn signers_of(message: &Message<'_>) -> Signers
    ensures { result ≡ signers_of message.now }
{
    match message {
        Message::Announce(announced) => Signers::Channel(keys_of(announced)),
        Message::NodeAnnounce(announced) => Signers::Node(announced.node_id),
        Message::ChannelUpdate(update) => Signers::Setter(update.channel_flags % 2 == 1),
        _ => Signers::Nobody,
    }
}

fn channel_id(message: &Message<'_>) -> Option<Scid>
    ensures { result ≡ channel_id message.now }
{
    match message {
        Message::Announce(announced) => Some(announced.short_channel_id),
        Message::ChannelUpdate(update) => Some(update.short_channel_id),
        _ => None,
    }
}

fn kind_of(message: &Message<'_>) -> u16
    ensures { result ≡ (layout message.now).kind }
{
    match message {
        Message::Announce(_) => 256,
        Message::NodeAnnounce(_) => 257,
        Message::ChannelUpdate(_) => 258,
        Message::IdsQuery(_) => 261,
        Message::IdsEnd(_) => 262,
        Message::RangeQuery(_) => 263,
        Message::RangeReply(_) => 264,
        Message::FilterMsg(_) => 265,
    }
}

/// What a verifier needs of the message that these bytes encode, beginning with the two of its type, or why they encode none:
/// `Malformed`, `UnknownEven` or `Ignored`.
///
/// `NoMemory` says nothing of the bytes: memory ran out while a query or a reply was decoded. An announcement or an update
/// takes none.
pub fn reads(alloc: Global, bytes: &[u8]) -> Result<SignedMessage, Refusal>
    ensures { GivesIf (TakesMemory bytes.now) NoMemory (λ message. message) result (signed_read bytes.now) }
{
    match decode(alloc, bytes) {
        Ok(message) => Ok(SignedMessage {
            kind: kind_of(&message),
            scid: channel_id(&message),
            signers: signers_of(&message),
        }),
        Err(fault) => Err(Refusal::from(fault)),
    }
}
