//! Refusals of items.

ghost use Rattle.std.specs.Prelude.{◌≡◌};
ghost use Rattle.lgm_check.specs.Refusal.{number_of, word_of, refusal_of};
ghost use Rattle.lgm_check.specs.declared.refusal.Refusal.TheVariants.{NoMemory};

use lgm_gossip::DecodeFault;
use std::alloc::AllocError;
use thiserror::Error;

/// Why an item isn't accepted, or out of memory. Each reason has a number and a word; outcomes are written as words.
#[derive(Clone, Copy, Debug, PartialEq, Eq, Error)]
pub enum Refusal {
    /// 1: the bytes aren't a message.
    #[error("malformed")]
    Malformed,
    /// 2: an unknown even type.
    #[error("unknown-even")]
    UnknownEven,
    /// 3: an unknown odd type.
    #[error("ignored")]
    Ignored,
    /// 4: a query or a reply, which announces nothing.
    #[error("not-gossip")]
    NotGossip,
    /// 5: another chain.
    #[error("chain")]
    Chain,
    /// 6: a node id or bitcoin key isn't a well-formed point.
    #[error("point")]
    Point,
    /// 7: node_id_1 isn't less than node_id_2 in byte order.
    #[error("node-order")]
    NodeOrder,
    /// 8: the update must not be forwarded.
    #[error("private")]
    Private,
    /// 9: the funding output isn't known to be unspent and right, or has more satoshi than exist.
    #[error("funding")]
    Funding,
    /// 10: a signature is invalid or missing, or another node's.
    #[error("signature")]
    Signature,
    /// 11: the channel isn't in the map.
    #[error("unknown-channel")]
    UnknownChannel,
    /// 12: the channel is in the map, with the same nodes.
    #[error("known")]
    Known,
    /// 13: the channel is in the map, with other nodes. Never returned: such an announcement bans the nodes of both.
    #[error("conflict")]
    Conflict,
    /// 14: no channel in the map has this node.
    #[error("unknown-node")]
    UnknownNode,
    /// 15: the stored update or node announcement is as new, or newer.
    #[error("not-newer")]
    NotNewer,
    /// 16: a node of the message is banned.
    #[error("banned")]
    Banned,
    /// Out of memory. This is no outcome, and has no number and no word.
    #[error("out of memory")]
    NoMemory,
}

impl Refusal {
    /// Its number, 1 to 16; none for out of memory.
    pub fn number(self) -> Option<u8>
        ensures { result ≡ number_of self }
    {
        match self {
            Refusal::Malformed => Some(1),
            Refusal::UnknownEven => Some(2),
            Refusal::Ignored => Some(3),
            Refusal::NotGossip => Some(4),
            Refusal::Chain => Some(5),
            Refusal::Point => Some(6),
            Refusal::NodeOrder => Some(7),
            Refusal::Private => Some(8),
            Refusal::Funding => Some(9),
            Refusal::Signature => Some(10),
            Refusal::UnknownChannel => Some(11),
            Refusal::Known => Some(12),
            Refusal::Conflict => Some(13),
            Refusal::UnknownNode => Some(14),
            Refusal::NotNewer => Some(15),
            Refusal::Banned => Some(16),
            Refusal::NoMemory => None,
        }
    }

    /// Its word, as outcomes are written; empty for out of memory.
    pub fn word(self) -> &'static str
        ensures { result.now ≡ word_of self }
    {
        match self {
            Refusal::Malformed => "malformed",
            Refusal::UnknownEven => "unknown-even",
            Refusal::Ignored => "ignored",
            Refusal::NotGossip => "not-gossip",
            Refusal::Chain => "chain",
            Refusal::Point => "point",
            Refusal::NodeOrder => "node-order",
            Refusal::Private => "private",
            Refusal::Funding => "funding",
            Refusal::Signature => "signature",
            Refusal::UnknownChannel => "unknown-channel",
            Refusal::Known => "known",
            Refusal::Conflict => "conflict",
            Refusal::UnknownNode => "unknown-node",
            Refusal::NotNewer => "not-newer",
            Refusal::Banned => "banned",
            Refusal::NoMemory => "",
        }
    }
}

impl From<DecodeFault> for Refusal {
    ghost from_gives = { λ fault e. e ≡ refusal_of fault };

    fn from(fault: DecodeFault) -> Refusal {
        match fault {
            DecodeFault::UnknownEven(_) => Refusal::UnknownEven,
            DecodeFault::UnknownOdd(_) => Refusal::Ignored,
            DecodeFault::NoMemory => Refusal::NoMemory,
            _ => Refusal::Malformed,
        }
    }
}

impl From<AllocError> for Refusal {
    ghost from_gives = { λ _ e. e ≡ NoMemory };

    fn from(_e: AllocError) -> Refusal {
        Refusal::NoMemory
    }
}
