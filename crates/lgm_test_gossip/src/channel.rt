//! Announcements of channels.

use crate::points::repeated_point;
use crate::writing::{CHAIN, ZEROS, written};
use lgm_gossip::{Announce, BorrowedBytes, Bytes, ChainHash, Message, Point, Scid, Signature};
use std::alloc::{AllocError, Global};

/// A `channel_announcement`.
#[derive(Clone, Copy)]
pub struct Channel<'a> {
    pub chain: ChainHash,
    pub scid: Scid,
    /// In a valid message, the lesser node first.
    pub nodes: (Point, Point),
    /// The bitcoin keys of the nodes.
    pub keys: (Point, Point),
    pub features: &'a [u8],
    /// The bytes behind the last field.
    pub rest: &'a [u8],
}

impl<'a> Channel<'a> {
    /// A channel of [`CHAIN`] without features, whose nodes have the same key.
    pub fn new(scid: Scid, nodes: (Point, Point)) -> Channel<'a> {
        let key = repeated_point(2, 0xee);
        Channel {
            chain: CHAIN,
            scid,
            nodes,
            keys: (key, key),
            features: &[],
            rest: &[],
        }
    }

    /// The message.
    pub fn message(&self) -> Announce<'a> {
        Announce {
            node_signature_1: Signature::new(&ZEROS),
            node_signature_2: Signature::new(&ZEROS),
            bitcoin_signature_1: Signature::new(&ZEROS),
            bitcoin_signature_2: Signature::new(&ZEROS),
            features: BorrowedBytes::new(self.features),
            chain_hash: self.chain,
            short_channel_id: self.scid,
            node_id_1: self.nodes.0,
            node_id_2: self.nodes.1,
            bitcoin_key_1: self.keys.0,
            bitcoin_key_2: self.keys.1,
            rest: BorrowedBytes::new(self.rest),
        }
    }

    /// The bytes of the message, as [`written`] gives them.
    pub fn bytes(&self, alloc: Global) -> Result<Bytes, AllocError> {
        written(alloc, &Message::Announce(self.message()))
    }
}
