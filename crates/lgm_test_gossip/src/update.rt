//! Updates of channels.

use crate::terms::{FREE, Terms};
use crate::writing::{CHAIN, ZEROS, written};
use lgm_gossip::{BorrowedBytes, Bytes, ChainHash, ChannelUpdate, Message, Scid, Signature};
use std::alloc::{AllocError, Global};

/// A `channel_update`.
#[derive(Clone, Copy)]
pub struct Update<'a> {
    pub chain: ChainHash,
    pub scid: Scid,
    /// Seconds since 1970.
    pub timestamp: u32,
    pub message_flags: u8,
    pub channel_flags: u8,
    pub terms: Terms,
    /// The bytes behind the last field.
    pub rest: &'a [u8],
}

impl<'a> Update<'a> {
    /// A public update of a channel of [`CHAIN`], with the terms [`FREE`].
    pub fn new(scid: Scid, channel_flags: u8, timestamp: u32) -> Update<'a> {
        Update {
            chain: CHAIN,
            scid,
            timestamp,
            message_flags: 1,
            channel_flags,
            terms: FREE,
            rest: &[],
        }
    }

    /// The message.
    pub fn message(&self) -> ChannelUpdate<'a> {
        ChannelUpdate {
            signature: Signature::new(&ZEROS),
            chain_hash: self.chain,
            short_channel_id: self.scid,
            timestamp: self.timestamp,
            message_flags: self.message_flags,
            channel_flags: self.channel_flags,
            cltv_expiry_delta: self.terms.delta,
            htlc_minimum_msat: self.terms.min,
            fee_base_msat: self.terms.base,
            fee_proportional_millionths: self.terms.millionths,
            htlc_maximum_msat: self.terms.max,
            rest: BorrowedBytes::new(self.rest),
        }
    }

    /// The bytes of the message, as [`written`] gives them.
    pub fn bytes(&self, alloc: Global) -> Result<Bytes, AllocError> {
        written(alloc, &Message::ChannelUpdate(self.message()))
    }
}
