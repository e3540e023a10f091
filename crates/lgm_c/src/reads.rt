//! What a verifier needs of a message.

ghost use Rattle.std.specs.Prelude.{◌≡◌};
ghost use Rattle.lgm_c.specs.Reads.{key_1, key_2, key_3, key_4, no_key, is_second, with_id, Reads};

use crate::fault::Fault;
use lgm_gossip::{Point, Scid};
use lgm_sync::{ChannelKeys, SignedMessage, Signers, reads};
use std::alloc::Global;

/// A message, as who verifies it sees it.
#[repr(C)]
#[derive(Clone, Copy)]
pub struct LgmSigned {
    /// The id of its channel, or 0.
    pub scid: u64,
    /// Where the signed bytes begin, from the type on.
    pub signed_from: usize,
    /// The height of the block with the funding transaction, from the id.
    pub block: u32,
    /// The index of the funding transaction in its block.
    pub transaction: u32,
    /// The index of the funding output.
    pub output: u16,
    /// Its type.
    pub kind: u16,
    /// Whether it is of a channel: an announcement of one, or an update.
    pub has_scid: bool,
    /// Of an update, whether node 2 of the channel signs it, and not node 1.
    pub is_second: bool,
    /// How many signatures it has, of 64 bytes each, one after the other from byte 2 on.
    pub signatures: u8,
    /// The key of the first signature, or zeros, as of an update.
    pub key_1: [u8; 33],
    /// The key of the second one.
    pub key_2: [u8; 33],
    /// The key of the third one.
    pub key_3: [u8; 33],
    /// The key of the fourth one.
    pub key_4: [u8; 33],
}

/// The four keys of a message's signatures, in their order; zeros where there is none.
fn keys_of(signers: &Signers) -> ChannelKeys
    ensures first { result.node_1.0 ≡ key_1 signers.now }
    ensures second { result.node_2.0 ≡ key_2 signers.now }
    ensures third { result.bitcoin_1.0 ≡ key_3 signers.now }
    ensures fourth { result.bitcoin_2.0 ≡ key_4 signers.now }
{
    let none = Point([0; 33]);
    match signers {
        Signers::Channel(keys) => *keys,
        Signers::Node(key) => ChannelKeys {
            node_1: *key,
            node_2: none,
            bitcoin_1: none,
            bitcoin_2: none,
        },
        Signers::Setter(_) | Signers::Nobody => ChannelKeys {
            node_1: none,
            node_2: none,
            bitcoin_1: none,
            bitcoin_2: none,
        },
    }
}

/// Whether node 2 of the channel signs it.
fn is_second(signers: &Signers) -> bool
    ensures { result ≡ is_second signers.now }
{
    match signers {
        Signers::Setter(second) => *second,
        _ => false,
    }
}

/// A message with the parts of an id.
fn with_id(scid: Scid, message: &SignedMessage) -> LgmSigned
    ensures { result ≡ with_id scid message.now }
{
    let keys = keys_of(&message.signers);
    let (key_1, key_2) = (keys.node_1.0, keys.node_2.0);
    let (key_3, key_4) = (keys.bitcoin_1.0, keys.bitcoin_2.0);
    LgmSigned {
        scid: scid.to_u64(),
        signed_from: message.signed_from(),
        block: scid.block(),
        transaction: scid.index(),
        output: scid.output(),
        kind: message.kind,
        has_scid: message.scid.is_some(),
        is_second: is_second(&message.signers),
        signatures: message.signers.count(),
        key_1,
        key_2,
        key_3,
        key_4,
    }
}

/// What a verifier needs of a message: its type, its channel, whose signatures it has, where they stand, and which bytes are
/// signed.
#[unsafe(no_mangle)]
pub extern "C" fn lgm_reads(alloc: Global, message: &[u8], signed: &mut LgmSigned) -> u32
    ensures { Reads message.now result signed.old signed.new }
{
    match reads(alloc, message) {
        Ok(read) => {
            *signed = with_id(read.scid.unwrap_or(Scid::from_u64(0)), &read);
            0
        }
        Err(refusal) => Fault::from(refusal).number(),
    }
}
