//! Bytes of messages, and what all messages share.

ghost use Rattle.std.specs.Prelude.{IfOk};
ghost use Rattle.lgm_gossip.specs.Message.{Wire};

use lgm_gossip::{Bytes, ChainHash, Message, encode};
use std::alloc::{AllocError, Global};

/// The chain of the tests.
pub const CHAIN: ChainHash = ChainHash([0xc1; 32]);

/// A signature.
pub(crate) const ZEROS: [u8; 64] = [0; 64];

/// The bytes of a message. The error is out of memory, or that the message is too long, which none of the tests' is.
pub fn written(alloc: Global, message: &Message) -> Result<Bytes, AllocError>
    ensures { IfOk result (λ bytes. Wire message.now bytes) }
{
    match encode(alloc, message) {
        Ok(bytes) => Ok(bytes),
        Err(_) => Err(AllocError),
    }
}
