//! A peer's reply, read from its message.

ghost use Rattle.std.specs.Prelude.{◌≡◌, Ok};
ghost use Rattle.lgm_gossip.specs.Memory.{GivesIf, TakesMemory};
ghost use Rattle.lgm_check.specs.Refusal.{refusal_of};
ghost use Rattle.lgm_sync.specs.Reply.{reply_in, reply_read};

use lgm_check::Refusal;
use lgm_gossip::{ChainHash, DecodeFault, Message, RangeReply, decode};
use std::alloc::Global;
use thiserror::Error;

/// Why a message isn't read as a reply to a query of a range.
#[derive(Clone, Copy, Debug, PartialEq, Eq, Error)]
pub enum ReplyFault {
    /// The bytes aren't a message, it is of another chain, or memory ran out.
    #[error("{0}")]
    Refused(Refusal),
    /// It isn't a `reply_channel_range`.
    #[error("not-reply")]
    NotReply,
}

impl From<DecodeFault> for ReplyFault {
    ghost use Rattle.lgm_sync.specs.declared.reply.ReplyFault.TheVariants.{Refused};

    ghost from_gives = { λ fault e. e ≡ Refused (refusal_of fault) };

    fn from(fault: DecodeFault) -> ReplyFault {
        ReplyFault::Refused(Refusal::from(fault))
    }
}

fn reply_in(chain: &ChainHash, message: Message) -> Result<RangeReply, ReplyFault>
    ensures { result ≡ reply_in chain.now (Ok message.entry) }
{
    let Message::RangeReply(reply) = message else {
        return Err(ReplyFault::NotReply);
    };
    if reply.chain_hash != *chain {
        return Err(ReplyFault::Refused(Refusal::Chain));
    }
    Ok(reply)
}

/// The `reply_channel_range` of this chain that the bytes of a message encode, or why they don't. Checksums are passed over.
///
/// `Refused` with `NoMemory` says nothing of the bytes: memory ran out while they were decoded.
pub fn read_reply(alloc: Global, chain: &ChainHash, bytes: &[u8]) -> Result<RangeReply, ReplyFault>
    ensures { GivesIf (TakesMemory bytes.now) (ReplyFault.Refused Refusal.NoMemory) (λ reply. reply)
        result (reply_read chain.now bytes.now) }
{
    match decode(alloc, bytes) {
        Ok(message) => reply_in(chain, message),
        Err(fault) => Err(ReplyFault::from(fault)),
    }
}
