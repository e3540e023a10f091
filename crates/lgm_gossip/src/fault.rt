//! Faults of decoding.

ghost use Rattle.std.specs.Prelude.{◌≡◌};
ghost use Rattle.lgm_gossip.specs.declared.fault.DecodeFault.TheVariants.{NoMemory};

use lgm_wire::WireFault;
use std::alloc::AllocError;
use thiserror::Error;

/// The first fault of bytes that don't encode a message, or out of memory. [`decode`](crate::decoder) has the order.
#[derive(Clone, Copy, Debug, PartialEq, Eq, Error)]
pub enum DecodeFault {
    /// More than 65,535 bytes.
    #[error("more than 65,535 bytes")]
    Long,
    /// Fewer than the two bytes of a type.
    #[error("no message type")]
    Short,
    /// An unknown even type: the message must be understood (BOLT 1, "It's ok to be odd").
    #[error("unknown even type {0}")]
    UnknownEven(u16),
    /// An unknown odd type: the message may be ignored.
    #[error("unknown odd type {0}")]
    UnknownOdd(u16),
    /// A field, read from left to right, extends past the end.
    #[error("a field goes past the end")]
    Cut,
    /// Encoded channel ids, query flags or timestamps begin with this byte instead of 0, the only known encoding.
    #[error("unknown encoding {0}")]
    Encoding(u8),
    /// The length of encoded channel ids isn't a multiple of eight.
    #[error("channel ids of the wrong length")]
    Ids,
    /// The bytes after the last field aren't a TLV stream.
    #[error("not a TLV stream: {0}")]
    Tlv(WireFault),
    /// A record of this type is even and unknown, or of type 1 and malformed: options that aren't exactly one BigSize,
    /// or timestamps that aren't one pair per channel id.
    #[error("record {0} is unknown or malformed")]
    TlvKind(u64),
    /// Query flags aren't one BigSize per channel id.
    #[error("query flags don't fit the channel ids")]
    Flags,
    /// Out of memory; says nothing about the bytes.
    #[error("out of memory")]
    NoMemory,
}

impl From<AllocError> for DecodeFault {
    ghost from_gives = { λ _ e. e ≡ NoMemory };

    fn from(_e: AllocError) -> DecodeFault {
        DecodeFault::NoMemory
    }
}
