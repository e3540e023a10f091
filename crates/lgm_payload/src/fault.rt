//! Faults of payloads.

ghost use Rattle.std.specs.Prelude.{◌≡◌};
ghost use Rattle.lgm_payload.specs.declared.fault.PayloadFault.TheVariants.{NoMemory};

use lgm_wire::WireFault;
use std::alloc::AllocError;
use thiserror::Error;

/// The first fault of bytes that don't encode a payload, in the order in which faults are checked,
/// or out of memory.
#[derive(Clone, Copy, Debug, PartialEq, Eq, Error)]
pub enum PayloadFault {
    /// The bytes don't start with a BigSize, or it isn't the number of bytes after it.
    #[error("the length in front isn't that of the payload")]
    Length,
    /// The bytes after the length aren't a TLV stream.
    #[error("not a TLV stream: {0}")]
    Tlv(WireFault),
    /// A record for blinded routes: type 10, 12 or 18.
    #[error("a record of a blinded route")]
    Blinded,
    /// A record of this type is even and unknown, or its value is malformed.
    #[error("record {0} is unknown or malformed")]
    Kind(u64),
    /// The amount or the expiry is missing: type 2 or 4.
    #[error("no amount or no expiry")]
    Missing,
    /// The payload has both a channel to forward over and payment data: types 6 and 8.
    #[error("both a next channel and payment data")]
    Extra,
    /// Out of memory; says nothing about the bytes.
    #[error("out of memory")]
    NoMemory,
}

impl From<AllocError> for PayloadFault {
    ghost from_gives = { λ _ e. e ≡ NoMemory };

    fn from(_e: AllocError) -> PayloadFault {
        PayloadFault::NoMemory
    }
}
