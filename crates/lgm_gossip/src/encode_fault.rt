//! Faults of encoding.

ghost use Rattle.std.specs.Prelude.{◌≡◌};
ghost use Rattle.lgm_gossip.specs.declared.encode_fault.EncodeFault.TheVariants.{NoMemory};

use std::alloc::AllocError;
use thiserror::Error;

/// Why a message can't be encoded.
#[derive(Clone, Copy, Debug, PartialEq, Eq, Error)]
pub enum EncodeFault {
    /// It would have more than 65,535 bytes, or a part longer than its length field allows (BOLT 1, "Lightning Message
    /// Format").
    #[error("more than 65,535 bytes")]
    TooLong,
    /// Out of memory.
    #[error("out of memory")]
    NoMemory,
}

impl From<AllocError> for EncodeFault {
    ghost from_gives = { λ _ e. e ≡ NoMemory };

    fn from(_e: AllocError) -> EncodeFault {
        EncodeFault::NoMemory
    }
}
