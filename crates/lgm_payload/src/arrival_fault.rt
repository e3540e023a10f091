//! Faults of what the payee is to get.

ghost use Rattle.std.specs.Prelude.{◌≡◌};
ghost use Rattle.lgm_payload.specs.declared.arrival_fault.ArrivalFault.TheVariants.{NoMemory};

use std::alloc::AllocError;
use thiserror::Error;

/// Why there are no payloads for an arrival.
#[derive(Clone, Copy, Debug, PartialEq, Eq, Error)]
pub enum ArrivalFault {
    /// The type of a custom record is below 65,536.
    #[error("the type of a custom record is below 65536")]
    Reserved,
    /// The type of a custom record isn't above the one before.
    #[error("the types of custom records aren't ascending")]
    Order,
    /// The payloads, with an HMAC each, don't fit the 1,300 bytes of an onion packet.
    #[error("the payloads don't fit an onion packet")]
    TooLong,
    /// Out of memory.
    #[error("out of memory")]
    NoMemory,
}

impl From<AllocError> for ArrivalFault {
    ghost from_gives = { λ _ e. e ≡ NoMemory };

    fn from(_e: AllocError) -> ArrivalFault {
        ArrivalFault::NoMemory
    }
}
