//! Faults of wire primitives.

ghost use Rattle.std.specs.Prelude.{◌≡◌};
ghost use Rattle.lgm_wire.specs.declared.fault.WireFault.TheVariants.{NoMemory};

use std::alloc::AllocError;
use thiserror::Error;

/// Out of memory. A writer that returns it leaves its `Vec` unchanged.
pub type NoMemory = AllocError;

/// The first fault of the bytes, read from left to right, or out of memory.
#[derive(Clone, Copy, Debug, PartialEq, Eq, Error)]
pub enum WireFault {
    /// The bytes end inside a number or a value.
    #[error("the bytes end inside a field")]
    Cut,
    /// A number isn't in its shortest encoding, the only valid one.
    #[error("a number isn't in its shortest form")]
    NotMinimal,
    /// A truncated integer has more bytes than its field allows.
    #[error("a number has too many bytes")]
    TooLong,
    /// A record's type isn't above that of the record before it.
    #[error("a record's type isn't above the one before")]
    Order,
    /// Out of memory while listing records; says nothing about the bytes.
    #[error("out of memory")]
    NoMemory,
}

impl From<AllocError> for WireFault {
    ghost from_gives = { λ _ e. e ≡ NoMemory };

    fn from(_e: AllocError) -> WireFault {
        WireFault::NoMemory
    }
}
