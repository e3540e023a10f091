//! Faults.

ghost use Rattle.std.specs.Prelude.{◌≡◌};
ghost use Rattle.lgm_board.specs.declared.fault.PublishFault.TheVariants.{NoMemory};

use lgm_store::Op;
use std::alloc::AllocError;
use thiserror::Error;

/// Out of memory.
#[derive(Clone, Copy, Debug, PartialEq, Eq, Error)]
#[error("out of memory")]
pub struct NoMemory;

/// Why a board couldn't be made.
#[derive(Clone, Copy, Debug, PartialEq, Eq, Error)]
pub enum PublishFault {
    /// An eye got no place at the table of the two copies.
    #[error("no place for an eye")]
    Places,
    /// Out of memory.
    #[error("out of memory")]
    NoMemory,
}

impl From<AllocError> for PublishFault {
    ghost from_gives = { λ _ e. e ≡ NoMemory };

    fn from(_e: AllocError) -> PublishFault {
        PublishFault::NoMemory
    }
}

/// Why an operation wasn't appended.
#[derive(Clone, Copy, Debug, PartialEq, Eq, Error)]
pub enum AppendCause {
    /// 2,000,000,000 operations have been appended.
    #[error("full")]
    Full,
    /// Out of memory.
    #[error("out of memory")]
    NoMemory,
}

/// An operation that wasn't appended, with the reason.
#[derive(Debug, Drop)]
pub struct AppendFault {
    /// The operation, as passed in.
    pub op: Op,
    /// The reason.
    pub cause: AppendCause,
}
