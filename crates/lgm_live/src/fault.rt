//! Why there is no report.

ghost use Rattle.std.specs.Prelude.{◌≡◌};
ghost use Rattle.lgm_live.specs.Running.{live_fault};
ghost use Rattle.lgm_live.specs.declared.fault.LiveFault.TheVariants.{NoMemory};

use lgm_answers::RunFault;
use std::alloc::{AllocError, AllocFailed};
use thiserror::Error;

/// Why there is no report.
#[derive(Clone, Copy, Debug, PartialEq, Eq, Error)]
pub enum LiveFault {
    /// Out of memory, in the writer, a worker or the search for a route.
    #[error("out of memory")]
    NoMemory,
    /// A worker found nothing published, or got no place at the board.
    #[error("board closed")]
    Closed,
    /// A worker answered on a map that isn't that of the end of a batch, or that lacks a batch before a payment.
    #[error("versions disagree")]
    Versions,
}

impl From<AllocError> for LiveFault {
    ghost from_gives = { λ _ e. e ≡ NoMemory };

    fn from(_e: AllocError) -> LiveFault {
        LiveFault::NoMemory
    }
}

impl<T: Drop> From<AllocFailed<T>> for LiveFault {
    ghost from_gives = { λ _ e. e ≡ NoMemory };

    fn from(_e: AllocFailed<T>) -> LiveFault {
        LiveFault::NoMemory
    }
}

impl From<LiveFault> for RunFault {
    ghost from_gives = { λ fault e. e ≡ live_fault fault };

    fn from(fault: LiveFault) -> RunFault {
        match fault {
            LiveFault::NoMemory => RunFault::NoMemory,
            LiveFault::Closed => RunFault::Closed,
            LiveFault::Versions => RunFault::Versions,
        }
    }
}
