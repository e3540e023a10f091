//! Why a script isn't answered to its end.

ghost use Rattle.std.specs.Prelude.{◌≡◌};
ghost use Rattle.lgm_answers.specs.Faults.{line_fault, send_fault};
ghost use Rattle.lgm_answers.specs.declared.run_fault.RunFault.TheVariants.{Write, NoMemory};

use lgm_script::{LineFault, SendFault};
use std::alloc::AllocError;
use thiserror::Error;

/// The maximum number of lines of a script.
pub const MAX_LINES: u64 = 10_000_000;

/// Why a script wasn't answered to its end. What was written is a prefix of its text. The last two come only with a
/// map that grows.
#[derive(Clone, Copy, Debug, PartialEq, Eq, Error)]
pub enum RunFault {
    /// The source failed.
    #[error("read failed")]
    Read,
    /// The sink failed, or accepted no byte.
    #[error("write failed")]
    Write,
    /// Out of memory.
    #[error("out of memory")]
    NoMemory,
    /// Line 10,000,001 begins.
    #[error("too many lines")]
    TooManyLines,
    /// A line has more than 140,000 bytes.
    #[error("line too long")]
    LineTooLong,
    /// A worker found nothing published, or got no place at the board. Nothing was written.
    #[error("board closed")]
    Closed,
    /// A worker answered on a map that isn't that of the end of a batch. Nothing was written.
    #[error("versions disagree")]
    Versions,
}

impl From<LineFault> for RunFault {
    ghost from_gives = { λ fault e. e ≡ line_fault fault };

    fn from(fault: LineFault) -> RunFault {
        match fault {
            LineFault::Read => RunFault::Read,
            LineFault::Write => RunFault::Write,
            LineFault::TooLong => RunFault::LineTooLong,
        }
    }
}

impl From<SendFault> for RunFault {
    ghost from_gives = { λ fault e. e ≡ send_fault fault };

    fn from(fault: SendFault) -> RunFault {
        match fault {
            SendFault::Write => RunFault::Write,
            SendFault::NoMemory => RunFault::NoMemory,
        }
    }
}

impl From<AllocError> for RunFault {
    ghost from_gives = { λ _ e. e ≡ NoMemory };

    fn from(_e: AllocError) -> RunFault {
        RunFault::NoMemory
    }
}
