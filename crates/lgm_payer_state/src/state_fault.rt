//! Why bytes aren't read as a payer's state, or as what was learnt of edges.

ghost use Rattle.std.specs.Prelude.{◌≡◌};
ghost use Rattle.lgm_payer_state.specs.declared.state_fault.StateFault.TheVariants.{NoMemory};

use std::alloc::AllocError;
use thiserror::Error;

/// Why bytes aren't read as a payer's state, or as what was learnt of edges.
#[derive(Clone, Copy, Debug, PartialEq, Eq, Error)]
pub enum StateFault {
    /// They are of none: they were cut or changed, or another version wrote them.
    #[error("damaged, or of another version")]
    Damaged,
    /// Out of memory, which says nothing of the bytes.
    #[error("out of memory")]
    NoMemory,
}

impl From<AllocError> for StateFault {
    ghost from_gives = { λ _ e. e ≡ NoMemory };

    fn from(_e: AllocError) -> StateFault {
        StateFault::NoMemory
    }
}
