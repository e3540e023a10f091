//! Why a search stopped.

ghost use Rattle.std.specs.Prelude.{◌≡◌};
ghost use Rattle.lgm_route.specs.declared.halt.Halt.TheVariants.{NoMemory};

use std::alloc::{AllocError, AllocFailed};

/// Why a search stopped before it was finished. What it found so far stays.
#[derive(Clone, Copy, Debug)]
pub(crate) enum Halt {
    /// Memory was refused.
    NoMemory,
    /// It has as many labels as it may.
    Labels,
    /// It took as many steps as it may.
    Steps,
}

impl From<AllocError> for Halt {
    ghost from_gives = { λ _ halt. halt ≡ NoMemory };

    fn from(_e: AllocError) -> Halt {
        Halt::NoMemory
    }
}

impl<T: Drop> From<AllocFailed<T>> for Halt {
    ghost from_gives = { λ _ halt. halt ≡ NoMemory };

    fn from(_e: AllocFailed<T>) -> Halt {
        Halt::NoMemory
    }
}
