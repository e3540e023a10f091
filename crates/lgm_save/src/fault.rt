//! Why bytes are not loaded.

ghost use Rattle.std.specs.Prelude.{◌≡◌};
ghost use Rattle.lgm_save.specs.declared.fault.LoadFault.TheVariants.{NoMemory};

use std::alloc::AllocError;
use thiserror::Error;

/// Why bytes are not loaded.
#[derive(Clone, Copy, Debug, PartialEq, Eq, Error)]
pub enum LoadFault {
    /// They are not those of a saved map of this chain: they were cut or changed, or are of another version of the format
    /// or of another chain.
    #[error("not a saved map of this chain")]
    NotSaved,
    /// An allocation failed, which says nothing of the bytes.
    #[error("out of memory")]
    NoMemory,
}

impl From<AllocError> for LoadFault {
    ghost from_gives = { λ _ fault. fault ≡ NoMemory };

    fn from(_e: AllocError) -> LoadFault {
        LoadFault::NoMemory
    }
}
