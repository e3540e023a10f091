//! Reference-counted values.

ghost use Rattle.std.specs.Prelude.{◌≡◌, IfOk};

use std::alloc::{AllocError, Global};
use std::marker::Model;
use std::sync::Arc;

/// A reference-counted value, which never changes. Contracts see the value.
///
/// Maps and histories with the same row share it, so no row is copied.
#[derive(Debug, Drop)]
pub struct Shared<T> {
    cell: Arc<T>,
}

impl<T> Model for Shared<T> {
    ghost use Rattle.std.specs.Arc.{arc_value};

    ghost Value = { T };

    ghost view = { λ s. arc_value s.cell };
}

impl<T: Drop> Shared<T> {
    /// The value, with one owner so far.
    pub fn new(alloc: Global, value: T) -> Result<Shared<T>, AllocError>
        ensures { IfOk result (λ shared. shared ≡ value) }
    {
        Ok(Shared {
            cell: Arc::new(alloc, value)?,
        })
    }
}

impl<T> Shared<T> {
    /// One more owner. The only error is that the count of owners is full, at 2^63.
    pub fn share(&self) -> Result<Shared<T>, AllocError>
        ensures { IfOk result (λ shared. shared ≡ self.now) }
    {
        Ok(Shared {
            cell: Arc::try_clone(&self.cell)?,
        })
    }

    /// Reads the count of owners, so that the processor's cache has it, and the first bytes of the value beside it.
    pub(crate) fn prefetch(&self) {
        let _ = Arc::strong_count(&self.cell);
    }

    /// The value, borrowed.
    #[inline(always)]
    pub fn get(&self) -> &T
        ensures { result.now ≡ self.now }
    {
        &self.cell
    }
}

impl<T: Drop> Clone for Shared<T> {
    ghost is_clone = { λ shared copy. copy ≡ shared };

    fn clone(&self) -> Result<Shared<T>, AllocError> {
        self.share()
    }
}
