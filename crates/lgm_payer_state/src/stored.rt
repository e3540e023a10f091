//! What is written to bytes, and read back.

ghost use Rattle.std.specs.Prelude.{◌≡◌, ◌++◌, ℕ, List, Result, IfOk, OnOk};
ghost use Rattle.lgm_wire.specs.reading.Reading.{Gives};
ghost use Rattle.lgm_payer_state.specs.Written.{IsWritten};
ghost use Rattle.lgm_payer_state.specs.declared.state_fault.StateFault.{StateFault as Fault};

use crate::state_fault::StateFault;
use std::alloc::{AllocError, Global};

/// A value that is written to bytes, and read back.
pub(crate) trait Stored: Drop {
    /// The bytes of a value.
    ghost bytes_of: { Self → List ℕ };

    /// The value at the front of bytes, and those behind it.
    ghost read_at: { List ℕ → Result (Self × List ℕ) Fault };

    /// Writes the value behind what is there.
    fn write(&self, out: &mut Vec<u8>) -> Result<(), AllocError>
        ensures { OnOk result (IsWritten bytes_of read_at self.now out.old.items out.new.items) };

    /// Reads a value at the front of bytes, and returns those behind it.
    fn read(alloc: Global, bytes: &[u8]) -> Result<(Self, &[u8]), StateFault>
        ensures given { Gives StateFault.NoMemory (λ x. (x.0, x.1.now)) result (read_at bytes.now) }
        ensures exact { IfOk result (λ x. bytes.now ≡ bytes_of x.0 ++ x.1.now) };
}
