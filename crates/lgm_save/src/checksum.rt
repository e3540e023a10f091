//! The checksum of a saved map.

ghost use Rattle.std.specs.Prelude.{◌≡◌, ◌↔◌, IsTrue};
ghost use Rattle.lgm_save.specs.Checksum.{with_byte, sums_of, in_bytes};

use crate::numbers::in_eight;
use crate::strip::strip;

/// The sum of bytes, and the sum of these sums, byte by byte; both modulo 2^64.
#[derive(Clone, Copy, Debug, PartialEq, Eq)]
pub struct Sums {
    pub(crate) first: u64,
    pub(crate) second: u64,
}

impl Sums {
    #[inline(always)]
    fn with_byte(self, byte: u8) -> Sums
        ensures { result ≡ with_byte self byte }
    {
        let first = self.first.wrapping_add(u64::from(byte));
        Sums {
            first,
            second: self.second.wrapping_add(first),
        }
    }

    pub(crate) fn of(bytes: &[u8]) -> Sums
        ensures { result ≡ sums_of bytes.now }
    {
        let mut sums = Sums {
            first: 0,
            second: 0,
        };
        for byte in bytes {
            sums = sums.with_byte(*byte);
        }
        sums
    }

    /// Whether these are their sixteen bytes.
    pub(crate) fn are_in(&self, bytes: &[u8]) -> bool
        ensures { IsTrue result ↔ (bytes.now ≡ in_bytes self.now) }
    {
        let Some(rest) = strip(bytes, &in_eight(self.first)) else {
            return false;
        };
        rest == in_eight(self.second).as_slice()
    }
}
