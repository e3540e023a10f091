//! A count that only contracts read.

ghost use Rattle.std.specs.Prelude.{◌≡◌, ◌+◌, ℕ};
ghost use Rattle.std.specs.Borrow.{ftrue};

use std::marker::Model;

/// How often a device has failed, for contracts alone. It has no size, and its methods do nothing at run time.
#[derive(Drop)]
pub struct Failures {
    /// The count.
    pub ghost count: { ℕ },
}

impl Model for Failures {
    ghost also_owns = { λ _. ftrue };
}

// It owns nothing.
unsafe impl Send for Failures {}

impl Failures {
    /// The count of a device that hasn't failed yet.
    pub fn none() -> Failures
        ensures { result.count ≡ 0 }
    {
        Failures {}
    }

    /// The count after one more failure.
    pub fn and_one(&self) -> Failures
        ensures { result.count ≡ self.now.count + 1 }
    {
        Failures {}
    }
}
