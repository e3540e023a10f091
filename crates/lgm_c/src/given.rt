//! What C gives in slices, as crates have it.

ghost use Rattle.std.specs.Prelude.{◌≡◌, map, IfOk};
ghost use Rattle.std.specs.Fn.{FnReturnsAt};

use std::alloc::{AllocError, Global};

/// What each item gives.
pub(crate) fn all_given<T, U: Drop, F: Fn(&T) -> U>(
    alloc: Global,
    items: &[T],
    give: F,
) -> Result<Vec<U>, AllocError>
    requires { F.IsAlwaysCallable give }
    ensures { (f : T → U) → ((x : T) (y : U) → FnReturnsAt F.Fn give x y → y ≡ f x)
        → IfOk result (λ made. made.items ≡ map f items.now) }
{
    let mut made = Vec::with_capacity(alloc, items.len())?;
    for item in items {
        made.push(give(item))?;
    }
    Ok(made)
}
