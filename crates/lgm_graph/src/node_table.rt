//! The places of values that some of the nodes of a graph have: by node number, from 1, or 0 if the node has none.

ghost use Rattle.std.specs.Prelude.{◌≡◌, ℕ, length, slice_index_or, IfOk};

use std::alloc::{AllocError, Global};

/// The place of the value of a node, or 0 if it has none. Nodes beyond the list have none.
#[inline(always)]
pub fn place_in(places: &[u32], number: u32) -> u32
    ensures { result ≡ slice_index_or places.now number 0 }
{
    match places.get(number as usize) {
        Some(place) => *place,
        None => 0,
    }
}

/// None of this many nodes has a value.
pub fn no_places(alloc: Global, count: usize) -> Result<Vec<u32>, AllocError>
    ensures long { IfOk result (λ places. length places.items ≡ count) }
    ensures none { IfOk result (λ places. (number : ℕ) → slice_index_or places.items number 0 ≡ 0) }
{
    vec![in alloc; 0; count]
}
