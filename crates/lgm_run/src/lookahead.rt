//! Looking up items before their turn.

use crate::checked_item::CheckedItem;
use lgm_check::Refusal;
use lgm_store::Lookahead;
use std::alloc::{AllocError, Global};

/// The messages among checked items, to be looked up.
pub fn lookahead(
    alloc: Global,
    items: &[Option<Result<CheckedItem, Refusal>>],
) -> Result<Lookahead, AllocError> {
    let mut ahead = Lookahead::new(alloc);
    for item in items {
        if let Some(Ok(CheckedItem::Message(message))) = item {
            ahead.add(message)?;
        }
    }
    Ok(ahead)
}
