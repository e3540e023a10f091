//! Items of lines.

use lgm_script::{Command, Item, parse};
use std::alloc::{AllocError, Global};

/// The item that a line offers, if it does.
pub fn item_of(alloc: Global, line: &str) -> Result<Option<Item>, AllocError> {
    match parse(alloc, line.as_bytes())? {
        Command::Offer(item) => Ok(Some(item)),
        _ => Ok(None),
    }
}
