//! Saving a map as bytes, and loading it again.
//!
//! A [`Saving`] says how many bytes a map takes, and writes them. [`load`] returns the map that was saved, or refuses bytes
//! that were cut or changed, or are of another version or chain, as a whole.
//!
//! Where an error is `AllocError`, memory ran out.
//!
//! The bytes are the text `lgm map` with a line feed; the version of the format, 2, in four bytes; the chain's hash; the
//! length of the records, in eight bytes; the records; and a checksum of all bytes before it, in sixteen. Numbers are
//! big-endian, and messages are as they were received. A record begins with a byte that says its kind:
//!
//! | kind | what it is | what it has |
//! |---|---|---|
//! | 1 | a banned node | its point, 33 bytes |
//! | 2 | a channel | its capacity in satoshi, 8 bytes; the length of its announcement, 2 bytes; the announcement |
//! | 3 | an update of a channel | its length, 2 bytes, and the message |
//! | 4 | a node | the length of its announcement, 2 bytes, and the announcement |
#![tactic(auto)]

mod checksum;
mod fault;
mod filling;
mod laws;
mod loading;
mod numbers;
mod reader;
mod record;
mod records;
mod saving;
mod sealing;
mod strip;

pub use fault::LoadFault;
pub use laws::{damage_is_refused, saved_is_loaded};
pub use loading::load;
pub use record::Record;
pub use saving::Saving;
pub use sealing::{body_behind, seal};
