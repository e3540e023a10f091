//! A map with its view, published by one writer, its pen, to readers on other threads, its eyes.
//!
//! A [`Pen`] appends operations and publishes all pending ones atomically. An [`Eye`] enters, and gets a [`Guard`] with
//! the map published last, and its view. No reader waits for the writer or for another reader; when the writer
//! publishes, it waits for the guards that still show the snapshot before the last publication. A guard shows the map
//! of a prefix of the appended operations, which never shrinks from one guard of an eye to the next, and contains what
//! the eye was told.
#![tactic(auto)]

mod eye;
mod fault;
mod new_board;
mod pen;
mod rule;
mod snapshot;
mod told;
mod writer;

pub use eye::{Eye, Guard};
pub use fault::{AppendCause, AppendFault, NoMemory, PublishFault};
pub use new_board::{MAX_READERS, board};
pub use pen::Pen;
pub use snapshot::MAX_OPERATIONS;
pub use told::Told;
