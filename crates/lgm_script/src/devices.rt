//! Devices: where a script is read from, and where answers are written to.

mod device;
mod failures;
mod memory;
mod std_streams;

pub use device::{Failed, Sink, Source, write_all};
pub use failures::Failures;
pub use memory::{MemorySink, MemorySource};
pub use std_streams::{FromRead, ToWrite};
