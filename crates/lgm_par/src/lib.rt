//! Data parallelism over a slice: it is split into chunks for several threads, and the results are
//! those of one thread, in the order of the slice.
#![tactic(auto)]

mod gate;
mod map;
mod pieces;
mod pool;

pub use gate::{Gate, Open};
pub use map::map_chunks;
pub use pool::{MAX_WORKERS, Pool};
