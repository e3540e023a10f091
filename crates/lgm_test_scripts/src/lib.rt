//! What tests of scripts share: messages and lines as text, runs of them, random numbers from a seed, and devices that
//! fail.
#![tactic(auto)]

mod devices;
mod item;
mod notation;
mod runs;

pub use devices::{FailingSink, FailingSource};
pub use item::item_of;
pub use lgm_test_gossip::Numbers;
pub use notation::{CHAIN, spelled};
pub use runs::{ended, run_by};
