//! The program `lgm` over any words, devices and runtime: its command line, its commands, and its exit statuses.
#![tactic(auto)]

mod answer;
mod options;
mod program;

pub use options::{BadWords, read_words};
pub use program::{fault_line, refuse, start, start_with_gate};
