//! Scripts of gossip, answered line by line.
//!
//! [`run`] takes a whole script from a [`Source`](lgm_script::Source) and writes its text to a
//! [`Sink`](lgm_script::Sink). Its contract defines that text, line by line, however the bytes of the script arrive.
//!
//! The only error is out of memory, where no more is said.
#![tactic(auto)]

mod answer_group;
mod checked_item;
mod context;
mod engine;
mod lookahead;
mod questions;
mod script_run;

pub use context::Context;
pub use engine::Engine;
pub use script_run::{Counts, run, run_keeping};
