//! A map that is queried while it grows: one writer admits items batch by batch, and workers answer payments meanwhile.
//!
//! [`live`] takes the items in [`Batches`] and the payments in [`RequestLists`], one list per worker. Its contract
//! specifies the outcome of each item, and that each answer is the definition's on the map of its version. [`run_live`]
//! does this with the items and payments of a script, and writes the results.
//!
//! Where a public call's error is `AllocError`, memory ran out, and nothing has changed.
#![tactic(auto)]

mod fault;
mod freshness;
mod lists;
mod live_batches;
mod live_script;
mod ordering_gate;
mod parsed_script;
mod read_script;
mod report;
mod report_place;
mod turn;
mod versions;
mod worker;
mod write_answers;
mod writer;

pub use fault::LiveFault;
pub use lists::{Batches, RequestLists};
pub use live_batches::live;
pub use live_script::run_live;
pub use report::{LiveAnswer, LiveReport};
