//! The route server: whole scripts of gossip, and maps that are queried while they grow.
//!
//! [`run`] answers a script line by line. [`live`] has one writer admit items batch by batch while workers answer
//! payments, and [`run_live`] does this with a script. The devices that scripts are read from and answered to, and the
//! types of what these calls take and return, are here too.
#![tactic(auto)]

pub use lgm_answers::{MAX_LINES, RunFault};
pub use lgm_live::{Batches, LiveAnswer, LiveFault, LiveReport, RequestLists, live, run_live};
pub use lgm_run::{Context, Counts, Engine, run, run_keeping};
pub use lgm_script::{
    Failed, Failures, FromRead, Item, MemorySink, MemorySource, Sink, Source, ToWrite,
};
