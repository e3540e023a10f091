//! Answers to the lines of a script, and their text.
//!
//! An [`Answer`] is what is found for a line before its turn: the reply to a query, a peer's filter, the route of a
//! payment. What scripts share, whether they are answered line by line or with a map that grows: outcomes of items,
//! texts of answers, and why a script isn't answered to its end ([`RunFault`]).
//!
//! Where a public call's error is `AllocError`, memory ran out, and nothing has changed.
#![tactic(auto)]

mod answer;
mod batch;
mod filters;
mod query;
mod route;
mod run_fault;
mod send;

pub use answer::{Answer, outcome_word};
pub use filters::{Filters, PeerFilter};
pub use query::{answer_filter, answer_query};
pub use route::{asked_route, send_found};
pub use run_fault::{MAX_LINES, RunFault};
pub use send::send_commit;
