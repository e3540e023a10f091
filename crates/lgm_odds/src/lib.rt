//! The odds of routes, and what tries teach of edges.
//!
//! [`route_odds`] says how likely a route is to fail. A [`Lesson`] is what an edge did with an amount, and [`beside`] what is believed of edges beside what is under way over them. What is believed fades with time, by [`fade`].
//!
//! Where a public call's error is `AllocError`, memory ran out, and nothing has changed.
#![tactic(auto)]

mod carried;
mod cut;
mod cut_search;
mod edge_most;
mod fading;
mod flow;
mod laws;
mod lesson;
mod liquidity;
mod odds;
mod reached;
mod room;

pub use carried::carried_over;
pub use cut::Cut;
pub use cut_search::cut_between;
pub use fading::{Elapsed, fade};
pub use laws::parts_bring_no_more;
pub use lesson::{Lesson, beside};
pub use liquidity::{CutEdge, Liquidity};
pub use odds::route_odds;
pub use room::room_into;
