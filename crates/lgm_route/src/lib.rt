//! Routes of payments: what a payer sends over which channels so that an amount arrives.
//!
//! A [`Request`] names the payment, a [`Route`] the 1 to 20 channels that carry it, with the amount
//! and the expiry on each, and a [`RouteFault`] why there is none.
//!
//! Where an error is `AllocError`, memory ran out.
#![tactic(auto)]

mod answers;
mod best_route;
mod bounds;
mod dives;
mod entry;
mod fault;
mod forward_search;
mod found;
mod frontier;
mod halt;
mod hops;
mod label;
mod label_search;
mod laws;
mod layers;
mod limits;
mod no_route;
mod numbering;
mod pareto_fronts;
mod penalties;
mod preferences;
mod preferred;
mod queue;
mod quickest;
mod reached_nodes;
mod reasons;
mod relaxation;
mod request;
mod search;
mod settling;
mod sought;
mod walks;

pub use answers::{answer, answer_chunked, least, least_chunked};
pub use fault::RouteFault;
pub use found::{Found, SearchFault};
pub use laws::{
    answer_is_one, least_is_one, narrowing_never_helps, nothing_preferred, preferred_is_one,
};
pub use lgm_graph::{Hop, Route, RoutingGraph};
pub use limits::{RouteLimits, SearchBudget};
pub use no_route::NoRouteReason;
pub use preferences::Preferences;
pub use preferred::{find, find_over};
pub use reasons::no_route_reason;
pub use request::Request;
pub use search::Search;
