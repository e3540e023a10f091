//! The routing view of a map: the edges that payments can use.
//!
//! A [`View`] numbers the nodes of a map, and has the edges into and out of each node as consecutive lists, as a search
//! for routes reads them. It is built from a map, or maintained while operations change the map. A node that requires
//! unknown features takes no payments. A [`Network`] is a map with its view as one value. An [`Overlay`] is what a payer
//! knows beside the map, and an [`OverlayView`] the view over it. A [`RoutingGraph`] is what a search reads. [`Estimates`]
//! are what a payer has learnt of edges. A [`Route`] is a walk over edges with what each [`Hop`] forwards.
//!
//! Where an error is `AllocError`, memory ran out.
#![tactic(auto)]

mod edge;
mod edge_filter;
mod edges;
mod estimate;
mod estimates;
mod fees;
mod known;
mod laws;
mod network;
mod node;
mod node_table;
mod nodes;
mod overlay;
mod overlay_laws;
mod overlay_view;
mod route;
mod routing_graph;
mod view;

pub use edge::Edge;
pub use estimate::{EdgeKey, Estimate, NO_ESTIMATE};
pub use estimates::Estimates;
pub use fees::fee;
pub use known::Known;
pub use laws::edges_are_directions;
pub use network::Network;
pub use node_table::{no_places, place_in};
pub use overlay::{ExtraEdge, Limit, Overlay};
pub use overlay_laws::overlays_are_lawful;
pub use overlay_view::OverlayView;
pub use route::{Hop, Route};
pub use routing_graph::RoutingGraph;
pub use view::{MAX_CHANNELS, View};
