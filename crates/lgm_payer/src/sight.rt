//! What a payer sees.

use lgm_gossip::Point;
use lgm_graph::{Estimates, ExtraEdge, Limit, Overlay, View};
use lgm_route::{Preferences, SearchBudget};
use lgm_store::Map;

/// What a payer sees when it asks for a part of a payment.
#[derive(Clone, Copy)]
pub struct Sight<'a> {
    /// The map in which a route for the part is sought.
    pub map: &'a Map,
    /// Its view.
    pub view: &'a View,
    /// The payer's channels: edges out of it, each with what it can send now, as the node tells it.
    pub own: &'a [ExtraEdge],
    /// How many parts they reckon: all parts of a lower number, whether they are under way or not. What later parts
    /// take is deducted, so it does no harm if they are reckoned as well.
    pub reckoned: u64,
    /// What the payer prefers. By default it is worth 200 millionths of the payment's amount to it that a try doesn't
    /// fail, but a hundredth of the amount up to 20 satoshis; and half a satoshi to save a hop.
    pub preferences: Option<Preferences>,
    /// What may be spent on a search.
    pub budget: SearchBudget,
    /// The height of the chain.
    pub height: u32,
}

/// What a payment asks over for a part: the map and what is beside it now.
#[derive(Clone, Copy)]
pub(crate) struct Outlook<'a> {
    pub(crate) map: &'a Map,
    pub(crate) view: &'a View,
    /// Edges beside the map.
    pub(crate) extra: &'a [ExtraEdge],
    /// Limits of what edges carry.
    pub(crate) limits: &'a [Limit],
    /// These and silent nodes.
    pub(crate) overlay: &'a Overlay,
    /// What is believed of edges.
    pub(crate) estimates: &'a Estimates,
    pub(crate) preferences: Preferences,
    pub(crate) budget: SearchBudget,
    pub(crate) height: u32,
    /// What the payer's channels can send together, in msat.
    pub(crate) room: u64,
    /// What the edges into the payee can carry together, in msat.
    pub(crate) payee_room: u64,
    /// The payer.
    pub(crate) payer: Point,
}
