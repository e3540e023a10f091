//! Outcomes and answers.

use lgm_check::Refusal;
use lgm_route::{Route, RouteFault};
use lgm_store::Op;

/// The answer to a payment.
#[derive(Debug, Drop)]
pub struct LiveAnswer {
    /// The version: the number of operations of the map on which it was answered.
    pub version: u64,
    /// The route, or why there is none, which is never out of memory.
    pub result: Result<Route, RouteFault>,
}

/// The outcomes of items, and the answers to payments.
#[derive(Debug, Drop)]
pub struct LiveReport {
    /// For each item of all batches, in order, why it was refused, or none if it was accepted.
    pub outcomes: Vec<Option<Refusal>>,
    /// The operations of the accepted items, in order.
    pub ops: Vec<Op>,
    /// The number of operations after each batch.
    pub ends: Vec<u64>,
    /// The answers of each worker, in the order of its list.
    pub answers: Vec<Vec<LiveAnswer>>,
}
