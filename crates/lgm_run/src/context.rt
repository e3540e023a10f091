//! The context in which lines are answered.

use lgm_gossip::ChainHash;
use lgm_par::Pool;

/// What every line of a script is answered with.
#[derive(Drop)]
pub struct Context<'a, Rt, G> {
    /// The workers that share the work.
    pub pool: Pool<'a, Rt, G>,
    /// The chain of the map.
    pub chain: ChainHash,
}
