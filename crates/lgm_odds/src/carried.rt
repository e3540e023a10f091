//! What hops carry.

ghost use Rattle.std.specs.Prelude.{◌≡◌, ◌-◌, ◌^◌, min};
ghost use Rattle.lgm_odds.specs.Carried.{over, carried_over};

use lgm_gossip::{Point, Scid};
use lgm_graph::Hop;

/// The amount of a hop, in msat, if it is over an edge.
fn over(hop: &Hop, scid: Scid, from: &Point) -> u64
    ensures { result ≡ over scid from.now hop.now }
{
    if hop.scid == scid && hop.from == *from {
        hop.amount
    } else {
        0
    }
}

/// What hops carry over the edge with an id out of a node, in msat, and 2^64 - 1 at most.
pub fn carried_over(busy: &[Hop], scid: Scid, from: &Point) -> u64
    ensures { result ≡ min (2 ^ 64 - 1) (carried_over busy.now scid from.now) }
{
    let mut carried = 0u64;
    for hop in busy {
        carried = carried.saturating_add(over(hop, scid, from));
    }
    carried
}
