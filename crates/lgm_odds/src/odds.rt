//! The odds that a route fails.

ghost use Rattle.std.specs.Prelude.{◌≡◌, ◌≤◌, ◌*◌, ◌^◌, length, sum_by};
ghost use Rattle.lgm_graph.specs.Estimates.{estimate_of};
ghost use Rattle.lgm_odds.specs.RouteOdds.{failure_odds, hop_odds, route_odds};

use crate::edge_most::most_over;
use lgm_graph::{Estimate, Estimates, ExtraEdge, Hop, Limit, Route};
use lgm_store::Map;

/// Odds of 1 to 1, in millionths.
const EVEN: u64 = 1_000_000;

/// The greatest odds of an edge: 100 to 1.
const MAX_ODDS: u128 = 100_000_000;

/// In millionths the odds of a failure against none, of an edge of which this is believed, and that forwards no more
/// than this.
fn failure_odds(estimate: Estimate, most: u64, amount: u64) -> u64
    ensures exact { result ≡ failure_odds estimate most amount }
    ensures low { result ≤ 100000000 }
{
    let over = amount.saturating_sub(estimate.least);
    let room = u128::from(most.min(estimate.most).saturating_sub(amount)) + 1;
    (u128::from(EVEN) * u128::from(over) / room).min(MAX_ODDS) as u64
}

fn hop_odds(
    map: &Map,
    extra: &[ExtraEdge],
    limits: &[Limit],
    estimates: &Estimates,
    hop: &Hop,
) -> u64
    ensures exact { result ≡ hop_odds map.now extra.now limits.now (estimate_of estimates.now) hop.now }
    ensures low { result ≤ 100000000 }
{
    let estimate = estimates.get(hop.scid, &hop.from);
    let most = most_over(map, extra, limits, hop.scid, &hop.from);
    failure_odds(estimate, most, hop.amount)
}

fn sum_of_odds(
    map: &Map,
    extra: &[ExtraEdge],
    limits: &[Limit],
    estimates: &Estimates,
    hops: &[Hop],
) -> u64
    requires { length hops.now ≤ 20 }
    ensures exact { result ≡ sum_by (hop_odds map.now extra.now limits.now (estimate_of estimates.now)) hops.now }
    ensures low { result ≤ 2000000000 }
{
    let mut sum = 0u64;
    for hop in hops {
        sum += hop_odds(map, extra, limits, estimates, hop);
    }
    sum
}

/// The odds that a route fails, in millionths: the sum of the odds of a failure of its channels, but for the first,
/// which is the payer's own. A route of odds of 3,000,000, 3 to 1, arrives with odds of 1 to 3 or so.
///
/// Those of a channel are the amount above what it surely carries, over what is left of what it may carry at most, plus
/// one; at most 100 to 1: what it carries may be anything between, all equally likely. At most it forwards the maximum
/// of the first of the extra edges with its name, or else of the map's direction, 0 if there is none; or a limit that
/// is less.
pub fn route_odds(
    map: &Map,
    extra: &[ExtraEdge],
    limits: &[Limit],
    estimates: &Estimates,
    route: &Route,
) -> u32
    ensures { result ≡ route_odds map.now extra.now limits.now (estimate_of estimates.now) route.now }
{
    sum_of_odds(map, extra, limits, estimates, &route.as_slice()[1..]) as u32
}
