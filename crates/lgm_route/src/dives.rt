//! Dives: extending a rest along the ways from the payer, so that some walk is found early.

ghost use Rattle.std.specs.Prelude.{◌≡◌, ◌+◌, ◌^◌, ◌<◌, ◌≤◌, true, length, IfOk, IfErr, IfSome};
ghost use Rattle.lgm_route.specs.inner.SearchState.{Adds, Extends, IsDiveFrom, IsHalted, IsPaid, IsStopped};
ghost use Rattle.lgm_route.specs.inner.Spending.{looks_from};

use crate::bounds::Measure;
use crate::halt::Halt;
use crate::label_search::LabelSearch;
use crate::penalties::Penalties;
use lgm_gossip::Scid;
use lgm_graph::{Edge, RoutingGraph};

/// The maximum number of edges of a dive.
const MAX_EDGES: u16 = 19;

/// The maximum number of dives of a search.
const MAX_DIVES: u32 = 64;

/// The dives of a search: each starts at a label with a smaller lower bound than those before.
#[derive(Drop)]
pub(crate) struct Dives {
    /// The smallest lower bound so far, in msat above the request's amount.
    least: u64,
    left: u32,
}

impl Dives {
    pub(crate) fn new() -> Dives {
        Dives {
            least: u64::MAX,
            left: MAX_DIVES,
        }
    }

    /// Dives from a label with this bound along the ways from the payer, if it is smaller than those before and the label's
    /// node is near the payer.
    #[inline(always)]
    pub(crate) fn dive<V: RoutingGraph, P: Penalties>(
        &mut self,
        search: &mut LabelSearch<'_, V, P>,
        i: usize,
        excess_lower_bound: u64,
    ) -> Result<(), Halt>
        requires { i < length search.old.labels }
        ensures extends { IfOk result (λ _. Extends search.old search.new) }
        ensures pays { IfOk result (λ _. IsPaid search.old → IsPaid search.new) }
        ensures halted { IfErr result (λ halt. IsHalted search.old search.new halt) }
    {
        let node = search.label(i).node;
        if self.least <= excess_lower_bound
            || self.left == 0
            || search.channel_to(Measure::Fees, node).is_none()
        {
            return Ok(());
        }
        self.least = excess_lower_bound;
        self.left -= 1;
        search.dive_both(i)?;
        Ok(())
    }
}

/// Where an edge is in a list, if it is there, and how many edges were looked at one by one.
#[derive(Clone, Copy)]
struct Place {
    at: Option<usize>,
    looked: usize,
}

impl<'a, V: RoutingGraph, P: Penalties> LabelSearch<'a, V, P> {
    /// Dives from a label along the cheapest and the quickest way from the payer, unless dives started there.
    fn dive_both(&mut self, i: usize) -> Result<(), Halt>
        requires { i < length self.old.labels }
        ensures extends { IfOk result (λ _. Extends self.old self.new) }
        ensures pays { IfOk result (λ _. IsPaid self.old → IsPaid self.new) }
        ensures halted { IfErr result (λ halt. IsHalted self.old self.new halt) }
    {
        if !self.may_dive(i) {
            return Ok(());
        }
        self.dive(i, Measure::Fees)?;
        self.dive(i, Measure::Delays)?;
        Ok(())
    }

    /// Extends a label's rest along the cheapest or the quickest way from the payer, as far as it is known.
    fn dive(&mut self, i: usize, measure: Measure) -> Result<(), Halt>
        requires { i < length self.old.labels }
        ensures extends { IfOk result (λ _. Extends self.old self.new) }
        ensures adds { Adds self.old self.new }
        ensures spends { IsDiveFrom i self.old self.new }
        ensures stopped { IfErr result (λ halt. IsStopped self.old self.new halt) }
    {
        let mut here = i;
        for _step in 0..MAX_EDGES {
            let last = self.len();
            if !self.dive_on(here, measure)? {
                break;
            }
            here = last;
        }
        Ok(())
    }

    /// Extends a label's rest by one edge. Returns whether this added a label.
    fn dive_on(&mut self, here: usize, measure: Measure) -> Result<bool, Halt>
        requires { here < length self.old.labels }
        ensures extends { IfOk result (λ _. Extends self.old self.new) }
        ensures added { IfOk result (λ added. added ≡ true → length self.old.labels < length self.new.labels) }
        ensures adds { Adds self.old self.new }
        ensures spends { length self.new.labels < 2 ^ 32
            → self.new.spent ≤ self.old.spent + looks_from self.old.ground.graph self.new.labels here }
        ensures stopped { IfErr result (λ halt. IsStopped self.old self.new halt) }
    {
        let last = self.len();
        let label = self.label(here);
        let edges = self.edges_into(label.node);
        let place = self.next_edge(measure, label.node, edges);
        self.spend(place.looked)?;
        let Some(at) = place.at else {
            return Ok(false);
        };
        let bound = self.bound();
        self.relax_edge(bound, here, &label, at, &edges[at])?;
        Ok(last < self.len())
    }

    /// The place of the edge that leads to a node on the way from the payer, among those into the node.
    fn next_edge(&self, measure: Measure, node: u32, edges: &[Edge]) -> Place
        ensures within { IfSome result.at (λ at. at < length edges.now) }
        ensures few { result.looked ≤ length edges.now }
    {
        let Some(over) = self.channel_to(measure, node) else {
            return Place {
                at: None,
                looked: 0,
            };
        };
        let low = first_from(edges, over);
        if low < edges.len() && edges[low].scid == over {
            return Place {
                at: Some(low),
                looked: 0,
            };
        }
        // Lists with extra edges aren't in the order of ids.
        for at in 0..edges.len() {
            if edges[at].scid == over {
                return Place {
                    at: Some(at),
                    looked: at + 1,
                };
            }
        }
        Place {
            at: None,
            looked: edges.len(),
        }
    }
}

/// In a list in the order of ids, the place of the first edge whose id is not below this one.
fn first_from(edges: &[Edge], over: Scid) -> usize {
    let mut low = 0;
    let mut high = edges.len();
    for _step in 0..64 {
        if high <= low {
            break;
        }
        let middle = low + (high - low) / 2;
        if edges[middle].scid < over {
            low = middle + 1;
        } else {
            high = middle;
        }
    }
    low
}
