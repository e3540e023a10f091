//! Labels: the search's representation of the rest of a walk.

ghost use Rattle.std.specs.Prelude.{◌≡◌, ◌^◌, ◌≤◌, ◌+◌, ◌<◌, true, false, if◌then◌else◌};
ghost use Rattle.lgm_route.specs.inner.Numbered.{asked};
ghost use Rattle.lgm_route.specs.inner.Searching.{Begins, first_of, IsSpelled, IdsFirst, bound_of, IsFound};
ghost use Rattle.lgm_route.specs.inner.Searching.{IdsAfter, DoesDominate, DoesNotDominate, SomeWalk, IsBetter, cost};

use crate::penalties::Penalties;
use crate::request::NumberedRequest;
use lgm_graph::{Edge, RoutingGraph};

/// The rest of a walk from a node to the payee: its first edge, followed by the rest of another label, its parent. A
/// label without edges is at the payee. A whole walk is stored as a label too, whose amount is what the payer sends.
#[derive(Clone, Copy)]
pub(crate) struct Label {
    /// The amount that has to reach the node, in msat.
    pub amount: u64,
    /// The penalties of its edges, in msat.
    pub penalty: u64,
    /// The index of the parent: the label of the edges after the first one.
    pub parent: usize,
    /// The index of the first edge among those into the parent's node.
    pub at: usize,
    /// The node at which the rest begins.
    pub node: u32,
    /// The number of edges.
    pub hops: u16,
    /// The delay, in blocks that count.
    pub delay: u16,
}

impl Label {
    /// What it costs so far, in msat: the amount and the penalties.
    #[inline(always)]
    pub(crate) fn cost(&self) -> u128
        ensures exact { result ≡ self.now.amount + self.now.penalty }
        ensures low { result < 2 ^ 65 }
    {
        self.amount as u128 + self.penalty as u128
    }
}

/// The first edge of a label.
pub(crate) fn first_of<'a, V: RoutingGraph>(
    view: &'a V,
    labels: &[Label],
    label: &Label,
) -> &'a Edge
    requires { Begins (V.graph view.now) labels.now label.now }
    ensures { result.now ≡ first_of (V.graph view.now) labels.now label.now }
{
    let node = labels[label.parent].node;
    &view.edges_into(node)[label.at]
}

/// Whether the ids of a label's edges precede or equal those of another's.
pub(crate) fn ids_first<V: RoutingGraph>(
    view: &V,
    labels: &[Label],
    label: &Label,
    other: &Label,
) -> bool
    requires spelled { IsSpelled (V.graph view.now) labels.now label.now }
    requires also { IsSpelled (V.graph view.now) labels.now other.now }
    requires equal { label.now.hops ≡ other.now.hops }
    ensures first { result ≡ true → IdsFirst (V.graph view.now) labels.now label.now other.now }
    ensures after { result ≡ false → IdsFirst (V.graph view.now) labels.now other.now label.now }
    ensures strictly { result ≡ false → IdsAfter (V.graph view.now) labels.now label.now other.now }
{
    let mut here = *label;
    let mut there = *other;
    for step in 0..label.hops {
        let id = first_of(view, labels, &here).scid.to_u64();
        let also = first_of(view, labels, &there).scid.to_u64();
        if id < also {
            return true;
        }
        if also < id {
            return false;
        }
        if here.parent == there.parent {
            return true;
        }
        here = labels[here.parent];
        there = labels[there.parent];
    }
    true
}

/// Whether a label's rest dominates another's.
pub(crate) fn dominates<V: RoutingGraph>(
    view: &V,
    labels: &[Label],
    label: &Label,
    other: &Label,
) -> bool
    requires spelled { IsSpelled (V.graph view.now) labels.now label.now }
    requires also { IsSpelled (V.graph view.now) labels.now other.now }
    ensures does { result ≡ true → DoesDominate (V.graph view.now) labels.now label.now other.now }
    ensures does_not { result ≡ false → DoesNotDominate (V.graph view.now) labels.now label.now other.now }
{
    let (cost, also) = (label.cost(), other.cost());
    if other.hops < label.hops
        || also < cost
        || other.amount < label.amount
        || other.delay < label.delay
    {
        false
    } else if cost < also || label.hops < other.hops {
        true
    } else {
        ids_first(view, labels, label, other)
    }
}

/// The bound that a better walk is below.
#[inline(always)]
pub(crate) fn bound_of(upper_bound: u128, best: &Option<Label>) -> u128
    requires { upper_bound ≤ 2 ^ 65 }
    ensures exact { result ≡ bound_of upper_bound best.now }
    ensures low { result ≤ 2 ^ 71 }
{
    match best {
        None => cost(upper_bound, 0),
        Some(best) => cost(best.cost(), best.hops as u128),
    }
}

/// Whether a new walk is better than the best so far.
pub(crate) fn is_better<V: RoutingGraph, P: Penalties>(
    view: &V,
    request: &NumberedRequest<P>,
    labels: &[Label],
    upper_bound: u128,
    best: &Option<Label>,
    new: &Label,
) -> bool
    requires few { request.now.most_hops ≤ 20 }
    requires found { IsFound (V.graph view.now) (asked (P.terms request.now.penalties) request.now) labels.now upper_bound best.now }
    requires new { SomeWalk (V.graph view.now) (asked (P.terms request.now.penalties) request.now) labels.now new.now }
    ensures { IsBetter (V.graph view.now) (asked (P.terms request.now.penalties) request.now) labels.now upper_bound best.now new.now
        (if result then Some new.now else best.now) }
{
    match best {
        None => new.cost() < upper_bound,
        Some(best) => {
            let (cost, least) = (new.cost(), best.cost());
            if cost != least {
                cost < least
            } else if new.hops != best.hops {
                new.hops < best.hops
            } else {
                ids_first(view, labels, new, best)
            }
        }
    }
}

/// What is sent, in msat, and then the number of edges, below 32, as one number: a walk with a smaller one is better.
#[inline(always)]
pub(crate) fn cost(msat: u128, edges: u128) -> u128
    requires msat { msat ≤ 2 ^ 120 }
    requires edges { edges ≤ 2 ^ 64 }
    ensures { result ≡ cost msat edges }
{
    msat * 32 + edges
}
