//! Edges at the ends of a payment.

ghost use Rattle.std.specs.Prelude.{◌≡◌, ◌<◌, true, false, length, slice_index_or};
ghost use Rattle.lgm_graph.specs.Graph.{edge_between, no_point, point_edges};
ghost use Rattle.lgm_route.specs.Reasons.{is_node, is_between, is_sought, NoneIsSought, SomeIsSought};
ghost use Rattle.lgm_route.specs.Reasons.{from_payer, to_payee, amount_from_payer, amount_to_payee};
ghost use Rattle.lgm_route.specs.inner.Seeking.{NoneIsInto};

use crate::request::Request;
use lgm_gossip::Point;
use lgm_graph::{Edge, RoutingGraph};

/// What an edge is sought by: the node that it leaves, the one that it leads to, and an amount that it carries, in msat; each
/// only if it is given.
#[derive(Clone, Copy, Debug)]
pub(crate) struct Sought {
    pub(crate) from: Option<Point>,
    pub(crate) to: Option<Point>,
    pub(crate) amount: Option<u64>,
}

impl Sought {
    /// An edge out of the payer.
    pub(crate) fn from_payer(request: &Request) -> Sought
        ensures { result ≡ from_payer request.now }
    {
        Sought {
            from: Some(request.payer),
            to: None,
            amount: None,
        }
    }

    /// An edge into the payee.
    pub(crate) fn to_payee(request: &Request) -> Sought
        ensures { result ≡ to_payee request.now }
    {
        Sought {
            from: None,
            to: Some(request.payee),
            amount: None,
        }
    }

    /// An edge out of the payer that carries the amount.
    pub(crate) fn amount_from_payer(request: &Request) -> Sought
        ensures { result ≡ amount_from_payer request.now }
    {
        Sought {
            from: Some(request.payer),
            to: None,
            amount: Some(request.amount),
        }
    }

    /// An edge into the payee that carries the amount.
    pub(crate) fn amount_to_payee(request: &Request) -> Sought
        ensures { result ≡ amount_to_payee request.now }
    {
        Sought {
            from: None,
            to: Some(request.payee),
            amount: Some(request.amount),
        }
    }

    /// Whether an edge carries the amount, if one is given.
    fn is_carried(&self, edge: &Edge) -> bool
        ensures { result ≡ is_between self.now.amount edge.now.min edge.now.max }
    {
        match self.amount {
            Some(amount) => edge.min <= amount && amount <= edge.max,
            None => true,
        }
    }
}

/// Whether a node is the one that is given, if one is.
fn is_at<V: RoutingGraph>(graph: &V, number: u32, node: &Option<Point>) -> bool
    requires { number < length (V.graph graph.now).points }
    ensures { result ≡ is_node node.now (slice_index_or (V.graph graph.now).points number no_point) }
{
    let Some(node) = node else {
        return true;
    };
    match graph.point(number) {
        Some(point) => *node == *point,
        None => unreachable!(),
    }
}

/// Whether an edge is sought.
fn is_sought<V: RoutingGraph>(graph: &V, sought: &Sought, edge: &Edge) -> bool
    requires from { edge.now.from < length (V.graph graph.now).points }
    requires to { edge.now.to < length (V.graph graph.now).points }
    ensures { result ≡ is_sought sought.now (edge_between (V.graph graph.now).points edge.now) }
{
    is_at(graph, edge.from, &sought.from)
        && is_at(graph, edge.to, &sought.to)
        && sought.is_carried(edge)
}

/// Whether one of the edges into the node with an index is sought.
fn any_into<V: RoutingGraph>(graph: &V, sought: &Sought, number: u32) -> bool
    ensures found { result ≡ true → SomeIsSought sought.now (point_edges (V.graph graph.now)) }
    ensures none { result ≡ false → NoneIsInto (V.graph graph.now) sought.now number }
{
    // The contract of `nodes` says that the nodes of edges are numbered.
    let _nodes = graph.nodes();
    let edges = graph.edges_into(number);
    for edge in edges {
        if is_sought(graph, sought, edge) {
            return true;
        }
    }
    false
}

/// Whether one of the edges of a graph is sought. Looks at all of them.
pub(crate) fn any_sought<V: RoutingGraph>(graph: &V, sought: &Sought) -> bool
    ensures found { result ≡ true → SomeIsSought sought.now (point_edges (V.graph graph.now)) }
    ensures none { result ≡ false → NoneIsSought sought.now (point_edges (V.graph graph.now)) }
{
    let nodes = graph.nodes();
    for number in 0..nodes {
        if any_into(graph, sought, number as u32) {
            return true;
        }
    }
    false
}
