//! The nodes that a flow can still be extended to. Nothing is promised of them: see [`Flow`].

use crate::flow::Flow;
use crate::liquidity::{CutEdge, Liquidity};
use indexmap::IndexSet;
use lgm_gossip::Point;
use std::alloc::{AllocError, Global};

/// The most nodes that are reached for one path. A path to any further one counts as one to the other end, since a cut
/// whose side has more nodes isn't sought.
const MAX_NODES: usize = 48;

/// The most channels of a node that is gone through: any other counts as the other end.
const MAX_CHANNELS: usize = 48;

/// How a node was reached: the place of the node that it was reached from, and the edge, with the room that it has left.
#[derive(Clone, Copy, Drop)]
struct Step {
    from: usize,
    edge: CutEdge,
}

/// Where a path from the first node leads.
#[derive(Clone, Copy, Drop)]
pub(crate) enum PathEnd {
    /// To the other end, or to so many nodes that this doesn't matter: to the node at this place.
    At(usize),
    /// Nowhere: all nodes that can be reached were.
    Nowhere,
    /// It isn't known, since too many edges were looked at.
    Unknown,
}

/// Nodes in the order in which they were reached from the first one, and how each other one was.
#[derive(Drop)]
pub(crate) struct Reached {
    nodes: IndexSet<Point>,
    steps: Vec<Step>,
}

impl Reached {
    /// Only the node where the search starts.
    pub(crate) fn start(alloc: Global, node: Point) -> Result<Reached, AllocError> {
        let mut nodes = IndexSet::new(alloc);
        nodes.insert(node)?;
        Ok(Reached {
            nodes,
            steps: Vec::new(alloc),
        })
    }

    pub(crate) fn into_nodes(self) -> IndexSet<Point> {
        let Reached { nodes, .. } = self;
        nodes
    }

    /// Reaches the other nodes of edges of the node at a place that have room left, and returns the place of the other
    /// end, if it is among them.
    fn reach(
        &mut self,
        place: usize,
        edges: &[CutEdge],
        flow: &Flow,
        goal: &Point,
        inward: bool,
    ) -> Result<Option<usize>, AllocError> {
        for edge in edges {
            let room = flow.room(edge);
            if room == 0 {
                continue;
            }
            let other = if inward { edge.from } else { edge.to };
            let (number, is_new) = self.nodes.insert_full(other)?;
            if is_new {
                self.steps.push(Step {
                    from: place,
                    edge: CutEdge { room, ..*edge },
                })?;
                if other == *goal {
                    return Ok(Some(number));
                }
            }
        }
        Ok(None)
    }

    /// Reaches nodes over edges with room left, by fewest edges first, until the other end is reached: against the edges
    /// if `inward`, else along them. At most so many edges are looked at, and what is left of this number is returned in
    /// it.
    pub(crate) fn grow(
        &mut self,
        alloc: Global,
        liquidity: &Liquidity<'_>,
        flow: &Flow,
        goal: &Point,
        inward: bool,
        edges_left: &mut usize,
    ) -> Result<PathEnd, AllocError> {
        for place in 0..MAX_NODES + 1 {
            let Some(node) = self.nodes.get_index(place) else {
                return Ok(PathEnd::Nowhere);
            };
            let node = *node;
            let ids = liquidity.map.ids_at(alloc, &node)?;
            if MAX_CHANNELS < ids.len() || MAX_NODES < self.nodes.len() {
                return Ok(PathEnd::At(place));
            }
            let edges = liquidity.edges_by(alloc, inward, &node, ids.as_slice())?;
            if *edges_left < edges.len() {
                return Ok(PathEnd::Unknown);
            }
            *edges_left -= edges.len();
            if let Some(number) = self.reach(place, &edges, flow, goal, inward)? {
                return Ok(PathEnd::At(number));
            }
        }
        Ok(PathEnd::Unknown)
    }

    /// How the node at a place was reached, unless it is the first one.
    fn step(&self, place: usize) -> Option<Step> {
        let step = self.steps.get(place.checked_sub(1)?)?;
        Some(*step)
    }

    /// The room that the path to the node at a place has left, in msat, and this much at most.
    pub(crate) fn room(&self, place: usize, most: u64) -> u64 {
        let (mut place, mut room) = (place, most);
        for _ in 0..self.steps.len() {
            let Some(step) = self.step(place) else {
                return room;
            };
            room = room.min(step.edge.room);
            place = step.from;
        }
        room
    }

    /// Adds an amount to a flow along this path, in msat.
    pub(crate) fn add_to(
        &self,
        flow: &mut Flow,
        place: usize,
        amount: u64,
    ) -> Result<(), AllocError> {
        let mut place = place;
        for _ in 0..self.steps.len() {
            let Some(step) = self.step(place) else {
                return Ok(());
            };
            flow.add(&step.edge, amount)?;
            place = step.from;
        }
        Ok(())
    }
}
