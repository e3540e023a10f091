//! Views, compared with those that are made of a map.

use lgm_graph::{Edge, Known, RoutingGraph, View};
use lgm_store::Map;
use std::alloc::{AllocError, Global};

/// Whether an edge of one view and an edge of another have the same terms and are between the same points.
fn is_same(view: &View, edge: &Edge, other_view: &View, other: &Edge) -> bool {
    let from = view.point(edge.from);
    let to = view.point(edge.to);
    from.is_some()
        && to.is_some()
        && from == other_view.point(other.from)
        && to == other_view.point(other.to)
        && edge.scid == other.scid
        && edge.second == other.second
        && (edge.base, edge.millionths) == (other.base, other.millionths)
        && (edge.delta, edge.min, edge.max) == (other.delta, other.min, other.max)
}

/// Whether a view has an edge of another view.
fn has(view: &View, other_view: &View, other: &Edge) -> bool {
    for place in 0..view.edge_count() {
        if let Some(edge) = view.edge(place) {
            if is_same(view, edge, other_view, other) {
                return true;
            }
        }
    }
    false
}

/// Whether a view has each edge of another view, whose last is the one before the number of its edges.
fn has_each(view: &View, other: &View) -> bool {
    for place in 0..other.edge_count() {
        match other.edge(place) {
            Some(edge) => {
                if !has(view, other, edge) {
                    return false;
                }
            }
            None => return false,
        }
    }
    other.edge(other.edge_count()).is_none()
}

/// Whether a view has the edges of one that is made of the map, and no others.
pub fn is_as_made(
    alloc: Global,
    view: &View,
    map: &Map,
    known: &Known,
) -> Result<bool, AllocError> {
    if map.count() > 2_000_000_000 {
        return Err(AllocError);
    }
    let made = View::of(alloc, map, known)?;
    let count = view.edge_count() == made.edge_count();
    Ok(count && has_each(view, &made) && has_each(&made, view))
}
