//! Lists of edges, by id and direction.

ghost use Rattle.std.specs.Prelude.{◌≡◌, ◌++◌, ◌<◌, ◌≤◌, suc, take, drop, filter, length, option_to_list};
ghost use Rattle.std.specs.Prelude.{MatchResult, vec_len};
ghost use Rattle.std.specs.Vec.{vec_capacity};
ghost use Rattle.std.specs.Ordering.{is_lt, is_gt};
ghost use Rattle.lgm_graph.specs.inner.Lists.{edge_key, IsCut, put_at};

use crate::edge::Edge;
use lgm_gossip::Scid;
use std::cmp::Ordering;

/// The index of the edge with an id and direction, or the index at which it would be inserted.
fn place(edges: &[Edge], scid: Scid, second: bool) -> Result<usize, usize>
    requires { IsCut (edge_key scid second) edges.now }
    ensures found { MatchResult result
        (λ i. (i < length edges.now)
        × (take i edges.now ≡ filter (λ x. is_lt (edge_key scid second x)) edges.now)
        × (drop (suc i) edges.now ≡ filter (λ x. is_gt (edge_key scid second x)) edges.now))
        (λ i. (i ≤ length edges.now)
        × (take i edges.now ≡ filter (λ x. is_lt (edge_key scid second x)) edges.now)
        × (drop i edges.now ≡ filter (λ x. is_gt (edge_key scid second x)) edges.now)) }
{
    edges.binary_search_by(
        |edge: &Edge| -> Ordering
            ensures { result ≡ edge_key scid second edge.now }
        { edge.scid.cmp(&scid).then(edge.second.cmp(&second)) },
    )
}

/// Replaces the edge at an index, or removes it.
fn replace(edges: &mut Vec<Edge>, place: usize, edge: Option<Edge>)
    requires { place < length edges.old.items }
    ensures { edges.new.items
        ≡ take place edges.old.items ++ option_to_list edge ++ drop (suc place) edges.old.items }
{
    match edge {
        Some(edge) => edges[place] = edge,
        None => {
            edges.remove(place);
        }
    }
}

/// Inserts an edge at an index, if there is one.
fn insert(edges: &mut Vec<Edge>, place: usize, edge: Option<Edge>)
    requires room { vec_len edges.old < vec_capacity edges.old }
    requires within { place ≤ vec_len edges.old }
    ensures { edges.new.items
        ≡ take place edges.old.items ++ option_to_list edge ++ drop place edges.old.items }
{
    if let Some(edge) = edge {
        match edges.insert(place, edge) {
            Ok(()) => {}
            Err(_) => unreachable!(),
        }
    }
}

/// Inserts an edge or replaces the one with its id and direction, or removes that one.
pub(crate) fn put(edges: &mut Vec<Edge>, scid: Scid, second: bool, edge: Option<Edge>)
    requires room { vec_len edges.old < vec_capacity edges.old }
    requires cut { IsCut (edge_key scid second) edges.old.items }
    ensures { edges.new.items ≡ put_at (edge_key scid second) edges.old.items edge }
{
    match place(edges.as_slice(), scid, second) {
        Ok(place) => replace(edges, place, edge),
        Err(place) => insert(edges, place, edge),
    }
}

/// Gives back the memory of a list that has no edges, or room for more than four times as many, and some more.
pub(crate) fn shrink(edges: &mut Vec<Edge>)
    ensures { edges.new.items ≡ edges.old.items }
{
    let count = edges.len();
    if count == 0 || edges.capacity() / 4 > count.saturating_add(4) {
        edges.shrink_to_fit();
    }
}
