//! A view over an overlay.

ghost use Rattle.std.specs.Prelude.{◌≡◌, ◌++◌, ◌+◌, ◌*◌, ◌^◌, ◌<◌, List, length, slice_get, IfOk};
ghost use Rattle.std.specs.List.{position};
ghost use Rattle.std.specs.List.Sorted.{IsPermutation};
ghost use Rattle.std.specs.Option.{option_copied};
ghost use Rattle.lgm_wire.specs.declared.point.Point.{Point as APoint};
ghost use Rattle.lgm_store.specs.Rows.{Rows, is_point};
ghost use Rattle.lgm_store.specs.Laws.{AreEnded};
ghost use Rattle.lgm_graph.specs.Graph.{AreListed, IsGraphOf, point_edges, takes_at, edges_into, edges_leaving};
ghost use Rattle.lgm_graph.specs.Overlay.{overlaid_edges};

mod edge_terms;
mod lists;
mod overrides;
mod points;
mod touched_node;
mod touched_nodes;

use crate::edge::Edge;
use crate::node_table::place_in;
use crate::overlay::Overlay;
use crate::routing_graph::RoutingGraph;
use crate::view::View;
use lgm_gossip::Point;
use lists::{Edges, list_or, lists_into, lists_out};
use points::Points;
use std::alloc::{AllocError, Global};
use std::marker::Model;
use touched_nodes::TouchedNodes;

/// The view of a map over an overlay: a search reads it as it reads a view.
///
/// It borrows the view, numbers the nodes of extra edges that the view lacks behind the view's, and has lists of its own
/// for the nodes alone whose edges differ. Contracts see the points by number, and the edges into and out of each node.
#[derive(Drop)]
pub struct OverlayView<'a> {
    view: &'a View,
    points: Points<'a>,
    /// By node number, the place of its lists: from 1, or 0 if it has none of its own.
    places: Vec<u32>,
    into: Vec<Edges>,
    out: Vec<Edges>,
}

impl<'a> Model for OverlayView<'a> {
    ghost use Rattle.std.specs.Prelude.{map};
    ghost use Rattle.lgm_graph.specs.Graph.{Graph};

    ghost Value = { Graph };

    ghost use Rattle.lgm_graph.specs.inner.Overlaying.{edges_in, graph_over};
    ghost use Rattle.lgm_graph.specs.inner.Sound.{IsSound};

    ghost view = { λ o. graph_over o.view.now o.points o.places.items (map edges_in o.into.items) (map edges_in o.out.items) };

    ghost invariant = { λ o. IsSound
        (graph_over o.view.now o.points o.places.items (map edges_in o.into.items) (map edges_in o.out.items)) };
}

impl<'a> OverlayView<'a> {
    /// The view over an overlay.
    ///
    /// It costs four bytes for each node of the view, and for each node whose edges differ a copy of their list.
    pub fn of(
        alloc: Global,
        view: &'a View,
        overlay: &Overlay,
    ) -> Result<OverlayView<'a>, AllocError>
        requires { length view.now.points + 2 * length overlay.now.extra < 2 ^ 32 }
        ensures known { IfOk result (λ over. over.known ≡ view.now.known) }
        ensures points { IfOk result (λ over. (added : List APoint) × (over.points ≡ view.now.points ++ added)) }
        ensures edges { IfOk result (λ over. (rows : Rows) → AreEnded rows → IsGraphOf rows view.now
            → IsPermutation (overlaid_edges view.now.known rows overlay.now) (point_edges over)) }
    {
        view.is_sound();
        // The contract of `nodes` says that points are distinct.
        view.nodes();
        let points = Points::of(alloc, view, overlay.extra())?;
        let mut touched = TouchedNodes::new(alloc, points.len())?;
        touched.apply_overlay(alloc, &points, overlay)?;
        let count = touched.as_slice().len();
        touched.touch_targets(alloc, view)?;
        let into = lists_into(alloc, &touched, view)?;
        let out = lists_out(alloc, &touched, view, count)?;
        Ok(OverlayView {
            view,
            points,
            places: touched.into_places(),
            into,
            out,
        })
    }

    /// Whether the node with an index takes payments: it has no announcement, or one whose even features are known.
    /// False for an index that no node has.
    #[inline(always)]
    pub fn takes_payments(&self, number: u32) -> bool
        ensures { result ≡ takes_at self.now number }
    {
        (number as usize) < self.points.len()
            && (self.view.nodes() <= number as usize || self.view.takes_payments(number))
    }
}

impl<'a> RoutingGraph for OverlayView<'a> {
    ghost graph = { λ over. over };

    fn nodes(&self) -> usize {
        self.points.len()
    }

    fn node_number(&self, point: &Point) -> Option<u32> {
        self.points.number(point)
    }

    fn point(&self, number: u32) -> Option<&Point> {
        self.points.point(number)
    }

    #[inline(always)]
    fn edges_into(&self, number: u32) -> &[Edge] {
        if !self.takes_payments(number) {
            return &[];
        }
        let place = place_in(&self.places, number);
        list_or(&self.into, place, self.view.all_into(number))
    }

    #[inline(always)]
    fn edges_leaving(&self, number: u32) -> &[Edge] {
        if self.points.len() <= number as usize {
            return &[];
        }
        let place = place_in(&self.places, number);
        list_or(&self.out, place, self.view.edges_leaving(number))
    }
}
