//! Points numbered behind those of a view.

ghost use Rattle.std.specs.Prelude.{◌≡◌, ◌++◌, ◌+◌, ◌*◌, ◌<◌, ◌≤◌, ◌^◌, List, map, length, slice_get, IfOk, OnOk};
ghost use Rattle.std.specs.List.{AllByRecursion, IsDistinct, position};
ghost use Rattle.std.specs.Option.{option_copied};
ghost use Rattle.lgm_wire.specs.declared.point.Point.{Point as APoint};
ghost use Rattle.lgm_store.specs.Rows.{is_point};
ghost use Rattle.lgm_graph.specs.Graph.{IsJoined, IsNumbered, number_of};
ghost use Rattle.lgm_graph.specs.Overlay.{extra_edge};
ghost use Rattle.lgm_graph.specs.inner.Walk.{KeepsNumbers};

use crate::overlay::ExtraEdge;
use crate::routing_graph::RoutingGraph;
use crate::view::View;
use indexmap::IndexSet;
use lgm_gossip::Point;
use lgm_store::Seed;
use std::alloc::{AllocError, Global};
use std::marker::Model;

/// The points of a view, and behind them further ones. Contracts see all of them, each at its number.
#[derive(Drop)]
pub(crate) struct Points<'a> {
    view: &'a View,
    added: Box<IndexSet<Point, Seed>>,
}

impl<'a> Model for Points<'a> {
    ghost use Rattle.std.specs.Prelude.{◌++◌, ◌^◌, ◌<◌, List, length};
    ghost use Rattle.std.specs.List.{IsDistinct};
    ghost use Rattle.lgm_wire.specs.declared.point.Point.{Point as APoint};
    ghost use Rattle.lgm_store.specs.Rows.{is_point};

    ghost Value = { List APoint };

    ghost view = { λ p. p.view.now.points ++ p.added.value.keys };

    ghost invariant = { λ p. (length (p.view.now.points ++ p.added.value.keys) < 2 ^ 32)
        × IsDistinct is_point (p.view.now.points ++ p.added.value.keys) };
}

impl<'a> Points<'a> {
    /// The points of a view, and those of extra edges that it doesn't number.
    pub(super) fn of(
        alloc: Global,
        view: &'a View,
        extra: &[ExtraEdge],
    ) -> Result<Points<'a>, AllocError>
        requires { length view.now.points + 2 * length extra.now < 2 ^ 32 }
        ensures further { IfOk result (λ points. (added : List APoint) × (points ≡ view.now.points ++ added)) }
        ensures joined { IfOk result (λ points. AllByRecursion (IsJoined points) (map extra_edge extra.now)) }
    {
        // The contract of `nodes` says that points are distinct.
        view.nodes();
        let added = Box::new(alloc, IndexSet::with_hasher(alloc, view.seed()))?;
        let mut points = Points { view, added };
        for edge in extra {
            points.add(edge.from)?;
            points.add(edge.to)?;
        }
        Ok(points)
    }

    /// The number of points.
    pub(super) fn len(&self) -> usize
        ensures count { result ≡ length self.now }
        ensures few { result < 2 ^ 32 }
        ensures distinct { IsDistinct is_point self.now }
    {
        self.view.nodes() + self.added.len()
    }

    /// The number of a point, if it has one.
    pub(super) fn number(&self, point: &Point) -> Option<u32>
        ensures { result ≡ position (is_point point.now) self.now }
    {
        if let Some(number) = self.view.node_number(point) {
            return Some(number);
        }
        let place = self.added.get_index_of(point)?;
        Some((self.view.nodes() + place) as u32)
    }

    /// The number of a numbered point.
    pub(super) fn number_of(&self, point: &Point) -> u32
        requires { IsNumbered self.now point.now }
        ensures number { result ≡ number_of self.now point.now }
        ensures within { result < length self.now }
    {
        match self.number(point) {
            Some(number) => number,
            None => unreachable!(),
        }
    }

    /// The point with a number, if there is one.
    pub(super) fn point(&self, number: u32) -> Option<&Point>
        ensures { option_copied result ≡ slice_get self.now number }
    {
        let nodes = self.view.nodes();
        if (number as usize) < nodes {
            return self.view.point(number);
        }
        self.added.get_index(number as usize - nodes)
    }

    /// Numbers a point, unless it is numbered.
    fn add(&mut self, point: Point) -> Result<(), AllocError>
        requires { length self.old + 1 < 2 ^ 32 }
        ensures few { OnOk result (length self.new ≤ length self.old + 1) }
        ensures numbered { OnOk result (IsNumbered self.new point) }
        ensures kept { OnOk result (KeepsNumbers self.old self.new) }
        ensures further { OnOk result ((before : List APoint) → ((added : List APoint) × (self.old ≡ before ++ added))
            → (added : List APoint) × (self.new ≡ before ++ added)) }
    {
        if let Some(_number) = self.number(&point) {
            return Ok(());
        }
        self.added.insert(point)?;
        Ok(())
    }
}
