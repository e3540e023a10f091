//! The overrides of nodes, one after the other.

ghost use Rattle.std.specs.Prelude.{◌≡◌, ℕ, ◌++◌, ◌∷◌, [], length, OnOk};
ghost use Rattle.std.specs.List.{AllByRecursion};
ghost use Rattle.lgm_graph.specs.Graph.{IsJoined, numbered_as};
ghost use Rattle.lgm_graph.specs.Overlay.{OverlayParts, extra_edge};
ghost use Rattle.lgm_graph.specs.inner.Overlaying.{AreApplied, IsAppliedAt, overrides_of};
ghost use Rattle.lgm_graph.specs.Places.{place_of};

use super::points::Points;
use super::touched_nodes::TouchedNodes;
use crate::edge::Edge;
use crate::overlay::{ExtraEdge, Limit, Overlay};
use lgm_gossip::Point;
use std::alloc::{AllocError, Global};

/// One thing that an overlay changes at a node.
#[derive(Clone, Copy)]
pub(crate) enum Override {
    /// It is silent.
    Silent,
    /// An edge out of it has a limit.
    Limited(Limit),
    /// An extra edge leaves it.
    Leaving(Edge),
    /// An extra edge leads to it.
    Entering(Edge),
}

/// An extra edge between nodes with these numbers.
fn numbered(extra: &ExtraEdge, from: u32, to: u32) -> Edge
    ensures { result ≡ numbered_as (extra_edge extra.now) from to }
{
    Edge {
        scid: extra.scid,
        max: extra.max,
        min: extra.min,
        from,
        to,
        base: extra.base,
        millionths: extra.millionths,
        delta: extra.delta,
        second: extra.is_second(),
    }
}

impl TouchedNodes {
    /// Applies an override to a point, if it has a number.
    fn apply_at(
        &mut self,
        alloc: Global,
        points: &Points<'_>,
        point: &Point,
        change: Override,
    ) -> Result<(), AllocError>
        requires { length self.old.places ≡ length points.now }
        ensures long { OnOk result (length self.new.places ≡ length points.now) }
        ensures applied { OnOk result (IsAppliedAt points.now point.now change self.old self.new) }
    {
        // The contract of `len` says that points are distinct.
        points.len();
        if let Some(number) = points.number(point) {
            self.apply(alloc, number, change)?;
        }
        Ok(())
    }

    /// Applies an extra edge, unless one before has its key.
    fn apply_extra(
        &mut self,
        alloc: Global,
        points: &Points<'_>,
        extra: &ExtraEdge,
    ) -> Result<(), AllocError>
        requires long { length self.old.places ≡ length points.now }
        requires joined { IsJoined points.now (extra_edge extra.now) }
        ensures long { OnOk result (length self.new.places ≡ length points.now) }
        ensures applied { OnOk result ((overlay : OverlayParts) → AreApplied (overrides_of overlay) points.now self.old
            → AreApplied (overrides_of (record overlay { extra = overlay.extra ++ extra_edge extra.now ∷ [] })) points.now self.new) }
    {
        let from = points.number_of(&extra.from);
        let to = points.number_of(&extra.to);
        if self.names(from, extra.scid) {
            return Ok(());
        }
        let edge = numbered(extra, from, to);
        let limited = Edge {
            max: self.most(&edge),
            ..edge
        };
        let copy = limited;
        self.apply_at(alloc, points, &extra.from, Override::Leaving(copy))?;
        self.apply_at(alloc, points, &extra.to, Override::Entering(limited))?;
        Ok(())
    }

    /// Applies an overlay.
    pub(super) fn apply_overlay(
        &mut self,
        alloc: Global,
        points: &Points<'_>,
        overlay: &Overlay,
    ) -> Result<(), AllocError>
        requires long { length self.old.places ≡ length points.now }
        requires none { (number : ℕ) → place_of self.old number ≡ 0 }
        requires joined { AllByRecursion (IsJoined points.now) overlay.now.extra }
        ensures long { OnOk result (length self.new.places ≡ length points.now) }
        ensures applied { OnOk result (AreApplied (overrides_of overlay.now) points.now self.new) }
    {
        for node in overlay.silent() {
            self.apply_at(alloc, points, node, Override::Silent)?;
        }
        for limit in overlay.limits() {
            self.apply_at(alloc, points, &limit.from, Override::Limited(*limit))?;
        }
        for extra in overlay.extra() {
            self.apply_extra(alloc, points, extra)?;
        }
        Ok(())
    }
}
