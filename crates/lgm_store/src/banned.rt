//! The points of banned nodes.

ghost use Rattle.std.specs.Prelude.{◌≡◌, ◌||◌, [], find, IfOk, OnOk, OnErr};
ghost use Rattle.std.specs.List.Sorted.{IsStrictlySortedBy};
ghost use Rattle.std.specs.BTreeMap.Range.{is_from_start};
ghost use Rattle.lgm_wire.specs.declared.point.Point.{Point};
ghost use Rattle.lgm_store.specs.Keys.{point_cmp};
ghost use Rattle.lgm_store.specs.Rows.{by_point, is_banned};
ghost use Rattle.lgm_store.specs.History.{with_points, with_banned};

use lgm_check::BanRow;
use lgm_gossip::Point;
use std::alloc::{AllocError, Global};
use std::collections::BTreeSet;
use std::marker::Model;
use std::ops::Bound;

/// The points of banned nodes, in the order of their bytes.
#[derive(Drop)]
pub(crate) struct Banned {
    points: BTreeSet<Point>,
}

impl Model for Banned {
    ghost use Rattle.std.specs.Prelude.{List};
    ghost use Rattle.std.specs.List.Sorted.{IsStrictlySortedBy};
    ghost use Rattle.lgm_wire.specs.declared.point.Point.{Point};
    ghost use Rattle.lgm_store.specs.Rows.{by_point};

    ghost Value = { List Point };

    ghost view = { λ b. b.points.keys };

    ghost invariant = { λ b. IsStrictlySortedBy by_point b.points.keys };
}

impl Banned {
    /// No banned nodes. Allocates nothing.
    pub(crate) fn new(alloc: Global) -> Banned
        ensures none { result ≡ [] }
        ensures ascend { IsStrictlySortedBy by_point result }
    {
        Banned {
            points: BTreeSet::new(alloc),
        }
    }

    pub(crate) fn contains(&self, point: &Point) -> bool
        ensures { result ≡ is_banned self.now point.now }
    {
        self.points.contains(point)
    }

    /// Whether one of two nodes is banned.
    pub(crate) fn contains_either(&self, first: &Point, second: &Point) -> bool
        ensures { result ≡ (is_banned self.now first.now || is_banned self.now second.now) }
    {
        self.contains(first) || self.contains(second)
    }

    /// The least point inside a lower bound.
    pub(crate) fn first_from(&self, start: Bound<Point>) -> Option<Point>
        ensures { result ≡ find (λ point. is_from_start point_cmp start point) self.now }
    {
        let mut points = self.points.range((start, Bound::Unbounded));
        points.next().copied()
    }

    /// Adds the four points of a ban. Out of memory leaves the set unchanged.
    pub(crate) fn ban(&mut self, ban: &BanRow) -> Result<(), AllocError>
        ensures ok { OnOk result (self.new ≡ with_banned self.old ban.now) }
        ensures err { OnErr result (self.new ≡ self.old) }
    {
        self.insert(&[ban.held1, ban.held2, ban.new1, ban.new2])
    }

    fn insert(&mut self, points: &[Point]) -> Result<(), AllocError>
        ensures ok { OnOk result (self.new ≡ with_points self.old points.now) }
        ensures err { OnErr result (self.new ≡ self.old) }
    {
        let [point, others @ ..] = points else {
            return Ok(());
        };
        let added = self.points.insert(*point)?;
        let inserted = self.insert(others);
        if inserted.is_err() && added {
            self.points.remove(point);
        }
        inserted
    }

    /// A copy.
    pub(crate) fn copy(&self) -> Result<Banned, AllocError>
        ensures points { IfOk result (λ copy. copy ≡ self.now) }
        ensures ascend { IfOk result (λ copy. IsStrictlySortedBy by_point copy) }
    {
        Ok(Banned {
            points: self.points.clone()?,
        })
    }
}
