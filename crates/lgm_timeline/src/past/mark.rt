//! The mark, and the network that stays there.

ghost use Rattle.std.specs.Prelude.{◌≡◌, IsTrue, IsFalse, IsNone, IsSome, IsSomeAnd, IfSome, OnOk};
ghost use Rattle.lgm_graph.specs.Network.{NetworkState};
ghost use Rattle.lgm_timeline.specs.History.{LeadsFrom};
ghost use Rattle.lgm_timeline.specs.inner.Past.{IsPast, IsSomePast, IsReached, StaysPast, GoesOnPast, rows_marked, graph_marked_by};

use super::Past;
use crate::edition::Edition;
use lgm_graph::Network;
use std::alloc::{AllocError, Global};
use std::mem::swap;

impl Past {
    /// Whether operations lead from the mark's own network to the newest one.
    pub(super) fn is_mark_followed(&self) -> bool
        ensures follows { IsTrue result → IsSomeAnd self.now.mark (λ mark. LeadsFrom self.now.log mark.at) }
        ensures idle { IsFalse result → IfSome self.now.mark (λ mark. ¬ LeadsFrom self.now.log mark.at) }
    {
        match &self.mark {
            Some(mark) => self.log.leads_from(mark.at),
            None => false,
        }
    }

    /// Moves the mark to the newest network. Its own network follows later, or is dropped, if the operations that it lacks
    /// weren't kept: then the newest network is the one at the mark.
    pub(crate) fn renew_mark(&mut self)
        ensures past { (network : NetworkState) → IsPast network self.old → IsPast network self.new }
        ensures marked { (network : NetworkState) → IsPast network self.old
            → rows_marked network self.new ≡ network.rows }
        ensures log { self.new.log ≡ self.old.log }
    {
        if !self.is_mark_followed() {
            self.mark = None;
        }
        self.marked = self.log.end();
    }

    /// Brings the mark's network to the mark.
    pub(crate) fn reach_mark(&mut self) -> Result<(), AllocError>
        requires { IsSomePast self.old }
        ensures stays { (network : NetworkState) → IsPast network self.old → StaysPast network self.old self.new }
        ensures own { IsSome self.old.mark → IsSome self.new.mark }
        ensures log { self.new.log ≡ self.old.log }
        ensures reached { OnOk result (IfSome self.new.mark (IsReached self.new.marked)) }
        ensures idle { IfSome self.old.mark (IsReached self.old.marked) → self.new.mark ≡ self.old.mark }
    {
        match &mut self.mark {
            Some(mark) => mark.catch_up(&self.log, self.marked),
            None => Ok(()),
        }
    }

    /// Gives the mark a network of its own, before the newest one goes on. The map is copied. If a view was built at the
    /// mark, the copy goes on, without it, and the old network stays with it.
    #[inline(never)]
    fn detach_mark(&mut self, alloc: Global, newest: &mut Network) -> Result<(), AllocError>
        requires past { IsPast newest.old self.old }
        requires at_newest { IsNone self.old.mark }
        ensures rows { newest.new.rows ≡ newest.old.rows }
        ensures known { newest.new.known ≡ newest.old.known }
        ensures goes { GoesOnPast newest.old newest.new self.old self.new }
        ensures log { self.new.log ≡ self.old.log }
        ensures own { OnOk result (IsSome self.new.mark) }
        ensures view { OnOk result (IsTrue self.old.is_viewed
            → graph_marked_by newest.new self.new.mark ≡ newest.old.graph) }
    {
        let mut network = newest.copy(alloc)?;
        if self.is_viewed {
            swap(newest, &mut network);
        }
        self.mark = Some(Edition {
            network,
            at: self.marked,
        });
        Ok(())
    }

    /// The same, unless it has one.
    #[inline(always)]
    pub(super) fn own_mark(&mut self, alloc: Global, newest: &mut Network) -> Result<(), AllocError>
        requires { IsPast newest.old self.old }
        ensures rows { newest.new.rows ≡ newest.old.rows }
        ensures known { newest.new.known ≡ newest.old.known }
        ensures goes { GoesOnPast newest.old newest.new self.old self.new }
        ensures log { self.new.log ≡ self.old.log }
        ensures own { OnOk result (IsSome self.new.mark) }
    {
        match &self.mark {
            Some(_) => Ok(()),
            None => self.detach_mark(alloc, newest),
        }
    }
}
