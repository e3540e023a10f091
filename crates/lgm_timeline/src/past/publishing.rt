//! Networks that are published.

ghost use Rattle.std.specs.Prelude.{◌≡◌, ◌≤◌, length, IsSome, IfOk, IfSome};
ghost use Rattle.std.specs.Arc.{arc_value};
ghost use Rattle.lgm_graph.specs.Network.{NetworkState};
ghost use Rattle.lgm_timeline.specs.History.{end, moment};
ghost use Rattle.lgm_timeline.specs.Edition.{IsReadyAt};
ghost use Rattle.lgm_timeline.specs.inner.Past.{IsPast, IsSomePast, StaysPast};

use super::Past;
use crate::edition::Edition;
use lgm_graph::Network;
use std::alloc::{AllocError, Global};
use std::mem::replace;
use std::sync::Arc;

impl Past {
    /// Takes the older edition out, and has it catch up with the newest network, if that is possible.
    fn reuse_older(&mut self, alloc: Global) -> Option<Arc<Edition>>
        requires { IsSomePast self.old }
        ensures stays { (network : NetworkState) → IsPast network self.old → StaysPast network self.old self.new }
        ensures log { self.new.log ≡ self.old.log }
        ensures mark { self.new.mark ≡ self.old.mark }
        ensures marked { self.new.marked ≡ self.old.marked }
        ensures newest { (network : NetworkState) → IsPast network self.old
            → IfSome result (λ edition. IsReadyAt (moment network (end self.old.log)) (arc_value edition)) }
    {
        let older = self.older.take()?;
        if !self.log.leads_from(older.version()) {
            return None;
        }
        Edition::caught_up(older, alloc, &self.log)
    }

    /// Has the older edition catch up, or forgets it.
    pub(super) fn catch_up_older(&mut self, alloc: Global)
        requires { IsSomePast self.old }
        ensures stays { (network : NetworkState) → IsPast network self.old → StaysPast network self.old self.new }
        ensures log { self.new.log ≡ self.old.log }
        ensures mark { self.new.mark ≡ self.old.mark }
        ensures marked { self.new.marked ≡ self.old.marked }
    {
        self.older = self.reuse_older(alloc);
    }

    /// Forgets both editions.
    #[inline(never)]
    fn forget_both(&mut self)
        ensures stays { (network : NetworkState) → IsPast network self.old → StaysPast network self.old self.new }
        ensures own { IsSome self.old.mark → IsSome self.new.mark }
        ensures few { length self.new.log.ops ≤ length self.old.log.ops }
    {
        self.latest = None;
        self.older = None;
        self.trim();
    }

    /// Forgets both editions, if the last one lags by more operations than the map has channels: then a copy is faster.
    pub(super) fn forget_editions(&mut self, channels: usize)
        ensures stays { (network : NetworkState) → IsPast network self.old → StaysPast network self.old self.new }
        ensures own { IsSome self.old.mark → IsSome self.new.mark }
        ensures few { length self.new.log.ops ≤ length self.old.log.ops }
    {
        let Some(latest) = &self.latest else {
            return;
        };
        if self.log.end().saturating_sub(latest.version()) > channels as u64 {
            self.forget_both();
        }
    }

    /// The newest network, to be shared: the older edition, which catches up, or a copy.
    fn next_edition(&mut self, alloc: Global, newest: &Network) -> Result<Arc<Edition>, AllocError>
        requires { IsPast newest.now self.old }
        ensures stays { StaysPast newest.now self.old self.new }
        ensures few { length self.new.log.ops ≡ length self.old.log.ops }
        ensures edition { IfOk result (λ edition. IsReadyAt (moment newest.now (end self.old.log)) (arc_value edition)) }
    {
        match self.reuse_older(alloc) {
            Some(older) => Ok(older),
            None => Edition::shared_copy(alloc, newest, self.log.end()),
        }
    }

    /// The latest edition, if nothing was applied since.
    fn latest_if_newest(&self) -> Option<&Arc<Edition>>
        ensures { (network : NetworkState) → IsPast network self.now
            → IfSome result (λ edition. IsReadyAt (moment network (end self.now.log)) (arc_value edition.now)) }
    {
        let latest = self.latest.as_ref()?;
        if latest.version() == self.log.end() && self.log.leads_from(latest.version()) {
            return Some(latest);
        }
        None
    }

    /// Publishes the next edition. The latest so far is then the older one.
    fn publish_next(&mut self, alloc: Global, newest: &Network) -> Result<Arc<Edition>, AllocError>
        requires { IsPast newest.now self.old }
        ensures stays { StaysPast newest.now self.old self.new }
        ensures few { length self.new.log.ops ≤ length self.old.log.ops }
        ensures edition { IfOk result (λ edition. IsReadyAt (moment newest.now (end self.old.log)) (arc_value edition)) }
    {
        let next = self.next_edition(alloc, newest)?;
        let edition = Arc::try_clone(&next)?;
        self.older = replace(&mut self.latest, Some(next));
        self.trim();
        Ok(edition)
    }

    /// The newest network for good: the edition that was published last, if it is that one, or the next one.
    pub(crate) fn publish(
        &mut self,
        alloc: Global,
        newest: &Network,
    ) -> Result<Arc<Edition>, AllocError>
        requires { IsPast newest.now self.old }
        ensures stays { StaysPast newest.now self.old self.new }
        ensures few { length self.new.log.ops ≤ length self.old.log.ops }
        ensures edition { IfOk result (λ edition. IsReadyAt (moment newest.now (end self.old.log)) (arc_value edition)) }
    {
        if let Some(latest) = self.latest_if_newest() {
            return Arc::try_clone(latest);
        }
        self.publish_next(alloc, newest)
    }
}
