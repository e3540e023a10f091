//! What is kept of the operations.

ghost use Rattle.std.specs.Prelude.{◌≡◌, ◌-◌, ◌^◌, ◌<◌, ◌≤◌, ℕ, length, IsTrue, IsFalse, IsSome, IfOk, IfSome, OnOk};
ghost use Rattle.lgm_store.specs.History.{absorbed};
ghost use Rattle.lgm_graph.specs.Network.{NetworkState};
ghost use Rattle.lgm_timeline.specs.History.{end, next_position, most_kept};
ghost use Rattle.lgm_timeline.specs.inner.Past.{IsPast, IsSomePast, IsReached, HasRoom, StaysPast, GoesOnPast};

use super::Past;
use crate::op_log::OpLog;
use lgm_graph::Network;
use lgm_store::Op;
use std::alloc::{AllocError, Global};

/// How many operations are kept at most for a network's map: none where positions stop.
fn most_kept(log: &OpLog, newest: &Network) -> usize
    ensures few { result ≤ most_kept newest.now.rows }
    ensures last { end log.now ≡ 2 ^ 64 - 1 → result ≡ 0 }
{
    if log.end() == u64::MAX {
        return 0;
    }
    newest.map().count().saturating_add(1024)
}

impl Past {
    /// Keeps the last operations, fewer than this: the mark's network and the older edition catch up, and what lags further
    /// is left behind.
    #[inline(never)]
    fn catch_up_and_trim(&mut self, alloc: Global, most: usize) -> Result<(), AllocError>
        requires { IsSomePast self.old }
        ensures stays { (network : NetworkState) → IsPast network self.old → StaysPast network self.old self.new }
        ensures own { IsSome self.old.mark → IsSome self.new.mark }
        ensures few { OnOk result (length self.new.log.ops ≤ most - 1) }
        ensures reached { OnOk result (IfSome self.new.mark (IsReached self.new.marked)) }
    {
        self.reach_mark()?;
        self.catch_up_older(alloc);
        let last = most.saturating_sub(1) as u64;
        self.log.trim(self.log.end().saturating_sub(last));
        self.trim();
        Ok(())
    }

    /// Whether anybody needs the next operation.
    #[inline(always)]
    fn is_followed(&self) -> bool
        ensures { (network : NetworkState) → IsPast network self.now → IsFalse result
            → IfSome self.now.mark (IsReached self.now.marked) }
    {
        self.slowest().is_some()
    }

    /// Ensures that fewer operations are kept than a network's map allows.
    #[inline(always)]
    fn bound_log(&mut self, alloc: Global, newest: &Network) -> Result<(), AllocError>
        requires { IsPast newest.now self.old }
        ensures stays { StaysPast newest.now self.old self.new }
        ensures own { IsSome self.old.mark → IsSome self.new.mark }
        ensures few { OnOk result (length self.new.log.ops < most_kept newest.now.rows) }
        ensures last { OnOk result (end self.new.log ≡ 2 ^ 64 - 1 → IfSome self.new.mark (IsReached self.new.marked)) }
    {
        self.forget_editions(newest.map().count());
        let most = most_kept(&self.log, newest);
        if most <= self.log.len() {
            return self.catch_up_and_trim(alloc, most);
        }
        Ok(())
    }

    /// Whether there is room for one more operation, after more was reserved. Out of memory is an error only if the mark
    /// needs the operation: a publication can do without.
    #[inline(never)]
    fn reserve(&mut self) -> Result<bool, AllocError>
        requires past { IsSomePast self.old }
        requires own { IsSome self.old.mark }
        requires last { end self.old.log < 2 ^ 64 - 1 }
        ensures stays { (network : NetworkState) → IsPast network self.old → StaysPast network self.old self.new }
        ensures few { length self.new.log.ops ≡ length self.old.log.ops }
        ensures room { IfOk result (λ keeps. HasRoom keeps self.new) }
    {
        match self.log.reserve() {
            Ok(()) => Ok(true),
            Err(fault) => {
                if self.is_mark_followed() {
                    Err(fault)
                } else {
                    Ok(false)
                }
            }
        }
    }

    /// Whether the next operation can be kept, if there are few. It can't at the last position, where nobody needs it.
    #[inline(always)]
    fn can_keep(&mut self) -> Result<bool, AllocError>
        requires past { IsSomePast self.old }
        requires own { IsSome self.old.mark }
        requires last { end self.old.log ≡ 2 ^ 64 - 1 → IfSome self.old.mark (IsReached self.old.marked) }
        ensures stays { (network : NetworkState) → IsPast network self.old → StaysPast network self.old self.new }
        ensures few { length self.new.log.ops ≡ length self.old.log.ops }
        ensures room { IfOk result (λ keeps. HasRoom keeps self.new) }
    {
        if self.log.end() == u64::MAX {
            return Ok(false);
        }
        if self.log.has_room() {
            return Ok(true);
        }
        self.reserve()
    }

    /// Makes ready for an operation on a network, and returns whether it is kept: if anybody needs it, and as one of no
    /// more than the map has channels, and 1,024. The mark has a network of its own then. Out of memory is an error only if
    /// the mark needs the operation.
    #[inline(always)]
    pub(crate) fn make_room(
        &mut self,
        alloc: Global,
        newest: &mut Network,
    ) -> Result<bool, AllocError>
        requires { IsPast newest.old self.old }
        ensures rows { newest.new.rows ≡ newest.old.rows }
        ensures known { newest.new.known ≡ newest.old.known }
        ensures goes { GoesOnPast newest.old newest.new self.old self.new }
        ensures end { end self.new.log ≡ end self.old.log }
        ensures few { IfOk result
            (λ keeps. IsTrue keeps → length self.new.log.ops < most_kept newest.old.rows) }
        ensures room { IfOk result (λ keeps. HasRoom keeps self.new) }
    {
        self.own_mark(alloc, newest)?;
        if !self.is_followed() {
            return Ok(false);
        }
        self.bound_log(alloc, newest)?;
        self.can_keep()
    }

    /// Notes an operation that was applied to the newest network: counts it, and keeps it or none.
    #[inline(always)]
    pub(crate) fn log_op(&mut self, op: Op, keeps: bool)
        requires { HasRoom keeps self.old }
        ensures past { (network next : NetworkState) → IsPast network self.old → next.known ≡ network.known
            → next.rows ≡ absorbed network.rows op → GoesOnPast network next self.old self.new }
        ensures end { end self.new.log ≡ next_position (end self.old.log) }
        ensures few { (most : ℕ) → (IsTrue keeps → length self.old.log.ops < most)
            → length self.new.log.ops ≤ most }
    {
        if keeps {
            self.log.push(op);
        } else {
            self.log.skip();
        }
    }
}
