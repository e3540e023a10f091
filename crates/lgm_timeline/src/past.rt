//! What is kept of the past of a map.

ghost use Rattle.std.specs.Prelude.{◌≡◌, ◌≤◌, [], ℕ, length, IsSomeAnd, IfSome};
ghost use Rattle.lgm_graph.specs.Network.{NetworkState};
ghost use Rattle.lgm_timeline.specs.History.{end};
ghost use Rattle.lgm_timeline.specs.inner.Past.{IsAtLeast, IsPast, StaysPast, rows_marked};

mod mark;
mod publishing;
mod room;

use crate::edition::Edition;
use crate::op_log::OpLog;
use std::alloc::Global;
use std::sync::Arc;

/// The operations that a map accepted and others lack, and these others: the mark, and the last two editions that were
/// published. A contract speaks of each network whose past it is, or of the newest one, if the call takes that. Fields are
/// dropped in order, the maps first: rows that are then left to operations alone are freed in the order in which they
/// arrived, which is faster.
#[derive(Drop)]
pub(crate) struct Past {
    /// The mark's network, at the mark or before it. None while the newest network is the one at the mark.
    pub(crate) mark: Option<Edition>,
    /// The position of the mark.
    pub(crate) marked: u64,
    /// Whether a view was built at the mark: then the mark's network keeps it.
    pub(crate) is_viewed: bool,
    pub(crate) latest: Option<Arc<Edition>>,
    pub(crate) older: Option<Arc<Edition>>,
    pub(crate) log: OpLog,
}

/// The lesser one of two positions, if operations lead from that of an edition.
fn slower(log: &OpLog, slowest: Option<u64>, edition: &Option<Arc<Edition>>) -> Option<u64>
    ensures { (other : ℕ) → IsSomeAnd slowest (λ least. least ≤ other) → IsSomeAnd result (λ least. least ≤ other) }
{
    let Some(edition) = edition else {
        return slowest;
    };
    let position = edition.version();
    if !log.leads_from(position) {
        return slowest;
    }
    match slowest {
        Some(least) => Some(least.min(position)),
        None => Some(position),
    }
}

impl Past {
    /// That of a network that has accepted nothing, and is the one at the mark.
    pub(crate) fn new(alloc: Global) -> Past
        ensures past { (network : NetworkState) → IsPast network result }
        ensures end { end result.log ≡ 0 }
        ensures marked { (network : NetworkState) → rows_marked network result ≡ network.rows }
        ensures kept { result.log.ops ≡ [] }
    {
        Past {
            mark: None,
            marked: 0,
            is_viewed: false,
            latest: None,
            older: None,
            log: OpLog::new(alloc),
        }
    }

    /// The position of the mark's own network, if it needs the next operation.
    #[inline(always)]
    fn needed_by_mark(&self) -> Option<u64>
        ensures { IfSome self.now.mark (IsAtLeast self.now.log result self.now.marked) }
    {
        let mark = self.mark.as_ref()?;
        if !self.log.leads_from(mark.at) || mark.starts_at(self.marked) {
            return None;
        }
        Some(mark.at)
    }

    /// The position of the slowest one, of those that need the next operation.
    #[inline(always)]
    fn slowest(&self) -> Option<u64>
        ensures { IfSome self.now.mark (IsAtLeast self.now.log result self.now.marked) }
    {
        let slowest = slower(&self.log, self.needed_by_mark(), &self.latest);
        slower(&self.log, slowest, &self.older)
    }

    /// Forgets operations that nobody needs.
    pub(crate) fn trim(&mut self)
        ensures stays { (network : NetworkState) → IsPast network self.old → StaysPast network self.old self.new }
        ensures few { length self.new.log.ops ≤ length self.old.log.ops }
        ensures mark { self.new.mark ≡ self.old.mark }
        ensures marked { self.new.marked ≡ self.old.marked }
    {
        let first = self.slowest().unwrap_or(self.log.end());
        self.log.trim(first);
    }
}
