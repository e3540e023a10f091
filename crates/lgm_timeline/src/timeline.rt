//! Maps that go on.

ghost use Rattle.std.specs.Prelude.{◌≡◌, ◌≤◌, IsSome, IsTrue, length, IfOk, IfErr, IfSome, OnOk, OnErr};
ghost use Rattle.lgm_store.specs.Admission.{admitted, admitted_close};
ghost use Rattle.lgm_graph.specs.Network.{most_points};
ghost use Rattle.lgm_timeline.specs.History.{behind, most_kept, HasView};
ghost use Rattle.std.specs.Arc.{arc_value};
ghost use Rattle.lgm_timeline.specs.Edition.{IsReadyAt};
ghost use Rattle.lgm_timeline.specs.Timeline.{newest, Advances, RefusesFirst, RefusesOrRunsOut};

use crate::edition::Edition;
use crate::past::Past;
use lgm_check::Refusal;
use lgm_gossip::Scid;
use lgm_graph::Network;
use lgm_query::MapDiff;
use lgm_store::{CheckedMessage, Hint, Op};
use std::alloc::{AllocError, Global};
use std::marker::Model;
use std::sync::Arc;

/// The newest network, and what is kept of its past. Contracts see the network, how many operations it has accepted, the rows
/// at the mark, whether the network that stays there has come there and the graph of its view, and how many operations are
/// kept.
#[derive(Drop)]
pub struct Timeline {
    newest: Network,
    past: Past,
}

impl Model for Timeline {
    ghost use Rattle.std.specs.Prelude.{length};
    ghost use Rattle.lgm_timeline.specs.History.{end};
    ghost use Rattle.lgm_timeline.specs.Timeline.{TimelineState};
    ghost use Rattle.lgm_timeline.specs.inner.Past.{IsPast, rows_marked, is_reached_by, graph_marked_by};

    ghost Value = { TimelineState };

    ghost view = { λ t. record {
      network = t.newest;
      version = end t.past.log;
      marked = rows_marked t.newest t.past;
      is_reached = is_reached_by t.past.marked t.past.mark;
      graph_at_mark = graph_marked_by t.newest t.past.mark;
      kept = length t.past.log.ops;
    } };

    ghost invariant = { λ t. IsPast t.newest t.past };
}

impl Timeline {
    /// A network that has accepted nothing yet, and is the one at the mark.
    pub fn new(alloc: Global, newest: Network) -> Timeline
        ensures network { result.network ≡ newest }
        ensures version { result.version ≡ 0 }
        ensures marked { result.marked ≡ newest.rows }
        ensures kept { result.kept ≡ 0 }
    {
        Timeline {
            newest,
            past: Past::new(alloc),
        }
    }

    /// Admits a checked message, whose channel may be where the hint says, and applies its operation. A refusal or out of
    /// memory changes nothing; out of memory may come in place of a refusal.
    #[inline(always)]
    pub fn offer(
        &mut self,
        alloc: Global,
        message: CheckedMessage,
        hint: Hint,
    ) -> Result<(), Refusal>
        ensures accepted { OnOk result
            (Advances (admitted self.old.network.rows message) (newest self.old) (newest self.new)) }
        ensures refused { IfErr result (RefusesOrRunsOut (admitted self.old.network.rows message)) }
        ensures stays { OnErr result (newest self.new ≡ newest self.old) }
        ensures marked { self.new.marked ≡ self.old.marked }
        ensures few { OnOk result (self.new.kept ≤ most_kept self.old.network.rows) }
    {
        let keeps = self.past.make_room(alloc, &mut self.newest)?;
        let op = self.newest.offer_at(alloc, message, hint)?;
        self.past.log_op(op, keeps);
        Ok(())
    }

    /// Closes a channel. A refusal or out of memory changes nothing, and what isn't in the map is refused even if memory is
    /// short.
    pub fn offer_close(&mut self, alloc: Global, scid: Scid) -> Result<(), Refusal>
        ensures accepted { OnOk result
            (Advances (admitted_close self.old.network.rows scid) (newest self.old) (newest self.new)) }
        ensures refused { IfErr result (RefusesFirst (admitted_close self.old.network.rows scid)) }
        ensures stays { OnErr result (newest self.new ≡ newest self.old) }
        ensures marked { self.new.marked ≡ self.old.marked }
        ensures few { OnOk result (self.new.kept ≤ most_kept self.old.network.rows) }
    {
        let close = self.newest.map().admit_close(scid)?;
        Ok(self.absorb(alloc, close)?)
    }

    /// Applies an operation. Out of memory changes nothing.
    pub fn absorb(&mut self, alloc: Global, op: Op) -> Result<(), AllocError>
        ensures applied { OnOk result (newest self.new ≡ behind (newest self.old) op) }
        ensures stays { OnErr result (newest self.new ≡ newest self.old) }
        ensures marked { self.new.marked ≡ self.old.marked }
        ensures few { OnOk result (self.new.kept ≤ most_kept self.old.network.rows) }
    {
        let keeps = self.past.make_room(alloc, &mut self.newest)?;
        self.newest.absorb(&op)?;
        self.past.log_op(op, keeps);
        Ok(())
    }

    /// Moves the mark to the newest map, in constant time, but for freeing a map that was left behind.
    pub fn renew_mark(&mut self)
        ensures newest { newest self.new ≡ newest self.old }
        ensures marked { self.new.marked ≡ self.old.network.rows }
        ensures few { self.new.kept ≡ self.old.kept }
    {
        self.past.renew_mark();
    }

    /// Brings the network of the mark there, by the operations that it lacks, with its view.
    pub fn reach_mark(&mut self) -> Result<(), AllocError>
        ensures newest { newest self.new ≡ newest self.old }
        ensures marked { self.new.marked ≡ self.old.marked }
        ensures reached { OnOk result (IsTrue self.new.is_reached) }
        ensures view { IsTrue self.old.is_reached → self.new.graph_at_mark ≡ self.old.graph_at_mark }
        ensures few { self.new.kept ≤ self.old.kept }
    {
        self.past.reach_mark()?;
        self.past.trim();
        Ok(())
    }

    /// The network at the mark, which has come there.
    pub fn network_at_mark(&self) -> &Network
        requires { IsTrue self.now.is_reached }
        ensures rows { result.now.rows ≡ self.now.marked }
        ensures known { result.now.known ≡ self.now.network.known }
        ensures graph { result.now.graph ≡ self.now.graph_at_mark }
    {
        match &self.past.mark {
            Some(mark) => &mark.network,
            None => &self.newest,
        }
    }

    /// Builds the view of the network at the mark, unless it has one that numbers few enough points. From then on that
    /// network keeps its view, which follows the mark.
    pub fn make_view_at_mark(&mut self, alloc: Global) -> Result<(), AllocError>
        requires few { length self.old.marked.channels ≤ 2000000000 }
        requires reached { IsTrue self.old.is_reached }
        ensures newest { newest self.new ≡ newest self.old }
        ensures marked { self.new.marked ≡ self.old.marked }
        ensures still { IsTrue self.new.is_reached }
        ensures made { OnOk result (IsSome self.new.graph_at_mark) }
        ensures kept { IfSome self.old.graph_at_mark (λ graph. length graph.points ≤ most_points self.old.marked
            → self.new.graph_at_mark ≡ self.old.graph_at_mark) }
        ensures few { self.new.kept ≡ self.old.kept }
    {
        self.past.is_viewed = true;
        match &mut self.past.mark {
            Some(mark) => mark.network.make_view(alloc),
            None => self.newest.make_view(alloc),
        }
    }

    /// The differences from the map at the mark to the newest one. Time is logarithmic in the maps for each operation since
    /// the mark, or that of the map if the mark was left behind.
    pub fn map_diff(&self, alloc: Global) -> Result<MapDiff<'_>, AllocError>
        requires { IsTrue self.now.is_reached }
        ensures { IfOk result (λ map_diff.
            map_diff ≡ record { before = self.now.marked; after = self.now.network.rows }) }
    {
        let (before, after) = (self.network_at_mark().map(), self.newest.map());
        if !self.past.log.leads_from(self.past.marked) {
            return MapDiff::of_maps(alloc, before, after);
        }
        let keys = self.past.log.touched_since(alloc, self.past.marked)?;
        MapDiff::between(alloc, before, after, &keys)
    }

    /// The newest network for good, with its view, unless it has too many channels: the edition that was published last, if
    /// nothing was applied since, or the one before, which catches up if it has no other owner, or a copy.
    pub fn publish(&mut self, alloc: Global) -> Result<Arc<Edition>, AllocError>
        ensures newest { newest self.new ≡ newest self.old }
        ensures marked { self.new.marked ≡ self.old.marked }
        ensures edition { IfOk result (λ edition. IsReadyAt (newest self.old) (arc_value edition)) }
        ensures few { self.new.kept ≤ self.old.kept }
    {
        self.past.publish(alloc, &self.newest)
    }

    /// Builds the view of the newest network, unless it has one that numbers few enough points.
    pub fn make_view(&mut self, alloc: Global) -> Result<(), AllocError>
        requires { length self.old.network.rows.channels ≤ 2000000000 }
        ensures newest { newest self.new ≡ newest self.old }
        ensures marked { self.new.marked ≡ self.old.marked }
        ensures viewed { OnOk result (HasView self.new.network) }
        ensures few { self.new.kept ≤ self.old.kept }
    {
        self.newest.make_view(alloc)
    }

    /// The newest network.
    pub fn network(&self) -> &Network
        ensures { result.now ≡ self.now.network }
    {
        &self.newest
    }

    /// How many operations were accepted, at most 2^64 - 1.
    pub fn version(&self) -> u64
        ensures { result ≡ self.now.version }
    {
        self.past.log.end()
    }
}
