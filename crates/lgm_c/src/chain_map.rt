//! What a handle points to.

ghost use Rattle.std.specs.Prelude.{◌≡◌, ◌≤◌, ℕ, true, Some, length, IfOk, OnErr};
ghost use Rattle.lgm_query.specs.Backlog.{news};
ghost use Rattle.lgm_c.specs.MapState.{begun, published};
ghost use Rattle.lgm_c.specs.Offering.{Offers, Closes, Bans};
ghost use Rattle.lgm_c.specs.Opening.{MovesMark};
ghost use Rattle.lgm_c.specs.Status.{status_of};
ghost use Rattle.lgm_c.specs.Writing.{all_framed, buffer};
ghost use Rattle.lgm_c.specs.inner.Framing.{MayWrite};
ghost use Rattle.lgm_c.specs.Attempts.{ExplainsIn};
ghost use Rattle.lgm_c.specs.Paying.{seen_given};
ghost use Rattle.lgm_c.specs.Pruning.{entries, Prunes};
ghost use Rattle.lgm_c.specs.inner.Searching.{IsRouted};
ghost use Rattle.lgm_c.specs.inner.Sending.{Fits, SendsNext};

use crate::argument_fault::ArgumentFault;
use crate::attempt::Attempt;
use crate::fault::Fault;
use crate::frames::{write_backlog, write_marked_news};
use crate::given::all_given;
use crate::next_part::{LgmSight, next_over};
use crate::overlay::extra_edge;
use crate::pruning::{LgmPruned, close_stale};
use crate::search::{is_searched, reason, reason_number, search};
use crate::verdict::{ban, offer};
use lgm_check::Evidence;
use lgm_gossip::{ChainHash, Point, Scid};
use lgm_graph::{Known, Network};
use lgm_payer::{Payer, Sending, Unpaid};
use lgm_query::Filter;
use lgm_route::Found;
use lgm_store::Map;
use lgm_timeline::{Edition, Timeline};
use std::alloc::{AllocError, Global};
use std::marker::Model;
use std::sync::Arc;

/// What a handle has of a map.
#[derive(Drop)]
pub enum MapKind {
    /// One that changes.
    Changing(Timeline),
    /// One as it was when it was published.
    Published(Arc<Edition>),
}

/// A map of a chain, which changes or was published. Contracts see one value, whichever it is.
#[derive(Drop)]
pub struct ChainMap {
    chain: ChainHash,
    kind: MapKind,
}

impl Model for ChainMap {
    ghost use Rattle.lgm_c.specs.MapState.{MapState};

    ghost Value = { MapState };

    ghost use Rattle.lgm_c.specs.inner.Kinds.{state_in, IsReadyKind};

    ghost view = { λ s. state_in s.chain s.kind };

    ghost invariant = { λ s. IsReadyKind s.kind };
}

impl ChainMap {
    /// A map, at which its mark is.
    pub(crate) fn of(
        alloc: Global,
        chain: ChainHash,
        known: Known,
        map: Map,
    ) -> Result<ChainMap, AllocError>
        ensures { IfOk result (λ state. state ≡ begun chain.0 known map) }
    {
        let network = Network::of(alloc, map, &known)?;
        Ok(ChainMap {
            chain,
            kind: MapKind::Changing(Timeline::new(alloc, network)),
        })
    }

    /// Offers a message, with the verdicts on it, unless a number stands for none.
    pub(crate) fn offer(
        &mut self,
        alloc: Global,
        bytes: &[u8],
        evidence: Result<Evidence, ArgumentFault>,
    ) -> Result<(), Fault>
        ensures { Offers bytes.now evidence (status_of result) (Some self.old) (Some self.new) }
    {
        match (&mut self.kind, evidence) {
            (MapKind::Published(_), _) => Err(Fault::Published),
            (MapKind::Changing(_), Err(fault)) => Err(Fault::Argument(fault)),
            (MapKind::Changing(timeline), Ok(evidence)) => {
                Ok(offer(alloc, timeline, &self.chain, bytes, &evidence)?)
            }
        }
    }

    /// Closes a channel.
    pub(crate) fn close(&mut self, alloc: Global, scid: Scid) -> Result<(), Fault>
        ensures { Closes scid (status_of result) (Some self.old) (Some self.new) }
    {
        match &mut self.kind {
            MapKind::Changing(timeline) => Ok(timeline.offer_close(alloc, scid)?),
            MapKind::Published(_) => Err(Fault::Published),
        }
    }

    /// Bans a node.
    pub(crate) fn ban(&mut self, alloc: Global, point: Point) -> Result<(), Fault>
        ensures { Bans point.0 (status_of result) (Some self.old) (Some self.new) }
    {
        match &mut self.kind {
            MapKind::Changing(timeline) => Ok(ban(alloc, timeline, point)?),
            MapKind::Published(_) => Err(Fault::Published),
        }
    }

    /// Closes the channels whose latest updates are from before a time, and those without one below a block, and tells which.
    pub(crate) fn prune(
        &mut self,
        alloc: Global,
        before: u32,
        block: u32,
        room: &mut [LgmPruned],
        needed: &mut usize,
    ) -> Result<(), Fault>
        ensures { Prunes before block (status_of result) (Some self.old) (Some self.new)
            (entries room.old needed.old) (entries room.new needed.new) }
    {
        match &mut self.kind {
            MapKind::Changing(timeline) => {
                close_stale(alloc, timeline, before, block, room, needed)
            }
            MapKind::Published(_) => Err(Fault::Published),
        }
    }

    /// Moves the mark to the map as it is.
    pub(crate) fn renew_mark(&mut self) -> Result<(), Fault>
        ensures { MovesMark (status_of result) (Some self.old) (Some self.new) }
    {
        match &mut self.kind {
            MapKind::Changing(timeline) => Ok(timeline.renew_mark()),
            MapKind::Published(_) => Err(Fault::Published),
        }
    }

    /// Writes what has come to pass a filter since the mark, each message after its length, or the length of all alone.
    /// Without a mark, all that passes.
    pub(crate) fn news(
        &mut self,
        alloc: Global,
        filter: &Filter,
        room: &mut [u8],
        needed: &mut usize,
    ) -> Result<(), Fault>
        ensures same { self.new ≡ self.old }
        ensures news { MayWrite (all_framed (news self.old.marked self.old.rows filter.now)) (status_of result)
            (buffer room.old needed.old) (buffer room.new needed.new) }
    {
        match &mut self.kind {
            MapKind::Changing(timeline) => write_marked_news(alloc, timeline, filter, room, needed),
            MapKind::Published(edition) => {
                write_backlog(alloc, edition.network().map(), filter, room, needed)
            }
        }
    }

    /// The best route for an attempt. In a map that changes, the first search builds the view.
    pub(crate) fn route(&mut self, alloc: Global, attempt: &Attempt<'_, '_>) -> Result<Found, Fault>
        ensures same { self.new ≡ self.old }
        ensures route { IsRouted attempt.now self.old.known self.old.rows result }
    {
        is_searched(self.map(), attempt)?;
        match &mut self.kind {
            MapKind::Changing(timeline) => {
                timeline.make_view(alloc)?;
                search(alloc, timeline.network(), attempt)
            }
            MapKind::Published(edition) => search(alloc, edition.network(), attempt),
        }
    }

    /// The number of why there is no route for an attempt: 0 if there is one.
    pub(crate) fn no_route_reason(&mut self, alloc: Global, attempt: &Attempt<'_, '_>) -> u32
        ensures same { self.new ≡ self.old }
        ensures reason { ExplainsIn attempt.now self.old.known self.old.rows result }
    {
        if let Err(fault) = is_searched(self.map(), attempt) {
            return fault.number();
        }
        match &mut self.kind {
            MapKind::Changing(timeline) => {
                if timeline.make_view(alloc).is_err() {
                    return Fault::NoMemory.number();
                }
                reason_number(reason(alloc, timeline.network(), attempt))
            }
            MapKind::Published(edition) => {
                reason_number(reason(alloc, edition.network(), attempt))
            }
        }
    }

    /// Asks a payer for the next part of a payment. An error comes before it is asked.
    pub(crate) fn next_part(
        &mut self,
        alloc: Global,
        payer: &mut Payer,
        payment: u64,
        sight: &LgmSight<'_>,
    ) -> Result<Result<Option<Sending>, Unpaid>, AllocError>
        requires { length self.old.rows.channels ≤ 2000000000 }
        ensures same { self.new ≡ self.old }
        ensures next { IfOk result (λ answer. (points : ℕ)
            × SendsNext (seen_given sight.now self.old points) payment payer.old payer.new answer) }
        ensures fits { IfOk result Fits }
        ensures stays { OnErr result (payer.new ≡ payer.old) }
    {
        let own = all_given(alloc, sight.channels, extra_edge)?;
        match &mut self.kind {
            MapKind::Changing(timeline) => {
                timeline.make_view(alloc)?;
                Ok(next_over(alloc, timeline.network(), payer, payment, sight, &own))
            }
            MapKind::Published(edition) => {
                Ok(next_over(alloc, edition.network(), payer, payment, sight, &own))
            }
        }
    }

    /// The map as it is now, for good.
    pub(crate) fn publish(&mut self, alloc: Global) -> Result<ChainMap, AllocError>
        ensures same { self.new ≡ self.old }
        ensures published { IfOk result (λ state. state ≡ published self.old) }
    {
        let edition = match &mut self.kind {
            MapKind::Changing(timeline) => timeline.publish(alloc)?,
            MapKind::Published(edition) => Arc::try_clone(edition)?,
        };
        Ok(ChainMap {
            chain: self.chain,
            kind: MapKind::Published(edition),
        })
    }

    /// Whether it is a published map, which is published as it is.
    pub(crate) fn is_published(&self) -> bool
        ensures value { result ≡ self.now.is_published }
        ensures same { result ≡ true → published self.now ≡ self.now }
    {
        matches!(&self.kind, MapKind::Published(_))
    }

    /// The chain.
    pub(crate) fn chain(&self) -> &ChainHash
        ensures { result.now ≡ self.now.chain }
    {
        &self.chain
    }

    /// The map that calls read: the newest one, or the one that was published.
    pub(crate) fn map(&self) -> &Map
        ensures { result.now ≡ self.now.rows }
    {
        match &self.kind {
            MapKind::Changing(timeline) => timeline.network().map(),
            MapKind::Published(edition) => edition.network().map(),
        }
    }

    /// How many messages and closes were accepted.
    pub(crate) fn version(&self) -> u64
        ensures { result ≡ self.now.version }
    {
        match &self.kind {
            MapKind::Changing(timeline) => timeline.version(),
            MapKind::Published(edition) => edition.version(),
        }
    }
}
