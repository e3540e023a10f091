//! Snapshots: what is published.

ghost use Rattle.std.specs.Prelude.{◌≡◌, ◌≤◌, IfOk, OnOk, OnErr};
ghost use Rattle.lgm_store.specs.Rows.{empty};
ghost use Rattle.lgm_graph.specs.Graph.{IsGraphOf};
ghost use Rattle.lgm_board.specs.inner.Snapshots.{after_op, after_entry};

use crate::told::Told;
use left_right::Absorb;
use lgm_graph::{Known, MAX_CHANNELS, Network, View};
use lgm_store::{Map, Op, Seed};
use std::alloc::{AllocError, Global};
use std::marker::Model;

/// The maximum number of operations, each of which adds at most one channel.
pub const MAX_OPERATIONS: u64 = MAX_CHANNELS as u64;

/// An entry of the log between the two copies: the one that lags applies it later.
#[derive(Drop)]
pub(crate) enum LogEntry {
    /// An operation, to be applied.
    Absorb(Op),
    /// The list of operations that a copy has reached with the entries before.
    Reached(Told),
}

/// A map with its view, and the list of operations that made it. At run time only the length of the list exists.
#[derive(Drop)]
pub(crate) struct Snapshot {
    alloc: Global,
    network: Network,
    /// The number of operations applied. It bounds the channels of the map.
    absorbed: u64,
    told: Told,
}

impl Model for Snapshot {
    ghost use Rattle.lgm_board.specs.inner.Contents.{Contents, IsShown};

    ghost Value = { Contents };

    ghost view = { λ e. record {
      rows = e.network.rows;
      known = e.network.known;
      absorbed = e.absorbed;
      told = e.told;
    } };

    ghost invariant = { λ e. IsShown e.network e.absorbed };
}

impl Snapshot {
    /// An empty map with its view, whose points are hashed with the seed.
    pub(crate) fn new(
        alloc: Global,
        seed: Seed,
        known: &Known,
        told: Told,
    ) -> Result<Snapshot, AllocError>
        ensures { IfOk result
            (λ snapshot. snapshot ≡ record { rows = empty; known = known.now; absorbed = 0; told = told }) }
    {
        let mut network = Network::new(alloc, seed, known)?;
        network.make_view(alloc)?;
        Ok(Snapshot {
            alloc,
            network,
            absorbed: 0,
            told,
        })
    }

    /// The map that its operations made.
    pub(crate) fn map(&self) -> &Map
        ensures { result.now ≡ self.now.rows }
    {
        self.network.map()
    }

    /// Its view.
    pub(crate) fn view(&self) -> &View
        ensures known { result.now.known ≡ self.now.known }
        ensures beside { IsGraphOf self.now.rows result.now }
    {
        let Some(view) = self.network.view() else {
            unreachable!();
        };
        view
    }

    /// The list of operations that made it.
    pub(crate) fn told(&self) -> &Told
        ensures { result.now ≡ self.now.told }
    {
        &self.told
    }

    /// Applies an operation to the map and its view, which is built anew before if it numbers too many points. Beyond
    /// the limit, which is never reached, it does nothing. Out of memory leaves the map unchanged.
    fn absorb(&mut self, op: &Op) -> Result<(), AllocError>
        ensures ok { OnOk result (self.new ≡ after_op self.old op.now) }
        ensures err { OnErr result (self.new ≡ self.old) }
    {
        if self.absorbed == MAX_OPERATIONS {
            return Ok(());
        }
        self.network.make_view(self.alloc)?;
        self.network.absorb(op)?;
        self.absorbed += 1;
        Ok(())
    }
}

impl Absorb<LogEntry> for Snapshot {
    type State = Snapshot;

    ghost state = { λ e. e };

    ghost applied = { after_entry };

    fn absorb_first(&mut self, operation: &LogEntry, _other: &Snapshot) -> Result<(), AllocError> {
        match operation {
            LogEntry::Absorb(op) => self.absorb(op),
            LogEntry::Reached(told) => {
                self.told = told.reborrow();
                Ok(())
            }
        }
    }
}
