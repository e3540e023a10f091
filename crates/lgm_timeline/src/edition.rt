//! Maps at a position.

ghost use Rattle.std.specs.Prelude.{◌≡◌, ℕ, ◌<◌, ◌≤◌, IfOk, IfSome, IsTrue, OnOk};
ghost use Rattle.std.specs.Arc.{arc_value};
ghost use Rattle.lgm_timeline.specs.History.{end, moment, rows_at, IsReady, LeadsFrom};
ghost use Rattle.lgm_timeline.specs.Edition.{moment_of, IsReadyAt};
ghost use Rattle.lgm_timeline.specs.inner.Past.{IsReached};

use crate::op_log::OpLog;
use lgm_gossip::Scid;
use lgm_graph::{MAX_CHANNELS, Network};
use lgm_store::{Op, ROWS_TOGETHER};
use std::alloc::{AllocError, Global};
use std::sync::Arc;

/// A network, and how many operations of the history it has. One that is shared never changes, and has its view, unless it
/// has more than 2,000,000,000 channels.
#[derive(Drop)]
pub struct Edition {
    pub(crate) network: Network,
    pub(crate) at: u64,
}

impl Edition {
    /// A copy of a network that has this many operations, without a view.
    pub(crate) fn copy(alloc: Global, network: &Network, at: u64) -> Result<Edition, AllocError>
        ensures { IfOk result (λ edition. moment_of edition ≡ moment network.now at) }
    {
        Ok(Edition {
            network: network.copy(alloc)?,
            at,
        })
    }

    /// Whether it has come to a position, and has no channels. Nobody keeps the operations behind that one for it: a copy of
    /// the map that they make takes no longer.
    pub(crate) fn starts_at(&self, position: u64) -> bool
        ensures { IsTrue result → IsReached position self.now }
    {
        self.at == position && self.network.map().count() == 0
    }

    /// Reads the rows of the channels that the next operations update, once for each [`ROWS_TOGETHER`] of them. No answer
    /// depends on it.
    fn read_ahead(&self, log: &OpLog) {
        if self.at % ROWS_TOGETHER as u64 != 0 {
            return;
        }
        let mut scids = [Scid::from_u64(0); ROWS_TOGETHER];
        for (further, scid) in scids.iter_mut().enumerate() {
            if let Some(Op::Update(row)) = log.ahead(self.at, further) {
                *scid = row.get().scid();
            }
        }
        self.network.map().prefetch_rows(&scids);
    }

    /// Applies the operations up to a position. Out of memory leaves it at one before that.
    pub(crate) fn catch_up(&mut self, log: &OpLog, to: u64) -> Result<(), AllocError>
        requires kept { self.old.at < to → log.now.base ≤ self.old.at }
        requires ahead { self.old.at ≤ to }
        requires within { to ≤ end log.now }
        ensures rows { (later : ℕ) → self.new.at ≤ later
            → rows_at log.now (moment_of self.new) later ≡ rows_at log.now (moment_of self.old) later }
        ensures known { self.new.network.known ≡ self.old.network.known }
        ensures from { self.old.at ≤ self.new.at }
        ensures before { self.new.at ≤ to }
        ensures done { OnOk result (self.new.at ≡ to) }
        ensures idle { self.old.at ≡ to → self.new ≡ self.old }
    {
        while self.at < to {
            self.read_ahead(log);
            self.network.absorb(log.op(self.at))?;
            self.at += 1;
        }
        Ok(())
    }

    /// Builds the view, unless there is one, or there are too many channels.
    fn make_ready(&mut self, alloc: Global) -> Result<(), AllocError>
        ensures same { moment_of self.new ≡ moment_of self.old }
        ensures ready { OnOk result (IsReady self.new.network) }
    {
        if self.network.map().count() <= MAX_CHANNELS {
            self.network.make_view(alloc)?;
        }
        Ok(())
    }

    /// A copy of a network that has this many operations, with its view, to be shared. It shares the messages.
    pub(crate) fn shared_copy(
        alloc: Global,
        network: &Network,
        at: u64,
    ) -> Result<Arc<Edition>, AllocError>
        ensures { IfOk result (λ edition. IsReadyAt (moment network.now at) (arc_value edition)) }
    {
        let mut copy = Edition::copy(alloc, network, at)?;
        copy.make_ready(alloc)?;
        Ok(Arc::new(alloc, copy)?)
    }

    /// The network after all operations of a log, if it has no other owner and memory suffices.
    pub(crate) fn caught_up(
        mut shared: Arc<Edition>,
        alloc: Global,
        log: &OpLog,
    ) -> Option<Arc<Edition>>
        requires kept { LeadsFrom log.now (arc_value shared).at }
        requires within { (arc_value shared).at ≤ end log.now }
        ensures { IfSome result (λ edition. IsReadyAt (record {
          known = (arc_value shared).network.known;
          rows = rows_at log.now (moment_of (arc_value shared)) (end log.now);
          at = end log.now;
        }) (arc_value edition)) }
    {
        let lagging = Arc::get_mut(&mut shared)?;
        lagging.catch_up(log, log.end()).ok()?;
        lagging.make_ready(alloc).ok()?;
        Some(shared)
    }

    /// The network.
    pub fn network(&self) -> &Network
        ensures { result.now ≡ self.now.network }
    {
        &self.network
    }

    /// How many operations it has.
    pub fn version(&self) -> u64
        ensures { result ≡ self.now.at }
    {
        self.at
    }
}
