//! The filters of peers.

ghost use Rattle.std.specs.Prelude.{◌≡◌, [], OnOk, OnErr};
ghost use Rattle.std.specs.BTreeMap.{values};
ghost use Rattle.lgm_store.specs.Rows.{put};
ghost use Rattle.lgm_answers.specs.Filters.{by_peer};

use lgm_query::Filter;
use std::alloc::{AllocError, Global};
use std::collections::BTreeMap;
use std::marker::Model;

/// The filter of a peer.
#[derive(Clone, Copy, Debug, PartialEq, Eq)]
pub struct PeerFilter {
    /// The peer's number, below 1,000.
    pub peer: u16,
    /// The gossip that it requests.
    pub filter: Filter,
}

/// The filters of peers. Contracts see a list, by ascending peer.
#[derive(Drop)]
pub struct Filters {
    filters: BTreeMap<u16, PeerFilter>,
}

impl Model for Filters {
    ghost use Rattle.std.specs.Prelude.{List};
    ghost use Rattle.std.specs.BTreeMap.{values};
    ghost use Rattle.lgm_store.specs.Keys.{IsKeyed};
    ghost use Rattle.lgm_answers.specs.declared.filters.PeerFilter.{PeerFilter};
    ghost use Rattle.lgm_answers.specs.Filters.{peer_of};

    ghost Value = { List PeerFilter };

    ghost view = { λ f. values f.filters };

    ghost invariant = { λ f. IsKeyed peer_of f.filters.entries };
}

impl Filters {
    /// No peer has a filter.
    pub fn new(alloc: Global) -> Filters
        ensures { result ≡ [] }
    {
        Filters {
            filters: BTreeMap::new(alloc),
        }
    }

    /// The filters by their peers' numbers.
    pub fn as_map(&self) -> &BTreeMap<u16, PeerFilter>
        ensures { values result.now ≡ self.now }
    {
        &self.filters
    }

    /// Sets the filter of a peer, replacing its earlier one. Out of memory leaves all unchanged.
    pub fn set(&mut self, own: PeerFilter) -> Result<(), AllocError>
        ensures ok { OnOk result (self.new ≡ put by_peer self.old own) }
        ensures err { OnErr result (self.new ≡ self.old) }
    {
        self.filters.insert(own.peer, own)?;
        Ok(())
    }
}
