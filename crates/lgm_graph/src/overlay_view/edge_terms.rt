//! What an overlay says of the edges out of a node, by their ids.

ghost use Rattle.std.specs.Prelude.{◌≡◌, [], OnOk, OnErr};
ghost use Rattle.lgm_graph.specs.inner.Overlaying.{no_terms, terms_of, with_terms, with_limit, as_extra, least_of};

use lgm_gossip::Scid;
use std::alloc::{AllocError, Global};
use std::collections::BTreeMap;
use std::marker::Model;

/// What an overlay says of the edges with an id out of a node.
#[derive(Clone, Copy, Debug)]
pub(crate) struct EdgeTerms {
    /// The least of their limits, if they have one.
    pub(crate) limit: Option<u64>,
    /// Whether one is an extra edge.
    pub(crate) is_extra: bool,
}

impl EdgeTerms {
    /// No overrides.
    fn none() -> EdgeTerms
        ensures { result ≡ no_terms }
    {
        EdgeTerms {
            limit: None,
            is_extra: false,
        }
    }

    /// With one limit more.
    pub(super) fn limited(self, most: u64) -> EdgeTerms
        ensures { result ≡ with_limit most self }
    {
        EdgeTerms {
            limit: Some(self.most(most)),
            is_extra: self.is_extra,
        }
    }

    /// With an extra edge.
    pub(super) fn extra(self) -> EdgeTerms
        ensures { result ≡ as_extra self }
    {
        EdgeTerms {
            limit: self.limit,
            is_extra: true,
        }
    }

    /// What one with this maximum carries at most.
    pub(super) fn most(self, max: u64) -> u64
        ensures { result ≡ least_of self.limit max }
    {
        match self.limit {
            Some(limit) => max.min(limit),
            None => max,
        }
    }
}

/// What an overlay says of the edges out of a node. A lookup costs a logarithm of how many ids it says something of.
/// Contracts see the ids, each with its overrides.
#[derive(Drop)]
pub(crate) struct TermsById {
    by_id: BTreeMap<u64, EdgeTerms>,
}

impl Model for TermsById {
    ghost use Rattle.lgm_graph.specs.inner.Overlaying.{Terms};

    ghost Value = { Terms };

    ghost view = { λ t. t.by_id.entries };
}

impl TermsById {
    /// No overrides. Allocates nothing.
    pub(super) fn new(alloc: Global) -> TermsById
        ensures { result ≡ [] }
    {
        TermsById {
            by_id: BTreeMap::new(alloc),
        }
    }

    /// The overrides of an id.
    pub(super) fn get(&self, scid: Scid) -> EdgeTerms
        ensures { result ≡ terms_of self.now scid }
    {
        match self.by_id.get(&scid.to_u64()) {
            Some(terms) => *terms,
            None => EdgeTerms::none(),
        }
    }

    /// Sets the overrides of an id. Out of memory changes nothing.
    pub(super) fn set(&mut self, scid: Scid, terms: EdgeTerms) -> Result<(), AllocError>
        ensures set { OnOk result (self.new ≡ with_terms self.old scid terms) }
        ensures stays { OnErr result (self.new ≡ self.old) }
    {
        self.by_id.insert(scid.to_u64(), terms)?;
        Ok(())
    }
}
