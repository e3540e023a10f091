//! The overrides of a node.

ghost use Rattle.std.specs.Prelude.{◌≡◌, OnOk};
ghost use Rattle.lgm_graph.specs.inner.Overlaying.{nothing_of, is_extra_in, most_in, overlaid_at, applied};

use super::edge_terms::TermsById;
use super::overrides::Override;
use crate::edge::Edge;
use lgm_gossip::Scid;
use std::alloc::{AllocError, Global};
use std::marker::Model;

/// The overrides of a node.
#[derive(Drop)]
pub(crate) struct TouchedNode {
    /// Its number.
    node: u32,
    /// Whether it is silent.
    silent: bool,
    /// The overrides of the edges out of it, by their ids.
    terms: TermsById,
    /// The extra edges out of it.
    leaving: Vec<Edge>,
    /// The extra edges into it.
    entering: Vec<Edge>,
}

impl Model for TouchedNode {
    ghost use Rattle.lgm_graph.specs.inner.Overlaying.{NodeOverrides};

    ghost Value = { NodeOverrides };

    ghost view = { λ t. record {
      node = t.node;
      silent = t.silent;
      terms = t.terms;
      leaving = t.leaving.items;
      entering = t.entering.items;
    } };
}

impl TouchedNode {
    /// A node without overrides.
    pub(super) fn new(alloc: Global, node: u32) -> TouchedNode
        ensures { result ≡ nothing_of node }
    {
        TouchedNode {
            node,
            silent: false,
            terms: TermsById::new(alloc),
            leaving: Vec::new(alloc),
            entering: Vec::new(alloc),
        }
    }

    /// Its number.
    pub(super) fn node(&self) -> u32
        ensures { result ≡ self.now.node }
    {
        self.node
    }

    /// The extra edges out of it.
    pub(super) fn leaving(&self) -> &[Edge]
        ensures { result.now ≡ self.now.leaving }
    {
        self.leaving.as_slice()
    }

    /// The extra edges into it.
    pub(super) fn entering(&self) -> &[Edge]
        ensures { result.now ≡ self.now.entering }
    {
        self.entering.as_slice()
    }

    /// Applies one more override.
    pub(super) fn apply(&mut self, change: Override) -> Result<(), AllocError>
        ensures applied { OnOk result (self.new ≡ applied self.old change) }
        ensures node { self.new.node ≡ self.old.node }
    {
        match change {
            Override::Silent => self.silent = true,
            Override::Limited(limit) => {
                let own = self.terms.get(limit.scid);
                self.terms.set(limit.scid, own.limited(limit.most))?;
            }
            Override::Leaving(edge) => {
                let own = self.terms.get(edge.scid);
                self.terms.set(edge.scid, own.extra())?;
                self.leaving.push(edge)?;
            }
            Override::Entering(edge) => self.entering.push(edge)?,
        }
        Ok(())
    }

    /// What an edge out of it carries at most.
    pub(super) fn most(&self, edge: &Edge) -> u64
        ensures { result ≡ most_in self.now.terms edge.now.scid edge.now.max }
    {
        self.terms.get(edge.scid).most(edge.max)
    }

    /// Whether an extra edge out of it has an id.
    pub(super) fn names(&self, scid: Scid) -> bool
        ensures { result ≡ is_extra_in self.now.terms scid }
    {
        self.terms.get(scid).is_extra
    }

    /// An edge of the map out of it, over the overlay, if it is used.
    pub(super) fn overlaid(&self, edge: &Edge) -> Option<Edge>
        ensures { result ≡ overlaid_at self.now edge.now }
    {
        let terms = self.terms.get(edge.scid);
        if self.silent || terms.is_extra {
            return None;
        }
        Some(Edge {
            max: terms.most(edge.max),
            ..*edge
        })
    }
}
