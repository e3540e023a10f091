//! Settling labels by their delay, for a walk within a limit that most of the cheaper ones exceed.

ghost use Rattle.std.specs.Prelude.{IfOk, IfErr};
ghost use Rattle.lgm_route.specs.inner.SearchState.{Extends, IsHalted, IsPaid};

use crate::entry::Entry;
use crate::halt::Halt;
use crate::label_search::LabelSearch;
use crate::penalties::Penalties;
use lgm_graph::RoutingGraph;
use std::alloc::{AllocError, Global};
use std::collections::BinaryHeap;

/// Labels by delay, and the nodes whose quickest label was settled.
#[derive(Drop)]
struct Quickest {
    heap: BinaryHeap<Entry>,
    /// The number of labels queued so far.
    queued: usize,
    reached: Vec<bool>,
}

impl Quickest {
    /// No labels, and no nodes.
    fn new(alloc: Global, nodes: usize) -> Result<Quickest, AllocError> {
        let mut reached = Vec::new(alloc);
        reached.resize(nodes, false)?;
        Ok(Quickest {
            heap: BinaryHeap::new(alloc),
            queued: 0,
            reached,
        })
    }

    /// Queues the new labels.
    fn fill<V: RoutingGraph, P: Penalties>(
        &mut self,
        search: &LabelSearch<'_, V, P>,
    ) -> Result<(), AllocError> {
        for i in self.queued..usize::MAX {
            self.queued = i;
            if search.len() <= i {
                break;
            }
            let label = search.label(i);
            self.heap
                .push(Entry::new(label.delay as u64, label.hops as u32, i))?;
        }
        Ok(())
    }

    /// Whether a node is reached for the first time.
    fn reaches(&mut self, node: u32) -> bool {
        let node = node as usize;
        if self.reached.len() <= node || self.reached[node] {
            return false;
        }
        self.reached[node] = true;
        true
    }
}

impl<'a, V: RoutingGraph, P: Penalties> LabelSearch<'a, V, P> {
    /// Settles the quickest label of each node, until some walk is found.
    pub(crate) fn settle_quickest(&mut self, alloc: Global) -> Result<(), Halt>
        ensures extends { IfOk result (λ _. Extends self.old self.new) }
        ensures pays { IfOk result (λ _. IsPaid self.old → IsPaid self.new) }
        ensures halted { IfErr result (λ halt. IsHalted self.old self.new halt) }
    {
        let mut quickest = Quickest::new(alloc, self.nodes())?;
        for _turn in 0..usize::MAX {
            if self.has_walk() {
                return Ok(());
            }
            if !self.settle_next_quickest(&mut quickest)? {
                break;
            }
        }
        Ok(())
    }

    /// Settles the next label if it is the quickest of its node. Returns whether there was one.
    fn settle_next_quickest(&mut self, quickest: &mut Quickest) -> Result<bool, Halt>
        ensures extends { IfOk result (λ _. Extends self.old self.new) }
        ensures pays { IfOk result (λ _. IsPaid self.old → IsPaid self.new) }
        ensures halted { IfErr result (λ halt. IsHalted self.old self.new halt) }
    {
        quickest.fill(self)?;
        let Some(entry) = quickest.heap.pop() else {
            return Ok(false);
        };
        let i = entry.place();
        if self.len() <= i {
            return Ok(false);
        }
        if quickest.reaches(self.label(i).node) {
            self.settle(i)?;
        }
        Ok(true)
    }
}
