//! Settling labels best-first (A\*), and the frontiers of those with the least lower bound.

ghost use Rattle.std.specs.Prelude.{◌≡◌, ◌<◌, length, All, IfOk, IfErr, IfSome};
ghost use Rattle.lgm_route.specs.inner.SearchState.{Extends, IsFinished, IsHalted, IsPaid};

use crate::dives::Dives;
use crate::entry::Entry;
use crate::halt::Halt;
use crate::label::cost;
use crate::label_search::LabelSearch;
use crate::penalties::Penalties;
use lgm_graph::RoutingGraph;
use std::alloc::{AllocError, Global};
use std::collections::BinaryHeap;

/// Labels that wait to be settled, by the lower bound of their walks.
#[derive(Drop)]
pub(crate) struct Queue {
    heap: BinaryHeap<Entry>,
    /// The number of labels queued so far.
    queued: usize,
    dives: Dives,
}

impl Queue {
    /// A queue of all labels, and of those that dives from them add.
    pub(crate) fn of<V: RoutingGraph, P: Penalties>(
        alloc: Global,
        search: &mut LabelSearch<'_, V, P>,
    ) -> Result<Queue, Halt>
        ensures extends { IfOk result (λ _. Extends search.old search.new) }
        ensures pays { IfOk result (λ _. IsPaid search.old → IsPaid search.new) }
        ensures halted { IfErr result (λ halt. IsHalted search.old search.new halt) }
    {
        let mut queue = Queue {
            heap: BinaryHeap::new(alloc),
            queued: 0,
            dives: Dives::new(),
        };
        queue.fill(search)?;
        Ok(queue)
    }

    /// Queues the new labels, and those that dives from them add.
    pub(crate) fn fill<V: RoutingGraph, P: Penalties>(
        &mut self,
        search: &mut LabelSearch<'_, V, P>,
    ) -> Result<(), Halt>
        ensures extends { IfOk result (λ _. Extends search.old search.new) }
        ensures pays { IfOk result (λ _. IsPaid search.old → IsPaid search.new) }
        ensures halted { IfErr result (λ halt. IsHalted search.old search.new halt) }
    {
        for i in self.queued..usize::MAX {
            self.queued = i;
            if search.len() <= i {
                break;
            }
            let excess_lower_bound = search.excess_lower_bound(i);
            self.heap.push(Entry::new(excess_lower_bound, search.label(i).hops as u32, i))?;
            self.dives.dive(search, i, excess_lower_bound)?;
        }
        Ok(())
    }

    /// The index of the label with the smallest lower bound, unless all are pruned.
    fn next<V: RoutingGraph, P: Penalties>(
        &mut self,
        search: &LabelSearch<'_, V, P>,
    ) -> Option<usize>
        ensures { IfSome result (λ i. i < length search.now.labels) }
    {
        let entry = self.heap.pop()?;
        let least = cost(search.request().amount as u128 + entry.amount() as u128, 0);
        if entry.is_exact() && search.bound() <= least {
            return None;
        }
        let place = entry.place();
        if place < search.len() {
            Some(place)
        } else {
            None
        }
    }
}

impl Queue {
    /// The open label with the least lower bound, unless the remaining ones can be pruned.
    fn next_open<V: RoutingGraph, P: Penalties>(
        &mut self,
        search: &LabelSearch<'_, V, P>,
    ) -> Option<usize>
        ensures { IfSome result (λ i. i < length search.now.labels) }
    {
        for _turn in 0..usize::MAX {
            let i = self.next(search)?;
            if search.is_open(i) {
                return Some(i);
            }
        }
        None
    }

    /// Whether the next label has the lower bound and the number of edges of this one.
    fn is_next_level_with<V: RoutingGraph, P: Penalties>(
        &self,
        search: &LabelSearch<'_, V, P>,
        i: usize,
    ) -> bool
        requires { i < length search.now.labels }
    {
        let entry = Entry::new(search.excess_lower_bound(i), search.label(i).hops as u32, i);
        match self.heap.peek() {
            Some(next) => next.is_level_with(entry),
            None => false,
        }
    }

    /// The next frontier: of the open labels with the least lower bound, those with the fewest edges. Empty if the
    /// remaining labels can be pruned.
    pub(crate) fn frontier<V: RoutingGraph, P: Penalties>(
        &mut self,
        alloc: Global,
        search: &LabelSearch<'_, V, P>,
    ) -> Result<Vec<usize>, AllocError>
        ensures { IfOk result (λ frontier. All (λ i. i < length search.now.labels) frontier.items) }
    {
        let mut frontier = Vec::new(alloc);
        let Some(first) = self.next_open(search) else {
            return Ok(frontier);
        };
        frontier.push(first)?;
        for _turn in 0..usize::MAX {
            if !self.is_next_level_with(search, first) {
                break;
            }
            let Some(i) = self.next(search) else {
                break;
            };
            if search.is_open(i) {
                frontier.push(i)?;
            }
        }
        Ok(frontier)
    }
}

impl<'a, V: RoutingGraph, P: Penalties> LabelSearch<'a, V, P> {
    /// A lower bound on what walks over a label cost above the request's amount, in msat.
    #[inline(always)]
    pub(crate) fn excess_lower_bound(&self, i: usize) -> u64
        requires { i < length self.now.labels }
    {
        let label = self.label(i);
        let above = label.amount.saturating_sub(self.request().amount);
        above
            .saturating_add(label.penalty)
            .saturating_add(self.lower_bound(label.node))
    }

    /// Settles all labels, best-first until the remaining ones can be pruned. Where many labels led to no walk, a quick one is
    /// looked for.
    pub(crate) fn settle_best_first(&mut self, alloc: Global) -> Result<(), Halt>
        ensures finished { IfOk result (λ _. (self.new.ground ≡ self.old.ground) × IsFinished self.new) }
        ensures halted { IfErr result (λ halt. IsHalted self.old self.new halt) }
    {
        let mut queue = Queue::of(alloc, self)?;
        if !self.settle_first(&mut queue)? {
            self.seek_quick_walk(alloc, &mut queue)?;
            self.settle_queue(&mut queue, usize::MAX)?;
        }
        self.sweep()
    }

    /// Settles the labels of a queue best-first until there are many. Returns whether the remaining ones can be pruned.
    fn settle_first(&mut self, queue: &mut Queue) -> Result<bool, Halt>
        ensures extends { IfOk result (λ _. Extends self.old self.new) }
        ensures pays { IfOk result (λ _. IsPaid self.old → IsPaid self.new) }
        ensures halted { IfErr result (λ halt. IsHalted self.old self.new halt) }
    {
        for _turn in 0..usize::MAX {
            if PATIENCE < self.len() {
                return Ok(false);
            }
            if !self.settle_next(queue)? {
                break;
            }
        }
        Ok(true)
    }

    /// Looks for a quick walk, unless some walk was found, and queues the labels that this adds.
    fn seek_quick_walk(&mut self, alloc: Global, queue: &mut Queue) -> Result<(), Halt>
        ensures extends { IfOk result (λ _. Extends self.old self.new) }
        ensures pays { IfOk result (λ _. IsPaid self.old → IsPaid self.new) }
        ensures halted { IfErr result (λ halt. IsHalted self.old self.new halt) }
    {
        if self.has_walk() {
            return Ok(());
        }
        self.settle_quickest(alloc)?;
        queue.fill(self)?;
        Ok(())
    }

    /// Settles the next label of a queue. Returns whether there was one: else the remaining ones can be pruned.
    #[inline(always)]
    fn settle_next(&mut self, queue: &mut Queue) -> Result<bool, Halt>
        ensures extends { IfOk result (λ _. Extends self.old self.new) }
        ensures pays { IfOk result (λ _. IsPaid self.old → IsPaid self.new) }
        ensures halted { IfErr result (λ halt. IsHalted self.old self.new halt) }
    {
        let Some(i) = queue.next(self) else {
            return Ok(false);
        };
        self.settle(i)?;
        queue.fill(self)?;
        Ok(true)
    }

    /// Settles the labels of a queue best-first until the remaining ones can be pruned; or, once `most` are settled,
    /// until some walk is found. Returns whether the remaining ones can be pruned.
    pub(crate) fn settle_queue(&mut self, queue: &mut Queue, most: usize) -> Result<bool, Halt>
        ensures extends { IfOk result (λ _. Extends self.old self.new) }
        ensures pays { IfOk result (λ _. IsPaid self.old → IsPaid self.new) }
        ensures halted { IfErr result (λ halt. IsHalted self.old self.new halt) }
    {
        for turn in 0..usize::MAX {
            if most <= turn && self.has_walk() {
                return Ok(false);
            }
            if !self.settle_next(queue)? {
                break;
            }
        }
        Ok(true)
    }
}

/// The number of labels without a walk behind which a quick walk is looked for.
const PATIENCE: usize = 4_000;
