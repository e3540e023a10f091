//! Settling labels by several workers: frontier by frontier, then best-first, and then by layers.

ghost use Rattle.std.specs.Prelude.{◌≡◌, ◌<◌, ◌≤◌, length, All, IfOk};
ghost use Rattle.lgm_route.specs.inner.SearchState.{Extends, IsFinished};

use crate::halt::Halt;
use crate::label_search::LabelSearch;
use crate::penalties::Penalties;
use crate::queue::Queue;
use lgm_graph::RoutingGraph;
use lgm_par::{Gate, Pool};
use std::alloc::{AllocError, Global};
use std::thread::Threads;

/// The maximum number of edges of a walk.
const LAYERS: u32 = 20;

/// The number of labels that are settled frontier by frontier, so that workers share the search of a small network,
/// too.
const EARLY: usize = 64;

/// The number of labels that are then settled best-first before layers are worthwhile.
const ALONE: usize = 2_048;

/// The number of labels that are worth a worker: relaxing them takes longer than starting a thread.
const SHARE: usize = 512;

/// Labels by their number of edges, as linked lists of indices. No contract depends on them.
#[derive(Drop)]
struct Layers {
    /// The number of edges of the next layer.
    next_layer: u32,
    /// The last label with each number of edges.
    last: Vec<usize>,
    /// The label before each label.
    before: Vec<usize>,
}

impl Layers {
    fn new(alloc: Global) -> Result<Layers, AllocError> {
        let last = vec![in alloc; usize::MAX; LAYERS as usize]?;
        Ok(Layers {
            next_layer: 0,
            last,
            before: Vec::new(alloc),
        })
    }

    /// Adds the new labels to their layers.
    fn fill<V: RoutingGraph, P: Penalties>(
        &mut self,
        search: &LabelSearch<'_, V, P>,
    ) -> Result<(), AllocError> {
        for i in self.before.len()..search.len() {
            let hops = search.label(i).hops as usize;
            if hops < self.last.len() {
                self.before.push(self.last[hops])?;
                self.last[hops] = i;
            } else {
                self.before.push(usize::MAX)?;
            }
        }
        Ok(())
    }

    /// The open labels with this many edges.
    fn layer<V: RoutingGraph, P: Penalties>(
        &self,
        alloc: Global,
        search: &LabelSearch<'_, V, P>,
        hops: u32,
    ) -> Result<Vec<usize>, AllocError>
        ensures { IfOk result (λ frontier. All (λ i. i < length search.now.labels) frontier.items) }
    {
        let mut frontier = Vec::new(alloc);
        let Some(last) = self.last.get(hops as usize) else {
            return Ok(frontier);
        };
        let mut place = *last;
        for _step in 0..self.before.len() {
            if search.len() <= place || self.before.len() <= place {
                break;
            }
            if search.is_open(place) {
                frontier.push(place)?;
            }
            place = self.before[place];
        }
        Ok(frontier)
    }

    /// The next frontier: the open labels with the fewest edges, but more edges than those of the frontiers before.
    /// Empty if there are none.
    fn frontier<V: RoutingGraph, P: Penalties>(
        &mut self,
        alloc: Global,
        search: &LabelSearch<'_, V, P>,
    ) -> Result<Vec<usize>, AllocError>
        ensures { IfOk result (λ frontier. All (λ i. i < length search.now.labels) frontier.items) }
    {
        for hops in self.next_layer..LAYERS {
            self.next_layer = hops + 1;
            let frontier = self.layer(alloc, search, hops)?;
            if !frontier.is_empty() {
                return Ok(frontier);
            }
        }
        Ok(Vec::new(alloc))
    }
}

impl<'a, V: RoutingGraph + Sync, P: Penalties + Sync> LabelSearch<'a, V, P> {
    /// Settles the first labels frontier by frontier: those with equal lower bounds together.
    fn settle_early<Rt: Threads + Sync, G: Gate>(
        &mut self,
        pool: &Pool<'_, Rt, G>,
        queue: &mut Queue,
    ) -> Result<(), Halt>
        ensures { IfOk result (λ _. Extends self.old self.new) }
    {
        // An eighth of the network's nodes is worth a worker, so the search of a large one hardly ever starts threads.
        let share = (self.nodes() / 8).clamp(1, SHARE);
        let mut settled = 0;
        while settled < EARLY {
            let frontier = queue.frontier(pool.alloc, self)?;
            if frontier.is_empty() {
                break;
            }
            self.settle_frontier(pool, &frontier, share)?;
            settled += frontier.len();
            queue.fill(self)?;
        }
        Ok(())
    }

    /// Settles labels layer by layer, by their number of edges, until none with more edges is open.
    fn settle_layers<Rt: Threads + Sync, G: Gate>(
        &mut self,
        pool: &Pool<'_, Rt, G>,
    ) -> Result<(), Halt>
        ensures { IfOk result (λ _. Extends self.old self.new) }
    {
        let mut layers = Layers::new(pool.alloc)?;
        for _layer in 0..LAYERS {
            layers.fill(self)?;
            let frontier = layers.frontier(pool.alloc, self)?;
            if frontier.is_empty() {
                break;
            }
            self.settle_frontier(pool, &frontier, SHARE)?;
        }
        Ok(())
    }

    /// Settles labels best-first, and, if many remain, by their number of edges.
    fn settle_queue_and_layers<Rt: Threads + Sync, G: Gate>(
        &mut self,
        pool: &Pool<'_, Rt, G>,
        queue: &mut Queue,
    ) -> Result<(), Halt>
        ensures { IfOk result (λ _. Extends self.old self.new) }
    {
        if self.settle_queue(queue, ALONE)? {
            return Ok(());
        }
        self.settle_layers(pool)?;
        Ok(())
    }

    /// Settles all labels: the first ones frontier by frontier, then best-first, and, if many remain, by their number of
    /// edges.
    pub(crate) fn settle_chunked<Rt: Threads + Sync, G: Gate>(
        &mut self,
        pool: &Pool<'_, Rt, G>,
    ) -> Result<(), Halt>
        ensures { IfOk result (λ _. (self.new.ground ≡ self.old.ground) × IsFinished self.new) }
    {
        let mut queue = Queue::of(pool.alloc, self)?;
        self.settle_early(pool, &mut queue)?;
        self.settle_queue_and_layers(pool, &mut queue)?;
        self.sweep()
    }
}
