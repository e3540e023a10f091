//! Relaxing the labels of a frontier, by several workers.

ghost use Rattle.std.specs.Prelude.{◌≡◌, ◌<◌, ◌≤◌, ◌++◌, length, All, IfOk};
ghost use Rattle.std.specs.List.{AllZip};
ghost use Rattle.lgm_route.specs.inner.Relaxations.{in_list};
ghost use Rattle.lgm_route.specs.inner.SearchState.{AreRelaxationsAt, Extends};

use crate::halt::Halt;
use crate::label::Label;
use crate::label_search::LabelSearch;
use crate::penalties::Penalties;
use lgm_graph::RoutingGraph;
use lgm_par::{Gate, Pool};
use std::alloc::{AllocError, Global};
use std::thread::Threads;

/// Appends a label, if there is one.
#[inline(always)]
fn push(labels: &mut Vec<Label>, label: Option<Label>) -> Result<(), AllocError>
    ensures { IfOk result (λ _. labels.new.items ≡ labels.old.items ++ in_list label) }
{
    if let Some(label) = label {
        labels.push(label)?;
    }
    Ok(())
}

/// The relaxations of each label of a frontier, computed in chunks.
fn all_relaxations<Rt: Threads + Sync, G: Gate, V: RoutingGraph + Sync, P: Penalties + Sync>(
    pool: &Pool<'_, Rt, G>,
    search: &LabelSearch<'_, V, P>,
    frontier: &[usize],
) -> Result<Vec<Result<Vec<Label>, AllocError>>, AllocError>
    requires { All (λ i. i < length search.now.labels) frontier.now }
    ensures { IfOk result (λ all. AllZip
        (λ i relaxations. IfOk relaxations (λ relaxations. AreRelaxationsAt search.now i relaxations.items)) frontier.now all.items) }
{
    let alloc = pool.alloc;
    pool.map(frontier, &|i| search.relaxations(alloc, *i))
}

impl<'a, V: RoutingGraph, P: Penalties> LabelSearch<'a, V, P> {
    /// Whether a label is neither settled, pruned nor dominated.
    pub(crate) fn is_open(&self, i: usize) -> bool
        requires { i < length self.now.labels }
    {
        let label = self.label(i);
        !self.is_done(i) && self.cost_lower_bound(&label) < self.bound() && self.dominator(i).0 == i
    }

    /// The relaxations of a label.
    fn relaxations(&self, alloc: Global, i: usize) -> Result<Vec<Label>, AllocError>
        requires { i < length self.now.labels }
        ensures { IfOk result (λ relaxations. AreRelaxationsAt self.now i relaxations.items) }
    {
        let label = self.label(i);
        let bound = self.bound();
        let edges = self.edges_into(label.node);
        let mut relaxations = Vec::new(alloc);
        for at in 0..edges.len() {
            push(
                &mut relaxations,
                self.relaxation(bound, i, &label, at, &edges[at]),
            )?;
        }
        Ok(relaxations)
    }

    /// Applies the relaxations of a label, and marks the label.
    fn merge(&mut self, i: usize, relaxations: &[Label]) -> Result<(), Halt>
        requires label { i < length self.old.labels }
        requires relaxations { AreRelaxationsAt self.old i relaxations.now }
        ensures { IfOk result (λ _. Extends self.old self.new) }
    {
        // The contract of `len` says that labels represent rests.
        let _len = self.len();
        for new in relaxations {
            self.insert(*new)?;
        }
        self.mark(i)?;
        Ok(())
    }

    /// Settles the labels of a frontier one after the other.
    fn settle_in_turn(&mut self, frontier: &[usize]) -> Result<(), Halt>
        requires { All (λ i. i < length self.old.labels) frontier.now }
        ensures { IfOk result (λ _. Extends self.old self.new) }
    {
        for i in frontier {
            self.settle(*i)?;
        }
        Ok(())
    }
}

impl<'a, V: RoutingGraph + Sync, P: Penalties + Sync> LabelSearch<'a, V, P> {
    /// Relaxes the labels of a frontier in chunks, and then merges the results, in the order of the frontier.
    fn settle_in_chunks<Rt: Threads + Sync, G: Gate>(
        &mut self,
        pool: &Pool<'_, Rt, G>,
        frontier: &[usize],
    ) -> Result<(), Halt>
        requires { All (λ i. i < length self.old.labels) frontier.now }
        ensures { IfOk result (λ _. Extends self.old self.new) }
    {
        let all = all_relaxations(pool, self, frontier)?;
        for k in 0..frontier.len() {
            match &all[k] {
                Ok(relaxations) => self.merge(frontier[k], relaxations)?,
                Err(e) => return Err(Halt::from(*e)),
            }
        }
        Ok(())
    }

    /// Settles the labels of a frontier: in one chunk for each `share` of them, or one after the other if they are
    /// fewer.
    pub(crate) fn settle_frontier<Rt: Threads + Sync, G: Gate>(
        &mut self,
        pool: &Pool<'_, Rt, G>,
        frontier: &[usize],
        share: usize,
    ) -> Result<(), Halt>
        requires share { 1 ≤ share }
        requires within { All (λ i. i < length self.old.labels) frontier.now }
        ensures { IfOk result (λ _. Extends self.old self.new) }
    {
        let chunks = frontier.len() / share;
        if chunks == 0 {
            return self.settle_in_turn(frontier);
        }
        self.settle_in_chunks(&pool.at_most(chunks), frontier)
    }
}
