//! Relaxation of labels over edges.

ghost use Rattle.std.specs.Prelude.{◌≡◌, ◌+◌, ◌-◌, ◌^◌, ◌<◌, ◌≤◌, length, min, IfOk, IfErr};
ghost use Rattle.lgm_graph.specs.Graph.{edges_into};
ghost use Rattle.lgm_route.specs.inner.Searching.{label_at, first_of};
ghost use Rattle.lgm_route.specs.inner.Relaxations.{IsRelaxationOf};
ghost use Rattle.lgm_route.specs.inner.SearchState.{Adds, Extends, IsStopped, IsIntoAt, IsRelaxationAt, IsRelaxedOn, IsLeftAt, bound_in};
ghost use Rattle.lgm_route.specs.inner.Spending.{labels_of, looks_from};

use crate::halt::Halt;
use crate::label::{Label, cost};
use crate::label_search::LabelSearch;
use crate::penalties::Penalties;
use lgm_graph::{Edge, RoutingGraph, fee};

impl<'a, V: RoutingGraph, P: Penalties> LabelSearch<'a, V, P> {
    /// The relaxation of a label over one edge into its node, where no walk of this cost is better: a whole walk if the
    /// edge is the payer's, else a longer rest. None if the edge can't carry it, or if a longer rest would be too long, or its
    /// walks beyond the limit, or is pruned.
    #[inline(always)]
    pub(crate) fn relaxation(
        &self,
        bound: u128,
        i: usize,
        label: &Label,
        at: usize,
        edge: &Edge,
    ) -> Option<Label>
        requires bound { bound_in self.now ≤ bound }
        requires label { label.now ≡ label_at self.now.labels i }
        requires into { IsIntoAt self.now i at edge.now }
        ensures { IsRelaxationAt self.now i edge.now result }
    {
        let request = self.request();
        // The contract of `len` says that the label represents a rest, and the edge is one of the graph.
        let _len = self.len();
        if request.amount < edge.min || edge.max < label.amount {
            return None;
        }
        if edge.from == request.payer {
            return Some(Label {
                amount: label.amount,
                penalty: label.penalty,
                parent: i,
                at,
                node: edge.from,
                hops: label.hops + 1,
                delay: label.delay,
            });
        }
        if label.hops + 1 >= request.most_hops {
            return None;
        }
        let amount = label.amount as u128 + fee(label.amount, edge.base, edge.millionths);
        let hops = label.hops as u128 + 1;
        let beyond = self.lower_bound(edge.from) as u128;
        // Most edges are pruned by what they charge, and their penalties aren't computed.
        if bound <= cost(amount + label.penalty as u128 + beyond, hops) || amount >= 1 << 64 {
            return None;
        }
        let delay = self.delay_over(label, edge)?;
        let penalty = request.penalties.add(label.penalty, edge, label.amount);
        if bound <= cost(amount + penalty as u128 + beyond, hops) {
            return None;
        }
        Some(Label {
            amount: amount as u64,
            penalty,
            parent: i,
            at,
            node: edge.from,
            hops: label.hops + 1,
            delay,
        })
    }

    /// Applies a relaxation: a walk, or a rest as a new label.
    #[inline(always)]
    pub(crate) fn insert(&mut self, new: Label) -> Result<(), Halt>
        requires { IsRelaxationOf self.old.ground.graph self.old.ground.request self.old.labels new.parent
            (first_of self.old.ground.graph self.old.labels new) new }
        ensures extends { IfOk result (λ _. Extends self.old self.new) }
        ensures passed { IfOk result (λ _.
            IsRelaxedOn self.old new.parent (first_of self.old.ground.graph self.old.labels new) self.new) }
        ensures adds { Adds self.old self.new }
        ensures spends { length self.new.labels < 2 ^ 32
            → self.new.spent ≤ self.old.spent + labels_of self.new.labels new.node }
        ensures grows { self.old.spent ≤ self.new.spent }
        ensures stopped { IfErr result (λ halt. IsStopped self.old self.new halt) }
    {
        // The contract of `len` says that labels represent rests.
        let _len = self.len();
        if new.node == self.request().payer {
            self.improve(new);
            return Ok(());
        }
        self.offer(new)?;
        Ok(())
    }

    /// Relaxes a label over one edge into its node.
    #[inline(always)]
    pub(crate) fn relax_edge(
        &mut self,
        bound: u128,
        i: usize,
        label: &Label,
        at: usize,
        edge: &Edge,
    ) -> Result<(), Halt>
        requires bound { bound_in self.old ≤ bound }
        requires label { label.now ≡ label_at self.old.labels i }
        requires into { IsIntoAt self.old i at edge.now }
        ensures extends { IfOk result (λ _. Extends self.old self.new) }
        ensures passed { IfOk result (λ _. IsRelaxedOn self.old i edge.now self.new) }
        ensures adds { Adds self.old self.new }
        ensures spends { length self.new.labels < 2 ^ 32
            → self.new.spent ≤ self.old.spent + labels_of self.new.labels edge.now.from }
        ensures grows { self.old.spent ≤ self.new.spent }
        ensures stopped { IfErr result (λ halt. IsStopped self.old self.new halt) }
    {
        match self.relaxation(bound, i, label, at, edge) {
            None => Ok(()),
            Some(new) => {
                self.insert(new)?;
                Ok(())
            }
        }
    }

    /// Relaxes a label over all edges into its node.
    pub(crate) fn relax(&mut self, i: usize) -> Result<(), Halt>
        requires { i < length self.old.labels }
        ensures extends { IfOk result (λ _. Extends self.old self.new) }
        ensures left { IfOk result (λ _. IsLeftAt self.old i self.new) }
        ensures adds { Adds self.old self.new }
        ensures spends { length self.new.labels < 2 ^ 32
            → self.new.spent ≤ self.old.spent + looks_from self.old.ground.graph self.new.labels i }
        // Each of the edges is a step.
        ensures counted { IfOk result (λ _.
            min (self.old.spent + length (edges_into self.old.ground.graph (label_at self.old.labels i).node)) (2 ^ 64 - 1) ≤ self.new.spent) }
        ensures stopped { IfErr result (λ halt. IsStopped self.old self.new halt) }
    {
        let label = self.label(i);
        // A walk that is found meanwhile lowers the bound, which only matters for the labels to come.
        let bound = self.bound();
        let edges = self.edges_into(label.node);
        self.spend(edges.len())?;
        for at in 0..edges.len() {
            self.relax_edge(bound, i, &label, at, &edges[at])?;
        }
        Ok(())
    }
}
