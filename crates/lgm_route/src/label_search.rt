//! The search for the best walk as one value.

ghost use Rattle.std.specs.Prelude.{ℕ, ◌≡◌, ◌^◌, ◌-◌, ◌<◌, ◌≤◌, length, min, IfOk, IfErr, true, false, slice_index_or, ◌+◌};
ghost use Rattle.lgm_graph.specs.Graph.{edges, edges_into, AreListed};
ghost use Rattle.lgm_route.specs.inner.Bounding.{AreLow};
ghost use Rattle.lgm_route.specs.inner.Numbered.{asked, IsDelayOver};
ghost use Rattle.lgm_route.specs.inner.Searching.{label_at, number_at, SomeRest, SomeWalk, IsOffered, IsBetter};
ghost use Rattle.lgm_route.specs.inner.Searching.{IsUpperBound, IsDominatorOf};
ghost use Rattle.lgm_route.specs.inner.SearchState.{IsSearch, Extends, IsSettledAt, IsMarkedAt, IsFinished, bound_in};
ghost use Rattle.lgm_route.specs.inner.SearchState.{Adds, IsStopped};
ghost use Rattle.lgm_route.specs.inner.Spending.{compares_of, labels_of, is_marked};
ghost use Rattle.lgm_route.specs.inner.Best.{IsBestWalk, IsWalkSoFar};
ghost use Rattle.std.specs.Option.{option_map};

use crate::bounds::{LowerBounds, Measure};
use crate::halt::Halt;
use crate::hops::rebuild;
use crate::label::{Label, bound_of, is_better};
use crate::limits::SearchBudget;
use crate::pareto_fronts::{ParetoFronts, mark, offer};
use crate::penalties::Penalties;
use crate::request::NumberedRequest;
use lgm_gossip::Scid;
use lgm_graph::{Edge, RoutingGraph};
use std::alloc::{AllocError, Global};
use std::marker::Model;

/// A search for the best walk of a request over the edges of a graph.
///
/// Each label marked as settled was relaxed over the edges into its node, or a label that dominates it was, or it was
/// pruned: no walk over it is better than the best so far. Labels may be settled in any order: once all are, no usable
/// walk is better than the best.
///
/// A label is added only if no label of its node dominates it, and relaxed only if none does then. So at most some
/// twenty labels per node are relaxed, one for each number of edges, if labels come best-first or by their number of
/// edges.
#[derive(Drop)]
pub(crate) struct LabelSearch<'a, V: RoutingGraph, P: Penalties> {
    view: &'a V,
    request: NumberedRequest<P>,
    low: LowerBounds,
    /// An upper bound: each usable walk costs less, in msat.
    upper_bound: u128,
    labels: Vec<Label>,
    /// The best walk so far.
    best: Option<Label>,
    fronts: ParetoFronts,
    /// Which labels are settled.
    done: Vec<bool>,
    budget: SearchBudget,
    /// The number of steps so far: edges looked at, and labels compared. At 2^64 - 1 it stays.
    spent: u64,
    /// Dives started at none but the labels below this index.
    dived: usize,
}

impl<'a, V: RoutingGraph, P: Penalties> Model for LabelSearch<'a, V, P> {
    ghost use Rattle.lgm_route.specs.inner.SearchState.{SearchState, state_of, IsSearch};
    ghost use Rattle.lgm_route.specs.inner.Numbered.{asked};

    ghost Value = { SearchState };

    ghost view = { λ s. state_of (V.graph s.view.now) (asked (P.terms s.request.penalties) s.request) s.low s.upper_bound s.budget s.labels.items s.best s.fronts s.done.items s.spent s.dived };

    ghost invariant = { λ s. IsSearch
        (state_of (V.graph s.view.now) (asked (P.terms s.request.penalties) s.request) s.low s.upper_bound s.budget s.labels.items s.best s.fronts s.done.items s.spent s.dived) };
}

/// The label without edges.
fn at_payee<P: Penalties>(request: &NumberedRequest<P>) -> Label
    ensures { result
        ≡ record { amount = request.now.amount; penalty = 0; parent = 0; at = 0; node = request.now.payee; hops = 0; delay = 0 } }
{
    Label {
        amount: request.amount,
        penalty: 0,
        parent: 0,
        at: 0,
        node: request.payee,
        hops: 0,
        delay: 0,
    }
}

impl<'a, V: RoutingGraph, P: Penalties> LabelSearch<'a, V, P> {
    /// A new search, with the label at the payee.
    pub(crate) fn new(
        alloc: Global,
        view: &'a V,
        request: NumberedRequest<P>,
        low: LowerBounds,
        upper_bound: u128,
        budget: SearchBudget,
    ) -> Result<LabelSearch<'a, V, P>, AllocError>
        requires hops { (1 ≤ request.most_hops) × (request.most_hops ≤ 20) }
        requires listed { AreListed (V.graph view.now) }
        requires long { length low.fees ≡ length (V.graph view.now).points }
        requires low { AreLow (edges (V.graph view.now)) (asked (P.terms request.penalties) request) low }
        requires small { upper_bound ≤ 2 ^ 65 }
        requires upper_bound { IsUpperBound (edges (V.graph view.now)) (asked (P.terms request.penalties) request) upper_bound }
        ensures ground { IfOk result (λ search. search.ground
            ≡ record {
              graph = V.graph view.entry.now;
              request = asked (P.terms request.penalties) request;
              low = low;
              upper_bound = upper_bound;
              budget = budget;
            }) }
        ensures unspent { IfOk result (λ search. search.spent ≡ 0) }
    {
        let fronts = ParetoFronts::new(alloc, low.fees.len())?;
        let mut labels = Vec::new(alloc);
        labels.push(at_payee(&request))?;
        Ok(LabelSearch {
            view,
            request,
            low,
            upper_bound,
            labels,
            best: None,
            fronts,
            done: Vec::new(alloc),
            budget,
            spent: 0,
            dived: 0,
        })
    }

    /// The number of labels.
    #[inline(always)]
    pub(crate) fn len(&self) -> usize
        ensures count { result ≡ length self.now.labels }
        ensures search { IsSearch self.now }
    {
        self.labels.len()
    }

    /// The label at an index.
    #[inline(always)]
    pub(crate) fn label(&self, i: usize) -> Label
        requires { i < length self.now.labels }
        ensures label { result ≡ label_at self.now.labels i }
        ensures search { IsSearch self.now }
    {
        self.labels[i]
    }

    /// The number of nodes.
    pub(crate) fn nodes(&self) -> usize {
        self.view.nodes()
    }

    /// The request.
    #[inline(always)]
    pub(crate) fn request(&self) -> NumberedRequest<P>
        ensures request { asked (P.terms result.penalties) result ≡ self.now.ground.request }
    {
        self.request
    }

    /// The edges into a node.
    #[inline(always)]
    pub(crate) fn edges_into(&self, node: u32) -> &'a [Edge]
        ensures { result.now ≡ edges_into self.now.ground.graph node }
    {
        self.view.edges_into(node)
    }

    /// A lower bound on the fees from the payer to a node, in msat.
    #[inline(always)]
    pub(crate) fn lower_bound(&self, node: u32) -> u64
        ensures { result ≡ number_at self.now.ground.low.fees node }
    {
        self.low.fees.at(node)
    }

    /// The delay of a label with one more edge, if walks over it can be within the limit.
    #[inline(always)]
    pub(crate) fn delay_over(&self, label: &Label, edge: &Edge) -> Option<u16>
        ensures { IsDelayOver self.now.ground.request.limit label.now.delay edge.now
            (number_at self.now.ground.low.delays edge.now.from) result }
    {
        self.request
            .delay_over(label.delay, edge, self.low.delays.at(edge.from))
    }

    /// The channel to a node on the cheapest or the quickest way from the payer, if the node is near the payer: then the
    /// forward search found a way to it. Without a limit of the delay none is the quickest.
    pub(crate) fn channel_to(&self, measure: Measure, node: u32) -> Option<Scid> {
        match measure {
            Measure::Fees => self.low.fees.channel_to(node),
            Measure::Delays => self.low.delays.channel_to(node),
        }
    }

    /// The cost that a better walk is below.
    #[inline(always)]
    pub(crate) fn bound(&self) -> u128
        ensures exact { result ≡ bound_in self.now }
        ensures low { result ≤ 2 ^ 71 }
    {
        bound_of(self.upper_bound, &self.best)
    }

    /// Whether some walk was found.
    pub(crate) fn has_walk(&self) -> bool {
        self.best.is_some()
    }

    /// Whether a label is marked as settled.
    #[inline(always)]
    pub(crate) fn is_done(&self, i: usize) -> bool
        ensures done { result ≡ slice_index_or self.now.done i false }
        ensures search { IsSearch self.now }
    {
        i < self.done.len() && self.done[i]
    }

    /// The index of a label of the same node that dominates this one, possibly this one itself, and how many labels were
    /// compared.
    pub(crate) fn dominator(&self, i: usize) -> (usize, usize)
        requires { i < length self.now.labels }
        ensures dominates { IsDominatorOf self.now.ground.graph self.now.labels i result.0 }
        ensures compared { length self.now.labels < 2 ^ 32 → result.1 ≤ compares_of self.now.labels i }
    {
        let (found, compared) = self
            .fronts
            .find_dominator(self.view, &self.labels, &self.labels[i]);
        match found {
            Some(place) => (place, compared),
            None => (i, compared),
        }
    }
}

impl<'a, V: RoutingGraph, P: Penalties> LabelSearch<'a, V, P> {
    /// Adds a label, unless it is dominated.
    #[inline(always)]
    pub(crate) fn offer(&mut self, new: Label) -> Result<(), Halt>
        requires new { SomeRest self.old.ground.graph self.old.ground.request self.old.labels new }
        requires few { new.hops < self.old.ground.request.hops }
        ensures extends { IfOk result (λ _. Extends self.old self.new) }
        ensures offered { IfOk result (λ _.
            IsOffered self.old.ground.graph self.old.ground.request self.old.labels new self.new.labels) }
        ensures best { IfOk result (λ _. self.new.best ≡ self.old.best) }
        ensures adds { Adds self.old self.new }
        ensures spends { length self.new.labels < 2 ^ 32
            → self.new.spent ≤ self.old.spent + labels_of self.new.labels new.node }
        ensures grows { self.old.spent ≤ self.new.spent }
        ensures stopped { IfErr result (λ halt. IsStopped self.old self.new halt) }
    {
        let compared = offer(
            self.view,
            &self.request,
            &mut self.labels,
            &mut self.fronts,
            &self.budget,
            new,
        )?;
        self.spend(compared)?;
        Ok(())
    }

    /// Takes so many steps, and stops the search if it may take fewer.
    #[inline(always)]
    pub(crate) fn spend(&mut self, steps: usize) -> Result<(), Halt>
        ensures counted { self.new ≡ record self.old { spent = min (self.old.spent + steps) (2 ^ 64 - 1) } }
        ensures within { IfOk result (λ _. self.new.spent ≤ self.new.ground.budget.most_steps) }
        ensures grows { self.old.spent ≤ self.new.spent }
        ensures stopped { IfErr result (λ halt. IsStopped self.old self.new halt) }
    {
        self.spent = self.spent.saturating_add(steps as u64);
        if self.budget.most_steps < self.spent {
            return Err(Halt::Steps);
        }
        Ok(())
    }

    /// Notes that dives start at a label, unless they did. Returns whether they may.
    pub(crate) fn may_dive(&mut self, i: usize) -> bool
        ensures first { result ≡ true → (self.old.dived ≤ i) × (self.new ≡ record self.old { dived = i + 1 }) }
        ensures stays { result ≡ false → self.new ≡ self.old }
    {
        if i < self.dived || i == usize::MAX {
            return false;
        }
        self.dived = i + 1;
        true
    }

    /// Makes a walk the best so far, if it is better.
    pub(crate) fn improve(&mut self, new: Label)
        requires { SomeWalk self.old.ground.graph self.old.ground.request self.old.labels new }
        ensures extends { Extends self.old self.new }
        ensures labels { self.new.labels ≡ self.old.labels }
        ensures spent { self.new.spent ≡ self.old.spent }
        ensures dived { self.new.dived ≡ self.old.dived }
        ensures better { IsBetter self.old.ground.graph self.old.ground.request self.old.labels
            self.old.ground.upper_bound self.old.best new self.new.best }
    {
        if is_better(
            self.view,
            &self.request,
            &self.labels,
            self.upper_bound,
            &self.best,
            &new,
        ) {
            self.best = Some(new);
        }
    }

    /// Marks a label that is settled.
    #[inline(always)]
    pub(crate) fn mark(&mut self, i: usize) -> Result<(), AllocError>
        requires within { i < length self.old.labels }
        requires settled { IsSettledAt self.old i }
        ensures extends { IfOk result (λ _. Extends self.old self.new) }
        ensures here { IfOk result (λ _. IsMarkedAt self.new i) }
        ensures labels { self.new.labels ≡ self.old.labels }
        ensures ground { self.new.ground ≡ self.old.ground }
        ensures still { (j : ℕ) → is_marked self.old.done j ≡ true → is_marked self.new.done j ≡ true }
        ensures spent { self.new.spent ≡ self.old.spent }
        ensures dived { self.new.dived ≡ self.old.dived }
    {
        mark(&mut self.done, i)?;
        Ok(())
    }
}

impl<'a, V: RoutingGraph, P: Penalties> LabelSearch<'a, V, P> {
    /// The best walk so far, if there is one. Once the search is finished it is the best of all.
    pub(crate) fn best_walk(&self, alloc: Global) -> Result<Option<Vec<Edge>>, AllocError>
        ensures usable { IfOk result (λ best. IsWalkSoFar (edges self.now.ground.graph) self.now.ground.request
            (option_map (λ walk. walk.items) best)) }
        ensures best { IfOk result (λ best. IsFinished self.now → IsBestWalk (edges self.now.ground.graph) self.now.ground.request
            (option_map (λ walk. walk.items) best)) }
    {
        match &self.best {
            None => Ok(None),
            Some(best) => {
                let walk = rebuild(alloc, self.view, &self.labels, best)?;
                Ok(Some(walk))
            }
        }
    }
}
