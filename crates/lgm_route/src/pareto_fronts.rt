//! The undominated labels of each node.

ghost use Rattle.std.specs.Prelude.{IfSome, IfNone, ◌≡◌, ◌≤◌, ◌^◌, ◌-◌, ℕ, ◌<◌, length, IfOk, IfErr, OnErr, false, slice_index_or};
ghost use Rattle.lgm_route.specs.inner.Searching.{IsSpelled, AreSpelled, IsDominator, AreLabels, SomeRest, IsOffered};
ghost use Rattle.lgm_route.specs.inner.Searching.{IsMarked};
ghost use Rattle.lgm_route.specs.inner.Fronts.{first_in, next_in, HaveFronts, AreNewFronts, AreSameFronts, IsUndominated};
ghost use Rattle.lgm_route.specs.inner.Fronts.{IsLinked, IsAdded, AreDistinct, AreFalling};
ghost use Rattle.lgm_route.specs.inner.Spending.{labels_of, IsRefused};
ghost use Rattle.lgm_route.specs.inner.Numbered.{asked};

use crate::halt::Halt;
use crate::label::{Label, dominates};
use crate::limits::SearchBudget;
use crate::penalties::Penalties;
use crate::request::NumberedRequest;
use lgm_graph::RoutingGraph;
use std::alloc::{AllocError, Global};
use std::marker::Model;

/// For each node the Pareto front of its labels: the indices of the undominated ones, the latest first. Without a limit
/// of the delay and without penalties these are at most 20, since no two have the same number of edges. An index that
/// is no label of the node ends the list. Each label is dominated by one in the front of its node, possibly itself. Only
/// the first 2^32 labels are in fronts.
#[derive(Drop)]
pub(crate) struct ParetoFronts {
    /// The first index for each node; initially that of the label at the payee.
    first: Vec<u32>,
    /// The index after each index.
    following: Vec<u32>,
}

impl Model for ParetoFronts {
    ghost use Rattle.lgm_route.specs.inner.Fronts.{Fronts};

    ghost Value = { Fronts };

    ghost view = { λ f. record { first = f.first.items; following = f.following.items } };
}

/// Appends a number until the list is longer than an index.
fn pad(numbers: &mut Vec<u32>, place: usize, number: u32) -> Result<(), AllocError>
    ensures room { IfOk result (λ _. place < length numbers.new.items) }
    ensures long { length numbers.old.items ≤ length numbers.new.items }
    ensures same { (i : ℕ) → slice_index_or numbers.new.items i number ≡ slice_index_or numbers.old.items i number }
{
    while numbers.len() <= place {
        numbers.push(number)?;
    }
    Ok(())
}

/// Links a new label before those of its node, which begin at an index, and unlinks those that it dominates.
fn link<V: RoutingGraph>(following: &mut [u32], view: &V, labels: &[Label], new: &Label, start: u32)
    requires spelled { AreSpelled (V.graph view.now) labels.now }
    requires new { IsSpelled (V.graph view.now) labels.now new.now }
    requires room { length labels.now < length following.old }
    ensures { IsLinked (V.graph view.now) labels.now new.now start following.old following.new }
{
    let mut last = labels.len();
    let mut place = start;
    following[last] = place;
    for _step in 0..labels.len() {
        let here = place as usize;
        if labels.len() <= here || labels[here].node != new.node {
            return;
        }
        place = following[here];
        if dominates(view, labels, new, &labels[here]) {
            following[last] = place;
        } else {
            last = here;
        }
    }
}

impl ParetoFronts {
    /// The fronts of this many nodes, with one label, at the payee.
    pub(crate) fn new(alloc: Global, nodes: usize) -> Result<ParetoFronts, AllocError>
        ensures { IfOk result (λ fronts. AreNewFronts fronts) }
    {
        let first = vec![in alloc; 0; nodes]?;
        let following = vec![in alloc; u32::MAX; 1]?;
        Ok(ParetoFronts { first, following })
    }

    /// The first index of a node.
    fn first_of(&self, node: usize) -> usize
        ensures { result ≡ first_in self.now.first node }
    {
        if node < self.first.len() {
            self.first[node] as usize
        } else {
            0
        }
    }

    /// The index after an index.
    fn behind(&self, place: usize) -> usize
        ensures { result ≡ next_in self.now.following place }
    {
        if place < self.following.len() {
            self.following[place] as usize
        } else {
            u32::MAX as usize
        }
    }

    /// The index of a label of the same node that dominates this one, if the front has one, and how many labels were
    /// compared.
    pub(crate) fn find_dominator<V: RoutingGraph>(
        &self,
        view: &V,
        labels: &[Label],
        label: &Label,
    ) -> (Option<usize>, usize)
        requires spelled { AreSpelled (V.graph view.now) labels.now }
        requires label { IsSpelled (V.graph view.now) labels.now label.now }
        ensures found { IfSome result.0 (λ place. IsDominator (V.graph view.now) labels.now label.now place) }
        ensures none { IfNone result.0 (IsUndominated (V.graph view.now) labels.now self.now label.now) }
        // No label is compared twice, and none of another node.
        ensures few { AreFalling self.now (length labels.now) → length labels.now < 2 ^ 32
            → result.1 ≤ labels_of labels.now label.now.node }
    {
        let mut place = self.first_of(label.node as usize);
        for step in 0..labels.len() {
            if labels.len() <= place || labels[place].node != label.node {
                return (None, step);
            }
            if dominates(view, labels, &labels[place], label) {
                return (Some(place), step + 1);
            }
            place = self.behind(place);
        }
        (None, labels.len())
    }

    /// Makes room for a label of a node at an index.
    fn make_room(&mut self, node: usize, place: usize) -> Result<(), AllocError>
        ensures node { IfOk result (λ _. node < length self.new.first) }
        ensures place { IfOk result (λ _. place < length self.new.following) }
        ensures same { AreSameFronts self.old self.new }
    {
        pad(&mut self.first, node, 0)?;
        pad(&mut self.following, place, u32::MAX)
    }

    /// Adds the label after these to its node's front, and removes those that it dominates. There has to be room for it.
    fn add<V: RoutingGraph>(&mut self, view: &V, labels: &[Label], new: &Label)
        requires spelled { AreSpelled (V.graph view.now) labels.now }
        requires new { IsSpelled (V.graph view.now) labels.now new.now }
        requires node { new.now.node < length self.old.first }
        requires place { length labels.now < length self.old.following }
        ensures { length labels.now < 2 ^ 32 → IsAdded (V.graph view.now) labels.now new.now self.old self.new }
    {
        let place = labels.len();
        if (u32::MAX as usize) < place {
            return;
        }
        let node = new.node as usize;
        let start = self.first[node];
        link(&mut self.following, view, labels, new, start);
        self.first[node] = place as u32;
    }
}

/// Adds a label, unless it is dominated, and returns how many labels were compared. There may be at most this many labels.
pub(crate) fn offer<V: RoutingGraph, P: Penalties>(
    view: &V,
    request: &NumberedRequest<P>,
    labels: &mut Vec<Label>,
    fronts: &mut ParetoFronts,
    budget: &SearchBudget,
    new: Label,
) -> Result<usize, Halt>
    requires labelled { AreLabels (V.graph view.now) (asked (P.terms request.now.penalties) request.now) labels.old.items }
    requires fronts { HaveFronts (V.graph view.now) (asked (P.terms request.now.penalties) request.now) labels.old.items fronts.old }
    requires distinct { AreDistinct (V.graph view.now) (asked (P.terms request.now.penalties) request.now) labels.old.items }
    requires new { SomeRest (V.graph view.now) (asked (P.terms request.now.penalties) request.now) labels.old.items new }
    requires few { new.hops < request.now.most_hops }
    ensures offered { IfOk result
        (λ _. IsOffered (V.graph view.now) (asked (P.terms request.now.penalties) request.now) labels.old.items new labels.new.items) }
    ensures fronts { HaveFronts (V.graph view.now) (asked (P.terms request.now.penalties) request.now) labels.new.items fronts.new }
    ensures distinct { AreDistinct (V.graph view.now) (asked (P.terms request.now.penalties) request.now) labels.new.items }
    ensures compared { length labels.old.items < 2 ^ 32 → IfOk result (λ compared. compared ≤ labels_of labels.old.items new.node) }
    ensures stays { OnErr result (labels.new.items ≡ labels.old.items) }
    ensures refused { IfErr result (λ halt. IsRefused budget.now labels.new.items halt) }
{
    let (found, compared) = fronts.find_dominator(view, labels, &new);
    if let Some(_place) = found {
        return Ok(compared);
    }
    let place = labels.len();
    if budget.most_labels < usize::MAX && budget.most_labels <= place {
        return Err(Halt::Labels);
    }
    fronts.make_room(new.node as usize, place)?;
    labels.push(new)?;
    fronts.add(view, &labels[..place], &new);
    Ok(compared)
}

/// Marks an index.
pub(crate) fn mark(done: &mut Vec<bool>, i: usize) -> Result<(), AllocError>
    ensures marked { IfOk result (λ _. IsMarked done.old.items i done.new.items) }
    ensures stays { OnErr result
        ((j : ℕ) → slice_index_or done.new.items j false ≡ slice_index_or done.old.items j false) }
{
    while done.len() <= i {
        done.push(false)?;
    }
    done[i] = true;
    Ok(())
}
