//! Labels are settled.

ghost use Rattle.std.specs.Prelude.{◌≡◌, ◌+◌, ◌^◌, ◌<◌, ◌≤◌, length, not, IfOk, IfErr};
ghost use Rattle.lgm_route.specs.inner.Searching.{number_at, cost};
ghost use Rattle.lgm_route.specs.inner.SearchState.{Adds, Extends, IsFinished, IsHalted, IsMarkedAt, IsPaid, IsPruned, IsStopped};
ghost use Rattle.lgm_route.specs.inner.Spending.{looks_from, is_marked, when};

use crate::halt::Halt;
use crate::label::{Label, cost};
use crate::label_search::LabelSearch;
use crate::penalties::Penalties;
use lgm_graph::RoutingGraph;

impl<'a, V: RoutingGraph, P: Penalties> LabelSearch<'a, V, P> {
    /// A lower bound on the cost of walks over the label.
    #[inline(always)]
    pub(crate) fn cost_lower_bound(&self, label: &Label) -> u128
        ensures { result
            ≡ cost (label.now.amount + label.now.penalty + number_at self.now.ground.low.fees label.now.node) label.now.hops }
    {
        cost(
            label.amount as u128 + label.penalty as u128 + self.lower_bound(label.node) as u128,
            label.hops as u128,
        )
    }

    /// Relaxes a label, unless that was done.
    fn close(&mut self, i: usize) -> Result<(), Halt>
        requires { i < length self.old.labels }
        ensures extends { IfOk result (λ _. Extends self.old self.new) }
        ensures here { IfOk result (λ _. IsMarkedAt self.new i) }
        ensures adds { Adds self.old self.new }
        ensures spends { length self.new.labels < 2 ^ 32 → self.new.spent ≤ self.old.spent
            + when (not (is_marked self.old.done i)) (looks_from self.old.ground.graph self.new.labels i) }
        ensures stopped { IfErr result (λ halt. IsStopped self.old self.new halt) }
    {
        if self.is_done(i) {
            return Ok(());
        }
        self.relax(i)?;
        self.mark(i)?;
        Ok(())
    }

    /// Settles a label: prunes it, or relaxes it or one that dominates it.
    pub(crate) fn settle(&mut self, i: usize) -> Result<(), Halt>
        requires { i < length self.old.labels }
        ensures extends { IfOk result (λ _. Extends self.old self.new) }
        ensures here { IfOk result (λ _. IsMarkedAt self.new i) }
        ensures pruned { IsPruned self.old i → self.new.labels ≡ self.old.labels }
        ensures pays { IfOk result (λ _. IsPaid self.old → IsPaid self.new) }
        ensures halted { IfErr result (λ halt. IsHalted self.old self.new halt) }
    {
        if self.is_done(i) {
            return Ok(());
        }
        let label = self.label(i);
        if self.bound() <= self.cost_lower_bound(&label) {
            self.mark(i)?;
            return Ok(());
        }
        let (place, compared) = self.dominator(i);
        self.spend(compared)?;
        self.close(place)?;
        if self.is_done(i) {
            return Ok(());
        }
        self.mark(i)?;
        Ok(())
    }

    /// Settles all remaining labels: then no usable walk is better than the best one.
    pub(crate) fn sweep(&mut self) -> Result<(), Halt>
        ensures finished { IfOk result (λ _. (self.new.ground ≡ self.old.ground) × IsFinished self.new) }
        ensures halted { IfErr result (λ halt. IsHalted self.old self.new halt) }
    {
        for i in 0..usize::MAX {
            if self.len() <= i {
                return Ok(());
            }
            self.settle(i)?;
        }
        let _len = self.len();
        Ok(())
    }
}
