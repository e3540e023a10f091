//! What a payer prefers, as C says it, and payments over what it knows beside the map, within limits.

ghost use Rattle.std.specs.Prelude.{◌≡◌, [], IfOk};
ghost use Rattle.std.specs.List.{list_any};
ghost use Rattle.lgm_c.specs.Attempts.{overlay_given, attempt_of, attempt_given};
ghost use Rattle.lgm_c.specs.Attempts.{plain_attempt, lacks_maximum, wrong_argument};
ghost use Rattle.lgm_c.specs.Attempts.{preferences_given, limits_given, budget_from, budget_given, plain_search};

use crate::argument_fault::ArgumentFault;
use crate::overlay::{
    LgmEdge, LgmLimit, LgmPoint, MAX_EDGES, MAX_LIMITS, any_carries_nothing, overlay_of_edges,
    with_limits, with_silent,
};
use crate::routes::{LgmPayment, request_of};
use lgm_graph::{Estimates, Overlay};
use lgm_route::{Preferences, Request, RouteLimits, Search, SearchBudget};
use std::alloc::{AllocError, Global};
use std::marker::Model;

/// The most steps of a search for which none are given: some 0.2 seconds.
pub(crate) const MAX_STEPS: u64 = 5_000_000;

/// The most labels of such a search: some 50 MB.
pub(crate) const MAX_LABELS: usize = 1_000_000;

/// What a payer prefers, and limits of its route and of the search for it. All zeros prefer nothing, and limit nothing but
/// the search.
#[repr(C)]
#[derive(Clone, Copy)]
pub struct LgmSearch {
    /// The most steps: edges looked at, and labels compared. 0 stands for 5,000,000.
    pub most_steps: u64,
    /// The most labels. 0 stands for 1,000,000.
    pub most_labels: usize,
    /// What a failed try is worth to the payer, in msat.
    pub failure_msat: u32,
    /// What each hop is, in msat.
    pub hop_msat: u32,
    /// The most delay, in blocks: that of all channels but the first. 0 stands for any.
    pub most_delay: u16,
    /// The most channels, up to 20. 0 stands for 20.
    pub most_hops: u8,
}

/// A payment to be tried: over what its payer knows beside the map, by what it prefers, within limits. All zeros but the
/// payment are a payment over the map alone.
#[repr(C)]
#[derive(Clone, Copy)]
pub struct LgmAttempt<'a> {
    /// The payment.
    pub payment: LgmPayment,
    /// Edges beside the map's: of those with one id out of one node the first counts.
    pub edges: &'a [LgmEdge],
    /// Limits of what edges carry: the least one of an edge counts.
    pub limits: &'a [LgmLimit],
    /// Nodes whose edges in the map aren't used.
    pub silent: &'a [LgmPoint],
    /// What the payer prefers, and limits of the route and of the search for it.
    pub search: LgmSearch,
}

/// So many steps and labels of a search, of which 0 stands for the usual ones.
pub(crate) fn budget_of(steps: u64, labels: usize) -> SearchBudget
    ensures { result ≡ budget_from steps labels }
{
    SearchBudget {
        most_labels: if labels == 0 { MAX_LABELS } else { labels },
        most_steps: if steps == 0 { MAX_STEPS } else { steps },
    }
}

impl LgmSearch {
    /// All zeros.
    fn plain() -> LgmSearch
        ensures { result ≡ plain_search }
    {
        LgmSearch {
            most_steps: 0,
            most_labels: 0,
            failure_msat: 0,
            hop_msat: 0,
            most_delay: 0,
            most_hops: 0,
        }
    }

    fn limits(&self) -> RouteLimits
        ensures { result ≡ limits_given self.now }
    {
        RouteLimits {
            most_delay: if self.most_delay == 0 {
                None
            } else {
                Some(self.most_delay)
            },
            most_hops: if self.most_hops == 0 {
                20
            } else {
                self.most_hops
            },
        }
    }

    /// How a route is sought, with what is believed of edges.
    fn with<'e>(&self, estimates: &'e Estimates) -> Search<'e>
        ensures preferences { result.preferences ≡ preferences_given self.now }
        ensures known { result.estimates.now ≡ estimates.entry.now }
        ensures limits { result.limits ≡ limits_given self.now }
        ensures budget { result.budget ≡ budget_given self.now }
    {
        Search {
            preferences: Preferences {
                failure_msat: self.failure_msat,
                hop_msat: self.hop_msat,
            },
            estimates,
            limits: self.limits(),
            budget: budget_of(self.most_steps, self.most_labels),
        }
    }
}

/// A payment over what its payer knows and prefers, within limits. Contracts see the request, the overlay, what is known of
/// edges, the preferences, the limits and the budget.
#[derive(Drop)]
pub struct Attempt<'a, 'e> {
    request: Request,
    edges: &'a [LgmEdge],
    limits: &'a [LgmLimit],
    silent: &'a [LgmPoint],
    search: Search<'e>,
}

impl<'a, 'e> Model for Attempt<'a, 'e> {
    ghost use Rattle.lgm_c.specs.Attempts.{AttemptParts, overlay_given};

    ghost Value = { AttemptParts };

    ghost view = { λ a. record {
      request = a.request;
      overlay = overlay_given a.edges.now a.limits.now a.silent.now;
      known = a.search.estimates.now;
      preferences = a.search.preferences;
      limits = a.search.limits;
      budget = a.search.budget;
    } };
}

impl<'a, 'e> Attempt<'a, 'e> {
    /// A payment over the map alone, of a payer that knows nothing and prefers nothing.
    pub(crate) fn plain(payment: &LgmPayment, nothing: &'e Estimates) -> Attempt<'a, 'e>
        requires { nothing.now ≡ [] }
        ensures { result ≡ plain_attempt payment.now }
    {
        Attempt::of(payment, &[], &[], &[], nothing, &LgmSearch::plain())
    }

    /// The attempt that C says.
    pub(crate) fn given(attempt: &LgmAttempt<'a>, estimates: &'e Estimates) -> Attempt<'a, 'e>
        ensures { result ≡ attempt_given attempt.now estimates.now }
    {
        Attempt::of(
            &attempt.payment,
            attempt.edges,
            attempt.limits,
            attempt.silent,
            estimates,
            &attempt.search,
        )
    }

    /// A payment over this.
    fn of(
        payment: &LgmPayment,
        edges: &'a [LgmEdge],
        limits: &'a [LgmLimit],
        silent: &'a [LgmPoint],
        estimates: &'e Estimates,
        search: &LgmSearch,
    ) -> Attempt<'a, 'e>
        ensures { result ≡ attempt_of payment.now (overlay_given edges.now limits.now silent.now) estimates.now search.now }
    {
        Attempt {
            request: request_of(payment),
            edges,
            limits,
            silent,
            search: search.with(estimates),
        }
    }

    /// The payment.
    pub(crate) fn request(&self) -> &Request
        ensures { result.now ≡ self.now.request }
    {
        &self.request
    }

    /// How a route for it is sought.
    pub(crate) fn search(&self) -> &Search<'e>
        ensures preferences { result.now.preferences ≡ self.now.preferences }
        ensures known { result.now.estimates.now ≡ self.now.known }
        ensures limits { result.now.limits ≡ self.now.limits }
        ensures budget { result.now.budget ≡ self.now.budget }
    {
        &self.search
    }

    /// Whether one of the edges has no maximum: it would carry nothing.
    fn lacks_maximum(&self) -> bool
        ensures { result ≡ list_any lacks_maximum self.now.overlay.extra }
    {
        any_carries_nothing(self.edges)
    }

    /// Which argument is wrong, if one is.
    pub(crate) fn wrong_argument(&self) -> Option<ArgumentFault>
        ensures { result ≡ wrong_argument self.now.overlay }
    {
        if MAX_EDGES < self.edges.len() {
            Some(ArgumentFault::Edges)
        } else if MAX_LIMITS < self.limits.len() {
            Some(ArgumentFault::Limits)
        } else if self.lacks_maximum() {
            Some(ArgumentFault::Maximum)
        } else {
            None
        }
    }

    /// What is known beside the map.
    pub(crate) fn overlay(&self, alloc: Global) -> Result<Overlay, AllocError>
        ensures { IfOk result (λ overlay. overlay ≡ self.now.overlay) }
    {
        let overlay = overlay_of_edges(alloc, self.edges)?;
        let overlay = with_limits(overlay, self.limits)?;
        with_silent(overlay, self.silent)
    }
}
