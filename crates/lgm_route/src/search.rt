//! How a route is sought.

ghost use Rattle.std.specs.Prelude.{◌≡◌, true};
ghost use Rattle.lgm_route.specs.Preferred.{PrefersNothing};

use crate::limits::{RouteLimits, SearchBudget};
use crate::preferences::Preferences;
use lgm_graph::Estimates;

/// How a route is sought: by what its payer prefers and knows of edges, within which limits, and what may be spent on it.
#[derive(Clone, Copy)]
pub struct Search<'a> {
    /// What the payer would rather pay than have the payment fail.
    pub preferences: Preferences,
    /// What it knows of edges.
    pub estimates: &'a Estimates,
    /// The limits of the route.
    pub limits: RouteLimits,
    /// What may be spent on the search.
    pub budget: SearchBudget,
}

impl<'a> Search<'a> {
    /// Whether each edge costs its fee alone: nothing is preferred, and no edge of which something is known has a penalty.
    pub(crate) fn is_plain(&self) -> bool
        ensures plain { result ≡ true → PrefersNothing self.now }
        ensures all { PrefersNothing self.now → result ≡ true }
    {
        if !self.preferences.are_none() {
            return false;
        }
        for place in 0..self.estimates.len() {
            if let Some((_key, estimate)) = self.estimates.at(place) {
                if estimate.penalty != 0 {
                    return false;
                }
            }
        }
        true
    }
}
