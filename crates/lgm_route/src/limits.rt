//! Limits of a route, and of the search for it.

ghost use Rattle.std.specs.Prelude.{◌≡◌, true};
ghost use Rattle.lgm_route.specs.Preferred.{no_limits};
ghost use Rattle.lgm_route.specs.Reasons.{delay_alone, hops_alone};
ghost use Rattle.lgm_route.specs.inner.Best.{any_budget};

/// Limits of a payment's route.
#[derive(Clone, Copy, Debug, PartialEq, Eq)]
pub struct RouteLimits {
    /// The maximum delay, in blocks, if there is one: the sum of `cltv_expiry_delta` of all channels but the first, which is
    /// the payer's own.
    pub most_delay: Option<u16>,
    /// The maximum number of channels. There are never more than 20.
    pub most_hops: u8,
}

impl RouteLimits {
    /// Up to 20 channels, with any delay.
    pub fn none() -> RouteLimits
        ensures { result ≡ no_limits }
    {
        RouteLimits {
            most_delay: None,
            most_hops: 20,
        }
    }

    /// Whether there is no limit but that of every walk.
    pub(crate) fn are_none(&self) -> bool
        ensures { result ≡ true → self.now ≡ no_limits }
    {
        match self.most_delay {
            None => self.most_hops == 20,
            Some(_most) => false,
        }
    }

    /// The limit of the delay alone.
    pub(crate) fn delay_alone(&self) -> RouteLimits
        ensures { result ≡ delay_alone self.now }
    {
        RouteLimits {
            most_delay: self.most_delay,
            most_hops: 20,
        }
    }

    /// The limit of the hops alone.
    pub(crate) fn hops_alone(&self) -> RouteLimits
        ensures { result ≡ hops_alone self.now }
    {
        RouteLimits {
            most_delay: None,
            most_hops: self.most_hops,
        }
    }
}

/// What may be spent on a search. If a maximum is reached, the answer is the best route that was found so far.
#[derive(Clone, Copy, Debug, PartialEq, Eq)]
pub struct SearchBudget {
    /// The maximum number of labels, each of 40 bytes; 2^64 - 1 for any number.
    pub most_labels: usize,
    /// The maximum number of steps: edges looked at, and labels compared; 2^64 - 1 for any number.
    pub most_steps: u64,
}

impl SearchBudget {
    /// Any number of labels and steps.
    pub fn any() -> SearchBudget
        ensures { result ≡ any_budget }
    {
        SearchBudget {
            most_labels: usize::MAX,
            most_steps: u64::MAX,
        }
    }
}
