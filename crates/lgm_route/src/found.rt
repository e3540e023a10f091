//! What a search within limits found.

ghost use Rattle.std.specs.Prelude.{◌≡◌};
ghost use Rattle.lgm_route.specs.declared.fault.RouteFault.{RouteFault};
ghost use Rattle.lgm_route.specs.Preferred.{IsCutShort};
ghost use Rattle.lgm_route.specs.inner.Best.{certain};
ghost use Rattle.lgm_route.specs.declared.found.SearchFault.TheVariants.{Fault};

use crate::fault::RouteFault;
use lgm_graph::{Edge, Route};
use std::alloc::AllocError;
use thiserror::Error;

/// A route within limits.
#[derive(Debug, Drop)]
pub struct Found {
    /// The route.
    pub route: Route,
    /// Whether it is the best one. If not, the search took as many steps, or made as many labels, as it might, and it is the
    /// best of those found so far.
    pub is_best: bool,
}

/// Why a payment has no route within limits.
#[derive(Clone, Copy, Debug, PartialEq, Eq, Error)]
pub enum SearchFault {
    /// The payment is refused, no usable walk is within the limits, or out of memory.
    #[error("{0}")]
    Fault(RouteFault),
    /// The search took as many steps, or made as many labels, as it might, and found none so far. Says nothing about the
    /// payment.
    #[error("undecided")]
    Undecided,
}

impl From<RouteFault> for SearchFault {
    ghost from_gives = { λ fault e. e ≡ Fault fault };

    fn from(fault: RouteFault) -> SearchFault {
        SearchFault::Fault(fault)
    }
}

impl From<AllocError> for SearchFault {
    ghost from_gives = { λ _ e. e ≡ Fault RouteFault.NoMemory };

    fn from(_e: AllocError) -> SearchFault {
        SearchFault::Fault(RouteFault::NoMemory)
    }
}

/// The route, or why there is none, where the budget can't run out.
pub(crate) fn certain(found: Result<Found, SearchFault>) -> Result<Route, RouteFault>
    requires { IsCutShort found → ⊥ }
    ensures { result ≡ certain found }
{
    match found {
        Ok(found) => Ok(found.route),
        Err(SearchFault::Fault(fault)) => Err(fault),
        Err(SearchFault::Undecided) => unreachable!(),
    }
}

/// A walk over numbered edges within limits.
#[derive(Drop)]
pub(crate) struct WalkFound {
    pub(crate) walk: Vec<Edge>,
    /// Whether it is the best one.
    pub(crate) is_best: bool,
}
