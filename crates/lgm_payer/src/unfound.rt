//! Why parts have no route.

ghost use Rattle.std.specs.Prelude.{◌≡◌};
ghost use Rattle.lgm_payer.specs.Reasons.{is_mendable};
ghost use Rattle.lgm_payer.specs.declared.unfound.Unfound.TheVariants.{Search};
ghost use Rattle.lgm_route.specs.declared.found.SearchFault.TheVariants.{Fault};
ghost use Rattle.lgm_route.specs.declared.fault.RouteFault.TheVariants.{NoMemory};

use lgm_route::{RouteFault, SearchFault};
use std::alloc::AllocError;
use thiserror::Error;

/// Why a part has no route within its payment's bounds.
#[derive(Clone, Copy, Debug, PartialEq, Eq, Error)]
pub enum Unfound {
    /// There is none, or none was found in time, or out of memory.
    #[error("{0}")]
    Search(SearchFault),
    /// The cheapest one has this fee, in msat, which is more than the payment's bound leaves.
    #[error("too dear: {0} msat")]
    TooDear(u64),
    /// The payer's channels can send this much together, in msat, which is less than what is left: no parts can carry it.
    #[error("the channels can send {0} msat")]
    Short(u64),
    /// The edges into the payee can carry this much together, in msat, which is less than what is left: no parts can
    /// carry it.
    #[error("the payee can get {0} msat")]
    PayeeShort(u64),
    /// All paths from the payer to the payee can carry no more than this much together, in msat, which is less than what
    /// is left: a cut between the two has no more room, so no parts can carry it.
    #[error("all paths can carry {0} msat")]
    PathsShort(u64),
}

impl Unfound {
    /// Whether smaller parts may have what this one hasn't.
    pub(crate) fn may_be_mended(&self) -> bool
        ensures { result ≡ is_mendable self.now }
    {
        matches!(
            self,
            Unfound::TooDear(_)
                | Unfound::Search(SearchFault::Undecided | SearchFault::Fault(RouteFault::NoRoute))
        )
    }
}

impl From<SearchFault> for Unfound {
    ghost from_gives = { λ fault e. e ≡ Search fault };

    fn from(fault: SearchFault) -> Unfound {
        Unfound::Search(fault)
    }
}

impl From<AllocError> for Unfound {
    ghost from_gives = { λ _ e. e ≡ Search (Fault NoMemory) };

    fn from(_e: AllocError) -> Unfound {
        Unfound::Search(SearchFault::Fault(RouteFault::NoMemory))
    }
}
