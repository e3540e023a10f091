//! Why nothing more can be sent.

ghost use Rattle.std.specs.Prelude.{◌≡◌};
ghost use Rattle.lgm_payer.specs.declared.unpaid.Unpaid.TheVariants as unpaid;
ghost use Rattle.lgm_payer.specs.declared.unfound.Unfound.TheVariants.{Search};
ghost use Rattle.lgm_route.specs.declared.found.SearchFault.TheVariants.{Fault};
ghost use Rattle.lgm_route.specs.declared.fault.RouteFault.TheVariants.{NoMemory};

use crate::unfound::Unfound;
use lgm_payload::ArrivalFault;
use lgm_route::{RouteFault, SearchFault};
use std::alloc::AllocError;
use thiserror::Error;

/// Why nothing more can be sent for a payment. Nothing has changed: parts that are under way are still to be waited for.
#[derive(Clone, Copy, Debug, PartialEq, Eq, Error)]
pub enum Unpaid {
    /// No payment has this number: none was begun with it, or it was forgotten.
    #[error("no such payment")]
    UnknownPayment,
    /// One of the payer's channels, as they were told, doesn't leave the payer.
    #[error("a channel that isn't the payer's")]
    ForeignChannel,
    /// The payer's channels are said to reckon parts that weren't sent yet.
    #[error("the channels reckon parts that weren't sent yet")]
    ReckonedAhead,
    /// The payer's channels don't reckon parts of a payment that was forgotten: ask again what they can send.
    #[error("the channels don't reckon parts of a payment that was forgotten")]
    ReckonedBefore,
    /// The view and the edges beside the map have 2^32 points or more.
    #[error("too many points")]
    TooManyPoints,
    /// The payment was abandoned.
    #[error("abandoned")]
    Abandoned,
    /// The payee returned this failure code (BOLT 4).
    #[error("the payee refused: {0}")]
    PayeeRefused(u16),
    /// As many parts as the payment's bound allows were sent.
    #[error("tries used up")]
    TriesUsedUp,
    /// No part of what is left has a route within the bounds.
    #[error("{0}")]
    Unfound(Unfound),
    /// The route's payloads can't be built.
    #[error("{0}")]
    Payloads(ArrivalFault),
    /// The payer has sent 2^64 - 1 parts.
    #[error("numbers used up")]
    NumbersUsedUp,
}

impl From<Unfound> for Unpaid {
    ghost from_gives = { λ reason e. e ≡ unpaid.Unfound reason };

    fn from(reason: Unfound) -> Unpaid {
        Unpaid::Unfound(reason)
    }
}

impl From<ArrivalFault> for Unpaid {
    ghost from_gives = { λ fault e. e ≡ unpaid.Payloads fault };

    fn from(fault: ArrivalFault) -> Unpaid {
        Unpaid::Payloads(fault)
    }
}

impl From<AllocError> for Unpaid {
    ghost from_gives = { λ _ e. e ≡ unpaid.Unfound (Search (Fault NoMemory)) };

    fn from(_e: AllocError) -> Unpaid {
        Unpaid::Unfound(Unfound::Search(SearchFault::Fault(RouteFault::NoMemory)))
    }
}
