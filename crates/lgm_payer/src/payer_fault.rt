//! Why a payer refuses what it is told.

ghost use Rattle.std.specs.Prelude.{◌≡◌};
ghost use Rattle.lgm_payer.specs.declared.payer_fault.PayerFault.TheVariants.{NoMemory};

use std::alloc::AllocError;
use thiserror::Error;

/// Why a payer refuses what it is told. Nothing has changed.
#[derive(Clone, Copy, Debug, PartialEq, Eq, Error)]
pub enum PayerFault {
    /// The amount is 0.
    #[error("an amount of 0")]
    AmountZero,
    /// No part may be under way.
    #[error("a bound of no parts")]
    NoParts,
    /// The payer has begun 2^64 - 1 payments.
    #[error("numbers used up")]
    NumbersUsedUp,
    /// No payment has this number: none was begun with it, or it was forgotten.
    #[error("no such payment")]
    UnknownPayment,
    /// The payment has no part with this number.
    #[error("no such part")]
    UnknownPart,
    /// The part isn't under way: it failed before, or has arrived.
    #[error("the part isn't under way")]
    NotUnderWay,
    /// The failure is said to be of a node beyond the part's route.
    #[error("a place beyond the route")]
    BeyondRoute,
    /// The node at this place doesn't send this failure code (BOLT 4, "Failure Messages").
    #[error("a failure code that isn't this node's")]
    ForeignCode,
    /// No part of the payment is under way, so the payee can't have taken the whole.
    #[error("nothing is under way")]
    NothingUnderWay,
    /// The payee took the whole before.
    #[error("the payment is paid")]
    AlreadyPaid,
    /// Parts of the payment are under way, so it can't be forgotten.
    #[error("parts are under way")]
    UnderWay,
    /// Out of memory.
    #[error("out of memory")]
    NoMemory,
}

impl From<AllocError> for PayerFault {
    ghost from_gives = { λ _ e. e ≡ NoMemory };

    fn from(_e: AllocError) -> PayerFault {
        PayerFault::NoMemory
    }
}
