//! Faults of routes.

ghost use Rattle.std.specs.Prelude.{◌≡◌};
ghost use Rattle.lgm_route.specs.Words.{route_number, route_word};
ghost use Rattle.lgm_route.specs.declared.fault.RouteFault.TheVariants.{NoMemory};

use std::alloc::AllocError;
use thiserror::Error;

/// Why a payment has no route: the first reason, in the order of the variants, or out of memory. Each has a number, and
/// each reason has a word.
#[derive(Clone, Copy, Debug, PartialEq, Eq, Error)]
pub enum RouteFault {
    /// 21: the amount is 0 msat.
    #[error("amount-zero")]
    AmountZero,
    /// 22: the amount is above 2,100,000,000,000,000,000 msat, all bitcoin that will ever exist.
    #[error("amount-too-large")]
    AmountTooLarge,
    /// 23: the expiry is above block height 498,000,000.
    #[error("expiry-too-large")]
    ExpiryTooLarge,
    /// 24: the payer is the payee.
    #[error("self-payment")]
    SelfPayment,
    /// 25: no usable walk leads from the payer to the payee.
    #[error("no-route")]
    NoRoute,
    /// 26: out of memory; says nothing about the payment.
    #[error("out of memory")]
    NoMemory,
}

impl From<AllocError> for RouteFault {
    ghost from_gives = { λ _ e. e ≡ NoMemory };

    fn from(_e: AllocError) -> RouteFault {
        RouteFault::NoMemory
    }
}

impl RouteFault {
    /// Its number, 21 to 26.
    pub fn number(self) -> u8
        ensures { result ≡ route_number self }
    {
        match self {
            RouteFault::AmountZero => 21,
            RouteFault::AmountTooLarge => 22,
            RouteFault::ExpiryTooLarge => 23,
            RouteFault::SelfPayment => 24,
            RouteFault::NoRoute => 25,
            RouteFault::NoMemory => 26,
        }
    }

    /// Its word, as answers are written; empty for out of memory.
    pub fn word(self) -> &'static str
        ensures { result.now ≡ route_word self }
    {
        match self {
            RouteFault::AmountZero => "amount-zero",
            RouteFault::AmountTooLarge => "amount-too-large",
            RouteFault::ExpiryTooLarge => "expiry-too-large",
            RouteFault::SelfPayment => "self-payment",
            RouteFault::NoRoute => "no-route",
            RouteFault::NoMemory => "",
        }
    }
}
