//! Parts of payments.

ghost use Rattle.std.specs.Prelude.{◌≡◌, ◌≤◌};
ghost use Rattle.lgm_graph.specs.Route.{sent};
ghost use Rattle.lgm_payer.specs.Parts.{part_of, held_amount, held_fee, is_held};

use crate::failure::Ending;
use lgm_graph::Route;

/// A part of a payment that was sent.
#[derive(Debug, Drop)]
pub struct Part {
    /// How many parts its payer had sent before, over all payments.
    pub number: u64,
    /// Its route.
    pub route: Route,
    /// What the payee gets, in msat.
    pub amount: u64,
    /// What is sent beyond that, in msat.
    pub fee: u64,
    /// The blocks from the height at which it was asked for to the one at which its first HTLC expires.
    pub blocks: u32,
    /// How it ended, if it failed.
    pub ending: Option<Ending>,
}

impl Part {
    /// A part over a route, asked for at a height, which is under way from now on.
    pub(crate) fn over(number: u64, route: Route, amount: u64, height: u32) -> Part
        requires { amount ≤ sent route }
        ensures { result ≡ part_of number route amount height }
    {
        let fee = route.sent() - amount;
        let blocks = route.expiry().saturating_sub(height);
        Part {
            number,
            route,
            amount,
            fee,
            blocks,
            ending: None,
        }
    }

    /// Whether it hasn't failed: it is under way, or it has arrived if its payment is paid.
    pub fn is_held(&self) -> bool
        ensures { result ≡ is_held self.now }
    {
        self.ending.is_none()
    }

    /// Its amount, unless it failed.
    pub(crate) fn held_amount(&self) -> u64
        ensures { result ≡ held_amount self.now }
    {
        if self.is_held() { self.amount } else { 0 }
    }

    /// Its fee, unless it failed.
    pub(crate) fn held_fee(&self) -> u64
        ensures { result ≡ held_fee self.now }
    {
        if self.is_held() { self.fee } else { 0 }
    }
}
