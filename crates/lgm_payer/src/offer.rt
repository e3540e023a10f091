//! What parts are sent over.

ghost use Rattle.std.specs.Prelude.{◌≡◌};
ghost use Rattle.lgm_payer.specs.Searches.{is_likely, brings_more, better};

use crate::part::Part;
use lgm_payload::Payloads;
use lgm_route::Found;

/// The greatest odds of a route that is likely enough: 3 to 1 that it fails, in millionths.
const LIKELY_ODDS: u32 = 3_000_000;

/// A route for the next part.
#[derive(Drop)]
pub(crate) struct Offer {
    pub(crate) found: Found,
    /// What the payee gets, in msat.
    pub(crate) amount: u64,
    /// The odds that the route fails, in millionths.
    pub(crate) odds: u32,
}

impl Offer {
    /// Whether the route is likely enough.
    pub(crate) fn is_likely(&self) -> bool
        ensures { result ≡ is_likely self.now }
    {
        self.odds <= LIKELY_ODDS
    }

    /// Whether it is expected to bring more than another one: its amount times the odds that it arrives.
    fn brings_more(&self, other: &Offer) -> bool
        ensures { result ≡ brings_more self.now other.now }
    {
        let (amount, odds) = (self.amount, self.odds);
        let (other_amount, other_odds) = (other.amount, other.odds);
        let own = amount as u128 * (1_000_000 + other_odds as u128);
        let others = other_amount as u128 * (1_000_000 + odds as u128);
        others < own
    }

    /// The one of two that is expected to bring most.
    pub(crate) fn better(best: Option<Offer>, offer: Offer) -> Offer
        ensures { result ≡ better best offer }
    {
        match best {
            None => offer,
            Some(best) => {
                if offer.brings_more(&best) {
                    offer
                } else {
                    best
                }
            }
        }
    }
}

/// A part that is under way from now on, to be sent.
#[derive(Debug, Drop)]
pub struct Sending {
    /// The part, as its payment has it.
    pub part: Part,
    /// Whether its route is the best one.
    pub is_best: bool,
    /// The odds that it fails, in millionths: 1,000,000 is 1 to 1.
    pub odds: u32,
    /// The payloads of its hops, for the onion (BOLT 4).
    pub payloads: Payloads,
}
