//! Payment requests.

ghost use Rattle.std.specs.Prelude.{◌≡◌, Some, None, false, IfOk, IfErr};
ghost use Rattle.lgm_route.specs.Answers.{refusal};
ghost use Rattle.lgm_route.specs.inner.Numbered.{asked, counted, IsDelayOver};
ghost use Rattle.lgm_route.specs.inner.Bounding.{MayCarry};

use crate::fault::RouteFault;
use crate::penalties::Penalties;
use lgm_gossip::Point;
use lgm_graph::Edge;
use std::marker::Model;

/// The greatest amount of a payment, in msat.
const MAX_AMOUNT: u64 = 2_100_000_000_000_000_000;

/// The greatest expiry of a payment, a block height.
const MAX_EXPIRY: u32 = 498_000_000;

/// A payment for which a route is requested.
#[derive(Clone, Copy, Debug, PartialEq, Eq)]
pub struct Request {
    /// The node that pays.
    pub payer: Point,
    /// The node that is paid.
    pub payee: Point,
    /// What the payee receives, in msat.
    pub amount: u64,
    /// The block height at which the HTLC offered to the payee expires.
    pub expiry: u32,
}

impl Request {
    /// The first reason to refuse the payment whatever the edges are: none of `NoRoute` and `NoMemory`.
    pub fn refusal(&self) -> Option<RouteFault>
        ensures { result ≡ refusal self.now }
    {
        if self.amount == 0 {
            Some(RouteFault::AmountZero)
        } else if MAX_AMOUNT < self.amount {
            Some(RouteFault::AmountTooLarge)
        } else if MAX_EXPIRY < self.expiry {
            Some(RouteFault::ExpiryTooLarge)
        } else if self.payer == self.payee {
            Some(RouteFault::SelfPayment)
        } else {
            None
        }
    }

    /// The payment, unless it is refused whatever the edges are: then the first reason.
    pub(crate) fn lawful(&self) -> Result<LawfulRequest, RouteFault>
        ensures same { IfOk result (λ lawful. lawful ≡ self.now) }
        ensures allowed { IfOk result (λ _. refusal self.now ≡ None) }
        ensures refused { IfErr result (λ fault. refusal self.now ≡ Some fault) }
    {
        match self.refusal() {
            Some(fault) => Err(fault),
            None => Ok(LawfulRequest { request: *self }),
        }
    }
}

/// A payment that isn't refused whatever the edges are. Contracts see the [`Request`].
#[derive(Drop)]
pub(crate) struct LawfulRequest {
    request: Request,
}

impl Model for LawfulRequest {
    ghost use Rattle.std.specs.Prelude.{◌≡◌, None};
    ghost use Rattle.lgm_route.specs.declared.request.Request.{Request};
    ghost use Rattle.lgm_route.specs.Answers.{refusal};

    ghost Value = { Request };

    ghost view = { λ l. l.request };

    ghost invariant = { λ l. refusal l.request ≡ None };
}

impl LawfulRequest {
    /// The payment.
    pub(crate) fn get(&self) -> &Request
        ensures same { result.now ≡ self.now }
        ensures allowed { refusal self.now ≡ None }
    {
        &self.request
    }
}

/// A [`Request`](crate::Request) as a search reads it: with the node indices of payer and payee in a view, and
/// limits, and penalties.
#[derive(Clone, Copy)]
pub(crate) struct NumberedRequest<P> {
    /// The index of the node that pays.
    pub payer: u32,
    /// The index of the node that is paid.
    pub payee: u32,
    /// What the payee receives, in msat.
    pub amount: u64,
    /// The maximum delay, in blocks: the sum of `cltv_expiry_delta` of all channels but the first. Without one, no
    /// channel's delay counts.
    pub limit: Option<u16>,
    /// The maximum number of channels, from 1 to 20.
    pub most_hops: u16,
    /// What the payer would rather pay than use an edge.
    pub penalties: P,
}

impl<P: Penalties> NumberedRequest<P> {
    /// The blocks of an edge that count.
    #[inline(always)]
    pub(crate) fn counted(&self, edge: &Edge) -> u16
        ensures { result ≡ counted self.now.limit edge.now }
    {
        match self.limit {
            None => 0,
            Some(_limit) => edge.delta,
        }
    }

    /// Whether an edge alone is beyond the limit. The payer's own adds no delay.
    #[inline(always)]
    pub(crate) fn is_beyond(&self, edge: &Edge) -> bool
        ensures { MayCarry (asked (P.terms self.now.penalties) self.now) edge.now → result ≡ false }
    {
        match self.limit {
            None => false,
            Some(limit) => limit < edge.delta && edge.from != self.payer,
        }
    }

    /// The delay of a rest with one more edge, if with what leads to that edge it can be within the limit.
    #[inline(always)]
    pub(crate) fn delay_over(&self, delay: u16, edge: &Edge, least: u64) -> Option<u16>
        ensures { IsDelayOver self.now.limit delay edge.now least result }
    {
        match self.limit {
            None => Some(delay),
            Some(limit) => {
                let longer = delay as u128 + edge.delta as u128;
                if (limit as u128) < longer + least as u128 {
                    None
                } else {
                    Some(longer as u16)
                }
            }
        }
    }
}
