//! The next part of a payment.

ghost use Rattle.std.specs.Prelude.{◌≡◌, ◌⊎◌, ◌<◌, ◌≤◌, ◌+◌, ◌*◌, ◌-◌, ◌^◌, None, Ok, Some, true, false, length, IfOk, IfErr, IfSome, OnOk, OnErr, slice_get};
ghost use Rattle.lgm_graph.specs.Graph.{IsGraphOf};
ghost use Rattle.lgm_payload.specs.Building.{onion_len};
ghost use Rattle.lgm_payer.specs.Payments.{left, is_paid};
ghost use Rattle.lgm_payer.specs.Searches.{IsOffered};
ghost use Rattle.std.specs.Option.{unwrap_or};
ghost use Rattle.lgm_payer.specs.Payers.{are_own, channel_fault, reckoning_fault, points_fault, sight_fault, prospect_in, IsPayment, IsSentIn, IsWhole, IsUnpaid, IsUnpaidIn};
ghost use Rattle.lgm_payer.specs.Looking.{seen, IsUnfound, IsReady, IsUnready};

use super::Payer;
use crate::offer::{Offer, Sending};
use crate::part::Part;
use crate::payment::Payment;
use crate::sight::Sight;
use crate::stage::Stage;
use crate::under_way::{all_since, all_under_way};
use crate::unfound::Unfound;
use crate::unpaid::Unpaid;
use lgm_gossip::Point;
use lgm_graph::{Estimates, ExtraEdge, Route, RoutingGraph};
use lgm_odds::beside;
use lgm_payload::build_for;
use std::alloc::Global;

/// Whether all channels are the payer's.
fn are_own(payer: &Point, own: &[ExtraEdge]) -> bool
    ensures { result ≡ are_own payer.now own.now }
{
    own.iter().all(|edge| edge.from == *payer)
}

/// Whether a channel isn't the payer's.
fn channel_fault(payer: &Point, own: &[ExtraEdge]) -> Option<Unpaid>
    ensures { result ≡ channel_fault payer.now own.now }
{
    if are_own(payer, own) {
        None
    } else {
        Some(Unpaid::ForeignChannel)
    }
}

/// Whether parts are reckoned that weren't sent yet, or parts of a payment that was forgotten aren't.
fn reckoning_fault(sent: u64, settled: u64, reckoned: u64) -> Option<Unpaid>
    ensures { result ≡ reckoning_fault sent settled reckoned }
{
    if sent < reckoned {
        Some(Unpaid::ReckonedAhead)
    } else if reckoned < settled {
        Some(Unpaid::ReckonedBefore)
    } else {
        None
    }
}

/// Whether there are more points than an overlay numbers.
fn points_fault(points: usize, own: usize, hints: usize) -> Option<Unpaid>
    ensures { result ≡ points_fault points (own + hints) }
{
    let extra = own as u128 + hints as u128;
    if points as u128 + 2 * extra < 0x1_0000_0000 {
        None
    } else {
        Some(Unpaid::TooManyPoints)
    }
}

/// What is believed beside what is under way, or else what was learnt.
fn or_learnt<'a>(beside: &'a Option<Estimates>, learnt: &'a Estimates) -> &'a Estimates
    ensures { result.now ≡ unwrap_or beside.entry.now learnt.entry.now }
{
    match beside {
        Some(estimates) => estimates,
        None => learnt,
    }
}

impl Payer {
    /// The first reason why what is seen can't be used for a payment.
    fn sight_fault(&self, payment: &Payment, sight: &Sight<'_>) -> Option<Unpaid>
        ensures { result ≡ sight_fault (seen sight.now) self.now payment.now }
    {
        let channels = channel_fault(payment.payer(), sight.own);
        let reckoning = reckoning_fault(self.sent, self.settled, sight.reckoned);
        let points = points_fault(sight.view.nodes(), sight.own.len(), payment.hints().len());
        channels.or(reckoning).or(points)
    }

    /// Whether a part of the payment at a place is to be sent: not, if all of it is under way or has arrived.
    fn is_ready(&self, place: usize, sight: &Sight<'_>) -> Result<bool, Unpaid>
        requires { place < length self.now.payments }
        ensures ready { IfOk result (λ ready. ready ≡ true
            → IfSome (slice_get self.now.payments place) (IsReady (seen sight.now) self.now)) }
        ensures whole { IfOk result (λ ready. ready ≡ false
            → IfSome (slice_get self.now.payments place) (λ payment. (is_paid payment ≡ true) ⊎ (left payment ≡ 0))) }
        ensures why { IfErr result (λ reason.
            IfSome (slice_get self.now.payments place) (λ payment. IsUnready (seen sight.now) self.now payment reason)) }
    {
        let payment = &self.payments[place];
        if let Some(fault) = self.sight_fault(payment, sight) {
            return Err(fault);
        }
        if payment.is_paid() || payment.left() == 0 {
            return Ok(false);
        }
        if payment.stage() == Stage::Abandoned {
            return Err(Unpaid::Abandoned);
        }
        if let Some(code) = payment.refusal() {
            return Err(Unpaid::PayeeRefused(code));
        }
        if payment.bounds().most_tries <= payment.parts().len() {
            return Err(Unpaid::TriesUsedUp);
        }
        Ok(true)
    }

    /// What the next part of the payment at a place is sent over, beside all that is under way.
    fn offer(&self, alloc: Global, place: usize, sight: &Sight<'_>) -> Result<Offer, Unfound>
        requires there { place < length self.now.payments }
        requires beside { IsGraphOf sight.now.map.now sight.now.view.now }
        requires ready { IfSome (slice_get self.now.payments place) (IsReady (seen sight.now) self.now) }
        ensures offered { IfOk result (λ offer. IfSome (slice_get self.now.payments place) (λ payment.
            IsOffered (prospect_in (seen sight.now) self.now payment) payment offer)) }
        ensures why { IfErr result (λ reason. IfSome (slice_get self.now.payments place) (λ payment.
            IsUnfound (prospect_in (seen sight.now) self.now payment) payment reason)) }
    {
        let busy = all_under_way(alloc, &self.payments)?;
        let since = all_since(alloc, sight.reckoned, &self.payments)?;
        let beside = beside(&self.learnt, &busy)?;
        let estimates = or_learnt(&beside, &self.learnt);
        self.payments[place].choose(alloc, sight, &since, &busy, estimates)
    }

    /// Sends the next part of a payment, beside all that is under way: it is under way from now on. None, if the payee
    /// took the whole, or all of the amount is under way.
    ///
    /// Where the payee takes several parts they are to be under way at once, since it holds them until all came: ask
    /// for the next one until there is none.
    ///
    /// The part is what is left, or else its half, its quarter and so on: the first whose best route fails with odds of
    /// 3 to 1 or less, or else the one that is expected to bring most. Where what is left would be divided, and a cut
    /// between the payer and the payee is found across which less can be carried, nothing is sent
    /// ([`Unfound::PathsShort`]). An error changes nothing.
    pub fn next_part(
        &mut self,
        alloc: Global,
        payment: u64,
        sight: &Sight<'_>,
    ) -> Result<Option<Sending>, Unpaid>
        requires { IsGraphOf sight.now.map.now sight.now.view.now }
        ensures sent { IfOk result (λ next. IfSome next (λ sending.
            IsSentIn (seen sight.now) self.old self.new payment sending)) }
        // With an HMAC each, its payloads fit the 1,300 bytes of an onion packet.
        ensures fits { IfOk result (λ next. IfSome next (λ sending. onion_len sending.payloads ≤ 1300)) }
        ensures whole { result ≡ Ok None → IsWhole self.old payment }
        ensures idle { result ≡ Ok None → self.new ≡ self.old }
        ensures why { IfErr result (IsUnpaidIn (seen sight.now) self.old payment) }
        ensures stays { OnErr result (self.new ≡ self.old) }
    {
        let Some(place) = self.place(payment) else {
            return Err(Unpaid::UnknownPayment);
        };
        if !self.is_ready(place, sight)? {
            return Ok(None);
        }
        let offer = self.offer(alloc, place, sight)?;
        let payloads = build_for(alloc, &offer.found.route, self.payments[place].arrival())?;
        let number = self.sent;
        let Some(next) = number.checked_add(1) else {
            return Err(Unpaid::NumbersUsedUp);
        };
        let (is_best, odds, amount) = (offer.found.is_best, offer.odds, offer.amount);
        let route = Route::of(alloc, offer.found.route.as_slice())?;
        self.payments[place].send(number, offer.found.route, amount, sight.height)?;
        self.sent = next;
        Ok(Some(Sending {
            part: Part::over(number, route, amount, sight.height),
            is_best,
            odds,
            payloads,
        }))
    }
}
