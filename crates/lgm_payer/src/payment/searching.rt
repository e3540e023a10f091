//! The search for routes of parts.

ghost use Rattle.std.specs.Prelude.{◌≡◌, ◌↔◌, ◌≤◌, ◌<◌, ◌+◌, ◌-◌, ◌*◌, ◌^◌, length, IsTrue, IfOk, IfErr};
ghost use Rattle.lgm_graph.specs.Route.{sent};
ghost use Rattle.lgm_graph.specs.Graph.{IsGraphOf};
ghost use Rattle.lgm_graph.specs.Estimates.{estimate_of};
ghost use Rattle.lgm_payer.specs.Payments.{fees};
ghost use Rattle.lgm_route.specs.Preferred.{penalty_at};
ghost use Rattle.lgm_payer.specs.Searches.{refusal_of, request_of, route_limits, plain};
ghost use Rattle.lgm_payer.specs.Searches.{IsAnswerFor, IsFoundFor, IsReason};
ghost use Rattle.lgm_payer.specs.Looking.{prospect_at};

use super::Payment;
use crate::exclusions::{fewest_blocks, refusal_of};
use crate::sight::Outlook;
use crate::unfound::Unfound;
use lgm_graph::Estimates;
use lgm_route::{
    Found, Preferences, Request, RouteFault, RouteLimits, Search, SearchFault, find_over,
};
use std::alloc::Global;

/// Blocks that may come while a part is under way, so that its expiry isn't too soon for the payee.
const SPARE_BLOCKS: u32 = 3;

impl Payment {
    /// The first failure code that the payee returned, but `mpp_timeout`, which another try may mend.
    pub fn refusal(&self) -> Option<u16>
        ensures { result ≡ refusal_of self.now.parts }
    {
        refusal_of(&self.parts)
    }

    /// What is asked for a part.
    fn request(&self, amount: u64, height: u32) -> Request
        ensures { result ≡ request_of self.now amount height }
    {
        Request {
            payer: self.payer,
            payee: self.invoice.payee,
            amount,
            expiry: height.saturating_add(u32::from(self.invoice.final_delta) + SPARE_BLOCKS),
        }
    }

    /// The limits of its route.
    fn route_limits(&self) -> Option<RouteLimits>
        ensures { result ≡ route_limits self.now }
    {
        let most = fewest_blocks(self.bounds.most_blocks, &self.parts);
        let last = u32::from(self.invoice.final_delta) + SPARE_BLOCKS;
        if most < last {
            return None;
        }
        Some(RouteLimits {
            most_delay: Some((most - last) as u16),
            most_hops: 20,
        })
    }

    /// The answer for a part by what its payer prefers and believes.
    fn answer(
        &self,
        alloc: Global,
        outlook: &Outlook<'_>,
        amount: u64,
        preferences: &Preferences,
        estimates: &Estimates,
    ) -> Result<Found, SearchFault>
        requires beside { IsGraphOf outlook.now.map.now outlook.now.view.now }
        requires few { length outlook.now.view.now.points + 2 * length outlook.now.overlay.now.extra < 2 ^ 32 }
        ensures { IsAnswerFor (record (prospect_at outlook.now) {
          penalty = penalty_at preferences.now estimates.now;
        }) self.now amount result }
    {
        let Some(limits) = self.route_limits() else {
            return Err(SearchFault::Fault(RouteFault::NoRoute));
        };
        let request = self.request(amount, outlook.height);
        let search = Search {
            preferences: *preferences,
            estimates,
            limits,
            budget: outlook.budget,
        };
        find_over(
            alloc,
            outlook.map,
            outlook.view,
            outlook.overlay,
            &search,
            &request,
        )
    }

    /// The answer for a part of a payer that prefers nothing but to send least.
    fn cheapest(
        &self,
        alloc: Global,
        outlook: &Outlook<'_>,
        amount: u64,
    ) -> Result<Found, SearchFault>
        requires beside { IsGraphOf outlook.now.map.now outlook.now.view.now }
        requires few { length outlook.now.view.now.points + 2 * length outlook.now.overlay.now.extra < 2 ^ 32 }
        ensures { IsAnswerFor (plain (prospect_at outlook.now)) self.now amount result }
    {
        let nothing = Estimates::new(alloc);
        self.answer(alloc, outlook, amount, &Preferences::none(), &nothing)
    }

    /// Whether the fee of a route for an amount is within the bound.
    fn affords(&self, found: &Found, amount: u64) -> bool
        requires { amount ≤ sent found.now.route }
        ensures { IsTrue result ↔ (sent found.now.route - amount + fees self.now ≤ self.now.bounds.most_fee) }
    {
        found.route.sent() - amount <= self.bounds.most_fee - self.fees()
    }

    /// A route for a part, by what its payer prefers, or else the cheapest one.
    pub(super) fn found(
        &self,
        alloc: Global,
        outlook: &Outlook<'_>,
        amount: u64,
    ) -> Result<Found, Unfound>
        requires beside { IsGraphOf outlook.now.map.now outlook.now.view.now }
        requires few { length outlook.now.view.now.points + 2 * length outlook.now.overlay.now.extra < 2 ^ 32 }
        ensures found { IfOk result (IsFoundFor (prospect_at outlook.now) self.now amount) }
        ensures why { IfErr result (IsReason (prospect_at outlook.now) self.now amount) }
    {
        let found = self.answer(
            alloc,
            outlook,
            amount,
            &outlook.preferences,
            outlook.estimates,
        )?;
        if self.affords(&found, amount) {
            return Ok(found);
        }
        let found = self.cheapest(alloc, outlook, amount)?;
        if self.affords(&found, amount) {
            return Ok(found);
        }
        Err(Unfound::TooDear(found.route.sent() - amount))
    }
}
