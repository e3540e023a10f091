//! The part of a payment that is sent next.

ghost use Rattle.std.specs.Prelude.{◌≡◌, ◌<◌, ◌+◌, ◌*◌, ◌^◌, length, IfOk, IfErr};
ghost use Rattle.lgm_graph.specs.Graph.{IsGraphOf};
ghost use Rattle.lgm_graph.specs.Estimates.{estimate_of};
ghost use Rattle.lgm_payer.specs.Payments.{PaymentState, left};
ghost use Rattle.lgm_payer.specs.Overlays.{extra_of, limits_of, silent_of};
ghost use Rattle.lgm_payer.specs.Preferring.{preferences_for};
ghost use Rattle.lgm_payer.specs.Searches.{prospect_of, IsOffered};
ghost use Rattle.lgm_payer.specs.Looking.{IsUnfound};

use super::Payment;
use crate::offer::Offer;
use crate::overlays::{
    add_spared, limit_by_capacity, limit_by_failures, overlaid, room_out, silence_by_failures,
};
use crate::preferring::usual_preferences;
use crate::sight::{Outlook, Sight};
use crate::unfound::Unfound;
use lgm_gossip::Point;
use lgm_graph::{Estimates, ExtraEdge, Hop, Limit};
use lgm_odds::room_into;
use lgm_route::Preferences;
use lgm_store::Map;
use std::alloc::{AllocError, Global};

impl Payment {
    /// Edges beside the map: the payer's channels, less what was sent over them since they were told, and the hints,
    /// less what is under way over them.
    fn extra(
        &self,
        alloc: Global,
        own: &[ExtraEdge],
        since: &[Hop],
        busy: &[Hop],
    ) -> Result<Vec<ExtraEdge>, AllocError>
        ensures { IfOk result (λ extra. extra.items ≡ extra_of self.now own.now since.now busy.now) }
    {
        let mut extra = Vec::new(alloc);
        add_spared(&mut extra, own, since)?;
        add_spared(&mut extra, &self.hints, busy)?;
        Ok(extra)
    }

    /// What capacities leave beside what is under way, and failed parts.
    fn limits(&self, alloc: Global, map: &Map, busy: &[Hop]) -> Result<Vec<Limit>, AllocError>
        ensures { IfOk result (λ limits. limits.items ≡ limits_of self.now map.now busy.now) }
    {
        let mut limits = Vec::new(alloc);
        limit_by_capacity(&mut limits, map, &self.payer, busy)?;
        limit_by_failures(&mut limits, &self.payer, &self.hints, &self.parts)?;
        Ok(limits)
    }

    /// The payer, and the nodes that failed parts silence.
    fn silent(&self, alloc: Global) -> Result<Vec<Point>, AllocError>
        ensures { IfOk result (λ silent. silent.items ≡ silent_of self.now) }
    {
        let mut silent = Vec::new(alloc);
        silent.push(self.payer)?;
        silence_by_failures(&mut silent, &self.payer, &self.hints, &self.parts)?;
        Ok(silent)
    }

    /// What is preferred: what was chosen, or else the usual for the amount.
    fn preferences_for(&self, chosen: Option<Preferences>) -> Preferences
        ensures { result ≡ preferences_for chosen self.now }
    {
        match chosen {
            Some(preferences) => preferences,
            None => usual_preferences(self.invoice.amount),
        }
    }

    /// What the next part is sent over, by what is believed of edges, and beside what was sent over the payer's
    /// channels since they were told and what is under way.
    pub(crate) fn choose(
        &self,
        alloc: Global,
        sight: &Sight<'_>,
        since: &[Hop],
        busy: &[Hop],
        estimates: &Estimates,
    ) -> Result<Offer, Unfound>
        requires beside { IsGraphOf sight.now.map.now sight.now.view.now }
        requires few { length sight.now.view.now.points + 2 * (length sight.now.own.now + length self.now.hints) < 2 ^ 32 }
        requires left { 0 < left self.now }
        ensures offered { IfOk result (IsOffered (prospect_of (preferences_for sight.now.preferences self.now)
            (estimate_of estimates.now) sight.now.view.now.known sight.now.map.now self.now sight.now.own.now since.now busy.now
            sight.now.height) self.now) }
        ensures why { IfErr result (IsUnfound (prospect_of (preferences_for sight.now.preferences self.now)
            (estimate_of estimates.now) sight.now.view.now.known sight.now.map.now self.now sight.now.own.now since.now busy.now
            sight.now.height) self.now) }
    {
        let extra = self.extra(alloc, sight.own, since, busy)?;
        let room = room_out(&self.payer, &extra);
        let limits = self.limits(alloc, sight.map, busy)?;
        let payee = &self.invoice.payee;
        let payee_room = room_into(alloc, sight.map, &extra, &limits, estimates, payee)?;
        let silent = self.silent(alloc)?;
        let overlay = overlaid(alloc, &extra, &limits, &silent)?;
        let outlook = Outlook {
            map: sight.map,
            view: sight.view,
            extra: &extra,
            limits: &limits,
            overlay: &overlay,
            estimates,
            preferences: self.preferences_for(sight.preferences),
            budget: sight.budget,
            height: sight.height,
            room,
            payee_room,
            payer: self.payer,
        };
        self.offer_or_short(alloc, &outlook)
    }
}
