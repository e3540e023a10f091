//! How what is left of a payment is divided.

ghost use Rattle.std.specs.Prelude.{◌≡◌, ◌≤◌, ◌<◌, ◌+◌, ◌*◌, ◌/◌, ◌^◌, max, length, IfOk, IfErr, IfSome};
ghost use Rattle.lgm_graph.specs.Graph.{IsGraphOf};
ghost use Rattle.lgm_payer.specs.Payments.{left, parts_left, IsShare};
ghost use Rattle.lgm_payer.specs.Searches.{piece, next_pieces, IsFit, IsReason, IsOffered};
ghost use Rattle.lgm_payer.specs.Looking.{prospect_at, best_or, IsCutOff, IsUnfound};

use super::Payment;
use crate::offer::Offer;
use crate::sight::Outlook;
use crate::unfound::Unfound;
use lgm_odds::{Liquidity, cut_between, route_odds};
use std::alloc::Global;

impl Payment {
    /// What is left in so many equal pieces, in msat.
    fn piece(&self, pieces: u64) -> u64
        requires some { 1 ≤ pieces }
        requires left { 0 < left self.now }
        requires few { 2 ≤ pieces → pieces ≤ parts_left self.now }
        requires enough { 2 ≤ pieces → pieces ≤ left self.now / max 1 self.now.bounds.least_part }
        ensures exact { result ≡ piece self.now pieces }
        ensures share { IsShare self.now result }
    {
        // By its contract what is left is enough for a part.
        self.keeps_bounds();
        self.left().div_ceil(pieces)
    }

    /// Twice as many pieces, where they are enough for a part, and so many parts may be under way.
    fn next_pieces(&self, pieces: u64) -> Option<u64>
        requires { 1 ≤ pieces }
        ensures exact { result ≡ next_pieces self.now pieces }
        ensures more { IfSome result (λ next. pieces < next) }
        ensures few { IfSome result (λ next. next ≤ parts_left self.now) }
        ensures enough { IfSome result (λ next. next ≤ left self.now / max 1 self.now.bounds.least_part) }
    {
        let most = (self.parts_left() as u64).min(self.left() / self.bounds.least_part.max(1));
        let next = pieces.checked_mul(2)?;
        if most < next {
            return None;
        }
        Some(next)
    }

    /// A route for a piece of what is left.
    fn fit(&self, alloc: Global, outlook: &Outlook<'_>, amount: u64) -> Result<Offer, Unfound>
        requires beside { IsGraphOf outlook.now.map.now outlook.now.view.now }
        requires few { length outlook.now.view.now.points + 2 * length outlook.now.overlay.now.extra < 2 ^ 32 }
        requires share { IsShare self.now amount }
        ensures fit { IfOk result (IsFit (prospect_at outlook.now) self.now) }
        ensures amount { IfOk result (λ offer. offer.amount ≡ amount) }
        ensures why { IfErr result (IsReason (prospect_at outlook.now) self.now amount) }
    {
        let found = self.found(alloc, outlook, amount)?;
        let odds = route_odds(
            outlook.map,
            outlook.extra,
            outlook.limits,
            outlook.estimates,
            &found.route,
        );
        Ok(Offer {
            found,
            amount,
            odds,
        })
    }

    /// Whether all paths to the payee can carry what is left together, as far as a search for cuts finds out. It is asked
    /// once, when what is left is to be divided: while it is one piece.
    fn check_paths(&self, alloc: Global, outlook: &Outlook<'_>, pieces: u64) -> Result<(), Unfound>
        ensures { IfErr result (IsCutOff (prospect_at outlook.now) self.now) }
    {
        if pieces != 1 {
            return Ok(());
        }
        let liquidity = Liquidity {
            map: outlook.map,
            extra: outlook.extra,
            limits: outlook.limits,
            estimates: outlook.estimates,
            payer: outlook.payer,
        };
        match cut_between(alloc, &liquidity, &self.invoice.payee, self.left())? {
            Some((_cut, room)) => Err(Unfound::PathsShort(room)),
            None => Ok(()),
        }
    }

    /// The best of what was tried, or why there is none.
    fn best_or(best: Option<Offer>, reason: Unfound) -> Result<Offer, Unfound>
        ensures { result ≡ best_or best reason }
    {
        match best {
            Some(offer) => Ok(offer),
            None => Err(reason),
        }
    }

    /// What the next part is sent over: what is left, or else its half, its quarter and so on: the first with a likely
    /// route, or else the one that is expected to bring most. Nothing, if it is to be divided and a cut is found that
    /// can't carry it.
    fn offer(&self, alloc: Global, outlook: &Outlook<'_>) -> Result<Offer, Unfound>
        requires beside { IsGraphOf outlook.now.map.now outlook.now.view.now }
        requires few { length outlook.now.view.now.points + 2 * length outlook.now.overlay.now.extra < 2 ^ 32 }
        requires left { 0 < left self.now }
        requires room { left self.now ≤ outlook.now.room }
        requires payee_room { left self.now ≤ outlook.now.payee_room }
        ensures offered { IfOk result (IsOffered (prospect_at outlook.now) self.now) }
        ensures why { IfErr result (IsUnfound (prospect_at outlook.now) self.now) }
    {
        let mut pieces = 1u64;
        let mut best: Option<Offer> = None;
        'dividing: loop {
            let amount = self.piece(pieces);
            let next = self.next_pieces(pieces);
            match self.fit(alloc, outlook, amount) {
                Ok(offer) => {
                    if offer.is_likely() {
                        return Ok(offer);
                    }
                    let better = Offer::better(best, offer);
                    match next {
                        Some(more) => {
                            self.check_paths(alloc, outlook, pieces)?;
                            best = Some(better);
                            pieces = more;
                        }
                        None => return Ok(better),
                    }
                }
                Err(reason) => {
                    if !reason.may_be_mended() {
                        return Err(reason);
                    }
                    match next {
                        Some(more) => {
                            self.check_paths(alloc, outlook, pieces)?;
                            pieces = more;
                        }
                        None => return Payment::best_or(best, reason),
                    }
                }
            }
        }
    }

    /// The same, unless the payer's channels can't send what is left, or the edges into the payee can't carry it, in
    /// however many parts.
    pub(crate) fn offer_or_short(
        &self,
        alloc: Global,
        outlook: &Outlook<'_>,
    ) -> Result<Offer, Unfound>
        requires beside { IsGraphOf outlook.now.map.now outlook.now.view.now }
        requires few { length outlook.now.view.now.points + 2 * length outlook.now.overlay.now.extra < 2 ^ 32 }
        requires left { 0 < left self.now }
        ensures offered { IfOk result (IsOffered (prospect_at outlook.now) self.now) }
        ensures why { IfErr result (IsUnfound (prospect_at outlook.now) self.now) }
    {
        if outlook.room < self.left() {
            return Err(Unfound::Short(outlook.room));
        }
        if outlook.payee_room < self.left() {
            return Err(Unfound::PayeeShort(outlook.payee_room));
        }
        self.offer(alloc, outlook)
    }
}
