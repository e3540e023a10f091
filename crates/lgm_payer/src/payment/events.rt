//! What becomes of a payment.

ghost use Rattle.std.specs.Prelude.{◌≡◌, ◌≤◌, ◌<◌, ◌+◌, ◌-◌, true, length, OnOk, OnErr, IfOk, IfSome, slice_get};
ghost use Rattle.lgm_graph.specs.Route.{sent, expiry};
ghost use Rattle.lgm_odds.specs.Lessons.{AreTaught};
ghost use Rattle.lgm_payer.specs.Parts.{part_of, is_held};
ghost use Rattle.lgm_payer.specs.Payments.{IsShare, IsEnded, fees, with_sent};
ghost use Rattle.lgm_payer.specs.Learning.{learnt_at, learnt_arrived};
ghost use Rattle.lgm_payer.specs.Events.{failure_fault, ending_checked};

use super::Payment;
use crate::failure::{Ending, may_send};
use crate::learning::{learn, learn_arrived};
use crate::part::Part;
use crate::payer_fault::PayerFault;
use crate::stage::Stage;
use lgm_graph::{Estimates, Hop, Route};
use std::alloc::AllocError;

/// Why a part over a route can't have ended so.
fn failure_fault(route: &[Hop], ending: Ending) -> Option<PayerFault>
    ensures { result ≡ failure_fault route.now ending }
{
    match ending {
        Ending::Unreadable => None,
        Ending::Failed(failure) => {
            if route.len() < failure.place {
                return Some(PayerFault::BeyondRoute);
            }
            if may_send(failure.place == route.len(), failure.code) {
                return None;
            }
            Some(PayerFault::ForeignCode)
        }
    }
}

impl Payment {
    /// Notes that a part over a route was sent. Out of memory changes nothing.
    pub(crate) fn send(
        &mut self,
        number: u64,
        route: Route,
        amount: u64,
        height: u32,
    ) -> Result<(), AllocError>
        requires share { IsShare self.old amount }
        requires tries { length self.old.parts < self.old.bounds.most_tries }
        requires sends { amount ≤ sent route }
        requires fee { sent route - amount + fees self.old ≤ self.old.bounds.most_fee }
        requires in_time { expiry route ≤ height + self.old.bounds.most_blocks }
        ensures sent { OnOk result (self.new ≡ with_sent (part_of number route amount height) self.old) }
        ensures stays { OnErr result (self.new ≡ self.old) }
    {
        let part = Part::over(number, route, amount, height);
        self.parts.push(part)?;
        Ok(())
    }

    /// The place of a part that is under way, and that may have ended so; or why it can't have.
    pub(crate) fn ending_checked(&self, part: u64, ending: Ending) -> Result<usize, PayerFault>
        ensures exact { result ≡ ending_checked self.now part ending }
        ensures there { IfOk result (λ place. place < length self.now.parts) }
        ensures held { IfOk result (λ place. IfSome (slice_get self.now.parts place) (λ part. is_held part ≡ true)) }
    {
        if self.is_paid() {
            return Err(PayerFault::NotUnderWay);
        }
        let Some(place) = self.part_place(part) else {
            return Err(PayerFault::UnknownPart);
        };
        let found = &self.parts[place];
        if !found.is_held() {
            return Err(PayerFault::NotUnderWay);
        }
        match failure_fault(found.route.as_slice(), ending) {
            None => Ok(place),
            Some(fault) => Err(fault),
        }
    }

    /// The part at a place failed.
    pub(crate) fn end(&mut self, place: usize, ending: Ending)
        requires there { place < length self.old.parts }
        requires held { IfSome (slice_get self.old.parts place) (λ part. is_held part ≡ true) }
        ensures { IsEnded place ending self.old self.new }
    {
        self.parts[place].ending = Some(ending);
    }

    /// What became of it changes.
    pub(crate) fn set_stage(&mut self, stage: Stage)
        ensures { self.new ≡ record self.old { stage = stage } }
    {
        self.stage = stage;
    }

    /// Has estimates learn what the failure of the part at a place teaches, while these hops are under way. Out of
    /// memory leaves some of it learnt.
    pub(crate) fn teach(
        &self,
        estimates: &mut Estimates,
        busy: &[Hop],
        place: usize,
        ending: Ending,
    ) -> Result<(), AllocError>
        ensures { OnOk result (AreTaught (learnt_at self.now busy.now place ending) estimates.old estimates.new) }
    {
        let Some(part) = self.parts.get(place) else {
            return Ok(());
        };
        learn(
            estimates,
            &self.payer,
            &self.hints,
            busy,
            part.route.as_slice(),
            ending,
        )
    }

    /// Has estimates learn what it teaches that the payee took the whole. Out of memory leaves some of it
    /// learnt.
    pub(crate) fn teach_arrived(&self, estimates: &mut Estimates) -> Result<(), AllocError>
        ensures { OnOk result (AreTaught (learnt_arrived self.now.payer self.now.hints self.now.parts) estimates.old estimates.new) }
    {
        learn_arrived(estimates, &self.payer, &self.hints, &self.parts)
    }
}
