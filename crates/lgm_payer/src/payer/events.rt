//! What becomes of parts and payments.

ghost use Rattle.std.specs.Prelude.{◌≡◌, ◌<◌, None, Ok, length, IfOk, IfErr, IfSome, OnOk, OnErr, slice_get};
ghost use Rattle.lgm_odds.specs.Lessons.{AreTaught};
ghost use Rattle.lgm_payer.specs.UnderWay.{all_under_way};
ghost use Rattle.lgm_payer.specs.Learning.{learnt_at, learnt_arrived};
ghost use Rattle.lgm_payer.specs.Events.{fulfilling_fault, abandoning_fault, forgetting_fault, ending_checked, fault_in};
ghost use Rattle.lgm_payer.specs.Events.{IsEndedIn, IsFulfilledIn, IsAbandonedIn, IsForgottenIn, IsFadedIn, IsRefused};
ghost use Rattle.lgm_payer.specs.declared.failure.Ending.TheVariants as endings;

use super::Payer;
use crate::failure::{Ending, Failure};
use crate::payer_fault::PayerFault;
use crate::payment::Payment;
use crate::stage::Stage;
use crate::under_way::all_under_way;
use lgm_graph::Estimates;
use lgm_odds::{Elapsed, fade};
use lgm_store::Map;
use std::alloc::{AllocError, Global};

/// Why the payee can't have taken the whole of a payment.
fn fulfilling_fault(payment: &Payment) -> Option<PayerFault>
    ensures { result ≡ fulfilling_fault payment.now }
{
    if payment.is_paid() {
        return Some(PayerFault::AlreadyPaid);
    }
    if payment.has_held() {
        return None;
    }
    Some(PayerFault::NothingUnderWay)
}

/// Why a payment can't be forgotten.
fn forgetting_fault(payment: &Payment) -> Option<PayerFault>
    ensures { result ≡ forgetting_fault payment.now }
{
    if payment.is_paid() {
        return None;
    }
    if payment.has_held() {
        return Some(PayerFault::UnderWay);
    }
    None
}

impl Payer {
    /// What was learnt and what the failure of a part teaches.
    fn learnt_by(
        &self,
        alloc: Global,
        place: usize,
        at: usize,
        ending: Ending,
    ) -> Result<Estimates, AllocError>
        requires { place < length self.now.payments }
        ensures { IfOk result (λ learnt. IfSome (slice_get self.now.payments place) (λ payment.
            AreTaught (learnt_at payment (all_under_way self.now.payments) at ending) self.now.learnt learnt)) }
    {
        let busy = all_under_way(alloc, &self.payments)?;
        let mut learnt = self.learnt.copy()?;
        self.payments[place].teach(&mut learnt, &busy, at, ending)?;
        Ok(learnt)
    }

    /// What was learnt and what it teaches that the payee took the whole.
    fn learnt_arrived(&self, place: usize) -> Result<Estimates, AllocError>
        requires { place < length self.now.payments }
        ensures { IfOk result (λ learnt. IfSome (slice_get self.now.payments place) (λ payment.
            AreTaught (learnt_arrived payment.payer payment.hints payment.parts) self.now.learnt learnt)) }
    {
        let mut learnt = self.learnt.copy()?;
        self.payments[place].teach_arrived(&mut learnt)?;
        Ok(learnt)
    }

    /// Notes that a part of a payment failed, and learns what that teaches.
    fn end(
        &mut self,
        alloc: Global,
        payment: u64,
        part: u64,
        ending: Ending,
    ) -> Result<(), PayerFault>
        ensures ended { OnOk result (IsEndedIn self.old self.new payment part ending) }
        ensures why { IfErr result (IsRefused (λ payment. fault_in (ending_checked payment part ending)) self.old payment) }
        ensures stays { OnErr result (self.new ≡ self.old) }
    {
        let Some(place) = self.place(payment) else {
            return Err(PayerFault::UnknownPayment);
        };
        let at = self.payments[place].ending_checked(part, ending)?;
        let learnt = self.learnt_by(alloc, place, at, ending)?;
        self.payments[place].end(at, ending);
        self.learnt = learnt;
        Ok(())
    }

    /// Notes that a part of a payment failed with a failure message, and learns what that teaches. With a failure of
    /// the terms of a hop offer the update that came with it to the map first.
    ///
    /// The part is under way, the place is on its route or is its payee's, and the node there may send such a code. An
    /// error changes nothing.
    pub fn failed(
        &mut self,
        alloc: Global,
        payment: u64,
        part: u64,
        failure: Failure,
    ) -> Result<(), PayerFault>
        ensures ended { OnOk result (IsEndedIn self.old self.new payment part (endings.Failed failure)) }
        ensures why { IfErr result
            (IsRefused (λ payment. fault_in (ending_checked payment part (endings.Failed failure))) self.old payment) }
        ensures stays { OnErr result (self.new ≡ self.old) }
    {
        self.end(alloc, payment, part, Ending::Failed(failure))
    }

    /// Notes that a part of a payment failed, and that no failure message could be read: nobody knows which hop failed.
    /// The part is under way. An error changes nothing.
    pub fn unreadable(&mut self, alloc: Global, payment: u64, part: u64) -> Result<(), PayerFault>
        ensures ended { OnOk result (IsEndedIn self.old self.new payment part endings.Unreadable) }
        ensures why { IfErr result
            (IsRefused (λ payment. fault_in (ending_checked payment part endings.Unreadable)) self.old payment) }
        ensures stays { OnErr result (self.new ≡ self.old) }
    {
        self.end(alloc, payment, part, Ending::Unreadable)
    }

    /// Notes that the payee took the whole: all parts of the payment that are under way have arrived, and it is paid.
    /// What their edges carried is gone from them for good.
    ///
    /// Something of it is under way, also if it was abandoned. An error changes nothing.
    pub fn fulfilled(&mut self, payment: u64) -> Result<(), PayerFault>
        ensures paid { OnOk result (IsFulfilledIn self.old self.new payment) }
        ensures why { IfErr result (IsRefused fulfilling_fault self.old payment) }
        ensures stays { OnErr result (self.new ≡ self.old) }
    {
        let Some(place) = self.place(payment) else {
            return Err(PayerFault::UnknownPayment);
        };
        if let Some(fault) = fulfilling_fault(&self.payments[place]) {
            return Err(fault);
        }
        let learnt = self.learnt_arrived(place)?;
        self.payments[place].set_stage(Stage::Paid);
        self.learnt = learnt;
        Ok(())
    }

    /// Sends nothing more for a payment. What is under way is waited for. The payment isn't paid. An error changes
    /// nothing.
    pub fn abandon(&mut self, payment: u64) -> Result<(), PayerFault>
        ensures abandoned { OnOk result (IsAbandonedIn self.old self.new payment) }
        ensures why { IfErr result (IsRefused abandoning_fault self.old payment) }
        ensures stays { OnErr result (self.new ≡ self.old) }
    {
        let Some(place) = self.place(payment) else {
            return Err(PayerFault::UnknownPayment);
        };
        if self.payments[place].is_paid() {
            return Err(PayerFault::AlreadyPaid);
        }
        self.payments[place].set_stage(Stage::Abandoned);
        Ok(())
    }

    /// What was learnt of edges fades, since balances move: half of it is left for each half-life. Call it once an hour
    /// or so. Out of memory changes nothing.
    pub fn fade(&mut self, alloc: Global, map: &Map, time: Elapsed) -> Result<(), AllocError>
        ensures faded { OnOk result (IsFadedIn map.now time self.old self.new) }
        ensures stays { OnErr result (self.new ≡ self.old) }
    {
        let learnt = fade(alloc, map, &self.learnt, time)?;
        self.learnt = learnt;
        Ok(())
    }

    /// Forgets a payment of which nothing is under way. What was learnt stays. If it was paid, the payer's channels
    /// have to reckon all parts that were sent so far from now on. An error changes nothing.
    pub fn forget(&mut self, payment: u64) -> Result<(), PayerFault>
        ensures forgotten { OnOk result (IsForgottenIn self.old self.new payment) }
        ensures why { IfErr result (IsRefused forgetting_fault self.old payment) }
        ensures stays { OnErr result (self.new ≡ self.old) }
    {
        let Some(place) = self.place(payment) else {
            return Err(PayerFault::UnknownPayment);
        };
        if let Some(fault) = forgetting_fault(&self.payments[place]) {
            return Err(fault);
        }
        if self.payments[place].is_paid() {
            self.settled = self.sent;
        }
        self.payments.remove(place);
        Ok(())
    }
}
