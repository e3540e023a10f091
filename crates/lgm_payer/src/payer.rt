//! Payers.

ghost use Rattle.std.specs.Prelude.{◌≡◌, ◌⊎◌, ◌++◌, ◌∷◌, ◌+◌, ◌-◌, ◌^◌, ◌<◌, ◌≤◌, ℕ, [], Ok, length, IfOk, IfErr, IfSome, OnOk, OnErr};
ghost use Rattle.lgm_payload.specs.Arrival.{custom_records};
ghost use Rattle.lgm_payer.specs.Payments.{payment_of};
ghost use Rattle.lgm_payer.specs.Payers.{payment_place};
ghost use Rattle.lgm_payer.specs.Beginning.{IsBegun, IsUnbegun};
ghost use Rattle.lgm_payer.specs.History.{LearntIsReported};

mod events;
mod next_part;
mod restoring;

use crate::bounds::Bounds;
use crate::invoice::Invoice;
use crate::payer_fault::PayerFault;
use crate::payment::Payment;
use lgm_gossip::{Bytes, Point};
use lgm_graph::{Estimates, ExtraEdge};
use lgm_payload::CustomRecord;
use std::alloc::{AllocError, Global};
use std::marker::Model;

/// A payer: its payments, and what it has learnt of edges. Contracts see both.
///
/// Payments have numbers, in the order in which they were begun, and so have parts, over all payments, in the order in
/// which they were sent. No number is given twice.
#[derive(Drop)]
pub struct Payer {
    point: Point,
    payments: Vec<Payment>,
    learnt: Estimates,
    begun: u64,
    sent: u64,
    settled: u64,
}

impl Model for Payer {
    ghost use Rattle.lgm_payer.specs.Payers.{PayerState};

    ghost Value = { PayerState };

    ghost view = { λ p. record {
      point = p.point;
      payments = p.payments.items;
      learnt = p.learnt;
      begun = p.begun;
      sent = p.sent;
      settled = p.settled;
    } };
}

impl Payer {
    /// A payer that has begun no payment, and has learnt this of edges. Allocates nothing.
    pub fn new(alloc: Global, point: Point, learnt: Estimates) -> Payer
        ensures { result ≡ record { point = point; payments = []; learnt = learnt; begun = 0; sent = 0; settled = 0 } }
    {
        Payer {
            point,
            payments: Vec::new(alloc),
            learnt,
            begun: 0,
            sent: 0,
            settled: 0,
        }
    }

    /// Begins a payment, and returns its number: how many were begun before. Of the hints, edges from each node to the
    /// next one, those out of the payer are left out. The metadata are those of the invoice (BOLT 11, `m`), and the
    /// records are for the payee, by ascending types.
    ///
    /// The amount isn't 0, nor is the bound of parts. Custom records that can't be sent are refused by
    /// [`next_part`](Payer::next_part). An error changes nothing.
    pub fn begin(
        &mut self,
        alloc: Global,
        invoice: Invoice,
        hints: &[ExtraEdge],
        metadata: Option<Bytes>,
        records: Vec<CustomRecord>,
        bounds: Bounds,
    ) -> Result<u64, PayerFault>
        ensures begun { IfOk result (λ number.
            IsBegun self.old self.new number invoice hints.now metadata (custom_records records.items) bounds) }
        ensures why { IfErr result (IsUnbegun self.old invoice bounds) }
        ensures stays { OnErr result (self.new ≡ self.old) }
    {
        if invoice.amount == 0 {
            return Err(PayerFault::AmountZero);
        }
        if bounds.most_parts == 0 {
            return Err(PayerFault::NoParts);
        }
        let number = self.begun;
        let Some(next) = number.checked_add(1) else {
            return Err(PayerFault::NumbersUsedUp);
        };
        let payment = Payment::of(
            alloc, number, self.point, invoice, hints, metadata, records, bounds,
        )?;
        self.add(payment)?;
        self.begun = next;
        Ok(number)
    }

    /// Adds a payment. Out of memory changes nothing.
    fn add(&mut self, payment: Payment) -> Result<(), AllocError>
        ensures added { OnOk result (self.new ≡ record self.old { payments = self.old.payments ++ payment ∷ [] }) }
        ensures stays { OnErr result (self.new ≡ self.old) }
    {
        self.payments.push(payment)?;
        Ok(())
    }

    /// The node that pays.
    pub fn point(&self) -> &Point
        ensures { result.now ≡ self.now.point }
    {
        &self.point
    }

    /// The payments that were begun, but for those that were forgotten.
    pub fn payments(&self) -> &[Payment]
        ensures { result.now ≡ self.now.payments }
    {
        self.payments.as_slice()
    }

    /// What was learnt of edges.
    pub fn learnt(&self) -> &Estimates
        ensures { result.now ≡ self.now.learnt }
    {
        &self.learnt
    }

    /// How many parts were sent, over all payments: the number of the next one.
    pub fn sent(&self) -> u64
        ensures { result ≡ self.now.sent }
    {
        self.sent
    }

    /// What was learnt of each edge is the fold of all that was told of parts and payments, stated by the contract; the
    /// call does nothing.
    pub fn learns_by_reports(&self)
        ensures { LearntIsReported }
    {
        let _sent = self.sent;
    }

    /// The place of the payment with a number.
    pub fn place(&self, number: u64) -> Option<usize>
        ensures exact { result ≡ payment_place self.now.payments number }
        ensures there { IfSome result (λ place. place < length self.now.payments) }
    {
        self.payments
            .iter()
            .position(|payment| payment.number() == number)
    }
}
