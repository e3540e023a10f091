//! Payments.

ghost use Rattle.std.specs.Prelude.{◌≡◌, ◌≤◌, ◌<◌, ◌-◌, ◌^◌, ℕ, length, sum_by, count_by, filter, IfOk, IfSome};
ghost use Rattle.lgm_payload.specs.Arrival.{custom_records};
ghost use Rattle.lgm_payer.specs.Parts.{is_held, held_amount, held_fee};
ghost use Rattle.lgm_payer.specs.Payments.{KeepsBounds, is_others, payment_of, is_paid, part_place, left, fees, parts_left, most_at_once};
ghost use Rattle.lgm_payer.specs.Events.{has_held};

mod choosing;
mod dividing;
mod events;
mod restoring;
mod searching;

use crate::bounds::Bounds;
use crate::invoice::Invoice;
use crate::part::Part;
use crate::stage::Stage;
use lgm_gossip::{Bytes, Point};
use lgm_graph::ExtraEdge;
use lgm_payload::{Arrival, CustomRecord};
use std::alloc::{AllocError, Global};
use std::marker::Model;

/// The payment of an invoice: what became of it, and all parts that were ever sent for it.
#[derive(Drop)]
pub struct Payment {
    number: u64,
    payer: Point,
    invoice: Invoice,
    hints: Vec<ExtraEdge>,
    arrival: Arrival,
    bounds: Bounds,
    stage: Stage,
    parts: Vec<Part>,
}

impl Model for Payment {
    ghost use Rattle.std.specs.Prelude.{◌≤◌};
    ghost use Rattle.lgm_payer.specs.Payments.{PaymentState, KeepsBounds};

    ghost Value = { PaymentState };

    ghost view = { λ p. record {
      number = p.number;
      payer = p.payer;
      invoice = p.invoice;
      hints = p.hints.items;
      arrival = p.arrival;
      bounds = p.bounds;
      stage = p.stage;
      parts = p.parts.items;
    } };

    ghost invariant = { λ p. (1 ≤ p.invoice.amount) × KeepsBounds p.invoice p.bounds p.parts.items };
}

/// What parts count for, in msat.
fn held_amount(parts: &[Part]) -> u64
    requires { sum_by held_amount parts.now < 2 ^ 64 }
    ensures { result ≡ sum_by held_amount parts.now }
{
    parts.iter().map(|part| part.held_amount()).sum()
}

/// Their fees, in msat.
fn held_fee(parts: &[Part]) -> u64
    requires { sum_by held_fee parts.now < 2 ^ 64 }
    ensures { result ≡ sum_by held_fee parts.now }
{
    parts.iter().map(|part| part.held_fee()).sum()
}

/// The hints that don't leave the payer: the payer alone says what its channels are.
fn others_of(
    alloc: Global,
    payer: &Point,
    hints: &[ExtraEdge],
) -> Result<Vec<ExtraEdge>, AllocError>
    ensures { IfOk result (λ others. others.items ≡ filter (is_others payer.now) hints.now) }
{
    hints
        .iter()
        .filter(|hint| hint.from != *payer)
        .copied()
        .collect(alloc)
}

impl Payment {
    /// A payment of which nothing was sent yet. Hints out of the payer are left out.
    pub(crate) fn of(
        alloc: Global,
        number: u64,
        payer: Point,
        invoice: Invoice,
        hints: &[ExtraEdge],
        metadata: Option<Bytes>,
        records: Vec<CustomRecord>,
        bounds: Bounds,
    ) -> Result<Payment, AllocError>
        requires { 1 ≤ invoice.amount }
        ensures { IfOk result (λ payment.
            payment ≡ payment_of number payer invoice hints.now metadata (custom_records records.items) bounds) }
    {
        let hints = others_of(alloc, &payer, hints)?;
        Ok(Payment {
            number,
            payer,
            invoice,
            hints,
            arrival: Arrival::new(&invoice.secret, invoice.amount, metadata, records),
            bounds,
            stage: Stage::Open,
            parts: Vec::new(alloc),
        })
    }

    /// Its amount is 1 msat or more, and the bounds are kept, stated by the contract; the call does nothing.
    pub fn keeps_bounds(&self)
        ensures some { 1 ≤ self.now.invoice.amount }
        ensures kept { KeepsBounds self.now.invoice self.now.bounds self.now.parts }
    {
        let _count = self.parts.len();
    }

    /// Its number: how many payments its payer had begun before.
    pub fn number(&self) -> u64
        ensures { result ≡ self.now.number }
    {
        self.number
    }

    /// Who pays.
    pub fn payer(&self) -> &Point
        ensures { result.now ≡ self.now.payer }
    {
        &self.payer
    }

    /// What is paid.
    pub fn invoice(&self) -> &Invoice
        ensures { result.now ≡ self.now.invoice }
    {
        &self.invoice
    }

    /// What it may take.
    pub fn bounds(&self) -> &Bounds
        ensures { result.now ≡ self.now.bounds }
    {
        &self.bounds
    }

    /// What became of it.
    pub fn stage(&self) -> Stage
        ensures { result ≡ self.now.stage }
    {
        self.stage
    }

    /// Whether the payee took the whole.
    pub fn is_paid(&self) -> bool
        ensures { result ≡ is_paid self.now }
    {
        self.stage.is_paid()
    }

    /// The parts that were ever sent.
    pub fn parts(&self) -> &[Part]
        ensures { result.now ≡ self.now.parts }
    {
        self.parts.as_slice()
    }

    /// The hints of its invoice that don't leave the payer.
    pub fn hints(&self) -> &[ExtraEdge]
        ensures { result.now ≡ self.now.hints }
    {
        self.hints.as_slice()
    }

    /// What the payee gets beside a route.
    pub fn arrival(&self) -> &Arrival
        ensures { result.now ≡ self.now.arrival }
    {
        &self.arrival
    }

    /// What is neither under way nor has arrived, in msat.
    pub fn left(&self) -> u64
        ensures exact { result ≡ left self.now }
        ensures rest { result ≡ self.now.invoice.amount - sum_by held_amount self.now.parts }
    {
        self.invoice.amount - held_amount(&self.parts)
    }

    /// The fees of all parts that are under way or have arrived, in msat.
    pub fn fees(&self) -> u64
        ensures exact { result ≡ fees self.now }
        ensures within { result ≤ self.now.bounds.most_fee }
    {
        let _most = self.bounds.most_fee;
        held_fee(&self.parts)
    }

    /// Whether a part hasn't failed.
    pub(crate) fn has_held(&self) -> bool
        ensures { result ≡ has_held self.now }
    {
        self.parts.iter().any(|part| part.is_held())
    }

    /// How many parts may be under way or have arrived.
    fn most_at_once(&self) -> usize
        ensures { result ≡ most_at_once self.now.invoice self.now.bounds }
    {
        if self.invoice.basic_mpp {
            self.bounds.most_parts.max(1)
        } else {
            1
        }
    }

    /// How many more parts may be under way: at least one while something is left.
    fn parts_left(&self) -> usize
        ensures exact { result ≡ parts_left self.now }
        ensures some { 0 < left self.now → 1 ≤ result }
    {
        self.most_at_once() - self.parts.iter().filter(|part| part.is_held()).count()
    }

    fn part_place(&self, number: u64) -> Option<usize>
        ensures exact { result ≡ part_place self.now.parts number }
        ensures there { IfSome result (λ place. place < length self.now.parts) }
    {
        self.parts.iter().position(|part| part.number == number)
    }
}
