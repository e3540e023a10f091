//! Payments that are restored from what was kept of them.

ghost use Rattle.std.specs.Prelude.{◌≡◌, ◌-◌, ◌≤◌, nat_le, sum_by, count_by, true, Some, None, if◌then◌else◌};
ghost use Rattle.std.specs.List.{list_all};
ghost use Rattle.lgm_payer.specs.Parts.{is_held, held_amount, held_fee};
ghost use Rattle.lgm_payer.specs.Payments.{most_at_once, least_amount};
ghost use Rattle.lgm_payer.specs.Restoring.{is_sound_part, is_divisible, is_counted, is_covered, is_sound, restored};

use super::Payment;
use crate::bounds::Bounds;
use crate::invoice::Invoice;
use crate::part::Part;
use crate::stage::Stage;
use lgm_gossip::Point;
use lgm_graph::ExtraEdge;
use lgm_payload::Arrival;

/// What is left of an amount beside what parts count for, in msat, unless they count for more.
fn left_of_amount(parts: &[Part], amount: u64) -> Option<u64>
    ensures { result ≡ (if nat_le (sum_by held_amount parts.now) amount
        then Some (amount - sum_by held_amount parts.now) else None) }
{
    let mut left = amount;
    for part in parts {
        left = left.checked_sub(part.held_amount())?;
    }
    Some(left)
}

/// What is left of a fee beside those of parts, in msat, unless they are more.
fn left_of_fee(parts: &[Part], fee: u64) -> Option<u64>
    ensures { result ≡ (if nat_le (sum_by held_fee parts.now) fee
        then Some (fee - sum_by held_fee parts.now) else None) }
{
    let mut left = fee;
    for part in parts {
        left = left.checked_sub(part.held_fee())?;
    }
    Some(left)
}

/// The least amount of a part, in msat.
fn least_amount(invoice: &Invoice, bounds: &Bounds) -> u64
    ensures { result ≡ least_amount invoice.now bounds.now }
{
    bounds.least_part.min(invoice.amount)
}

/// How many parts may be under way or have arrived.
fn most_at_once(invoice: &Invoice, bounds: &Bounds) -> usize
    ensures { result ≡ most_at_once invoice.now bounds.now }
{
    if invoice.basic_mpp {
        bounds.most_parts.max(1)
    } else {
        1
    }
}

/// Whether a part is within the bounds, and its amount and fee are what is sent over its route.
fn is_sound_part(invoice: &Invoice, bounds: &Bounds, part: &Part) -> bool
    ensures { result ≡ is_sound_part invoice.now bounds.now part.now }
{
    let in_time = part.blocks <= u32::from(bounds.most_blocks);
    let sends = part.amount.checked_add(part.fee) == Some(part.route.sent());
    in_time && sends && least_amount(invoice, bounds) <= part.amount
}

/// Whether nothing is left, or enough for a part, of which one more may be under way.
fn is_divisible(invoice: &Invoice, bounds: &Bounds, left: u64, held: usize) -> bool
    ensures { result ≡ is_divisible invoice.now bounds.now left held }
{
    left == 0 || (least_amount(invoice, bounds) <= left && held < most_at_once(invoice, bounds))
}

/// How many parts are under way or have arrived.
fn held_count(parts: &[Part]) -> usize
    ensures { result ≡ count_by is_held parts.now }
{
    parts.iter().filter(|part| part.is_held()).count()
}

/// Whether there is an amount, and no more parts than allowed.
fn is_counted(invoice: &Invoice, bounds: &Bounds, parts: &[Part]) -> bool
    ensures { result ≡ is_counted invoice.now bounds.now parts.now }
{
    invoice.amount >= 1
        && held_count(parts) <= most_at_once(invoice, bounds)
        && parts.len() <= bounds.most_tries
}

/// Whether the fees of parts are within a bound, in msat.
fn are_fees_within(parts: &[Part], most: u64) -> bool
    ensures { result ≡ nat_le (sum_by held_fee parts.now) most }
{
    left_of_fee(parts, most).is_some()
}

/// Whether parts count for no more than the amount, and what is left is divisible.
fn is_covered(invoice: &Invoice, bounds: &Bounds, parts: &[Part]) -> bool
    ensures { result ≡ is_covered invoice.now bounds.now parts.now }
{
    match left_of_amount(parts, invoice.amount) {
        Some(left) => is_divisible(invoice, bounds, left, held_count(parts)),
        None => false,
    }
}

fn are_sound(invoice: &Invoice, bounds: &Bounds, parts: &[Part]) -> bool
    ensures { result ≡ list_all (is_sound_part invoice.now bounds.now) parts.now }
{
    parts
        .iter()
        .all(|part| is_sound_part(invoice, bounds, part))
}

/// Whether an invoice, bounds and parts can be those of a payment.
fn is_sound(invoice: &Invoice, bounds: &Bounds, parts: &[Part]) -> bool
    ensures { result ≡ is_sound invoice.now bounds.now parts.now }
{
    is_counted(invoice, bounds, parts)
        && are_fees_within(parts, bounds.most_fee)
        && is_covered(invoice, bounds, parts)
        && are_sound(invoice, bounds, parts)
}

impl Payment {
    /// The payment with this number, payer, invoice, hints, bounds, stage and parts, which the payee gets this of beside a
    /// route. There is none if the amount is 0, or the parts exceed the bounds: no payment is ever such a one.
    pub fn restored(
        number: u64,
        payer: Point,
        invoice: Invoice,
        hints: Vec<ExtraEdge>,
        arrival: Arrival,
        bounds: Bounds,
        stage: Stage,
        parts: Vec<Part>,
    ) -> Option<Payment>
        ensures { result ≡ restored (record {
          number = number;
          payer = payer;
          invoice = invoice;
          hints = hints.items;
          arrival = arrival;
          bounds = bounds;
          stage = stage;
          parts = parts.items;
        }) }
    {
        if !is_sound(&invoice, &bounds, &parts) {
            return None;
        }
        Some(Payment {
            number,
            payer,
            invoice,
            hints,
            arrival,
            bounds,
            stage,
            parts,
        })
    }

    /// What it has can be restored, stated by the contract; the call does nothing.
    pub fn can_be_restored(&self)
        ensures { restored self.now ≡ Some self.now }
    {
        let _count = self.parts.len();
    }
}
