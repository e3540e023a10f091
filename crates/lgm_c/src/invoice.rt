//! Invoices and bounds, as C says them, and how a payment begins.

ghost use Rattle.std.specs.Prelude.{◌≡◌, Some, IfOk, IfErr, OnErr};
ghost use Rattle.lgm_payer.specs.Beginning.{IsUnbegun};
ghost use Rattle.lgm_c.specs.Paying.{invoice_given, bounds_given, IsBegunBy, Begins};
ghost use Rattle.lgm_c.specs.Status.{status_of};

use crate::arrival::{LgmRecord, metadata_given, records_given};
use crate::fault::{Fault, status};
use crate::given::all_given;
use crate::handle::{Handle, with_held};
use crate::overlay::{LgmEdge, extra_edge};
use crate::payer_handle::LgmPayer;
use lgm_gossip::Point;
use lgm_payer::{Bounds, Invoice, Payer, PayerFault};
use std::alloc::Global;

/// What a payee asks for (BOLT 11), and what else the payer sends to it.
#[repr(C)]
#[derive(Clone, Copy)]
pub struct LgmInvoice<'a> {
    /// The amount, in msat.
    pub amount_msat: u64,
    /// Its route hints: an edge from each node to the next, the last one to the payee.
    pub hints: &'a [LgmEdge],
    /// The payment metadata; there are none without bytes.
    pub metadata: &'a [u8],
    /// Custom records, by ascending types.
    pub records: &'a [LgmRecord<'a>],
    /// The `min_final_cltv_expiry_delta`, in blocks.
    pub min_final_cltv_expiry_delta: u16,
    /// Whether the payee takes several parts: feature 16 or 17, `basic_mpp`.
    pub basic_mpp: bool,
    /// The node that is paid.
    pub payee: [u8; 33],
    /// The payment secret.
    pub secret: [u8; 32],
}

/// What a payment may take.
#[repr(C)]
#[derive(Clone, Copy)]
pub struct LgmBounds {
    /// The greatest fee of all parts together that are under way or have arrived, in msat.
    pub most_fee_msat: u64,
    /// The least amount of a part, if the amount is divided, in msat.
    pub least_part_msat: u64,
    /// The greatest number of parts that are ever sent.
    pub most_tries: usize,
    /// The greatest number of parts that are under way or have arrived, where the payee takes several.
    pub most_parts: usize,
    /// The most blocks until the first HTLC of a part expires.
    pub most_blocks: u16,
}

fn invoice_given(invoice: &LgmInvoice<'_>) -> Invoice
    ensures { result ≡ invoice_given invoice.now }
{
    Invoice {
        payee: Point(invoice.payee),
        amount: invoice.amount_msat,
        secret: invoice.secret,
        final_delta: invoice.min_final_cltv_expiry_delta,
        basic_mpp: invoice.basic_mpp,
    }
}

fn bounds_given(bounds: &LgmBounds) -> Bounds
    ensures { result ≡ bounds_given bounds.now }
{
    Bounds {
        most_fee: bounds.most_fee_msat,
        most_tries: bounds.most_tries,
        most_parts: bounds.most_parts,
        least_part: bounds.least_part_msat,
        most_blocks: bounds.most_blocks,
    }
}

/// Begins a payment, and returns its number.
fn begun(
    alloc: Global,
    held: &mut Payer,
    invoice: &LgmInvoice<'_>,
    bounds: &LgmBounds,
) -> Result<u64, PayerFault>
    ensures begun { IfOk result (λ number. IsBegunBy invoice.now bounds.now number held.old held.new) }
    ensures why { IfErr result (IsUnbegun held.old (invoice_given invoice.now) (bounds_given bounds.now)) }
    ensures stays { OnErr result (held.new ≡ held.old) }
{
    let hints = all_given(alloc, invoice.hints, extra_edge)?;
    let metadata = metadata_given(alloc, invoice.metadata)?;
    let records = records_given(alloc, invoice.records)?;
    held.begin(
        alloc,
        invoice_given(invoice),
        &hints,
        metadata,
        records,
        bounds_given(bounds),
    )
}

/// Begins a payment, and writes its number.
fn begin(
    alloc: Global,
    held: &mut Payer,
    invoice: &LgmInvoice<'_>,
    bounds: &LgmBounds,
    payment: &mut u64,
) -> Result<(), Fault>
    ensures { Begins invoice.now bounds.now (status_of result) payment.old payment.new (Some held.old) (Some held.new) }
{
    *payment = begun(alloc, held, invoice, bounds)?;
    Ok(())
}

/// Begins a payment, and writes its number: how many were begun before.
#[unsafe(no_mangle)]
pub extern "C" fn lgm_payer_begin(
    alloc: Global,
    payer: &mut LgmPayer,
    invoice: &LgmInvoice<'_>,
    bounds: &LgmBounds,
    payment: &mut u64,
) -> u32
    ensures { Begins invoice.now bounds.now result payment.old payment.new
        payer.old.value payer.new.value }
{
    with_held!(
        alloc,
        payer,
        |held| status(&begin(alloc, &mut held, invoice, bounds, payment))
    )
}
