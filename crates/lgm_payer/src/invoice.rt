//! Invoices.

use lgm_gossip::Point;

/// What a payee asks for (BOLT 11), beside its route hints, its metadata, and what else the payer sends to it.
#[derive(Clone, Copy, Debug)]
pub struct Invoice {
    /// The node that is paid.
    pub payee: Point,
    /// The amount, in msat: not 0. Where the invoice has none, it is the payer's choice.
    pub amount: u64,
    /// The payment secret.
    pub secret: [u8; 32],
    /// The `min_final_cltv_expiry_delta`, in blocks.
    pub final_delta: u16,
    /// Whether the payee takes several parts: feature 16 or 17, `basic_mpp`.
    pub basic_mpp: bool,
}
