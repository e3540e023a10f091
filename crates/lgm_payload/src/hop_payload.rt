//! Payloads as values.

use lgm_gossip::{Bytes, Scid};

/// The payload of one hop (BOLT 4, "Payload Format"). A forwarding node finds `next`, and the payee
/// `payment`.
#[derive(Debug, Drop)]
pub struct HopPayload {
    /// `amt_to_forward`: what the node forwards, or receives, in msat.
    pub amount: u64,
    /// `outgoing_cltv_value`: the block height at which what it forwards, or receives, expires.
    pub expiry: u32,
    /// `short_channel_id`: the channel to forward over.
    pub next: Option<Scid>,
    /// `payment_data`: by which the payee recognizes the payment.
    pub payment: Option<Payment>,
    /// `payment_metadata`: bytes that the payee asked the payer to return.
    pub metadata: Option<Bytes>,
}

/// By which a payee recognizes a payment (BOLT 4, "Payload Format", type 8).
#[derive(Clone, Copy, Debug, PartialEq, Eq)]
pub struct Payment {
    /// The payment secret, from the invoice.
    pub secret: [u8; 32],
    /// The total of the payment, in msat.
    pub total: u64,
}
