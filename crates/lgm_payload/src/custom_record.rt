//! Custom records.

use lgm_gossip::Bytes;

/// The least type of a custom record (BOLT 4, "Payload Format").
pub const FIRST_CUSTOM: u64 = 65_536;

/// A record of a payload that BOLT 4 doesn't define, such as the preimage of a spontaneous payment, 5,482,373,484. A payee
/// that doesn't know its type refuses the payment if that is even, and skips the record if it is odd.
#[derive(Debug, Drop)]
pub struct CustomRecord {
    /// The type: at least [`FIRST_CUSTOM`].
    pub kind: u64,
    /// The value.
    pub value: Bytes,
}
