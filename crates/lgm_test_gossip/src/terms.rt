//! Terms of forwarding.

/// What a direction of a channel asks for.
#[derive(Clone, Copy, Debug)]
pub struct Terms {
    /// The base fee, in msat.
    pub base: u32,
    /// The proportional fee, in millionths of the amount.
    pub millionths: u32,
    /// The blocks that are subtracted from an expiry.
    pub delta: u16,
    /// The least amount, in msat.
    pub min: u64,
    /// The greatest amount, in msat.
    pub max: u64,
}

/// No fee, and any usual amount.
pub const FREE: Terms = Terms {
    base: 0,
    millionths: 0,
    delta: 40,
    min: 1,
    max: 50_000_000,
};
