//! Bounds of payments.

/// What a payment may take.
#[derive(Clone, Copy, Debug, PartialEq, Eq)]
pub struct Bounds {
    /// The greatest fee of all parts together that are under way or have arrived, in msat.
    pub most_fee: u64,
    /// The greatest number of parts that are ever sent.
    pub most_tries: usize,
    /// The greatest number of parts that are under way or have arrived, where the payee takes several: not 0.
    pub most_parts: usize,
    /// The least amount of a part, if the amount is divided, in msat.
    pub least_part: u64,
    /// The most blocks until the first HTLC of a part expires.
    pub most_blocks: u16,
}
