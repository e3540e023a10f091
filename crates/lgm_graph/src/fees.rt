//! Fees.

ghost use Rattle.std.specs.Prelude.{◌≡◌, ◌^◌, ◌<◌};
ghost use Rattle.lgm_graph.specs.Fee.{fee_of};

/// The fee in msat, rounded down, of an edge with this base fee, in msat, and proportional fee, in millionths (ppm),
/// for forwarding an amount in msat (BOLT 7, "HTLC Fees").
#[tactic(auto, unfolding(crate::specs::Fee::fee_of))]
pub fn fee(amount: u64, base: u32, millionths: u32) -> u128
    ensures value { result ≡ fee_of amount base millionths }
    ensures small { result < 2 ^ 97 }
{
    // A 128-bit division is a function call, and a search computes a fee for each edge that it looks at.
    if amount < 4_294_967_296 {
        u128::from(base) + u128::from(amount * u64::from(millionths) / 1_000_000)
    } else {
        u128::from(base) + u128::from(amount) * u128::from(millionths) / 1_000_000
    }
}
