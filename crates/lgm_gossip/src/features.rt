//! Feature bits.

ghost use Rattle.std.specs.Prelude.{◌≡◌};
ghost use Rattle.lgm_gossip.specs.Features.{has_even_bit};

/// Whether an even feature bit is set. Bits are numbered from the least significant bit of the last byte, so the even
/// ones are those of 0x55 in each byte; an even bit must be understood (BOLT 9, "Assigned feature flags").
pub fn has_even_bit(features: &[u8]) -> bool
    ensures { result ≡ has_even_bit features.now }
{
    features.iter().any(|byte| byte & 0x55 != 0)
}
