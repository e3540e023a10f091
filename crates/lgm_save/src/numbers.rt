//! Numbers of a fixed width, big-endian.

ghost use Rattle.std.specs.Prelude.{◌≡◌, ◌++◌, ◌<◌, length, IfSome, IsNone};
ghost use Rattle.lgm_save.specs.Numbers.{in_two, in_eight};

/// The eight bytes of a number.
pub(crate) fn in_eight(number: u64) -> [u8; 8]
    ensures { result ≡ in_eight number }
{
    number.to_be_bytes()
}

/// The two bytes of a number.
pub(crate) fn in_two(number: u16) -> [u8; 2]
    ensures { result ≡ in_two number }
{
    number.to_be_bytes()
}

/// The number whose eight bytes are in front, and what is behind them.
pub(crate) fn eight_in(bytes: &[u8]) -> Option<(u64, &[u8])>
    ensures some { IfSome result (λ found. bytes.now ≡ in_eight found.0 ++ found.1.now) }
    ensures none { IsNone result → length bytes.now < 8 }
{
    let (digits, rest) = bytes.split_first_chunk::<8>()?;
    Some((u64::from_be_bytes(*digits), rest))
}

/// The number whose two bytes are in front, and what is behind them.
pub(crate) fn two_in(bytes: &[u8]) -> Option<(u16, &[u8])>
    ensures some { IfSome result (λ found. bytes.now ≡ in_two found.0 ++ found.1.now) }
    ensures none { IsNone result → length bytes.now < 2 }
{
    let (digits, rest) = bytes.split_first_chunk::<2>()?;
    Some((u16::from_be_bytes(*digits), rest))
}
