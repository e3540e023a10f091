//! Values of fields.

ghost use Rattle.std.specs.Prelude.{◌≡◌, ◌<◌, IfSome};
ghost use Rattle.lgm_script.specs.inner.Digits.{further, value_at};
ghost use Rattle.lgm_script.specs.Field.{number_of, number_below, point_of};

use lgm_gossip::Point;

/// The number with one more digit, if it is below 2^64.
fn further(value: u64, byte: u8) -> Option<u64>
    ensures { result ≡ further value byte }
{
    if !byte.is_ascii_digit() {
        return None;
    }
    value.checked_mul(10)?.checked_add(u64::from(byte - b'0'))
}

fn value(digits: &[u8]) -> Option<u64>
    ensures { result ≡ value_at 0 digits.now }
{
    let mut value = 0;
    for byte in digits {
        value = further(value, *byte)?;
    }
    Some(value)
}

/// A decimal number without leading zeros, below 2^64.
pub fn number(digits: &[u8]) -> Option<u64>
    ensures { result ≡ number_of digits.now }
{
    let first = *digits.first()?;
    if first == b'0' && digits.len() > 1 {
        return None;
    }
    value(digits)
}

/// A decimal number without leading zeros, below a limit.
pub fn number_below(limit: u64, digits: &[u8]) -> Option<u64>
    ensures value { result ≡ number_below limit digits.now }
    ensures small { IfSome result (λ number. number < limit) }
{
    let number = number(digits)?;
    if number < limit { Some(number) } else { None }
}

/// A point: any 33 bytes, each as two hexadecimal digits. It is compiled into its callers, which move it then.
#[inline(always)]
pub fn point(digits: &[u8]) -> Option<Point>
    ensures { result ≡ point_of digits.now }
{
    let mut bytes = [0; 33];
    match lgm_hex::decode_to_slice(digits, &mut bytes) {
        Ok(()) => Some(Point(bytes)),
        Err(_) => None,
    }
}
