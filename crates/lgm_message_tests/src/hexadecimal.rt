//! `lgm_hex`: texts from outside, and the errors of `hex`.

use hex::FromHexError;
use lgm_hex::{append, decode_array, decode_into, decode_to_slice};
use std::test::Fail;

const BYTES: [u8; 16] = *b"\x00\x01\x09\x0a\x0f\x10\x1f\x7f\x80\x99\x9a\xa0\xef\xf0\xfe\xff";

const LOWER: &[u8] = b"0001090a0f101f7f80999aa0eff0feff";

const MIXED: &[u8] = b"0001090A0f101F7f80999aA0EfF0fEFf";

#[test]
fn decodes_either_case(rt: HostRuntime) -> Result<(), Fail> {
    assert_eq!(rt; decode_array::<16>(LOWER)?, BYTES);
    assert_eq!(rt; decode_array::<16>(MIXED)?, BYTES);
    Ok(())
}

#[test]
fn decodes_short_and_odd_parts(rt: HostRuntime) -> Result<(), Fail> {
    let mut out = [0u8; 4];
    decode_to_slice(b"6b697769", &mut out)?;
    assert_eq!(rt; out.as_slice(), b"kiwi".as_slice());
    let mut out = [0u8; 12];
    decode_to_slice(b"48656c6c6f20776f726c6421", &mut out)?;
    assert_eq!(rt; out.as_slice(), b"Hello world!".as_slice());
    Ok(())
}

#[test]
fn decodes_into_a_kept_vector(rt: HostRuntime) -> Result<(), Fail> {
    let mut bytes = b"what was there before".to_vec(rt.alloc())?;
    decode_into(&mut bytes, MIXED)?;
    assert_eq!(rt; bytes.as_slice(), BYTES.as_slice());
    let bad = FromHexError::InvalidHexCharacter { c: 'g', index: 1 };
    assert_eq!(rt; decode_into(&mut bytes, b"0g"), Err(bad));
    assert_eq!(rt; bytes.as_slice(), b"".as_slice());
    Ok(())
}

/// By 16, 32 and 48 bytes: two digits at a time, a block, and two blocks that overlap. What isn't a digit is found in
/// each of them.
#[test]
fn decodes_in_blocks(rt: HostRuntime) -> Result<(), Fail> {
    let alloc = rt.alloc();
    let (mut bytes, mut digits) = (Vec::new(alloc), Vec::new(alloc));
    let mut decoded = Vec::new(alloc);
    for _part in 0..3 {
        bytes.extend_from_slice(&BYTES)?;
        digits.extend_from_slice(MIXED)?;
        decode_into(&mut decoded, digits.as_slice())?;
        assert_eq!(rt; decoded.as_slice(), bytes.as_slice());
    }
    for index in [0, 40, 95] {
        let mut wrong = digits.as_slice().to_vec(alloc)?;
        if let Some(digit) = wrong.get_mut(index) {
            *digit = b'g';
        }
        let bad = FromHexError::InvalidHexCharacter { c: 'g', index };
        assert_eq!(rt; decode_into(&mut decoded, wrong.as_slice()), Err(bad));
    }
    Ok(())
}

#[test]
fn refuses_as_hex_does(rt: HostRuntime) -> Result<(), Fail> {
    assert_eq!(rt;
        decode_array::<16>(&LOWER[..31]),
        Err(FromHexError::OddLength)
    );
    assert_eq!(rt;
        decode_array::<15>(LOWER),
        Err(FromHexError::InvalidStringLength)
    );
    let bad = FromHexError::InvalidHexCharacter { c: 'g', index: 17 };
    assert_eq!(rt; decode_array::<10>(b"0123456789abcdefAgCD"), Err(bad));
    Ok(())
}

#[test]
fn encodes(rt: HostRuntime) -> Result<(), Fail> {
    let mut text = Vec::new(rt.alloc());
    append(&mut text, &BYTES)?;
    assert_eq!(rt; text.as_slice(), LOWER);
    let mut text = b"6 ".to_vec(rt.alloc())?;
    append(&mut text, b"kiwi")?;
    assert_eq!(rt; text.as_slice(), b"6 6b697769".as_slice());
    Ok(())
}

/// By 16, 32 and 48 bytes: one at a time, a block, and two blocks that overlap.
#[test]
fn encodes_in_blocks(rt: HostRuntime) -> Result<(), Fail> {
    let alloc = rt.alloc();
    let (mut bytes, mut digits) = (Vec::new(alloc), Vec::new(alloc));
    for _part in 0..3 {
        bytes.extend_from_slice(&BYTES)?;
        digits.extend_from_slice(LOWER)?;
        let mut text = Vec::new(alloc);
        append(&mut text, bytes.as_slice())?;
        assert_eq!(rt; text.as_slice(), digits.as_slice());
    }
    Ok(())
}
