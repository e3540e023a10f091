//! Bytes in words, and what they are read as.
//!
//! A word is hexadecimal digits, or `00*64` for digits that are repeated. The chain of the messages is `c1*32`.

use lgm_gossip::{DecodeFault, decode, encode};
use std::alloc::Global;
use std::process::Abort;
use std::test::Fail;

fn put_word(out: &mut Vec<u8>, alloc: Global, word: &str) -> Result<(), Fail> {
    let (digits, count) = word.split_once('*').unwrap_or((word, "1"));
    let part = hex::decode(alloc, digits)?;
    let count: u32 = count.parse()?;
    for _ in 0..count {
        out.extend_from_slice(part.as_slice())?;
    }
    Ok(())
}

/// The bytes that the words encode.
pub fn bytes_of(alloc: Global, words: &str) -> Result<Vec<u8>, Fail> {
    let mut bytes = Vec::new(alloc);
    for word in words.split_whitespace() {
        put_word(&mut bytes, alloc, word)?;
    }
    Ok(bytes)
}

/// Whether the words are no message, with this as their first fault.
pub fn assert_fault(
    rt: &impl Abort,
    alloc: Global,
    words: &str,
    want: DecodeFault,
) -> Result<(), Fail> {
    let bytes = bytes_of(alloc, words)?;
    let fault = decode(alloc, bytes.as_slice()).err();
    assert_eq!(rt; fault, Some(want), "reading {words}");
    Ok(())
}

/// The same of each row of a table.
pub fn assert_faults(
    rt: &impl Abort,
    alloc: Global,
    table: &[(&str, DecodeFault)],
) -> Result<(), Fail> {
    for (words, want) in table {
        assert_fault(rt, alloc, words, *want)?;
    }
    Ok(())
}

/// Whether the message that the words are is written as these other words.
pub fn assert_written(rt: &impl Abort, alloc: Global, words: &str, want: &str) -> Result<(), Fail> {
    let bytes = bytes_of(alloc, words)?;
    let message = decode(alloc, bytes.as_slice())?;
    let written = encode(alloc, &message)?;
    let wanted = bytes_of(alloc, want)?;
    assert_eq!(rt; written.as_slice(), wanted.as_slice(), "reading {words}");
    Ok(())
}

/// Whether the message that the words are is written as it was read.
pub fn assert_kept(rt: &impl Abort, alloc: Global, words: &str) -> Result<(), Fail> {
    assert_written(rt, alloc, words, words)
}
