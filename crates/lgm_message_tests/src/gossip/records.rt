//! How records after the fields are read, and what is written of them.

use super::words::{assert_written, bytes_of};
use lgm_gossip::{ChainHash, Message, RangeQuery, decode};
use std::alloc::Global;
use std::test::Fail;

/// Ids are written after a byte 0, even if there were no bytes for them. Records of odd types that aren't known are
/// skipped, checksums aren't stored, and neither is written.
#[test]
fn written_again(rt: HostRuntime) -> Result<(), Fail> {
    let table: [(&str, &str); 6] = [
        ("0105 c1*32 0000", "0105 c1*32 0001 00"),
        ("0105 c1*32 0000 0101 00", "0105 c1*32 0001 00 0101 00"),
        (
            "0105 c1*32 0001 00 0302 ffff fd012d 00",
            "0105 c1*32 0001 00",
        ),
        (
            "0107 c1*32 00000000 00000001 0301 aa",
            "0107 c1*32 00000000 00000001",
        ),
        (
            "0108 c1*32 00*8 01 0000 0302 ffff",
            "0108 c1*32 00*8 01 0001 00",
        ),
        (
            "0108 c1*32 00*8 01 0000 0101 00 0300 0500",
            "0108 c1*32 00*8 01 0001 00 0101 00",
        ),
    ];
    for (words, want) in table {
        assert_written(&rt, rt.alloc(), words, want)?;
    }
    Ok(())
}

/// The query of a range that the words are.
fn range_query(alloc: Global, words: &str) -> Result<RangeQuery, Fail> {
    let bytes = bytes_of(alloc, words)?;
    match decode(alloc, bytes.as_slice())? {
        Message::RangeQuery(query) => Ok(query),
        _ => Err("a message of another type")?,
    }
}

/// A query of a range with options, and one with a record of an odd type that isn't known.
#[test]
fn options(rt: HostRuntime) -> Result<(), Fail> {
    let chain_hash = ChainHash([0xc1; 32]);
    let with_options = RangeQuery {
        chain_hash,
        first_blocknum: 599_990,
        number_of_blocks: 20,
        options: Some(1),
    };
    let query = range_query(rt.alloc(), "0107 c1*32 000927b6 00000014 010101")?;
    assert_eq!(rt; query, with_options);
    let without = RangeQuery {
        chain_hash,
        first_blocknum: 0,
        number_of_blocks: 1,
        options: None,
    };
    let query = range_query(rt.alloc(), "0107 c1*32 00000000 00000001 0301aa")?;
    assert_eq!(rt; query, without);
    Ok(())
}
