//! Messages that end too early, or that have trailing bytes.

use super::words::{assert_fault, assert_kept, assert_written, bytes_of};
use lgm_gossip::{DecodeFault, decode};
use lgm_wire::WireFault;
use std::alloc::Global;
use std::process::Abort;
use std::test::Fail;

/// The fault of the first `len` bytes of a message whose fields, the type too, have `fields` bytes, and whose last
/// byte is that of a field or of the only record.
fn fault_of_front(len: usize, fields: usize) -> Option<DecodeFault> {
    if len < 2 {
        Some(DecodeFault::Short)
    } else if len < fields {
        Some(DecodeFault::Cut)
    } else if len == fields {
        None
    } else {
        Some(DecodeFault::Tlv(WireFault::Cut))
    }
}

fn assert_fronts(rt: &impl Abort, alloc: Global, words: &str, fields: usize) -> Result<(), Fail> {
    let whole = bytes_of(alloc, words)?;
    let mut front = Vec::new(alloc);
    for byte in whole.as_slice() {
        let fault = decode(alloc, front.as_slice()).err();
        assert_eq!(rt; fault, fault_of_front(front.len(), fields), "{words}");
        front.push(*byte)?;
    }
    Ok(())
}

/// The types whose fields may be followed by trailing bytes, with how many bytes the type and the fields have.
const ANNOUNCEMENTS: [(&str, usize); 3] = [
    (
        "0100 00*256 0000 c1*32 0000010000000000 02 0a*32 02 0b*32 02 ee*32 02 ee*32",
        432,
    ),
    ("0101 00*64 0000 00000005 02 0b*32 00*3 00*32 0000", 142),
    (
        "0102 00*64 c1*32 0000010000000000 00000005 01 00 0028 0000000000000001 00*8 0000000002faf080",
        138,
    ),
];

/// The other types, with the same numbers.
const QUERIES: [(&str, usize); 5] = [
    (
        "0105 c1*32 0021 00 0000010000000000 0000090000000000 0000020000000000 0000010000000000 \
         0105 00 01000810",
        69,
    ),
    ("0106 c1*32 01", 35),
    ("0107 c1*32 000927b6 00000014 0101 01", 42),
    (
        "0108 c1*32 000927c0 0000000a 01 0009 00 0927c0000fa00000 0109 00 00*8",
        54,
    ),
    ("0109 c1*32 00000005 00000001", 42),
];

/// Each proper prefix of a message of each type.
#[test]
fn proper_fronts(rt: HostRuntime) -> Result<(), Fail> {
    for (words, fields) in ANNOUNCEMENTS {
        assert_fronts(&rt, rt.alloc(), words, fields)?;
    }
    for (words, fields) in QUERIES {
        assert_fronts(&rt, rt.alloc(), words, fields)?;
    }
    Ok(())
}

/// The bytes after the fields of an announcement or an update are preserved.
#[test]
fn bytes_behind_are_kept(rt: HostRuntime) -> Result<(), Fail> {
    for (fields, _) in ANNOUNCEMENTS {
        let words = format!(in rt.alloc(); "{fields} ff")?;
        assert_kept(&rt, rt.alloc(), words.as_str())?;
    }
    Ok(())
}

/// The bytes after the fields of an end or a filter are dropped, even if they look like a record. A byte
/// after a query or a reply is a record that is cut.
#[test]
fn bytes_behind_are_dropped_or_a_record(rt: HostRuntime) -> Result<(), Fail> {
    let cut = DecodeFault::Tlv(WireFault::Cut);
    for (message, behind, fault) in [
        ("0106 c1*32 01", "ff", None),
        ("0106 c1*32 00", "0200", None),
        ("0109 c1*32 00000005 00000001", "ff", None),
        ("0109 c1*32 00000005 00000001", "0000", None),
        ("0105 c1*32 0000", "01", Some(cut)),
        (
            "0105 c1*32 0009 00 0927c00000020000 0102 00 1f",
            "ff",
            Some(cut),
        ),
        ("0107 c1*32 000927b6 00000014", "05", Some(cut)),
        ("0107 c1*32 000927b6 00000014 0101 01", "05", Some(cut)),
        ("0108 c1*32 000927c0 0000000a 01 0001 00", "01", Some(cut)),
        (
            "0108 c1*32 000927c0 0000000a 01 0009 00 0927c0000fa00000 0109 00 00*8",
            "ff",
            Some(cut),
        ),
    ] {
        let words = format!(in rt.alloc(); "{message} {behind}")?;
        match fault {
            None => assert_written(&rt, rt.alloc(), words.as_str(), message)?,
            Some(fault) => assert_fault(&rt, rt.alloc(), words.as_str(), fault)?,
        }
    }
    Ok(())
}
