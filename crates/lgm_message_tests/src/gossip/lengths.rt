//! Length fields that say one less or one more than the sender meant.

use super::words::{assert_fault, assert_kept};
use lgm_gossip::DecodeFault;
use lgm_gossip::DecodeFault::{Cut, Flags, Ids, Tlv, TlvKind};
use lgm_wire::WireFault;
use std::alloc::Global;
use std::process::Abort;
use std::test::Fail;

/// Whether the bytes before a field, the field and the rest are no message, with this as their first
/// fault.
fn assert_fault_at(
    rt: &impl Abort,
    alloc: Global,
    parts: [&str; 3],
    want: DecodeFault,
) -> Result<(), Fail> {
    let [front, field, rest] = parts;
    let words = format!(in alloc; "{front} {field} {rest}")?;
    assert_fault(rt, alloc, words.as_str(), want)
}

/// One less moves what follows the field, so that a byte is left over. One more extends past the end.
#[test]
fn lengths_of_an_announcement(rt: HostRuntime) -> Result<(), Fail> {
    for (front, less, more, rest) in [
        (
            "0100 00*256",
            "0001",
            "0003",
            "aabb c1*32 0000010000000000 02 0a*32 02 0b*32 02 ee*32 02 ee*32",
        ),
        (
            "0101 00*64",
            "0001",
            "0003",
            "aabb 00000005 02 0b*32 00*3 00*32 0007 017f0000012607",
        ),
        (
            "0101 00*64 0002 aabb 00000005 02 0b*32 00*3 00*32",
            "0006",
            "0008",
            "017f0000012607",
        ),
    ] {
        let short = format!(in rt.alloc(); "{front} {less} {rest}")?;
        assert_kept(&rt, rt.alloc(), short.as_str())?;
        assert_fault_at(&rt, rt.alloc(), [front, more, rest], Cut)?;
    }
    Ok(())
}

/// The length of ids: one less leaves seven bytes, one more takes a byte of what follows.
#[test]
fn lengths_of_ids(rt: HostRuntime) -> Result<(), Fail> {
    for (front, record) in [
        ("0105 c1*32", "0102 00 1f"),
        ("0108 c1*32 00*8 01", "0109 00 00*8"),
    ] {
        for (length, behind, want) in [
            ("0008", "", Ids),
            ("000a", "", Cut),
            ("000a", record, Ids),
        ] {
            let words = format!(in rt.alloc(); "{front} {length} 00 0927c00000020000 {behind}")?;
            assert_fault(&rt, rt.alloc(), words.as_str(), want)?;
        }
    }
    Ok(())
}

/// The length of a record: one less leaves a byte that is no record, one more extends past the end. The contents of the
/// record are read only if the stream is complete.
#[test]
fn lengths_of_records(rt: HostRuntime) -> Result<(), Fail> {
    for (front, lengths, value) in [
        (
            "0105 c1*32 0009 00 0927c00000020000",
            ["0101", "0103"],
            "00 1f",
        ),
        ("0107 c1*32 00*8", ["0100", "0102"], "05"),
        (
            "0108 c1*32 00*8 01 0009 00 0927c00000020000",
            ["0108", "010a"],
            "00 00*7 05",
        ),
    ] {
        for length in lengths {
            assert_fault_at(&rt, rt.alloc(), [front, length, value], Tlv(WireFault::Cut))?;
        }
    }
    Ok(())
}

/// The length of a record and the ids beside it: each complete, but they don't match.
#[test]
fn records_of_other_ids(rt: HostRuntime) -> Result<(), Fail> {
    for (front, record, want) in [
        ("0105 c1*32", "0102 00 1f", Flags),
        ("0108 c1*32 00*8 01", "0109 00 00*8", TlvKind(1)),
    ] {
        for ids in ["0001 00", "0011 00 00*16"] {
            assert_fault_at(&rt, rt.alloc(), [front, ids, record], want)?;
        }
    }
    Ok(())
}
