//! The order of faults: the length, the type, the fields from left to right, the encoding of ids, the records.

use super::words::{assert_fault, assert_faults};
use lgm_gossip::DecodeFault;
use lgm_gossip::DecodeFault::{
    Cut, Encoding, Flags, Ids, Long, Short, Tlv, TlvKind, UnknownEven, UnknownOdd,
};
use lgm_wire::WireFault;
use std::test::Fail;

/// The length comes before the type, and the type before what follows it.
#[test]
fn lengths_and_types(rt: HostRuntime) -> Result<(), Fail> {
    let table: [(&str, DecodeFault); 10] = [
        ("", Short),
        ("01", Short),
        ("0010 ff*65534", Long),
        ("0103 ff*65533", UnknownOdd(0x103)),
        ("0010", UnknownEven(0x10)),
        ("0000", UnknownEven(0)),
        ("0104", UnknownEven(0x104)),
        ("010a", UnknownEven(0x10a)),
        ("00ff", UnknownOdd(0xff)),
        ("ffff", UnknownOdd(0xffff)),
    ];
    assert_faults(&rt, rt.alloc(), &table)
}

/// Fields come before the encoding of ids, that before their number of bytes, and all of these before the records.
#[test]
fn encoded_ids(rt: HostRuntime) -> Result<(), Fail> {
    let table: [(&str, DecodeFault); 9] = [
        ("0105 c1*32 0009 01 0927c000000200", Cut),
        ("0105 c1*32 0009 01 0927c00000020000", Encoding(1)),
        ("0105 c1*32 0002 ff00 fd", Encoding(255)),
        ("0105 c1*32 0008 00 0927c000000200", Ids),
        ("0105 c1*32 0002 0000 fd", Ids),
        ("0105 c1*32 0001 00 fd", Tlv(WireFault::Cut)),
        ("0108 c1*32 00*8 01 0009 01 0927c00000020000", Encoding(1)),
        ("0108 c1*32 00*8 01 0008 00 0927c000000200", Ids),
        ("0108 c1*32 00*8 01 000a 00 0927c00000020000 00 0000", Ids),
    ];
    assert_faults(&rt, rt.alloc(), &table)
}

/// Records that are no stream come before any that is unknown or malformed.
#[test]
fn streams(rt: HostRuntime) -> Result<(), Fail> {
    let table: [(&str, DecodeFault); 6] = [
        ("0105 c1*32 0000 0200 0100", Tlv(WireFault::Order)),
        ("0105 c1*32 0000 fd0001 00", Tlv(WireFault::NotMinimal)),
        ("0107 c1*32 00*8 0000 0102 00", Tlv(WireFault::Cut)),
        ("0107 c1*32 00*8 0100 0100", Tlv(WireFault::Order)),
        ("0108 c1*32 00*8 01 0000 0100 03fd", Tlv(WireFault::Cut)),
        (
            "0108 c1*32 00*8 01 0000 0200 05fd0000",
            Tlv(WireFault::NotMinimal),
        ),
    ];
    assert_faults(&rt, rt.alloc(), &table)
}

/// Of several faulty records the first one counts. An unknown even type is one.
#[test]
fn even_records(rt: HostRuntime) -> Result<(), Fail> {
    let table: [(&str, DecodeFault); 8] = [
        ("0105 c1*32 0000 0200", TlvKind(2)),
        ("0105 c1*32 0000 0000 0100", TlvKind(0)),
        ("0105 c1*32 0000 0100 0200", Flags),
        ("0107 c1*32 00000000 00000001 0000", TlvKind(0)),
        ("0107 c1*32 00*8 0101 00 0200", TlvKind(2)),
        ("0108 c1*32 00*8 01 0000 0101 00 0200", TlvKind(2)),
        ("0108 c1*32 00*8 01 0000 0300 0400", TlvKind(4)),
        ("0108 c1*32 00*8 01 0000 fe00010000 00", TlvKind(0x1_0000)),
    ];
    assert_faults(&rt, rt.alloc(), &table)
}

/// A record of flags has a byte 0, and then exactly as many numbers as there are ids.
#[test]
fn query_flags(rt: HostRuntime) -> Result<(), Fail> {
    let table: [(&str, DecodeFault); 8] = [
        ("0100", Flags),
        ("0101 00", Flags),
        ("0102 01 1f", Encoding(1)),
        ("0101 ff", Encoding(255)),
        ("0103 00 1f1f", Flags),
        ("0102 00 fd", Flags),
        ("0104 00 fd0001", Flags),
        ("0103 00 fd1f", Flags),
    ];
    for (record, want) in table {
        let words = format!(in rt.alloc(); "0105 c1*32 0009 00 0927c00000020000 {record}")?;
        assert_fault(&rt, rt.alloc(), words.as_str(), want)?;
    }
    let four =
        "0105 c1*32 0021 00 0000010000000000 0000090000000000 0000020000000000 0000010000000000 \
                0104 00 1f1f1f";
    assert_fault(&rt, rt.alloc(), four, Flags)
}

/// A record of options has exactly one number.
#[test]
fn options(rt: HostRuntime) -> Result<(), Fail> {
    for record in ["0100", "0102 0000", "0103 fd0001", "0102 fdff", "0101 ff"] {
        let words = format!(in rt.alloc(); "0107 c1*32 00*8 {record}")?;
        assert_fault(&rt, rt.alloc(), words.as_str(), TlvKind(1))?;
    }
    Ok(())
}

/// A record of timestamps has a byte 0, and then exactly eight bytes for each id.
#[test]
fn timestamps(rt: HostRuntime) -> Result<(), Fail> {
    let table: [(&str, DecodeFault); 6] = [
        ("0100", TlvKind(1)),
        ("0101 00", TlvKind(1)),
        ("0109 01 00*8", Encoding(1)),
        ("0108 00 00*7", TlvKind(1)),
        ("010a 00 00*9", TlvKind(1)),
        ("0111 00 00*16", TlvKind(1)),
    ];
    for (record, want) in table {
        let words = format!(in rt.alloc(); "0108 c1*32 00*8 01 0009 00 0927c00000020000 {record}")?;
        assert_fault(&rt, rt.alloc(), words.as_str(), want)?;
    }
    Ok(())
}
