//! `lgm_payload`: payloads that are read, and their faults. What is built for a route is in `tests/scripts`.

use lgm_gossip::{Bytes, Point, Scid};
use lgm_payload::{PayloadFault, Payment, read};
use lgm_route::Hop;
use lgm_wire::WireFault;
use std::alloc::Global;
use std::test::Fail;

/// A payment secret.
pub const SECRET: [u8; 32] = [0x11; 32];

/// The payload of a node that forwards 4,999,999 msat over 600000x1x0.
const FORWARD: [u8; 21] =
    *b"\x14\x02\x03\x4c\x4b\x3f\x04\x03\x0a\xae\x69\x06\x08\x09\x27\xc0\x00\x00\x01\x00\x00";

/// The payload of the payee of 4,999,999 msat, with its length in front.
fn arrival(alloc: Global) -> Result<Vec<u8>, Fail> {
    let mut bytes = Vec::from_slice(
        alloc,
        b"\x2f\x02\x03\x4c\x4b\x3f\x04\x03\x0a\xae\x69\x08\x23",
    )?;
    bytes.extend_from_slice(&SECRET)?;
    bytes.extend_from_slice(b"\x4c\x4b\x3f")?;
    Ok(bytes)
}

fn point(last: u8) -> Point {
    let mut bytes = [last; 33];
    bytes[0] = 2;
    Point(bytes)
}

/// Two channels, of which the second charges 10,199 msat and 20 blocks.
pub fn two_hops() -> [Hop; 2] {
    [
        Hop {
            scid: Scid::new(600_000, 0, 0),
            from: point(0x0a),
            to: point(0x0b),
            amount: 5_010_198,
            expiry: 700_029,
        },
        Hop {
            scid: Scid::new(600_000, 1, 0),
            from: point(0x0b),
            to: point(0x0c),
            amount: 4_999_999,
            expiry: 700_009,
        },
    ]
}

/// The payloads of two hops.
#[test]
fn payloads_read_back(rt: HostRuntime) -> Result<(), Fail> {
    let forward = read(rt.alloc(), &FORWARD)?;
    assert_eq!(rt; forward.amount, 4_999_999);
    assert_eq!(rt; forward.expiry, 700_009);
    assert_eq!(rt; forward.next, Some(Scid::new(600_000, 1, 0)));
    assert_eq!(rt; forward.payment, None);
    assert!(rt; forward.metadata.is_none());
    let last = read(rt.alloc(), &arrival(rt.alloc())?)?;
    assert_eq!(rt; last.amount, 4_999_999);
    assert_eq!(rt; last.expiry, 700_009);
    assert_eq!(rt; last.next, None);
    let payment = Payment {
        secret: SECRET,
        total: 4_999_999,
    };
    assert_eq!(rt; last.payment, Some(payment));
    assert!(rt; last.metadata.is_none());
    Ok(())
}

fn fault_of(alloc: Global, bytes: &[u8]) -> Option<PayloadFault> {
    read(alloc, bytes).err()
}

#[test]
fn faults(rt: HostRuntime) -> Result<(), Fail> {
    let mut short = FORWARD;
    short[0] = 0x13;
    let mut both = Vec::from_slice(
        rt.alloc(),
        b"\x32\x02\x01\x01\x04\x01\x01\x06\x08\x09\x27\xc0\x00\x00\x01\x00\x00\x08\x20",
    )?;
    both.extend_from_slice(&SECRET)?;
    let rows: [(&[u8], PayloadFault); 11] = [
        (&short, PayloadFault::Length),
        (b"", PayloadFault::Length),
        (b"\x04\x02\x01\x01\x04", PayloadFault::Tlv(WireFault::Cut)),
        (
            b"\x06\x02\x01\x01\x02\x01\x01",
            PayloadFault::Tlv(WireFault::Order),
        ),
        (b"\x05\x02\x03\x4c\x4b\x3f", PayloadFault::Missing),
        (b"\x03\x14\x01\x00", PayloadFault::Kind(20)),
        (b"\x03\x0a\x01\x00", PayloadFault::Blinded),
        (b"\x03\x02\x01\x00", PayloadFault::Kind(2)),
        (b"\x06\x02\x01\x00\x0a\x01\x00", PayloadFault::Kind(2)),
        (b"\x06\x0a\x01\x00\x14\x01\x00", PayloadFault::Blinded),
        (&both, PayloadFault::Extra),
    ];
    for (bytes, fault) in rows {
        assert_eq!(rt; fault_of(rt.alloc(), bytes), Some(fault), "{bytes:?}");
    }
    Ok(())
}

/// A payload that ends early isn't as long as its length says.
#[test]
fn beginnings(rt: HostRuntime) -> Result<(), Fail> {
    let last = arrival(rt.alloc())?;
    let payloads: [&[u8]; 2] = [&FORWARD, &last];
    for bytes in payloads {
        for end in 0..bytes.len() {
            let (front, _) = bytes.split_at(end);
            assert_eq!(rt;
                fault_of(rt.alloc(), front),
                Some(PayloadFault::Length),
                "{end}"
            );
        }
    }
    Ok(())
}

/// A record of an unknown odd type is skipped, and metadata are kept.
#[test]
fn other_records(rt: HostRuntime) -> Result<(), Fail> {
    let bytes = b"\x10\x02\x01\x05\x03\x02\xff\xff\x04\x01\x07\x10\x04\x01\x00\x02\x03";
    let payload = read(rt.alloc(), bytes)?;
    assert_eq!(rt; payload.amount, 5);
    assert_eq!(rt; payload.expiry, 7);
    assert_eq!(rt;
        payload.metadata.as_ref().map(Bytes::as_slice),
        Some(b"\x01\x00\x02\x03".as_slice())
    );
    Ok(())
}
