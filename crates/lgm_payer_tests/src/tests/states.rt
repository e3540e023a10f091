//! The bytes of payers' states.

use super::made::{BOUNDS, edge, invoice};
use lgm_gossip::{Bytes, Scid};
use lgm_graph::{Estimate, Estimates, Hop, Route};
use lgm_payer::{Ending, Failure, Part, Payer, Payment, Stage};
use lgm_payer_state::{StateFault, read, write};
use lgm_payload::{Arrival, CustomRecord};
use lgm_save::seal;
use lgm_test_gossip::point;
use std::alloc::{AllocError, Global};
use std::process::Abort;
use std::test::Fail;

/// A part of 400 msat and a fee of 5, over two hops.
fn part(alloc: Global, number: u64, ending: Option<Ending>) -> Result<Part, AllocError> {
    let hop = Hop {
        scid: Scid::from_u64(0x0102_0304_0506_0708),
        from: point(9),
        to: point(3),
        amount: 405,
        expiry: 120,
    };
    Ok(Part {
        number,
        route: Route::of(alloc, &[hop, Hop { amount: 400, ..hop }])?,
        amount: 400,
        fee: 5,
        blocks: 20,
        ending,
    })
}

/// Three parts from a number on: two failed, and one is under way.
fn parts(alloc: Global, first: u8) -> Result<Vec<Part>, AllocError> {
    let failure = Failure {
        place: 1,
        code: 0x1007,
        is_renewed: true,
    };
    let mut parts = Vec::new(alloc);
    parts.push(part(alloc, u64::from(first), Some(Ending::Unreadable))?)?;
    parts.push(part(alloc, u64::from(first) + 1, Some(Ending::Failed(failure)))?)?;
    parts.push(part(alloc, u64::from(first) + 2, None)?)?;
    Ok(parts)
}

/// What the payee of an amount gets, with metadata and a record.
fn arrival(alloc: Global, amount: u64) -> Result<Arrival, AllocError> {
    let mut records = Vec::new(alloc);
    records.push(CustomRecord {
        kind: 65_537,
        value: Bytes::from_slice(alloc, &[4, 5])?,
    })?;
    let metadata = Bytes::from_slice(alloc, &[1, 2, 3])?;
    Ok(Arrival::new(&[7; 32], amount, Some(metadata), records))
}

/// A payment of an amount, in msat, with three parts and a hint, unless it can't be one.
fn payment(
    alloc: Global,
    number: u8,
    amount: u64,
    stage: Stage,
) -> Result<Option<Payment>, AllocError> {
    let mut hints = Vec::new(alloc);
    hints.push(edge(5, 2, 3, 9_000))?;
    let arrival = arrival(alloc, amount)?;
    let parts = parts(alloc, number)?;
    Ok(Payment::restored(
        u64::from(number),
        point(9),
        invoice(amount),
        hints,
        arrival,
        BOUNDS,
        stage,
        parts,
    ))
}

/// What is known of two edges.
fn learnt(alloc: Global) -> Result<Estimates, AllocError> {
    let estimate = Estimate {
        least: 10,
        most: 5_000,
        penalty: 1,
    };
    let mut learnt = Estimates::new(alloc);
    learnt.set(Scid::from_u64(5), &point(2), estimate)?;
    learnt.set(
        Scid::from_u64(5),
        &point(3),
        Estimate {
            least: 0,
            ..estimate
        },
    )?;
    Ok(learnt)
}

/// A payer with two payments, one under way and one that is paid.
fn payer(rt: &impl Abort, alloc: Global) -> Result<Payer, AllocError> {
    let mut payments = Vec::new(alloc);
    for (number, stage) in [(1, Stage::Open), (4, Stage::Paid)] {
        let made = payment(alloc, number, 1_000, stage)?;
        payments.push(made.expect(rt, "a payment that keeps its bounds"))?;
    }
    Ok(Payer::restored(point(9), payments, learnt(alloc)?, 3, 9, 4))
}

#[test]
fn a_state_is_read_as_it_was_written(rt: HostRuntime) -> Result<(), Fail> {
    let alloc = rt.alloc();
    let made = payer(&rt, alloc)?;
    let bytes = write(alloc, &made)?;
    let again = read(alloc, bytes.as_slice())?;
    assert_eq!(&rt; again.begun(), 3);
    assert_eq!(&rt; again.sent(), 9);
    assert_eq!(&rt; again.settled(), 4);
    assert_eq!(&rt; again.payments().len(), 2);
    assert_eq!(&rt; again.learnt().len(), 2);
    for payment in again.payments() {
        assert_eq!(&rt; payment.left(), 600);
        assert_eq!(&rt; payment.fees(), 5);
        assert_eq!(&rt; payment.parts().len(), 3);
        assert_eq!(&rt; payment.hints().len(), 1);
        assert_eq!(&rt; payment.arrival().records().len(), 1);
    }
    let twice = write(alloc, &again)?;
    assert!(&rt; twice.as_slice() == bytes.as_slice());
    Ok(())
}

/// The opening, 33 bytes of a point, three numbers, two counts, and the sums of these bytes and of their sums.
#[test]
fn the_bytes_of_a_payer_without_payments(rt: HostRuntime) -> Result<(), Fail> {
    let alloc = rt.alloc();
    let made = Payer::restored(
        lgm_gossip::Point([2; 33]),
        Vec::new(alloc),
        Estimates::new(alloc),
        1,
        0x0102,
        0,
    );
    let bytes = write(alloc, &made)?;
    let text = bytes.as_slice();
    assert_eq!(&rt; text.len(), 101);
    assert!(&rt; &text[..12] == b"lgm pay\n\0\0\0\x01".as_slice());
    assert!(&rt; &text[12..45] == [2; 33].as_slice());
    assert!(&rt; text[45..61] == [0, 0, 0, 0, 0, 0, 0, 1, 0, 0, 0, 0, 0, 0, 1, 2]);
    assert!(&rt; &text[61..85] == [0; 24].as_slice());
    assert!(&rt; text[85..] == [0, 0, 0, 0, 0, 0, 2, 0xfb, 0, 0, 0, 0, 0, 0, 0xec, 0xcb]);
    Ok(())
}

/// Whether bytes are refused as damaged.
fn is_damaged(alloc: Global, bytes: &[u8]) -> bool {
    matches!(read(alloc, bytes), Err(StateFault::Damaged))
}

/// Each byte of a state's, changed, and each beginning of them is refused.
fn refuses_changes(rt: &impl Abort, alloc: Global, text: &mut [u8]) {
    for place in 0..text.len() {
        assert!(rt; is_damaged(alloc, &text[..place]));
        text[place] ^= 1;
        assert!(rt; is_damaged(alloc, text));
        text[place] ^= 1;
    }
}

#[test]
fn bytes_that_were_changed_or_cut(rt: HostRuntime) -> Result<(), Fail> {
    let alloc = rt.alloc();
    let made = payer(&rt, alloc)?;
    let bytes = write(alloc, &made)?;
    let mut text = Vec::from_slice(alloc, bytes.as_slice())?;
    refuses_changes(&rt, alloc, text.as_mut_slice());
    assert!(&rt; !is_damaged(alloc, &text));
    text.push(0)?;
    assert!(&rt; is_damaged(alloc, &text));
    Ok(())
}

/// The bytes of a payer without payments, with one byte at a place, and a checksum of these.
fn resealed(alloc: Global, place: usize, byte: u8) -> Result<Vec<u8>, AllocError> {
    let made = Payer::new(alloc, point(9), Estimates::new(alloc));
    let bytes = write(alloc, &made)?;
    let text = bytes.as_slice();
    let mut changed = Vec::from_slice(alloc, &text[..text.len().saturating_sub(16)])?;
    if place < changed.len() {
        changed[place] = byte;
    }
    seal(&mut changed)?;
    Ok(changed)
}

/// Another version, and 2^56 payments or estimates that aren't there.
#[test]
fn bytes_whose_checksum_is_theirs(rt: HostRuntime) -> Result<(), Fail> {
    let alloc = rt.alloc();
    for place in [11, 69, 77] {
        assert!(&rt; !is_damaged(alloc, &resealed(alloc, 100, 0)?));
        assert!(&rt; is_damaged(alloc, &resealed(alloc, place, 2)?));
    }
    Ok(())
}

/// No payment has an amount of 0, or fewer msat than are under way.
#[test]
fn payments_that_cannot_be(rt: HostRuntime) -> Result<(), Fail> {
    let alloc = rt.alloc();
    for (amount, is_one) in [
        (0, false),
        (399, false),
        (400, true),
        (450, false),
        (500, true),
    ] {
        let made = payment(alloc, 1, amount, Stage::Open)?;
        assert_eq!(&rt; made.is_some(), is_one);
    }
    Ok(())
}
