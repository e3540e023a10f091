//! What payers are told, and refuse.

use super::made::{BOUNDS, invoice, payer_without};
use super::script::{Step, run_two_ways};
use lgm_payer::{Bounds, PayerFault, Unfound, Unpaid};
use std::test::Fail;

#[test]
fn payments_that_cannot_begin(rt: HostRuntime) -> Result<(), Fail> {
    let alloc = rt.alloc();
    let mut payer = payer_without(alloc)?;
    let records = Vec::new(alloc);
    assert_eq!(rt;
        payer.begin(alloc, invoice(0), &[], None, records, BOUNDS),
        Err(PayerFault::AmountZero)
    );
    let none = Bounds {
        most_parts: 0,
        ..BOUNDS
    };
    run_two_ways(
        &rt,
        alloc,
        BOUNDS,
        &[
            Step::Begin(none, Err(PayerFault::NoParts)),
            Step::Begin(BOUNDS, Ok(1)),
        ],
    )
}

/// The route has three hops: node 9, the payer's, to 0, 1 and 3. Node 2 can't send
/// `incorrect_or_unknown_payment_details`, nor the payee `temporary_channel_failure`.
#[test]
fn failures_that_are_refused(rt: HostRuntime) -> Result<(), Fail> {
    let steps = [
        Step::Fulfilled(0, Err(PayerFault::NothingUnderWay)),
        Step::Next(0, 2_000, 0, Ok(Some(0))),
        Step::Failed(0, 0, 4, 0x400f, Err(PayerFault::BeyondRoute)),
        Step::Failed(0, 0, 2, 0x400f, Err(PayerFault::ForeignCode)),
        Step::Failed(0, 0, 3, 0x1007, Err(PayerFault::ForeignCode)),
        Step::Failed(0, 1, 2, 0x1007, Err(PayerFault::UnknownPart)),
        Step::Unreadable(1, 0, Err(PayerFault::UnknownPayment)),
        Step::Forget(0, Err(PayerFault::UnderWay)),
        Step::State(false, 0, 13),
        Step::Failed(0, 0, 2, 0x1007, Ok(())),
        Step::Unreadable(0, 0, Err(PayerFault::NotUnderWay)),
    ];
    run_two_ways(&rt, rt.alloc(), BOUNDS, &steps)
}

/// What is under way is waited for: here the payee takes it.
#[test]
fn an_abandoned_payment(rt: HostRuntime) -> Result<(), Fail> {
    let steps = [
        Step::Next(0, 2_000, 0, Ok(Some(0))),
        Step::Failed(0, 0, 2, 0x1007, Ok(())),
        Step::Next(0, 2_000, 0, Ok(Some(1))),
        Step::Part(0, 1_000, 13, 2),
        Step::Part(1, 1_000, 53, 4),
        Step::Abandon(0, Ok(())),
        Step::State(false, 0, 53),
        Step::Fulfilled(0, Ok(())),
        Step::State(true, 0, 53),
        Step::Fulfilled(0, Err(PayerFault::AlreadyPaid)),
        Step::Abandon(0, Err(PayerFault::AlreadyPaid)),
        Step::Forget(0, Ok(())),
        Step::Forget(0, Err(PayerFault::UnknownPayment)),
        Step::Begin(BOUNDS, Ok(1)),
        Step::Abandon(1, Ok(())),
        Step::Next(1, 2_000, 2, Err(Unpaid::Abandoned)),
    ];
    run_two_ways(&rt, rt.alloc(), BOUNDS, &steps)
}

#[test]
fn why_nothing_is_sent(rt: HostRuntime) -> Result<(), Fail> {
    let alloc = rt.alloc();
    let cheap = Bounds {
        most_fee: 12,
        least_part: 600,
        ..BOUNDS
    };
    let dear = Err(Unpaid::Unfound(Unfound::TooDear(13)));
    run_two_ways(&rt, alloc, cheap, &[Step::Next(0, 2_000, 0, dear)])?;
    let refused = [
        Step::Next(0, 2_000, 0, Ok(Some(0))),
        Step::Failed(0, 0, 3, 0x400f, Ok(())),
        Step::Next(0, 2_000, 0, Err(Unpaid::PayeeRefused(0x400f))),
        Step::Next(1, 2_000, 0, Err(Unpaid::UnknownPayment)),
        Step::Next(0, 2_000, 2, Err(Unpaid::ReckonedAhead)),
    ];
    run_two_ways(&rt, alloc, BOUNDS, &refused)?;
    let once = Bounds {
        most_tries: 1,
        ..BOUNDS
    };
    let tried = [
        Step::Next(0, 2_000, 0, Ok(Some(0))),
        Step::Failed(0, 0, 2, 0x1007, Ok(())),
        Step::Next(0, 2_000, 0, Err(Unpaid::TriesUsedUp)),
    ];
    run_two_ways(&rt, alloc, once, &tried)
}
