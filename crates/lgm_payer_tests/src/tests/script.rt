//! Payers that are driven by lists of steps.

use super::made::{begin, next_part};
use lgm_payer::{Bounds, Failure, Payer, PayerFault, Unpaid};
use lgm_store::Map;
use std::alloc::Global;
use std::process::Abort;
use std::test::Fail;

/// A call, and what it is to return.
#[derive(Clone, Copy)]
pub enum Step {
    /// Begins a payment of 1,000 msat: its number.
    Begin(Bounds, Result<u64, PayerFault>),
    /// Asks for the next part of a payment, where the payer's channel can send so much, in msat, with so many parts
    /// reckoned: its number.
    Next(u64, u64, u64, Result<Option<u64>, Unpaid>),
    /// A part of a payment fails by the node at a place, with a code.
    Failed(u64, u64, usize, u16, Result<(), PayerFault>),
    /// It fails, and no message can be read.
    Unreadable(u64, u64, Result<(), PayerFault>),
    /// The payee takes the whole.
    Fulfilled(u64, Result<(), PayerFault>),
    Abandon(u64, Result<(), PayerFault>),
    Forget(u64, Result<(), PayerFault>),
    /// The first payment that isn't forgotten: whether it is paid, what is left of it, and its fees, in msat.
    State(bool, u64, u64),
    /// A part of it at a place: the amount and the fee, in msat, and the id of the last hop.
    Part(usize, u64, u64, u64),
}

/// What the first payment is like.
fn check_state(rt: &impl Abort, payer: &Payer, is_paid: bool, left: u64, fees: u64) {
    assert!(rt; 0 < payer.payments().len());
    let payment = &payer.payments()[0];
    assert_eq!(rt; payment.is_paid(), is_paid);
    assert_eq!(rt; payment.left(), left);
    assert_eq!(rt; payment.fees(), fees);
}

/// What a part of it is like.
fn check_part(rt: &impl Abort, payer: &Payer, place: usize, amount: u64, fee: u64, last: u64) {
    assert!(rt; 0 < payer.payments().len());
    let parts = payer.payments()[0].parts();
    assert!(rt; place < parts.len());
    let hops = parts[place].route.as_slice();
    assert_eq!(rt; parts[place].amount, amount);
    assert_eq!(rt; parts[place].fee, fee);
    assert_eq!(rt; hops[hops.len() - 1].scid.to_u64(), last);
}

/// The number of the next part of a payment.
fn next(
    rt: &impl Abort,
    alloc: Global,
    payer: &mut Payer,
    map: &Map,
    payment: u64,
    max: u64,
    reckoned: u64,
) -> Result<Option<u64>, Unpaid> {
    match next_part(rt, alloc, payer, payment, map, max, reckoned)? {
        Some(sending) => Ok(Some(sending.part.number)),
        None => Ok(None),
    }
}

/// Takes a step.
fn take(rt: &impl Abort, alloc: Global, payer: &mut Payer, map: &Map, step: Step) {
    match step {
        Step::Begin(bounds, want) => assert_eq!(rt; begin(alloc, payer, bounds), want),
        Step::Next(payment, max, reckoned, want) => {
            assert_eq!(rt; next(rt, alloc, payer, map, payment, max, reckoned), want)
        }
        Step::Failed(payment, part, place, code, want) => {
            let failure = Failure {
                place,
                code,
                is_renewed: false,
            };
            assert_eq!(rt; payer.failed(alloc, payment, part, failure), want)
        }
        Step::Unreadable(payment, part, want) => {
            assert_eq!(rt; payer.unreadable(alloc, payment, part), want)
        }
        Step::Fulfilled(payment, want) => assert_eq!(rt; payer.fulfilled(payment), want),
        Step::Abandon(payment, want) => assert_eq!(rt; payer.abandon(payment), want),
        Step::Forget(payment, want) => assert_eq!(rt; payer.forget(payment), want),
        Step::State(is_paid, left, fees) => check_state(rt, payer, is_paid, left, fees),
        Step::Part(place, amount, fee, last) => check_part(rt, payer, place, amount, fee, last),
    }
}

/// Takes steps, one after the other.
pub fn run(rt: &impl Abort, alloc: Global, payer: &mut Payer, map: &Map, steps: &[Step]) {
    for step in steps {
        take(rt, alloc, payer, map, *step);
    }
}

/// Takes them on a map of two ways, with a payer that begins one payment.
pub fn run_two_ways(
    rt: &impl Abort,
    alloc: Global,
    bounds: Bounds,
    steps: &[Step],
) -> Result<(), Fail> {
    let map = lgm_test_gossip::map_of(alloc, &super::made::two_ways())?;
    let mut payer = super::made::payer(alloc, bounds)?;
    run(rt, alloc, &mut payer, &map, steps);
    Ok(())
}
