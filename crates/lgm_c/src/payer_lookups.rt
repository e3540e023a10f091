//! Looking up payments and their parts.

ghost use Rattle.std.specs.Prelude.{◌≡◌, ◌≤◌, length};
ghost use Rattle.std.specs.Option.{option_copied};
ghost use Rattle.lgm_payer.specs.Parts.{is_held};
ghost use Rattle.lgm_c.specs.PayerLooking.{stage_number, c_payment, payment_found, payment_numbered, parts_held};
ghost use Rattle.lgm_c.specs.PayerLooking.{c_part_info, part_at, bare_hop, next_number, next_found, PartRoom, part_room, WritesPart, WritesPartOf};
ghost use Rattle.lgm_c.specs.Status.{if_open, status_of, Finds};

use crate::fault::{Fault, status};
use crate::handle::{Handle, with_held};
use crate::output::map_in_front;
use crate::payer_handle::LgmPayer;
use crate::payment_fault::PaymentFault;
use crate::routes::{LgmHop, c_hop};
use lgm_payer::{Ending, Part, Payer, Payment, Stage};
use std::alloc::Global;

/// A payment.
#[repr(C)]
#[derive(Clone, Copy)]
pub struct LgmPaymentInfo {
    /// Its amount, in msat.
    pub amount_msat: u64,
    /// What is neither under way nor has arrived, in msat.
    pub left_msat: u64,
    /// The fees of the parts that are under way or have arrived, in msat.
    pub fee_msat: u64,
    /// How many parts were ever sent.
    pub parts: usize,
    /// How many of them haven't failed.
    pub parts_held: usize,
    /// What became of it: 0 while parts may be sent, 1 once it was abandoned, 2 once it is paid.
    pub stage: u32,
}

/// A part that was sent.
#[repr(C)]
#[derive(Clone, Copy)]
pub struct LgmPartInfo {
    /// Its number.
    pub part: u64,
    /// What the payee gets, in msat.
    pub amount_msat: u64,
    /// What is sent beyond that, in msat.
    pub fee_msat: u64,
    /// How many hops its route has.
    pub hops: usize,
    /// The blocks from the height at which it was asked for until its first HTLC expires.
    pub blocks: u32,
    /// How it ended: 0 if it hasn't failed, 1 if no failure message could be read, 2 if it failed with one.
    pub ending: u32,
    /// The failure code, or 0.
    pub code: u16,
    /// The place of the node that returned it, or 0.
    pub place: u8,
}

/// The number of what became of a payment.
fn stage_number(stage: Stage) -> u32
    ensures { result ≡ stage_number stage }
{
    match stage {
        Stage::Open => 0,
        Stage::Abandoned => 1,
        Stage::Paid => 2,
    }
}

/// How many parts haven't failed.
fn parts_held(parts: &[Part]) -> usize
    ensures { result ≡ parts_held parts.now }
{
    parts.iter().filter(|part| part.is_held()).count()
}

fn c_payment(payment: &Payment) -> LgmPaymentInfo
    ensures { result ≡ c_payment payment.now }
{
    LgmPaymentInfo {
        amount_msat: payment.invoice().amount,
        left_msat: payment.left(),
        fee_msat: payment.fees(),
        parts: payment.parts().len(),
        parts_held: parts_held(payment.parts()),
        stage: stage_number(payment.stage()),
    }
}

/// The payment with a number.
fn payment_numbered(held: &Payer, payment: u64) -> Option<&Payment>
    ensures { option_copied result ≡ payment_numbered payment held.entry.now }
{
    let place = held.place(payment)?;
    held.payments().get(place)
}

fn write_payment(held: &Payer, payment: u64, info: &mut LgmPaymentInfo) -> Result<(), Fault>
    ensures { Finds (payment_found payment held.now) (status_of result) info.old info.new }
{
    match payment_numbered(held, payment) {
        Some(found) => {
            *info = c_payment(found);
            Ok(())
        }
        None => Err(Fault::Payment(PaymentFault::UnknownPayment)),
    }
}

/// Looks up a payment.
#[unsafe(no_mangle)]
pub extern "C" fn lgm_payer_payment(
    alloc: Global,
    payer: &mut LgmPayer,
    payment: u64,
    info: &mut LgmPaymentInfo,
) -> u32
    ensures same { payer.new.value ≡ payer.old.value }
    ensures payment { Finds (if_open payer.old.value (payment_found payment)) result info.old info.new }
{
    with_held!(
        alloc,
        payer,
        |held| status(&write_payment(&held, payment, info))
    )
}

/// The number of the first payment, or of the first one of a greater number than this.
fn next_number(payments: &[Payment], is_first: bool, payment: u64) -> Option<u64>
    ensures { result ≡ next_number is_first payment payments.now }
{
    let found = payments
        .iter()
        .find(|one| is_first || payment < one.number())?;
    Some(found.number())
}

fn write_next(held: &Payer, is_first: bool, payment: &mut u64) -> Result<(), Fault>
    ensures { Finds (next_found is_first payment.old held.now) (status_of result) payment.old payment.new }
{
    match next_number(held.payments(), is_first, *payment) {
        Some(number) => {
            *payment = number;
            Ok(())
        }
        None => Err(Fault::None),
    }
}

/// Replaces a number by that of the first payment, or of the next one that has a greater number.
#[unsafe(no_mangle)]
pub extern "C" fn lgm_payer_next_payment(
    alloc: Global,
    payer: &mut LgmPayer,
    is_first: bool,
    payment: &mut u64,
) -> u32
    ensures same { payer.new.value ≡ payer.old.value }
    ensures next { Finds (if_open payer.old.value (next_found is_first payment.old)) result
        payment.old payment.new }
{
    with_held!(
        alloc,
        payer,
        |held| status(&write_next(&held, is_first, payment))
    )
}

/// A part, as C gets it.
fn c_part_info(part: &Part) -> LgmPartInfo
    ensures { result ≡ c_part_info part.now }
{
    let (ending, code, place) = match part.ending {
        None => (0, 0, 0),
        Some(Ending::Unreadable) => (1, 0, 0),
        Some(Ending::Failed(failure)) => (2, failure.code, failure.place.min(255) as u8),
    };
    LgmPartInfo {
        part: part.number,
        amount_msat: part.amount,
        fee_msat: part.fee,
        hops: part.route.as_slice().len(),
        blocks: part.blocks,
        ending,
        code,
        place,
    }
}

/// Writes a part, and its hops, if there is room for them.
fn write_part(part: &Part, info: &mut LgmPartInfo, hops: &mut [LgmHop]) -> Result<(), Fault>
    ensures { WritesPart part.now (status_of result) (part_room info.old hops.old) (part_room info.new hops.new) }
{
    *info = c_part_info(part);
    let route = part.route.as_slice();
    if hops.len() < route.len() {
        return Err(Fault::Room);
    }
    map_in_front(route, hops, |hop| c_hop(hop, &[]));
    Ok(())
}

fn write_part_at(
    held: &Payer,
    payment: u64,
    place: usize,
    info: &mut LgmPartInfo,
    hops: &mut [LgmHop],
) -> Result<(), Fault>
    ensures { WritesPartOf (part_at payment place held.now) (status_of result)
        (part_room info.old hops.old) (part_room info.new hops.new) }
{
    let Some(found) = payment_numbered(held, payment) else {
        return Err(Fault::Payment(PaymentFault::UnknownPayment));
    };
    match found.parts().get(place) {
        Some(part) => write_part(part, info, hops),
        None => Err(Fault::None),
    }
}

/// Looks up the part at a place of a payment, in the order in which they were sent, and writes its hops.
#[unsafe(no_mangle)]
pub extern "C" fn lgm_payer_part(
    alloc: Global,
    payer: &mut LgmPayer,
    payment: u64,
    place: usize,
    part: &mut LgmPartInfo,
    hops: &mut [LgmHop],
) -> u32
    ensures same { payer.new.value ≡ payer.old.value }
    ensures part { WritesPartOf (if_open payer.old.value (part_at payment place)) result
        (part_room part.old hops.old) (part_room part.new hops.new) }
{
    with_held!(
        alloc,
        payer,
        |held| status(&write_part_at(&held, payment, place, part, hops))
    )
}
