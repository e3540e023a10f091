//! Routes of payments.

ghost use Rattle.std.specs.Prelude.{◌≡◌, ◌≤◌, ◌<◌, ◌^◌, ℕ, [], List, Option, length};
ghost use Rattle.lgm_payload.specs.Building.{onion_len};
ghost use Rattle.lgm_store.specs.Rows.{Rows};
ghost use Rattle.lgm_c.specs.Routing.{request_of, route_asked, c_hop, c_hops, all_payloads};
ghost use Rattle.lgm_c.specs.Routing.{AreWritten, WritesHops, WritesRoute, buffers, number_written, status_as};
ghost use Rattle.lgm_c.specs.Attempts.{AttemptParts, attempt_given, entries_of, Explains, WritesAttempt, WritesTried};
ghost use Rattle.lgm_c.specs.inner.Searching.{IsRouted};
ghost use Rattle.lgm_c.specs.Status.{if_open};
ghost use Rattle.lgm_c.specs.Writing.{in_front};

use crate::attempt::{Attempt, LgmAttempt};
use crate::chain_map::ChainMap;
use crate::estimates_handle::LgmEstimates;
use crate::fault::Fault;
use crate::handle::{Handle, with_held};
use crate::map_handle::LgmMap;
use crate::output::copy_in_front;
use lgm_gossip::{Bytes, Point};
use lgm_graph::{Estimates, overlays_are_lawful};
use lgm_payload::build;
use lgm_route::{Found, Hop, Request, Route, nothing_preferred};
use std::alloc::Global;

/// What a call returns that wrote a route which may not be the best one.
const SO_FAR: u32 = 27;

/// A payment to be made.
#[repr(C)]
#[derive(Clone, Copy)]
pub struct LgmPayment {
    /// What the payee is to get, in msat.
    pub amount_msat: u64,
    /// The block height at which the HTLC to the payee expires.
    pub expiry: u32,
    /// The node that pays.
    pub payer: [u8; 33],
    /// The node that is paid.
    pub payee: [u8; 33],
    /// The payment secret, from the invoice.
    pub secret: [u8; 32],
}

/// A hop of a route: one channel, with the HTLC that is offered over it (BOLT 7, "HTLC Fees").
#[repr(C)]
#[derive(Clone, Copy)]
pub struct LgmHop {
    /// The channel.
    pub scid: u64,
    /// The amount that it carries, in msat.
    pub amount_msat: u64,
    /// How many bytes the payload for the node at its end has.
    pub payload_len: usize,
    /// The block height at which the HTLC expires.
    pub expiry: u32,
    /// The node that offers it.
    pub from: [u8; 33],
    /// The node that it is offered to.
    pub to: [u8; 33],
}

/// How long a route is.
#[repr(C)]
#[derive(Clone, Copy)]
pub struct LgmLengths {
    /// How many hops it has: 1 to 20.
    pub hops: usize,
    /// How many bytes their payloads have together.
    pub payloads: usize,
}

/// The request of a payment.
pub(crate) fn request_of(payment: &LgmPayment) -> Request
    ensures { result ≡ request_of payment.now }
{
    Request {
        payer: Point(payment.payer),
        payee: Point(payment.payee),
        amount: payment.amount_msat,
        expiry: payment.expiry,
    }
}

/// A hop with a payload.
pub(crate) fn c_hop(hop: &Hop, payload: &[u8]) -> LgmHop
    ensures { result ≡ c_hop hop.now payload.now }
{
    LgmHop {
        scid: hop.scid.to_u64(),
        amount_msat: hop.amount,
        payload_len: payload.len(),
        expiry: hop.expiry,
        from: hop.from.0,
        to: hop.to.0,
    }
}

/// Writes hops, each with the length of its payload, to the front of a buffer that has room for them, and returns how many
/// they are.
pub(crate) fn fill_hops(hops: &[Hop], payloads: &[Bytes], room: &mut [LgmHop]) -> usize
    requires { length (c_hops hops.now payloads.now) ≤ length room.old }
    ensures count { result ≡ length (c_hops hops.now payloads.now) }
    ensures filled { room.new ≡ in_front (c_hops hops.now payloads.now) room.old }
{
    let count = hops.len().min(payloads.len());
    for place in 0..count {
        room[place] = c_hop(&hops[place], payloads[place].as_slice());
    }
    count
}

/// Writes payloads, one after the other, to the front of a buffer that has room for them, and returns how many bytes they
/// have.
pub(crate) fn fill_payloads(payloads: &[Bytes], room: &mut [u8]) -> usize
    requires { length (all_payloads payloads.now) ≤ length room.old }
    ensures count { result ≡ length (all_payloads payloads.now) }
    ensures filled { room.new ≡ in_front (all_payloads payloads.now) room.old }
{
    let mut filled = 0;
    for payload in payloads {
        copy_in_front(payload.as_slice(), &mut room[filled..]);
        filled += payload.len();
    }
    filled
}

/// How many bytes payloads have together.
fn payloads_len(payloads: &[Bytes]) -> usize
    requires { length (all_payloads payloads.now) < 2 ^ 64 }
    ensures { result ≡ length (all_payloads payloads.now) }
{
    let mut count = 0;
    for payload in payloads {
        count += payload.len();
    }
    count
}

/// Writes hops and their payloads if the buffers have room for both, and their lengths in any case.
pub(crate) fn write_hops(
    route: &[Hop],
    built: &[Bytes],
    hops: &mut [LgmHop],
    payloads: &mut [u8],
    lengths: &mut LgmLengths,
) -> Result<(), Fault>
    requires { onion_len built.now ≤ 1300 }
    ensures { (number : ℕ) → AreWritten number (c_hops route.now built.now) (all_payloads built.now) (status_as number result)
        (buffers hops.old payloads.old lengths.old)
        (buffers hops.new payloads.new lengths.new) }
{
    let needed = LgmLengths {
        hops: route.len().min(built.len()),
        payloads: payloads_len(built),
    };
    *lengths = needed;
    if hops.len() < needed.hops || payloads.len() < needed.payloads {
        return Err(Fault::Room);
    }
    fill_hops(route, built, hops);
    fill_payloads(built, payloads);
    Ok(())
}

/// Writes a route, with its payloads.
fn write_route(
    alloc: Global,
    route: &Route,
    secret: &[u8; 32],
    hops: &mut [LgmHop],
    payloads: &mut [u8],
    lengths: &mut LgmLengths,
) -> Result<(), Fault>
    ensures { (number : ℕ) → WritesHops number route.now secret.now (status_as number result)
        (buffers hops.old payloads.old lengths.old)
        (buffers hops.new payloads.new lengths.new) }
{
    let built = build(alloc, route, secret)?;
    write_hops(route.as_slice(), built.as_slice(), hops, payloads, lengths)
}

/// What a call returns that wrote a route, or failed to.
fn route_status(is_best: bool, written: &Result<(), Fault>) -> u32
    ensures { result ≡ status_as (number_written is_best) written.now }
{
    match written {
        Ok(()) => if is_best { 0 } else { SO_FAR },
        Err(fault) => fault.number(),
    }
}

/// Writes the route that was found, with its payloads, or returns the fault's number.
fn write_found(
    alloc: Global,
    found: &Result<Found, Fault>,
    secret: &[u8; 32],
    hops: &mut [LgmHop],
    payloads: &mut [u8],
    lengths: &mut LgmLengths,
) -> u32
    ensures { (attempt : AttemptParts) (known : Option (List ℕ)) (rows : Rows) → IsRouted attempt known rows found.now
        → WritesTried attempt known rows secret.now result
        (buffers hops.old payloads.old lengths.old)
        (buffers hops.new payloads.new lengths.new) }
{
    match found {
        Ok(found) => {
            let written = write_route(alloc, &found.route, secret, hops, payloads, lengths);
            route_status(found.is_best, &written)
        }
        Err(fault) => fault.number(),
    }
}

/// Writes the best route for an attempt, or the best so far if the search stops.
fn write_tried(
    alloc: Global,
    state: &mut ChainMap,
    attempt: &Attempt<'_, '_>,
    secret: &[u8; 32],
    hops: &mut [LgmHop],
    payloads: &mut [u8],
    lengths: &mut LgmLengths,
) -> u32
    ensures same { state.new ≡ state.old }
    ensures route { WritesTried attempt.now state.old.known state.old.rows secret.now result
        (buffers hops.old payloads.old lengths.old)
        (buffers hops.new payloads.new lengths.new) }
{
    let found = state.route(alloc, attempt);
    write_found(alloc, &found, secret, hops, payloads, lengths)
}

/// Writes the best route of a payment over the map alone: its search never stops before it is found.
fn write_plain(
    alloc: Global,
    state: &mut ChainMap,
    payment: &LgmPayment,
    hops: &mut [LgmHop],
    payloads: &mut [u8],
    lengths: &mut LgmLengths,
) -> u32
    ensures same { state.new ≡ state.old }
    ensures route { WritesRoute (route_asked payment.now state.old.known state.old.rows) payment.now.secret result
        (buffers hops.old payloads.old lengths.old)
        (buffers hops.new payloads.new lengths.new) }
{
    overlays_are_lawful();
    nothing_preferred();
    state.map().rows_are_lawful();
    let nothing = Estimates::new(alloc);
    let attempt = Attempt::plain(payment, &nothing);
    write_tried(
        alloc,
        state,
        &attempt,
        &payment.secret,
        hops,
        payloads,
        lengths,
    )
}

/// The route of a payment by which the payer sends the least: its hops, from the payer on, and their payloads one after
/// the other (BOLT 7, "HTLC Fees"; BOLT 4, "Payload Format").
#[unsafe(no_mangle)]
pub extern "C" fn lgm_route(
    alloc: Global,
    map: &mut LgmMap,
    payment: &LgmPayment,
    hops: &mut [LgmHop],
    payloads: &mut [u8],
    lengths: &mut LgmLengths,
) -> u32
    ensures same { map.new.value ≡ map.old.value }
    ensures route { WritesRoute (if_open map.old.value (λ state. route_asked payment.now state.known state.rows))
        payment.now.secret result
        (buffers hops.old payloads.old lengths.old)
        (buffers hops.new payloads.new lengths.new) }
{
    with_held!(
        alloc,
        map,
        |state| write_plain(alloc, &mut state, payment, hops, payloads, lengths)
    )
}

/// The same in the map of a handle.
fn write_attempt(
    alloc: Global,
    map: &mut LgmMap,
    attempt: &Attempt<'_, '_>,
    secret: &[u8; 32],
    hops: &mut [LgmHop],
    payloads: &mut [u8],
    lengths: &mut LgmLengths,
) -> u32
    ensures same { map.new.value ≡ map.old.value }
    ensures route { WritesAttempt attempt.now map.old.value secret.now result
        (buffers hops.old payloads.old lengths.old)
        (buffers hops.new payloads.new lengths.new) }
{
    with_held!(
        alloc,
        map,
        |state| write_tried(alloc, &mut state, attempt, secret, hops, payloads, lengths)
    )
}

/// The best route of a payment by what its payer prefers and has learnt of edges, over edges beside the map's, limits of what
/// edges carry, and nodes whose edges in the map aren't used, within limits of its delay and of its hops. If the search stops
/// before it is found, the best route so far. A closed handle of estimates is one in which nothing is known.
#[unsafe(no_mangle)]
pub extern "C" fn lgm_attempt_route(
    alloc: Global,
    map: &mut LgmMap,
    attempt: &LgmAttempt<'_>,
    estimates: &mut LgmEstimates,
    hops: &mut [LgmHop],
    payloads: &mut [u8],
    lengths: &mut LgmLengths,
) -> u32
    ensures same { map.new.value ≡ map.old.value }
    ensures kept { estimates.new.value ≡ estimates.old.value }
    ensures route { WritesAttempt (attempt_given attempt.now (entries_of estimates.old.value))
        map.old.value attempt.now.payment.secret result
        (buffers hops.old payloads.old lengths.old)
        (buffers hops.new payloads.new lengths.new) }
{
    let secret = &attempt.payment.secret;
    let nothing = Estimates::new(alloc);
    with_held!(
        alloc,
        estimates,
        write_attempt(
            alloc,
            map,
            &Attempt::given(attempt, &nothing),
            secret,
            hops,
            payloads,
            lengths
        ),
        |known| write_attempt(
            alloc,
            map,
            &Attempt::given(attempt, &known),
            secret,
            hops,
            payloads,
            lengths
        )
    )
}

/// Why there is no route for a payment over what its payer knows beside the map, within its limits: the first reason that
/// holds, or 0 if there is a route.
#[unsafe(no_mangle)]
pub extern "C" fn lgm_no_route_reason(
    alloc: Global,
    map: &mut LgmMap,
    attempt: &LgmAttempt<'_>,
) -> u32
    ensures same { map.new.value ≡ map.old.value }
    ensures reason { Explains (attempt_given attempt.now []) map.old.value result }
{
    let nothing = Estimates::new(alloc);
    let given = Attempt::given(attempt, &nothing);
    with_held!(alloc, map, |state| state.no_route_reason(alloc, &given))
}
