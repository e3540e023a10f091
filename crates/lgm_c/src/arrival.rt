//! What the payee gets beside the route, as C says it, and the payloads of a part of a payment.

ghost use Rattle.std.specs.Prelude.{◌≡◌, ◌≤◌, ◌↔◌, List, map, length, IfOk, IsTrue};
ghost use Rattle.lgm_wire.specs.reading.Reading.{Gives};
ghost use Rattle.lgm_payload.specs.Arrival.{custom_records};
ghost use Rattle.lgm_payload.specs.Building.{built_for, onion_len};
ghost use Rattle.lgm_c.specs.Arrivals.{metadata_given, records_given, arrival_given, hop_given, hops_given};
ghost use Rattle.lgm_c.specs.Arrivals.{Follows, AreJoined, IsRoute, built_or_fault, WritesBuilt, WritesPayloads};
ghost use Rattle.lgm_c.specs.Routing.{buffers};
ghost use Rattle.lgm_c.specs.Status.{status_of};

use crate::argument_fault::ArgumentFault;
use crate::fault::{Fault, status};
use crate::routes::{LgmHop, LgmLengths, write_hops};
use lgm_gossip::{Bytes, Point, Scid};
use lgm_graph::{Hop, Route};
use lgm_payload::{Arrival, CustomRecord, Payloads, build_for};
use std::alloc::{AllocError, Global};

/// A record of the payee's payload that BOLT 4 doesn't define.
#[repr(C)]
#[derive(Clone, Copy)]
pub struct LgmRecord<'a> {
    /// Its type: at least 65,536.
    pub kind: u64,
    /// Its value.
    pub value: &'a [u8],
}

/// What the payee gets beside the route.
#[repr(C)]
#[derive(Clone, Copy)]
pub struct LgmArrival<'a> {
    /// What it is to get by all parts of the payment together, in msat.
    pub total_msat: u64,
    /// The payment metadata, from the invoice; there are none without bytes.
    pub metadata: &'a [u8],
    /// Custom records, by ascending types.
    pub records: &'a [LgmRecord<'a>],
    /// The payment secret, from the invoice.
    pub secret: [u8; 32],
}

/// The metadata, copied, if there are any.
pub(crate) fn metadata_given(alloc: Global, metadata: &[u8]) -> Result<Option<Bytes>, AllocError>
    ensures { IfOk result (λ given. given ≡ metadata_given metadata.now) }
{
    match metadata {
        [] => Ok(None),
        metadata => Ok(Some(Bytes::from_slice(alloc, metadata)?)),
    }
}

/// The custom records, copied.
pub(crate) fn records_given(
    alloc: Global,
    records: &[LgmRecord<'_>],
) -> Result<Vec<CustomRecord>, AllocError>
    ensures { IfOk result (λ given. custom_records given.items ≡ records_given records.now) }
{
    let mut given = Vec::with_capacity(alloc, records.len())?;
    for record in records {
        given.push(CustomRecord {
            kind: record.kind,
            value: Bytes::from_slice(alloc, record.value)?,
        })?;
    }
    Ok(given)
}

/// What the payee gets, copied.
fn arrival_given(alloc: Global, arrival: &LgmArrival<'_>) -> Result<Arrival, AllocError>
    ensures { IfOk result (λ given. given ≡ arrival_given arrival.now) }
{
    Ok(Arrival::new(
        &arrival.secret,
        arrival.total_msat,
        metadata_given(alloc, arrival.metadata)?,
        records_given(alloc, arrival.records)?,
    ))
}

/// A hop.
fn hop_given(hop: &LgmHop) -> Hop
    ensures { result ≡ hop_given hop.now }
{
    Hop {
        scid: Scid::from_u64(hop.scid),
        from: Point(hop.from),
        to: Point(hop.to),
        amount: hop.amount_msat,
        expiry: hop.expiry,
    }
}

/// Whether a hop begins where the one before ends, and has no greater amount and no later expiry.
fn follows(hop: &LgmHop, next: &LgmHop) -> bool
    ensures { IsTrue result ↔ Follows hop.now next.now }
{
    Point(hop.to) == Point(next.from)
        && next.amount_msat <= hop.amount_msat
        && next.expiry <= hop.expiry
}

/// Whether each hop follows the one before.
fn are_joined(hops: &[LgmHop]) -> bool
    requires { 1 ≤ length hops.now }
    ensures { IsTrue result ↔ AreJoined hops.now }
{
    for place in 0..hops.len() - 1 {
        if !follows(&hops[place], &hops[place + 1]) {
            return false;
        }
    }
    true
}

/// Whether hops are a route.
pub(crate) fn is_route(hops: &[LgmHop]) -> bool
    ensures { IsTrue result ↔ IsRoute hops.now }
{
    1 <= hops.len() && hops.len() <= 20 && are_joined(hops)
}

/// The route of these hops.
pub(crate) fn route_given(alloc: Global, hops: &[LgmHop]) -> Result<Route, AllocError>
    requires { IsRoute hops.now }
    ensures { IfOk result (λ route. route ≡ hops_given hops.now) }
{
    let mut given = Vec::with_capacity(alloc, hops.len())?;
    for hop in hops {
        given.push(hop_given(hop))?;
    }
    Ok(Route::from_vec(given))
}

/// The payloads of a route.
fn payloads_for(alloc: Global, arrival: &LgmArrival<'_>, route: &Route) -> Result<Payloads, Fault>
    ensures fits { IfOk result (λ payloads. onion_len payloads ≤ 1300) }
    ensures exact { Gives Fault.NoMemory (λ payloads. payloads) result
        (built_or_fault (built_for (arrival_given arrival.now) route.now)) }
{
    let given = arrival_given(alloc, arrival)?;
    Ok(build_for(alloc, route, &given)?)
}

/// Writes the payloads of a route, and how long each is to its hops.
fn write_built(
    alloc: Global,
    arrival: &LgmArrival<'_>,
    hops: &mut [LgmHop],
    payloads: &mut [u8],
    lengths: &mut LgmLengths,
) -> Result<(), Fault>
    requires { IsRoute hops.old }
    ensures { WritesBuilt (hops_given hops.old)
        (built_for (arrival_given arrival.now) (hops_given hops.old)) (status_of result)
        (buffers hops.old payloads.old lengths.old)
        (buffers hops.new payloads.new lengths.new) }
{
    let route = route_given(alloc, hops)?;
    let built = payloads_for(alloc, arrival, &route)?;
    write_hops(route.as_slice(), built.as_slice(), hops, payloads, lengths)
}

/// The payloads of the hops of a route, for what the payee gets beside it, one after the other (BOLT 4, "Payload Format").
#[unsafe(no_mangle)]
pub extern "C" fn lgm_payloads(
    alloc: Global,
    arrival: &LgmArrival<'_>,
    hops: &mut [LgmHop],
    payloads: &mut [u8],
    lengths: &mut LgmLengths,
) -> u32
    ensures { WritesPayloads (arrival_given arrival.now) result
        (buffers hops.old payloads.old lengths.old)
        (buffers hops.new payloads.new lengths.new) }
{
    if !is_route(hops) {
        return Fault::Argument(ArgumentFault::Hops).number();
    }
    status(&write_built(alloc, arrival, hops, payloads, lengths))
}
