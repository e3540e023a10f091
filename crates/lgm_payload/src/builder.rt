//! Building the payloads of a route.

ghost use Rattle.std.specs.Prelude.{◌≡◌, ◌≤◌, ◌↔◌, Some, IfOk, IsTrue};
ghost use Rattle.lgm_wire.specs.reading.Reading.{Gives};
ghost use Rattle.lgm_payload.specs.Arrival.{custom_records, types_fault, TypesRise};
ghost use Rattle.lgm_payload.specs.Building.{forward, payloads_of, payloads_for, built_for, onion_len};
ghost use Rattle.lgm_payload.specs.Building.{BuiltIsSpelled, BuiltForIsSpelled, BuiltForIsCarried};
ghost use Rattle.lgm_payload.specs.declared.arrival_fault.ArrivalFault.{ArrivalFault};

use crate::arrival::Arrival;
use crate::arrival_fault::ArrivalFault;
use crate::custom_record::{CustomRecord, FIRST_CUSTOM};
use crate::hop_payload::HopPayload;
use crate::payloads::Payloads;
use crate::writer::write;
use lgm_gossip::Bytes;
use lgm_graph::{Hop, Route};
use std::alloc::{AllocError, Global};

/// How many bytes the payloads of an onion packet have, with an HMAC each (BOLT 4, "Packet Structure").
const ONION_LEN: usize = 1_300;

/// How many bytes an HMAC has.
const HMAC_LEN: usize = 32;

/// The payload of the node before a hop: to forward the payment over it.
fn forward(next: &Hop) -> HopPayload
    ensures { result ≡ forward next.now }
{
    HopPayload {
        amount: next.amount,
        expiry: next.expiry,
        next: Some(next.scid),
        payment: None,
        metadata: None,
    }
}

/// The payloads of a route's hops, for any arrival.
fn write_all(alloc: Global, route: &Route, arrival: &Arrival) -> Result<Payloads, AllocError>
    ensures { IfOk result (λ payloads. payloads ≡ payloads_for arrival.now route.now) }
{
    let hops = route.as_slice();
    let mut payloads = Vec::with_capacity(alloc, hops.len())?;
    for next in &hops[1..] {
        payloads.push(write(alloc, &forward(next), &[])?)?;
    }
    let last = hops[hops.len() - 1];
    let payload = arrival.payload(alloc, &last)?;
    payloads.push(write(alloc, &payload, arrival.records())?)?;
    Ok(Payloads::from_vec(payloads))
}

/// The payloads of a route's hops, each preceded by its length; each is for the node at the end of
/// the hop. It says what to offer over the next hop; that of the last hop says what the payee
/// receives, with the payment secret and the amount as the total. (BOLT 4, "Payload Format".)
pub fn build(alloc: Global, route: &Route, secret: &[u8; 32]) -> Result<Payloads, AllocError>
    ensures payloads { IfOk result (λ payloads. payloads ≡ payloads_of secret.now route.now) }

    // With an HMAC each, they fit the 1,300 bytes of an onion packet.
    ensures fits { IfOk result (λ payloads. onion_len payloads ≤ 1300) }
{
    let hops = route.as_slice();
    let last = hops[hops.len() - 1];
    write_all(alloc, route, &Arrival::whole(alloc, secret, &last))
}

/// The first fault of the types of custom records.
fn types_fault(records: &[CustomRecord]) -> Option<ArrivalFault>
    ensures { result ≡ types_fault 65535 (custom_records records.now) }
{
    let mut last = FIRST_CUSTOM - 1;
    for record in records {
        if record.kind < FIRST_CUSTOM {
            return Some(ArrivalFault::Reserved);
        }
        if record.kind <= last {
            return Some(ArrivalFault::Order);
        }
        last = record.kind;
    }
    None
}

/// Whether payloads, with an HMAC each, fit an onion packet.
fn do_fit(payloads: &[Bytes]) -> bool
    ensures { IsTrue result ↔ (onion_len payloads.now ≤ 1300) }
{
    let mut room = ONION_LEN;
    for payload in payloads {
        if room < HMAC_LEN || room - HMAC_LEN < payload.len() {
            return false;
        }
        room -= HMAC_LEN + payload.len();
    }
    true
}

/// The payloads of a route's hops for what the payee gets beside the route, as of one part of a
/// payment; each is preceded by its length, and for the node at the end of the hop. That of the
/// last hop has the amount and the expiry of that hop, the secret and the total of all parts, the
/// metadata, and then the custom records. (BOLT 4, "Payload Format".) That the parts add up to
/// the total, and what custom records say, isn't checked.
///
/// Errors, in this order: of the first custom record whose type is at fault `Reserved`, if it is
/// below 65,536, or `Order`, if it isn't above the one before; `TooLong`, if the payloads don't fit
/// an onion packet. `NoMemory` says only that the types have no fault.
pub fn build_for(alloc: Global, route: &Route, arrival: &Arrival) -> Result<Payloads, ArrivalFault>
    ensures payloads { IfOk result (λ payloads. payloads ≡ payloads_for arrival.now route.now) }

    // With an HMAC each, they fit the 1,300 bytes of an onion packet.
    ensures fits { IfOk result (λ payloads. onion_len payloads ≤ 1300) }

    // A faulty type is refused whatever memory there is.
    ensures types { (fault : ArrivalFault) →
        types_fault 65535 arrival.now.records ≡ Some fault → result ≡ Err fault }

    // Each error comes exactly when the definition has it, unless memory runs out.
    ensures exact { Gives ArrivalFault.NoMemory (λ payloads. payloads) result
        (built_for arrival.now route.now) }
{
    if let Some(fault) = types_fault(arrival.records()) {
        return Err(fault);
    }
    let payloads = write_all(alloc, route, arrival)?;
    if !do_fit(payloads.as_slice()) {
        return Err(ArrivalFault::TooLong);
    }
    Ok(payloads)
}

/// A law of payloads, stated by the contract; the call does nothing.
///
/// Each payload that `build` returns encodes what it was built from, so `read` returns that.
pub fn built_is_read()
    ensures { BuiltIsSpelled }
{}

/// Laws of payloads with custom records, stated by the contract; the call does nothing.
///
/// Types have no fault if and only if they are custom and ascending. A payee finds in its payload
/// the fields and the custom records that `build_for` was given. If the types of all are odd, each
/// payload encodes what it was built from, so `read` returns that; of others it refuses the first
/// even one, which it doesn't know.
pub fn built_for_is_read()
    ensures rise { TypesRise }
    ensures carried { BuiltForIsCarried }
    ensures spelled { BuiltForIsSpelled }
{}
