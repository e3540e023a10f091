//! How many labels a search within a delay makes, over a made network of 400 nodes.

use super::made::{Item, Way, estimates_of, free, map_of};
use super::paid::Asked;
use lgm_graph::{Known, View};
use lgm_route::{Found, Request, SearchFault, find};
use lgm_store::Map;
use lgm_test_gossip::{FREE, Numbers, Terms, point};
use std::alloc::{AllocError, Global};
use std::process::Abort;
use std::test::Fail;

/// The number of channels. Every twentieth is free in both directions, with a delta of 2,016.
const CHANNELS: u64 = 1_200;

/// Terms as nodes have them.
fn usual_terms(numbers: &mut Numbers) -> Terms {
    Terms {
        base: numbers.one_of(&[0, 0, 1, 1000, 1000]).unwrap_or(0),
        millionths: numbers.one_of(&[1, 10, 50, 150, 500, 1500]).unwrap_or(1),
        delta: numbers.one_of(&[34, 40, 40, 80, 80, 144]).unwrap_or(40),
        ..FREE
    }
}

/// Terms that lure payments.
const LURING: Terms = Terms {
    delta: 2016,
    ..FREE
};

/// One of 400 nodes, or mostly one of the first twenty.
fn node(numbers: &mut Numbers) -> u16 {
    let place = u16::from(numbers.below(20));
    if numbers.below(2) == 0 {
        place
    } else {
        u16::from(numbers.below(20)) * 20 + place
    }
}

/// The channels of the network.
fn items(alloc: Global, numbers: &mut Numbers) -> Result<Vec<Item>, AllocError> {
    let mut items = Vec::new(alloc);
    for id in 0..CHANNELS {
        let (from, to) = (node(numbers), node(numbers));
        if from == to {
            continue;
        }
        items.push(Item::Channel(id, from.min(to), from.max(to)))?;
        for (from, to) in [(from, to), (to, from)] {
            let usual = usual_terms(numbers);
            let terms = if id % 20 == 0 { LURING } else { usual };
            let way = Way {
                terms,
                ..free(id, from, to)
            };
            items.push(Item::Update(way))?;
        }
    }
    Ok(items)
}

/// A payment between two nodes.
fn payment(numbers: &mut Numbers) -> Request {
    Request {
        payer: point(node(numbers)),
        payee: point(node(numbers)),
        amount: 1_000_000,
        expiry: 700_000,
    }
}

/// What a payment is answered on the map within a delay.
fn answer(
    rt: &impl Abort,
    alloc: Global,
    map: &Map,
    request: &Request,
    most_delay: u16,
    most_labels: usize,
) -> Result<Result<Found, SearchFault>, AllocError> {
    assert!(rt; map.count() <= 1_000_000);
    let view = Box::new(alloc, View::of(alloc, map, &Known::all())?)?;
    let estimates = estimates_of(alloc, &[])?;
    let asked = Asked::within(most_delay, most_labels);
    Ok(find(alloc, &*view, &asked.search(&estimates), request))
}

/// Whether it is decided by this many labels.
fn is_decided(
    rt: &impl Abort,
    alloc: Global,
    map: &Map,
    request: &Request,
    most_delay: u16,
    most_labels: usize,
) -> Result<bool, AllocError> {
    match answer(rt, alloc, map, request, most_delay, most_labels)? {
        Ok(found) => Ok(found.is_best),
        Err(fault) => Ok(fault != SearchFault::Undecided),
    }
}

/// A thousand labels decide each of 30 payments within each delay.
#[test]
fn few_labels_for_a_limit(rt: HostRuntime) -> Result<(), Fail> {
    let alloc = rt.alloc();
    let mut numbers = Numbers::new(3);
    let map = map_of(alloc, &items(alloc, &mut numbers)?)?;
    for turn in 0..30 {
        let request = payment(&mut numbers);
        for most_delay in [288, 576, 1008, 2016] {
            let decided = is_decided(&rt, alloc, &map, &request, most_delay, 1_000)?;
            assert!(rt; decided, "payment {turn} within {most_delay} blocks");
        }
    }
    Ok(())
}

/// Labels that suffice within one block less than the best route of all has, payment by payment, with some room: the
/// search needs 271, 220, 1, 289, 4, 13 and 1. If labels were settled in the order of what they send, without the bound on
/// the fees before them, the first payment would need 857; if the bounds came from four steps of the forward search, the
/// fifth 57.
const ENOUGH: [usize; 7] = [400, 300, 10, 400, 20, 25, 10];

/// The delay of the best route of all, if there is one and it is short enough to be a limit.
fn least_delay(
    rt: &impl Abort,
    alloc: Global,
    map: &Map,
    request: &Request,
) -> Result<Option<u16>, AllocError> {
    let Ok(found) = answer(rt, alloc, map, request, u16::MAX, 100_000)? else {
        return Ok(None);
    };
    let delay = found.route.expiry().saturating_sub(request.expiry);
    match u16::try_from(delay) {
        Ok(delay) if delay > 0 => Ok(Some(delay)),
        _ => Ok(None),
    }
}

/// Whether the labels that suffice do so, if the payment has a route. Returns the index of the next payment's.
fn suffices(
    rt: &impl Abort,
    alloc: Global,
    map: &Map,
    request: &Request,
    place: usize,
) -> Result<usize, AllocError> {
    let Some(delay) = least_delay(rt, alloc, map, request)? else {
        return Ok(place);
    };
    let enough = ENOUGH.get(place).copied().unwrap_or(0);
    let decided = is_decided(rt, alloc, map, request, delay.saturating_sub(1), enough)?;
    assert!(rt; decided, "payment {place} within {enough} labels");
    Ok(place.saturating_add(1))
}

#[test]
fn few_labels_just_below(rt: HostRuntime) -> Result<(), Fail> {
    let alloc = rt.alloc();
    let mut numbers = Numbers::new(3);
    let map = map_of(alloc, &items(alloc, &mut numbers)?)?;
    let mut place = 0;
    for _turn in 0..12 {
        let request = payment(&mut numbers);
        place = suffices(&rt, alloc, &map, &request, place)?;
    }
    assert_eq!(rt; place, ENOUGH.len());
    Ok(())
}
