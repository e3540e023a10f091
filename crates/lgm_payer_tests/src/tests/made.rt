//! Payers, maps and payments, made of short lists.

use lgm_gossip::Scid;
use lgm_graph::{Estimates, ExtraEdge, Known, View};
use lgm_payer::{Bounds, Invoice, Payer, PayerFault, Sending, Sight, Unpaid};
use lgm_route::{Preferences, SearchBudget};
use lgm_store::Map;
use lgm_test_gossip::{Item, charging, point};
use std::alloc::{AllocError, Global};
use std::process::Abort;

/// Two ways from node 0 to node 3, for 13 msat and for 53.
pub fn two_ways() -> [Item; 8] {
    [
        Item::Channel(1, 0, 1),
        Item::Update(charging(1, 0, 1, 3)),
        Item::Channel(2, 1, 3),
        Item::Update(charging(2, 1, 3, 10)),
        Item::Channel(3, 0, 2),
        Item::Update(charging(3, 0, 2, 3)),
        Item::Channel(4, 2, 3),
        Item::Update(charging(4, 2, 3, 50)),
    ]
}

/// An edge that charges nothing, and carries up to this much, in msat.
pub fn edge(scid: u64, from: u16, to: u16, max: u64) -> ExtraEdge {
    ExtraEdge {
        scid: Scid::from_u64(scid),
        from: point(from),
        to: point(to),
        base: 0,
        millionths: 0,
        delta: 40,
        min: 1,
        max,
    }
}

/// Any fee up to 100 msat, 4 tries, and parts of 100 msat or more.
pub const BOUNDS: Bounds = Bounds {
    most_fee: 100,
    most_tries: 4,
    most_parts: 3,
    least_part: 100,
    most_blocks: 2_016,
};

/// The invoice of node 3 for an amount, in msat. It takes several parts.
pub fn invoice(amount: u64) -> Invoice {
    Invoice {
        payee: point(3),
        amount,
        secret: [7; 32],
        final_delta: 18,
        basic_mpp: true,
    }
}

/// Begins a payment of 1,000 msat.
pub fn begin(alloc: Global, payer: &mut Payer, bounds: Bounds) -> Result<u64, PayerFault> {
    let records = Vec::new(alloc);
    payer.begin(alloc, invoice(1_000), &[], None, records, bounds)
}

/// Node 9, which has begun no payment.
pub fn payer_without(alloc: Global) -> Result<Box<Payer>, PayerFault> {
    let made = Payer::new(alloc, point(9), Estimates::new(alloc));
    match Box::new(alloc, made) {
        Ok(payer) => Ok(payer),
        Err(e) => Err(AllocError::from(e).into()),
    }
}

/// Node 9, which begins one payment.
pub fn payer(alloc: Global, bounds: Bounds) -> Result<Box<Payer>, PayerFault> {
    let mut payer = payer_without(alloc)?;
    begin(alloc, &mut payer, bounds)?;
    Ok(payer)
}

/// The next part of a payment, at height 100, for a payer that would rather pay 1 msat than send over one more hop, and
/// whose channel with node 0 can send this much, in msat, with so many parts reckoned.
pub fn next_part(
    rt: &impl Abort,
    alloc: Global,
    payer: &mut Payer,
    payment: u64,
    map: &Map,
    max: u64,
    reckoned: u64,
) -> Result<Option<Sending>, Unpaid> {
    assert!(rt; map.count() <= 1_000_000);
    let made = View::of(alloc, map, &Known::all())?;
    let view = match Box::new(alloc, made) {
        Ok(view) => view,
        Err(e) => return Err(AllocError::from(e).into()),
    };
    let sight = Sight {
        map,
        view: &view,
        own: &[edge(90, 9, 0, max)],
        reckoned,
        preferences: Some(Preferences {
            failure_msat: 0,
            hop_msat: 1,
        }),
        budget: SearchBudget::any(),
        height: 100,
    };
    payer.next_part(alloc, payment, &sight)
}
