//! Payments over overlays, with the answers that they get.

use super::made::{Item, Parts, charging, estimates_of, map_of, number, overlay_of};
use lgm_graph::{Estimates, Known, View};
use lgm_route::{
    Found, Preferences, Request, Route, RouteFault, RouteLimits, Search, SearchBudget, SearchFault,
    find_over,
};
use lgm_store::Map;
use lgm_test_gossip::point;
use std::alloc::{AllocError, Global};
use std::fmt;
use std::process::Abort;
use std::test::Fail;

/// A hop: its channel id, the numbers of its nodes, its amount in msat and its expiry.
pub type Told = (u64, u16, u16, u64, u32);

/// Two ways from node 0 to node 3: over node 1, which charges 10 msat, and over node 2, which charges 50 msat. Back,
/// node 1 charges 7 msat, and node 2 charges 9 msat. Node 0 charges 3 msat, and node 3 charges 20 msat.
pub fn two_ways() -> [Item; 12] {
    [
        Item::Channel(1, 0, 1),
        Item::Update(charging(1, 0, 1, 3)),
        Item::Update(charging(1, 1, 0, 7)),
        Item::Channel(2, 1, 3),
        Item::Update(charging(2, 1, 3, 10)),
        Item::Update(charging(2, 3, 1, 20)),
        Item::Channel(3, 0, 2),
        Item::Update(charging(3, 0, 2, 3)),
        Item::Update(charging(3, 2, 0, 9)),
        Item::Channel(4, 2, 3),
        Item::Update(charging(4, 2, 3, 50)),
        Item::Update(charging(4, 3, 2, 20)),
    ]
}

/// The routes of 1,000 msat from node 0 to node 3, over node 1 and over node 2.
pub const OVER_1: [Told; 2] = [(1, 0, 1, 1010, 700_040), (2, 1, 3, 1000, 700_000)];

pub const OVER_2: [Told; 2] = [(3, 0, 2, 1050, 700_040), (4, 2, 3, 1000, 700_000)];

/// The same back.
pub const BACK_OVER_1: [Told; 2] = [(2, 3, 1, 1007, 700_040), (1, 1, 0, 1000, 700_000)];

pub const BACK_OVER_2: [Told; 2] = [(4, 3, 2, 1009, 700_040), (3, 2, 0, 1000, 700_000)];

/// A payment of 1,000 msat.
pub fn payment(payer: u16, payee: u16) -> Request {
    Request {
        payer: point(payer),
        payee: point(payee),
        amount: 1000,
        expiry: 700_000,
    }
}

fn hops_of(alloc: Global, route: &Route) -> Result<Vec<Told>, AllocError> {
    let mut hops = Vec::new(alloc);
    for hop in route.as_slice() {
        let (from, to) = (number(&hop.from), number(&hop.to));
        hops.push((hop.scid.to_u64(), from, to, hop.amount, hop.expiry))?;
    }
    Ok(hops)
}

/// That an answer is this route, or this fault.
pub fn assert_answer<F: Copy + PartialEq + fmt::Debug>(
    rt: &impl Abort,
    alloc: Global,
    answer: &Result<Route, F>,
    wanted: Result<&[Told], F>,
) -> Result<(), AllocError> {
    match (answer, wanted) {
        (Ok(route), Ok(hops)) => assert_eq!(rt; hops_of(alloc, route)?.as_slice(), hops),
        (Err(fault), Err(other)) => assert_eq!(rt; *fault, other),
        (Ok(route), Err(fault)) => assert!(rt; false, "{route:?} instead of {fault:?}"),
        (Err(fault), Ok(hops)) => assert!(rt; false, "{fault:?} instead of {hops:?}"),
    }
    Ok(())
}

/// What a payer prefers, and what is asked of a route and of its search.
#[derive(Clone, Copy)]
pub struct Asked {
    pub preferences: Preferences,
    pub limits: RouteLimits,
    pub budget: SearchBudget,
}

impl Asked {
    /// Without preferences, within a delay, and by so many labels.
    pub fn within(most_delay: u16, most_labels: usize) -> Asked {
        Asked {
            preferences: Preferences::none(),
            limits: RouteLimits {
                most_delay: Some(most_delay),
                ..RouteLimits::none()
            },
            budget: SearchBudget {
                most_labels,
                ..SearchBudget::any()
            },
        }
    }

    /// Without preferences and limits.
    pub fn anyhow() -> Asked {
        Asked {
            preferences: Preferences::none(),
            limits: RouteLimits::none(),
            budget: SearchBudget::any(),
        }
    }

    /// The same as a search, by what the payer believes of edges.
    pub fn search<'a>(&self, estimates: &'a Estimates) -> Search<'a> {
        Search {
            preferences: self.preferences,
            estimates,
            limits: self.limits,
            budget: self.budget,
        }
    }
}

/// The answer to a payment over an overlay.
pub fn found_over(
    rt: &impl Abort,
    alloc: Global,
    map: &Map,
    known: &Known,
    parts: Parts,
    estimates: &Estimates,
    request: &Request,
    asked: &Asked,
) -> Result<Result<Found, SearchFault>, AllocError> {
    assert!(rt; map.count() <= 1_000_000);
    let view = Box::new(alloc, View::of(alloc, map, known)?)?;
    let overlay = overlay_of(alloc, parts)?;
    assert!(rt; overlay.extra_count() <= 1_000_000);
    let search = asked.search(estimates);
    Ok(find_over(alloc, map, &view, &overlay, &search, request))
}

/// The route of an answer, which has to be told as the best one, or as one so far.
pub fn route_of(
    rt: &impl Abort,
    answer: Result<Found, SearchFault>,
    is_best: bool,
) -> Result<Route, SearchFault> {
    let found = answer?;
    assert_eq!(rt; found.is_best, is_best);
    Ok(found.route)
}

/// That a payment over an overlay of a payer that knows of no edge gets this answer.
pub fn assert_within(
    rt: &impl Abort,
    alloc: Global,
    map: &Map,
    known: &Known,
    parts: Parts,
    request: &Request,
    asked: &Asked,
    wanted: Result<&[Told], SearchFault>,
) -> Result<(), AllocError> {
    let estimates = estimates_of(alloc, &[])?;
    let answer = found_over(rt, alloc, map, known, parts, &estimates, request, asked)?;
    assert_answer(rt, alloc, &route_of(rt, answer, true), wanted)
}

/// What a call within a limit answers where the limit makes no difference.
pub fn limited<T>(answer: Result<T, RouteFault>) -> Result<T, SearchFault> {
    Ok(answer?)
}

/// That a payment over an overlay gets this answer, also within a limit that no route reaches.
pub fn assert_over(
    rt: &impl Abort,
    alloc: Global,
    map: &Map,
    known: &Known,
    parts: Parts,
    request: &Request,
    wanted: Result<&[Told], RouteFault>,
) -> Result<(), AllocError> {
    let wanted = limited(wanted);
    let estimates = estimates_of(alloc, &[])?;
    let asked = Asked::anyhow();
    let answer = found_over(rt, alloc, map, known, parts, &estimates, request, &asked)?;
    assert_answer(rt, alloc, &route_of(rt, answer, true), wanted)?;
    // Each route is within the limit, so that no search by labels is made.
    let asked = Asked::within(u16::MAX, 0);
    assert_within(rt, alloc, map, known, parts, request, &asked, wanted)
}

/// That 1,000 msat over an overlay on a map, where all features are known, take this route, or none.
pub fn assert_paid(
    rt: &impl Abort,
    alloc: Global,
    items: &[Item],
    parts: Parts,
    ends: (u16, u16),
    wanted: &[Told],
) -> Result<(), Fail> {
    let map = map_of(alloc, items)?;
    let request = payment(ends.0, ends.1);
    let wanted = if wanted.is_empty() {
        Err(RouteFault::NoRoute)
    } else {
        Ok(wanted)
    };
    assert_over(rt, alloc, &map, &Known::all(), parts, &request, wanted)?;
    Ok(())
}
