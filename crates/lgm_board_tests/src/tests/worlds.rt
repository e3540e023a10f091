//! A world of one eye.

use super::{channel, scid, update};
use lgm_gossip::Scid;
use lgm_graph::Known;
use lgm_publish::{Event, Reply, World, WorldFault};
use lgm_route::{Request, RouteFault};
use lgm_test_gossip::point;
use std::test::Fail;

/// What the eye answers when node 10 is to pay node 11: the number of hops and the first one's channel, or why there is
/// none.
fn answer(world: &mut World) -> Result<Result<(usize, Scid), RouteFault>, WorldFault> {
    let request = Request {
        payer: point(10),
        payee: point(11),
        amount: 1000,
        expiry: 700_000,
    };
    match world.step(&Event::Answer(0, request))? {
        Reply::Routed(Ok(route)) => {
            let hops = route.as_slice();
            Ok(Ok((hops.len(), hops[0].scid)))
        }
        Reply::Routed(Err(fault)) => Ok(Err(fault)),
        Reply::Done => Ok(Err(RouteFault::NoMemory)),
    }
}

/// Whether a step is done.
fn is_done(world: &mut World, event: &Event) -> bool {
    world.step(event).is_ok()
}

#[test]
fn an_eye_answers_on_what_it_took(rt: HostRuntime) -> Result<(), Fail> {
    let alloc = rt.alloc();
    let items = [
        Event::Append(channel(alloc)?),
        Event::Append(update(alloc, 0)?),
    ];
    let mut world = World::new(alloc, 1, &Known::all())?;
    let no_route = Ok(Err(RouteFault::NoRoute));
    assert!(rt; items.iter().all(|item| is_done(&mut world, item)));
    assert!(rt; is_done(&mut world, &Event::Enter(0)));
    assert_eq!(rt; answer(&mut world), no_route);
    assert!(rt; is_done(&mut world, &Event::Publish));
    assert_eq!(rt; answer(&mut world), no_route);
    assert!(rt; is_done(&mut world, &Event::Learn(0)));
    assert_eq!(rt; answer(&mut world), no_route);
    assert!(rt; is_done(&mut world, &Event::Enter(0)));
    assert_eq!(rt; answer(&mut world), Ok(Ok((1, scid()))));
    assert_eq!(rt; world.step(&Event::Enter(1)).err(), Some(WorldFault::NoEye));
    assert_eq!(rt; world.step(&Event::Learn(1)).err(), Some(WorldFault::NoEye));
    Ok(())
}
