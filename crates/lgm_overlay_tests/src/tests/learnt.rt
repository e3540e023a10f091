//! What a payer has learnt of edges.

use lgm_gossip::Scid;
use lgm_graph::{Estimate, Estimates, NO_ESTIMATE};
use lgm_test_gossip::point;
use std::test::Fail;

/// An estimate without a penalty.
fn between(least: u64, most: u64) -> Estimate {
    Estimate {
        least,
        most,
        penalty: 0,
    }
}

#[test]
fn what_tries_teach(rt: HostRuntime) -> Result<(), Fail> {
    let alloc = rt.alloc();
    let mut estimates = Box::new(alloc, Estimates::new(alloc))?;
    let (id, one, two) = (Scid::from_u64(7), point(1), point(2));
    assert_eq!(rt;
        (estimates.len(), estimates.get(id, &one)),
        (0, NO_ESTIMATE)
    );
    estimates.carried(id, &one, 900)?;
    assert_eq!(rt; estimates.get(id, &one), between(900, u64::MAX));
    estimates.failed(id, &one, 1_200)?;
    assert_eq!(rt; estimates.get(id, &one), between(900, 1_199));
    estimates.failed(id, &one, 500)?;
    assert_eq!(rt; estimates.get(id, &one), between(499, 499));
    estimates.carried(id, &one, 600)?;
    assert_eq!(rt; estimates.get(id, &one), between(600, 600));
    assert_eq!(rt; estimates.get(id, &two), NO_ESTIMATE);
    let avoided = Estimate {
        penalty: 3,
        ..NO_ESTIMATE
    };
    estimates.set(id, &two, avoided)?;
    assert_eq!(rt; estimates.at(0).map(|it| it.1), Some(between(600, 600)));
    let named = estimates.at(1).map(|it| (it.0.scid, it.0.from, it.1));
    assert_eq!(rt; named, Some((id, two, avoided)));
    let copy = Box::new(alloc, estimates.copy()?)?;
    assert!(rt; estimates.forget(id, &one) && !estimates.forget(id, &one));
    assert_eq!(rt; estimates.at(0).map(|it| it.1), Some(avoided));
    assert!(rt; estimates.at(1).is_none());
    assert_eq!(rt; (copy.len(), copy.get(id, &one)), (2, between(600, 600)));
    Ok(())
}
