//! The search for a cut that can't carry an amount.

ghost use Rattle.std.specs.Prelude.{◌≡◌, ◌<◌, true, IfOk, IfSome};
ghost use Rattle.lgm_odds.specs.Cut.{capacities_of, IsCut, IsNarrowCut, room_across};

use crate::cut::Cut;
use crate::flow::Flow;
use crate::liquidity::Liquidity;
use crate::reached::{PathEnd, Reached};
use lgm_gossip::Point;
use std::alloc::{AllocError, Global};

/// The most paths that a flow is made of.
const MAX_PATHS: usize = 64;

/// The most edges that are looked at for a flow: each takes about a third of a microsecond.
const MAX_EDGES: usize = 1_024;

/// The nodes that a flow which can't be extended to the amount leaves reached from the payee if `inward`, else from the
/// payer. Whether they are a cut, and what can be carried across it, isn't promised. None, if the amount may flow.
fn side(
    alloc: Global,
    liquidity: &Liquidity<'_>,
    payee: &Point,
    amount: u64,
    inward: bool,
) -> Result<Option<Cut>, AllocError> {
    let payer = liquidity.payer;
    let (start, goal) = if inward {
        (*payee, payer)
    } else {
        (payer, *payee)
    };
    let (mut flow, mut left, mut edges_left) = (Flow::new(alloc), amount, MAX_EDGES);
    for _ in 0..MAX_PATHS {
        let mut reached = Reached::start(alloc, start)?;
        match reached.grow(alloc, liquidity, &flow, &goal, inward, &mut edges_left)? {
            PathEnd::Nowhere => return Ok(Some(Cut::of(reached.into_nodes(), inward))),
            PathEnd::Unknown => return Ok(None),
            PathEnd::At(place) => {
                let room = reached.room(place, left);
                if left <= room {
                    return Ok(None);
                }
                left -= room;
                reached.add_to(&mut flow, place, room)?;
            }
        }
    }
    Ok(None)
}

/// A cut by the nodes of the payee's side if `inward`, else by those of the payer's, whose room is below the amount, if
/// the search finds one.
fn narrow_cut(
    alloc: Global,
    liquidity: &Liquidity<'_>,
    payee: &Point,
    amount: u64,
    inward: bool,
) -> Result<Option<(Cut, u64)>, AllocError>
    ensures { IfOk result (λ found. IfSome found (λ narrow.
        IsNarrowCut (capacities_of liquidity.now) payee.now amount narrow.0 narrow.1)) }
{
    let Some(cut) = side(alloc, liquidity, payee, amount, inward)? else {
        return Ok(None);
    };
    if !cut.separates(&liquidity.payer, payee) {
        return Ok(None);
    }
    let room = cut.room(alloc, liquidity)?;
    if room < amount {
        Ok(Some((cut, room)))
    } else {
        Ok(None)
    }
}

/// A cut between the payer and a payee across which less than an amount can be carried, in msat, and what can: no parts
/// bring the amount then, however it is divided. None, if the search finds none: it looks for cuts one of whose sides has
/// 48 nodes or fewer, each with 48 channels at most, and gives up after 1,024 edges for each side, which takes less than a
/// millisecond.
pub fn cut_between(
    alloc: Global,
    liquidity: &Liquidity<'_>,
    payee: &Point,
    amount: u64,
) -> Result<Option<(Cut, u64)>, AllocError>
    ensures { IfOk result (λ found. IfSome found (λ narrow.
        IsNarrowCut (capacities_of liquidity.now) payee.now amount narrow.0 narrow.1)) }
{
    if let Some(narrow) = narrow_cut(alloc, liquidity, payee, amount, true)? {
        return Ok(Some(narrow));
    }
    narrow_cut(alloc, liquidity, payee, amount, false)
}
