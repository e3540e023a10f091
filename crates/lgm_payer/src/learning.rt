//! What the ends of parts teach.

ghost use Rattle.std.specs.Prelude.{◌≡◌, ℕ, take, OnOk};
ghost use Rattle.std.specs.Option.{option_copied};
ghost use Rattle.lgm_wire.specs.declared.point.Point.{Point as Node};
ghost use Rattle.lgm_graph.specs.Estimates.{estimate_of};
ghost use Rattle.lgm_odds.specs.Lessons.{AreTaught};
ghost use Rattle.lgm_payer.specs.Learning.{taught_public, taught_all, taught_refused, taught_arrived, learnt_from, learnt_arrived};

use crate::exclusions::is_public;
use crate::failure::{Ending, FailureKind};
use crate::part::Part;
use lgm_gossip::Point;
use lgm_graph::{Estimates, ExtraEdge, Hop};
use lgm_odds::{Lesson, carried_over};
use std::alloc::AllocError;

/// Has estimates learn of a hop of the map's what it carries.
fn teach_public(
    lesson: Lesson,
    estimates: &mut Estimates,
    payer: &Point,
    hints: &[ExtraEdge],
    hop: &Hop,
) -> Result<(), AllocError>
    ensures { OnOk result (AreTaught (λ scid from estimate.
        taught_public lesson payer.now hints.now scid from estimate hop.now) estimates.old estimates.new) }
{
    if is_public(payer, hints, hop) {
        lesson.teach(estimates, hop, hop.amount)?;
    }
    Ok(())
}

/// Has estimates learn it of each of some hops.
fn teach_all(
    lesson: Lesson,
    estimates: &mut Estimates,
    payer: &Point,
    hints: &[ExtraEdge],
    hops: &[Hop],
) -> Result<(), AllocError>
    ensures { OnOk result (AreTaught (taught_all lesson payer.now hints.now hops.now) estimates.old estimates.new) }
{
    for hop in hops {
        teach_public(lesson, estimates, payer, hints, hop)?;
    }
    Ok(())
}

/// Has estimates learn of a hop of the map's that a node didn't take.
fn teach_refused(
    kind: FailureKind,
    estimates: &mut Estimates,
    payer: &Point,
    hints: &[ExtraEdge],
    busy: &[Hop],
    hop: Option<&Hop>,
) -> Result<(), AllocError>
    ensures { OnOk result (AreTaught (taught_refused kind payer.now hints.now busy.now (option_copied hop.entry))
        estimates.old estimates.new) }
{
    let Some(hop) = hop else {
        return Ok(());
    };
    if kind.is_balance() && is_public(payer, hints, hop) {
        let carried = carried_over(busy, hop.scid, &hop.from);
        Lesson::Failed.teach(estimates, hop, carried)?;
    }
    Ok(())
}

fn hops_before(route: &[Hop], place: usize) -> &[Hop]
    ensures { result.now ≡ take place route.now }
{
    if place < route.len() {
        &route[..place]
    } else {
        route
    }
}

/// Has estimates learn what the failure of a part over a route teaches, while these hops are under way. Out of
/// memory leaves some of it learnt.
pub(crate) fn learn(
    estimates: &mut Estimates,
    payer: &Point,
    hints: &[ExtraEdge],
    busy: &[Hop],
    route: &[Hop],
    ending: Ending,
) -> Result<(), AllocError>
    ensures { OnOk result (AreTaught (learnt_from payer.now hints.now busy.now route.now ending) estimates.old estimates.new) }
{
    match ending {
        Ending::Unreadable => Ok(()),
        Ending::Failed(failure) => {
            let reached = hops_before(route, failure.place);
            teach_all(Lesson::Carried, estimates, payer, hints, reached)?;
            let kind = FailureKind::of(failure.code);
            teach_refused(
                kind,
                estimates,
                payer,
                hints,
                busy,
                route.get(failure.place),
            )
        }
    }
}

/// Has estimates learn of a part that arrived, unless it failed.
fn teach_arrived(
    estimates: &mut Estimates,
    payer: &Point,
    hints: &[ExtraEdge],
    part: &Part,
) -> Result<(), AllocError>
    ensures { OnOk result (AreTaught (λ scid from estimate. taught_arrived payer.now hints.now scid from estimate part.now)
        estimates.old estimates.new) }
{
    if part.is_held() {
        teach_all(Lesson::Gone, estimates, payer, hints, part.route.as_slice())?;
    }
    Ok(())
}

/// Has estimates learn what it teaches that a payee took the whole. Out of memory leaves some of it learnt.
pub(crate) fn learn_arrived(
    estimates: &mut Estimates,
    payer: &Point,
    hints: &[ExtraEdge],
    parts: &[Part],
) -> Result<(), AllocError>
    ensures { OnOk result (AreTaught (learnt_arrived payer.now hints.now parts.now) estimates.old estimates.new) }
{
    for part in parts {
        teach_arrived(estimates, payer, hints, part)?;
    }
    Ok(())
}
