//! What is learnt of edges.

ghost use Rattle.std.specs.Prelude.{◌≡◌, ℕ, OnOk, OnErr, IfOk};
ghost use Rattle.std.specs.Bool.{OnFalse};
ghost use Rattle.std.specs.Option.{unwrap_or};
ghost use Rattle.lgm_wire.specs.declared.point.Point.{Point as Node};
ghost use Rattle.lgm_graph.specs.Estimates.{estimate_of};
ghost use Rattle.lgm_odds.specs.Lessons.{lowered, taught, taught_by, believed, AreTaught};

use lgm_graph::{Estimate, Estimates, Hop};
use std::alloc::AllocError;

/// What an edge did with an amount.
#[derive(Clone, Copy, Debug, PartialEq, Eq)]
pub enum Lesson {
    /// It carried it.
    Carried,
    /// It failed to carry it.
    Failed,
    /// It has it less.
    Gone,
}

/// What is believed of an edge that has an amount less.
fn lowered(estimate: Estimate, amount: u64) -> Estimate
    ensures { result ≡ lowered amount estimate }
{
    Estimate {
        least: estimate.least.saturating_sub(amount),
        most: if estimate.most < u64::MAX {
            estimate.most.saturating_sub(amount)
        } else {
            estimate.most
        },
        penalty: estimate.penalty,
    }
}

impl Lesson {
    /// What is believed of an edge then, where the amount is in msat.
    pub fn taught(self, estimate: Estimate, amount: u64) -> Estimate
        ensures { result ≡ taught self amount estimate }
    {
        match self {
            Lesson::Carried => estimate.carried(amount),
            Lesson::Failed => estimate.failed(amount),
            Lesson::Gone => lowered(estimate, amount),
        }
    }

    /// Has estimates learn it of a hop's edge, where the amount is in msat. Out of memory changes nothing.
    pub fn teach(self, estimates: &mut Estimates, hop: &Hop, amount: u64) -> Result<(), AllocError>
        ensures taught { OnOk result (AreTaught (taught_by self hop.now amount) estimates.old estimates.new) }
        ensures stays { OnErr result (estimates.new ≡ estimates.old) }
    {
        let known = estimates.get(hop.scid, &hop.from);
        let taught = self.taught(known, amount);
        if taught != known {
            estimates.set(hop.scid, &hop.from, taught)?;
        }
        Ok(())
    }
}

/// Whether estimates change where a hop's edge has its amount less.
fn is_changed(learnt: &Estimates, hop: &Hop) -> bool
    ensures { OnFalse result (AreTaught (taught_by Lesson.Gone hop.now hop.now.amount) learnt.now learnt.now) }
{
    let known = learnt.get(hop.scid, &hop.from);
    lowered(known, hop.amount) != known
}

/// Estimates once a hop's edge has its amount less: a copy of what was learnt, from the first change on.
fn lowered_by(
    beside: Option<Estimates>,
    learnt: &Estimates,
    hop: &Hop,
) -> Result<Option<Estimates>, AllocError>
    ensures { IfOk result (λ new.
        AreTaught (taught_by Lesson.Gone hop.now hop.now.amount) (unwrap_or beside learnt.now) (unwrap_or new learnt.now)) }
{
    match beside {
        Some(mut estimates) => {
            Lesson::Gone.teach(&mut estimates, hop, hop.amount)?;
            Ok(Some(estimates))
        }
        None => {
            if !is_changed(learnt, hop) {
                return Ok(None);
            }
            let mut estimates = learnt.copy()?;
            Lesson::Gone.teach(&mut estimates, hop, hop.amount)?;
            Ok(Some(estimates))
        }
    }
}

/// What is believed of edges beside some hops: each edge has less by what they carry over it. None, if that is what was
/// learnt, since nothing is known of the edges that they are over; then nothing is copied.
pub fn beside(learnt: &Estimates, busy: &[Hop]) -> Result<Option<Estimates>, AllocError>
    ensures { IfOk result (λ beside. estimate_of (unwrap_or beside learnt.now) ≡ believed learnt.now busy.now) }
{
    let mut beside = None;
    for hop in busy {
        beside = lowered_by(beside, learnt, hop)?;
    }
    Ok(beside)
}
