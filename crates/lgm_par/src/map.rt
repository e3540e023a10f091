//! Mapping a function over a slice.

ghost use Rattle.std.specs.Prelude.{◌≤◌, IfOk};
ghost use Rattle.lgm_par.specs.Pieces.{AcceptsAll, GivesAll};

use crate::gate::Gate;
use crate::pool::Pool;
use std::alloc::{AllocError, Global};
use std::thread::Threads;

/// The results of `f` for each item, in the order of the slice, whatever the number of workers and whatever the gate
/// does: [`Pool::map`], with a pool of these.
///
/// `f` must be callable on each item. The error is out of memory for a list of results; the results computed so far are
/// dropped.
pub fn map_chunks<Rt: Threads + Sync, G: Gate, T: Sync, A: Send + Drop, F: Fn(&T) -> A + Sync>(
    rt: &Rt,
    alloc: Global,
    workers: usize,
    gate: &G,
    items: &[T],
    f: &F,
) -> Result<Vec<A>, AllocError>
    requires workers { (1 ≤ workers) × (workers ≤ 64) }
    requires accepts { AcceptsAll F.Fn f.now items.now }
    ensures { IfOk result (λ answers. GivesAll F.Fn f.now items.now answers.items) }
{
    let pool = Pool {
        rt,
        alloc,
        workers,
        gate,
    };
    pool.map(items, f)
}
