//! Workers that share work.

ghost use Rattle.std.specs.Prelude.{◌≡◌, ◌<◌, ◌≤◌, IfOk, min};
ghost use Rattle.lgm_par.specs.inner.Chunks.{piece_of};
ghost use Rattle.lgm_par.specs.Pieces.{AcceptsAll, GivesAll};

use crate::gate::Gate;
use crate::pieces::{map_piece, piece_at};
use std::alloc::{AllocError, Global};
use std::marker::Sync;
use std::thread;
use std::thread::Threads;

/// The maximum number of workers.
pub const MAX_WORKERS: usize = 64;

/// From 1 to [`MAX_WORKERS`] workers, with what they need. No result depends on any of it.
#[derive(Drop)]
pub struct Pool<'a, Rt, G> {
    /// The runtime that starts threads.
    pub rt: &'a Rt,
    /// The allocator.
    pub alloc: Global,
    /// The number of workers, from 1 to [`MAX_WORKERS`].
    pub workers: usize,
    /// What each chunk of work passes before it starts.
    pub gate: &'a G,
    ghost some: { 1 ≤ workers },
    ghost few: { workers ≤ 64 },
}

impl<'a, Rt: Threads + Sync, G: Gate> Pool<'a, Rt, G> {
    /// The same with at most `most` workers.
    pub fn at_most(&self, most: usize) -> Pool<'a, Rt, G>
        requires { 1 ≤ most }
        ensures { result.workers ≡ min self.now.workers most }
    {
        Pool {
            rt: self.rt,
            alloc: self.alloc,
            workers: self.workers.min(most),
            gate: self.gate,
        }
    }

    /// The results of `f` for each item, in the order of the slice, whatever the number of workers and whatever the
    /// gate does.
    ///
    /// The slice of n items is split into p consecutive chunks, where p is the lesser of `workers` and n; the first `n
    /// mod p` of them have one more item than the others. Each chunk passes the gate with its number, from 0, and is
    /// then processed in parallel with the others: on a thread of its own, or on an existing one if no more can be
    /// started. A single chunk is processed on the caller's thread. An empty slice starts no thread and passes no gate.
    /// The call waits for all chunks.
    ///
    /// `f` must be callable on each item. The error is out of memory for a list of results; the results computed so far
    /// are dropped.
    pub fn map<T: Sync, A: Send + Drop, F: Fn(&T) -> A + Sync>(
        &self,
        items: &[T],
        f: &F,
    ) -> Result<Vec<A>, AllocError>
        requires { AcceptsAll F.Fn f.now items.now }
        ensures { IfOk result (λ answers. GivesAll F.Fn f.now items.now answers.items) }
    {
        let (alloc, gate) = (self.alloc, self.gate);
        let pieces = self.workers.min(items.len());
        if pieces == 1 {
            gate.pass(0);
            return map_piece(alloc, items, f);
        }
        let work = |piece: usize| -> Result<Vec<A>, AllocError>
            requires { (piece < pieces) × AcceptsAll F.Fn f.now items.now }
            ensures { IfOk result (λ answers.
                GivesAll F.Fn f.entry.now (piece_of items.entry.now pieces piece) answers.items) }
        {
            gate.pass(piece);
            map_piece(alloc, piece_at(items, pieces, piece), f)
        };
        let parts = thread::map_indices(self.rt, alloc, pieces, &work)?;
        let mut answers = Vec::with_capacity(alloc, items.len())?;
        for part in parts {
            answers.append(&mut part?)?;
        }
        Ok(answers)
    }
}
