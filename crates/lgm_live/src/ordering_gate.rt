//! The gate by which payments wait for the items before them.

use crate::turn::Turn;
use lgm_par::Gate;
use std::alloc::{AllocError, Global};
use std::marker::Sync;
use std::sync::atomic::{AtomicU64, Ordering};
use std::sync::{Condvar, Mutex, Wait};

/// A gate at which each payment waits until the batches before its line are published. Each payment and each
/// publication passes the caller's gate first. A worker that waits has no guard.
#[derive(Drop)]
pub(crate) struct OrderingGate<'a, Rt: Wait, G: Gate> {
    rt: &'a Rt,
    gate: &'a G,
    /// For each payment, in the script's order, the number of batches before it.
    above: &'a [usize],
    /// The number of payments that each worker has started.
    begun: Vec<AtomicU64>,
    /// The number of published batches.
    published: Mutex<usize>,
    /// Notifies those that wait for more.
    more: Condvar,
}

impl<'a, Rt: Wait, G: Gate> OrderingGate<'a, Rt, G> {
    /// A gate for this many workers, none of which has started a payment.
    pub(crate) fn new(
        rt: &'a Rt,
        alloc: Global,
        gate: &'a G,
        workers: usize,
        above: &'a [usize],
    ) -> Result<OrderingGate<'a, Rt, G>, AllocError> {
        let mut begun = Vec::new(alloc);
        for _worker in 0..workers {
            begun.push(AtomicU64::new(0))?;
        }
        Ok(OrderingGate {
            rt,
            gate,
            above,
            begun,
            published: Mutex::new(0),
            more: Condvar::new(),
        })
    }
}

/// The number of batches to be published before a worker's next payment, which counts as started; 0 if there is none.
fn due(begun: &[AtomicU64], above: &[usize], worker: usize) -> usize {
    let Some(count) = begun.get(worker) else {
        return 0;
    };
    let round = count.fetch_add(1, Ordering::SeqCst) as usize;
    let Some(place) = (Turn { worker, round }).place(begun.len()) else {
        return 0;
    };
    match above.get(place) {
        Some(batches) => *batches,
        None => 0,
    }
}

impl<'a, Rt: Wait + Sync, G: Gate> Gate for OrderingGate<'a, Rt, G> {
    fn pass(&self, piece: usize) {
        self.gate.pass(piece);
        let due = due(self.begun.as_slice(), self.above, piece);
        let published = self.published.lock(self.rt);
        let _ready = self
            .more
            .wait_while(self.rt, published, |published| *published < due);
    }

    fn published(&self, batches: usize) {
        self.gate.published(batches);
        *self.published.lock(self.rt) = batches;
        self.more.notify_all();
    }
}
