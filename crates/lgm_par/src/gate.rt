//! Gates, which each chunk passes before it starts, and which are notified of each publication.

use std::marker::Sync;

/// Each chunk of work passes the gate once before it starts; a test can thus delay one chunk until another has started.
/// The publisher notifies the gate, so that a chunk can wait until something is published. No result depends on it.
pub trait Gate: Sync {
    /// Called before chunk `piece`, counted from 0, starts, on the thread that runs it. It may wait.
    fn pass(&self, piece: usize);

    /// Called with the number of batches published so far, on the thread that publishes; at the end, whether all were
    /// published or not, with `usize::MAX`: no more will be.
    fn published(&self, _batches: usize) {}
}

/// The gate that delays nothing.
#[derive(Clone, Copy, Debug)]
pub struct Open;

impl Gate for Open {
    fn pass(&self, _piece: usize) {}
}
