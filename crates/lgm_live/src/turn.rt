//! Payments that are dealt to workers.

ghost use Rattle.std.specs.Prelude.{◌≡◌, ◌<◌, ◌+◌, ◌*◌, ◌/◌, ◌%◌, IfSome};

/// Whose turn a payment is. Payments are dealt round-robin, from worker 0 on.
#[derive(Clone, Copy, Debug, PartialEq, Eq)]
pub(crate) struct Turn {
    /// The worker, from 0.
    pub(crate) worker: usize,
    /// How many payments it has before this one.
    pub(crate) round: usize,
}

impl Turn {
    /// The turn of the payment with an index among all that are dealt to this many workers.
    pub(crate) fn of(place: usize, workers: usize) -> Turn
        requires { 0 < workers }
        ensures worker { result.worker ≡ place % workers }
        ensures round { result.round ≡ place / workers }
    {
        Turn {
            worker: place % workers,
            round: place / workers,
        }
    }

    /// The index of the payment among all that are dealt to this many workers.
    pub(crate) fn place(self, workers: usize) -> Option<usize>
        ensures { IfSome result (λ place. place ≡ self.round * workers + self.worker) }
    {
        self.round.checked_mul(workers)?.checked_add(self.worker)
    }
}
