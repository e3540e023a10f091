//! Payers that are restored from what was kept of them.

ghost use Rattle.std.specs.Prelude.{◌≡◌};

use super::Payer;
use crate::payment::Payment;
use lgm_gossip::Point;
use lgm_graph::Estimates;

impl Payer {
    /// The payer with this point, these payments, and what it has learnt of edges, that had begun so many payments, and had
    /// sent so many parts. Its channels have to reckon those below the number `settled`.
    pub fn restored(
        point: Point,
        payments: Vec<Payment>,
        learnt: Estimates,
        begun: u64,
        sent: u64,
        settled: u64,
    ) -> Payer
        ensures { result ≡ record {
          point = point;
          payments = payments.items;
          learnt = learnt;
          begun = begun;
          sent = sent;
          settled = settled;
        } }
    {
        Payer {
            point,
            payments,
            learnt,
            begun,
            sent,
            settled,
        }
    }

    /// How many payments it has begun: the number of the next one.
    pub fn begun(&self) -> u64
        ensures { result ≡ self.now.begun }
    {
        self.begun
    }

    /// How many parts the payer's channels have to reckon: those that were sent before a paid payment was forgotten.
    pub fn settled(&self) -> u64
        ensures { result ≡ self.now.settled }
    {
        self.settled
    }
}
