//! What a payer would rather pay than use an edge.

ghost use Rattle.std.specs.Prelude.{◌≡◌, ◌+◌, Option, None};
ghost use Rattle.lgm_route.specs.inner.Numbered.{Terms, IsSpent, penalty_of};

use lgm_graph::Edge;

/// The penalty of each edge for each amount: it never falls as the amount grows, and is at most 2^40 msat.
pub(crate) trait Penalties: Copy {
    /// What they are computed from.
    ghost terms: { Self → Option Terms };

    /// The penalties of a rest, in msat, with that of an edge before it.
    fn add(&self, spent: u64, edge: &Edge, amount: u64) -> u64
        requires { IsSpent (terms self.now) spent }
        ensures { result ≡ spent + penalty_of (terms self.now) edge.now amount };
}

/// No penalties: the walk that sends least is the best.
#[derive(Clone, Copy)]
pub(crate) struct NoPenalties;

impl Penalties for NoPenalties {
    ghost terms = { λ _. None };

    #[inline(always)]
    fn add(&self, _spent: u64, _edge: &Edge, _amount: u64) -> u64 {
        0
    }
}
