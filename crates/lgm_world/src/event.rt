//! Events of a world, and its replies.

ghost use Rattle.std.specs.Prelude.{◌≡◌};
ghost use Rattle.lgm_world.specs.declared.event.WorldFault.TheVariants.{NoMemory};

use lgm_route::{Request, Route, RouteFault};
use lgm_store::Op;
use std::alloc::AllocError;
use thiserror::Error;

/// An event. Eyes are numbered from 0.
#[derive(Debug, Drop)]
pub enum Event {
    /// The writer appends an operation.
    Append(Op),
    /// The writer publishes all pending operations.
    Publish,
    /// An eye takes the published map.
    Enter(usize),
    /// An eye learns what is published.
    Learn(usize),
    /// An eye answers a request for a route on the map that it took last.
    Answer(usize, Request),
}

/// The reply to an event.
#[derive(Debug, Drop)]
pub enum Reply {
    /// To any event but a request.
    Done,
    /// To a request: its route, or why there is none, which is never out of memory.
    Routed(Result<Route, RouteFault>),
}

/// Why a world refuses an event: the first reason, in the order of the variants, or out of memory.
#[derive(Clone, Copy, Debug, PartialEq, Eq, Error)]
pub enum WorldFault {
    /// No eye has this number. Nothing was allocated.
    #[error("no such eye")]
    NoEye,
    /// 2,000,000,000 operations have been appended. Nothing was allocated.
    #[error("full")]
    Full,
    /// Out of memory.
    #[error("out of memory")]
    NoMemory,
}

impl From<AllocError> for WorldFault {
    ghost from_gives = { λ _ e. e ≡ NoMemory };

    fn from(_e: AllocError) -> WorldFault {
        WorldFault::NoMemory
    }
}
