//! One writer and its readers as a plain state machine.

ghost use Rattle.std.specs.Prelude.{◌≡◌, ◌≢◌, ◌≤◌, ◌⊎◌, Some, Err, Ok, IfOk, OnOk, OnErr, length};
ghost use Rattle.lgm_store.specs.History.{fold};
ghost use Rattle.lgm_graph.specs.Edges.{edges_of};
ghost use Rattle.lgm_route.specs.Choice.{answer_of};
ghost use Rattle.lgm_board.specs.Limits.{most_operations};
ghost use Rattle.lgm_world.specs.World.{opening, refusal, outcome, after, IsStep};

use crate::event::{Event, Reply, WorldFault};
use lgm_board::MAX_OPERATIONS;
use lgm_graph::{Known, View};
use lgm_route::{Request, Route, RouteFault, answer};
use lgm_store::{Map, Op};
use std::alloc::{AllocError, Global};
use std::marker::Model;

/// The best route of a payment over the edges of the map of a history.
fn find_route(
    alloc: Global,
    known: &Known,
    history: &[Op],
    request: &Request,
) -> Result<Route, RouteFault>
    requires { length history.now ≤ most_operations }
    ensures { (result ≡ Err RouteFault.NoMemory)
        ⊎ (result ≡ answer_of (edges_of known.now (fold history.now)) request.now) }
{
    let map = Map::replay(alloc, history)?;
    let view = View::of(alloc, &map, known)?;
    answer(alloc, &map, &view, request)
}

/// What an eye has observed.
#[derive(Drop)]
pub(crate) struct Marks {
    /// The number of operations that it took or was told.
    seen: usize,
    /// The number of operations of the map that it took last.
    entered: usize,
}

/// One writer and its readers on one thread: what the pen and the eyes of a board are to do, as a state machine that
/// processes one event after the other. Contracts see it as a record.
#[derive(Drop)]
pub struct World {
    alloc: Global,
    known: Known,
    appended: Vec<Op>,
    /// The number of published operations.
    published: usize,
    eyes: Vec<Marks>,
}

impl Model for World {
    ghost use Rattle.std.specs.Prelude.{◌≤◌, length};
    ghost use Rattle.lgm_board.specs.declared.snapshot.TheConstants.{MAX_OPERATIONS};
    ghost use Rattle.lgm_world.specs.World.{Standing, standing, IsOrdered};

    ghost Value = { Standing };

    ghost view = { λ w. standing w.known w.appended.items w.published w.eyes.items };

    ghost invariant = { λ w. IsOrdered (standing w.known w.appended.items w.published w.eyes.items)
        × (length w.appended.items ≤ MAX_OPERATIONS) };
}

impl World {
    /// Nothing is appended, and this many eyes have observed nothing. The known feature bits are copied.
    pub fn new(alloc: Global, eyes: usize, known: &Known) -> Result<World, AllocError>
        ensures { IfOk result (λ world. world ≡ opening known.now eyes) }
    {
        let mut marks = Vec::new(alloc);
        for _eye in 0..eyes {
            marks.push(Marks {
                seen: 0,
                entered: 0,
            })?;
        }
        Ok(World {
            alloc,
            known: known.copy(alloc)?,
            appended: Vec::new(alloc),
            published: 0,
            eyes: marks,
        })
    }

    /// Processes an event, and replies to it.
    ///
    /// `Append` adds a copy of the operation, `Publish` publishes all pending ones. `Enter` sets what the eye has
    /// observed, and what it took last, to what is published; `Learn` sets only what it has observed. `Answer` makes
    /// the map of the operations that the eye took last, of none if it took none yet, and finds the best route in its
    /// view.
    ///
    /// An event that is refused changes nothing.
    pub fn step(&mut self, event: &Event) -> Result<Reply, WorldFault>
        // A number of no eye, and an operation beyond the limit, are refused before anything is allocated.
        ensures refused { (fault : WorldFault) → refusal self.old event.now ≡ Some fault
            → result ≡ Err fault }

        // Otherwise the reply is that of the definition, unless memory runs out.
        ensures reply { (result ≡ Err WorldFault.NoMemory) ⊎ (result ≡ outcome self.old event.now) }
        ensures done { OnOk result (self.new ≡ after self.old event.now) }
        ensures stays { OnErr result (self.new ≡ self.old) }

        // Out of memory is never a reply.
        ensures memory { result ≢ Ok (Reply.Routed (Err RouteFault.NoMemory)) }
    {
        match event {
            Event::Append(op) => self.append(op),
            Event::Publish => {
                self.published = self.appended.len();
                Ok(Reply::Done)
            }
            Event::Enter(eye) => self.enter(*eye),
            Event::Learn(eye) => self.learn(*eye),
            Event::Answer(eye, request) => self.answer(*eye, request),
        }
    }
}

impl World {
    fn append(&mut self, op: &Op) -> Result<Reply, WorldFault>
        ensures { IsStep self.old (Event.Append op.now) result self.new }
    {
        if self.appended.len() as u64 == MAX_OPERATIONS {
            return Err(WorldFault::Full);
        }
        let op = op.copy(self.alloc)?;
        if self.appended.push(op).is_err() {
            return Err(WorldFault::NoMemory);
        }
        Ok(Reply::Done)
    }

    fn enter(&mut self, eye: usize) -> Result<Reply, WorldFault>
        ensures { IsStep self.old (Event.Enter eye) result self.new }
    {
        if eye >= self.eyes.len() {
            return Err(WorldFault::NoEye);
        }
        self.eyes[eye] = Marks {
            seen: self.published,
            entered: self.published,
        };
        Ok(Reply::Done)
    }

    fn learn(&mut self, eye: usize) -> Result<Reply, WorldFault>
        ensures { IsStep self.old (Event.Learn eye) result self.new }
    {
        if eye >= self.eyes.len() {
            return Err(WorldFault::NoEye);
        }
        self.eyes[eye].seen = self.published;
        Ok(Reply::Done)
    }

    fn answer(&self, eye: usize, request: &Request) -> Result<Reply, WorldFault>
        ensures { IsStep self.now (Event.Answer eye request.now) result self.now }
    {
        if eye >= self.eyes.len() {
            return Err(WorldFault::NoEye);
        }
        let taken = &self.appended[..self.eyes[eye].entered];
        match find_route(self.alloc, &self.known, taken, request) {
            Err(RouteFault::NoMemory) => Err(WorldFault::NoMemory),
            found => Ok(Reply::Routed(found)),
        }
    }
}
