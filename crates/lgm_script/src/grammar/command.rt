//! Commands: what a line requests.

ghost use Rattle.std.specs.Prelude.{◌≡◌, IfOk};
ghost use Rattle.lgm_script.specs.Command.{command_of, HasLawfulPeer};

use crate::grammar::{Item, LineForm, RouteParameters};
use lgm_gossip::Bytes;
use std::alloc::{AllocError, Global};

/// A command: what a line of a script requests.
#[derive(Debug, Drop)]
pub enum Command {
    /// Nothing: the line is empty, or a comment.
    Quiet,
    /// Not a form of the grammar.
    Bad,
    /// Offers an item to the map.
    Offer(Item),
    /// A commit: later requests are answered on the map of all items accepted so far.
    Commit,
    /// Requests the replies to a query of these bytes.
    Query(Bytes),
    /// Sets a peer's filter from these bytes, and requests what passes it.
    Filter(u16, Bytes),
    /// Requests the route of a payment.
    Route(RouteParameters),
}

/// The command of a line.
pub fn parse(alloc: Global, line: &[u8]) -> Result<Command, AllocError>
    ensures value { IfOk result (λ request. request ≡ command_of line.now) }
    ensures peer { IfOk result HasLawfulPeer }
{
    LineForm::of(line).command(alloc)
}
