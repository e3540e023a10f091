//! The records of a saved map.

ghost use Rattle.std.specs.Prelude.{◌≡◌, length, IfSome};
ghost use Rattle.lgm_save.specs.Records.{IsRecord, bytes_of, framed};

use lgm_gossip::{BorrowedBytes, Point};

/// One row of a saved map, borrowed from the map or from its bytes.
#[derive(Debug, Drop)]
pub enum Record<'a> {
    /// A banned node.
    Ban(Point),
    /// A channel: its capacity in satoshi, and its announcement as received.
    Channel(u64, BorrowedBytes<'a>),
    /// An update of a channel, as received.
    Update(BorrowedBytes<'a>),
    /// The announcement of a node, as received.
    Node(BorrowedBytes<'a>),
}

impl Record<'_> {
    /// The number of its bytes, unless that is beyond 2^64.
    pub(crate) fn length(&self) -> Option<usize>
        requires { IsRecord self.now }
        ensures { IfSome result (λ n. n ≡ length (bytes_of self.now)) }
    {
        match self {
            Record::Ban(_) => Some(34),
            Record::Channel(_, message) => framed_length(message.as_slice())?.checked_add(9),
            Record::Update(message) => framed_length(message.as_slice())?.checked_add(1),
            Record::Node(message) => framed_length(message.as_slice())?.checked_add(1),
        }
    }
}

/// The number of bytes of a message and its length.
fn framed_length(message: &[u8]) -> Option<usize>
    ensures { IfSome result (λ n. n ≡ length (framed message.now)) }
{
    message.len().checked_add(2)
}
