//! Messages that are ready to be offered to a map.

ghost use Rattle.std.specs.Prelude.{◌≡◌, IfOk};
ghost use Rattle.lgm_wire.specs.reading.Reading.{Gives};
ghost use Rattle.lgm_check.specs.Precheck.{checked_of};
ghost use Rattle.lgm_check.specs.CheckedKind.{row_of, Fits};
ghost use Rattle.lgm_store.specs.Spelled.{IsSpelled};
ghost use Rattle.lgm_store.specs.inner.CheckedMessage.{message_of};

use crate::shared::Shared;
use lgm_check::{
    Checked, CheckedKind, Evidence, Refusal, StoredChannel, StoredNode, StoredUpdate, precheck_kind,
};
use lgm_gossip::{ChainHash, Point};
use std::alloc::{AllocError, Global};
use std::marker::Model;

/// A message that passed all checks without a map, ready to be offered to one. Contracts see what `precheck` returns.
///
/// Its row is stored and reference-counted already. So all that is allocated for the row is allocated here, on any
/// thread, and [`Map::offer_checked`](crate::Map::offer_checked) only adds an owner.
#[derive(Drop)]
pub struct CheckedMessage {
    pub(crate) stored: StoredMessage,
}

/// Which message it is, with its row.
#[derive(Drop)]
pub(crate) enum StoredMessage {
    /// A `channel_announcement`.
    Channel(Shared<StoredChannel>),
    /// A `channel_update`, and the point that signed it.
    Update(Shared<StoredUpdate>, Point),
    /// A `node_announcement`.
    Node(Shared<StoredNode>),
}

impl Model for CheckedMessage {
    ghost use Rattle.lgm_check.specs.declared.row.Checked.{Checked};
    ghost use Rattle.lgm_store.specs.inner.CheckedMessage.{message_of};

    ghost Value = { Checked };

    ghost view = { λ c. message_of c.stored };
}

impl CheckedMessage {
    /// Stores the row of a checked message, whose bytes have to encode it.
    pub(crate) fn of(alloc: Global, checked: &Checked) -> Result<CheckedMessage, AllocError>
        requires { IsSpelled checked.now }
        ensures { IfOk result (λ made. made ≡ checked.now) }
    {
        let stored = match checked {
            Checked::Channel(row) => {
                StoredMessage::Channel(Shared::new(alloc, StoredChannel::of(alloc, row)?)?)
            }
            Checked::Update(row, signer) => {
                StoredMessage::Update(Shared::new(alloc, StoredUpdate::of(alloc, row)?)?, *signer)
            }
            Checked::Node(row) => {
                StoredMessage::Node(Shared::new(alloc, StoredNode::of(alloc, row)?)?)
            }
        };
        Ok(CheckedMessage { stored })
    }

    /// Checks a message as [`precheck`](lgm_check::precheck) does, and stores one that is accepted, with a copy of its
    /// bytes.
    ///
    /// The refusals are those of `precheck`. `NoMemory` is no verdict on the message: an allocation failed, for
    /// decoding a query or a reply, or for the row.
    pub fn precheck(
        alloc: Global,
        chain: &ChainHash,
        bytes: &[u8],
        evidence: &Evidence,
    ) -> Result<CheckedMessage, Refusal>
        ensures { Gives Refusal.NoMemory (λ made. made) result
            (checked_of chain.now bytes.now evidence.now) }
    {
        let checked = precheck_kind(alloc, chain, bytes, evidence)?;
        Ok(CheckedMessage {
            stored: copy_row(alloc, bytes, checked)?,
        })
    }
}

/// The row to be stored: a copy of the bytes, with the capacity of a channel.
fn copy_row(
    alloc: Global,
    bytes: &[u8],
    checked: CheckedKind<'_>,
) -> Result<StoredMessage, AllocError>
    requires { Fits checked bytes.now }
    ensures { IfOk result (λ stored. message_of stored ≡ row_of checked.entry bytes.now) }
{
    match checked {
        CheckedKind::Channel(sat) => {
            let row = StoredChannel::of_bytes(alloc, bytes, sat)?;
            Ok(StoredMessage::Channel(Shared::new(alloc, row)?))
        }
        CheckedKind::Update(signer) => {
            let row = StoredUpdate::of_bytes(alloc, bytes)?;
            Ok(StoredMessage::Update(Shared::new(alloc, row)?, *signer.point()))
        }
        CheckedKind::Node => {
            let row = StoredNode::of_bytes(alloc, bytes)?;
            Ok(StoredMessage::Node(Shared::new(alloc, row)?))
        }
    }
}
