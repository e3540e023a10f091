//! Validation of a gossip message without a map: by its own fields, and by the verdicts on its signatures and funding
//! output that the caller supplies.
//!
//! [`precheck`] returns the row that the message would add to a map, or the first [`Refusal`] in a fixed order.
//! [`precheck_kind`] returns what such a row has in addition to the bytes of the message.
//! [`accepted_exactly`] says what an accepted message is, without reference to any order.
//!
//! Rows are stored as the bytes of their messages: [`StoredChannel`], [`StoredUpdate`], [`StoredNode`]. Contracts see
//! the same rows as if the fields were stored: each field is read from the bytes on access.
//!
//! Where an error is `AllocError`, memory ran out.
#![tactic(auto)]

mod evidence;
mod raw;
mod refusal;
mod row;
mod stored_channel;
mod stored_node;
mod stored_update;
mod validation;

pub use evidence::{Evidence, Funding, Sig};
pub use refusal::Refusal;
pub use row::{BanRow, ChannelRow, Checked, CheckedKind, NodeRow, Signer, UpdateRow};
pub use stored_channel::StoredChannel;
pub use stored_node::StoredNode;
pub use stored_update::StoredUpdate;
pub use validation::{MAX_SAT, accepted_exactly, precheck, precheck_kind};
