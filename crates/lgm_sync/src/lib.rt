//! A peer's channels against those of a map (BOLT 7, "Query Messages").
//!
//! [`ask_range`] is the message that asks a peer for the ids of its channels, [`lacking_of`] says what a map lacks of those in a
//! reply, and [`ask_ids`] is the message that asks for it. [`covered_by`] says up to which block the replies cover a range.
//! [`ask_filter`] is the message that asks for gossip from now on. No call keeps a state, and whatever a peer sends, each
//! returns.
//!
//! [`reads`] says what a verifier needs of a message that comes back, and [`prunable`] which channels of a map are so old that a
//! node may drop them.
//!
//! The only error of the calls that ask, of [`lacking_of`] and of [`prunable`] is out of memory.
#![tactic(auto)]

mod asking;
mod covered;
mod lacking;
mod laws;
mod pruning;
mod reply;
mod signed_message;

pub use asking::{MAX_IDS, ask_filter, ask_ids, ask_range};
pub use covered::covered_by;
pub use lacking::{Lacking, lacking_of};
pub use laws::{covered_is_replied, signatures_stand_first, what_is_lacking_is_told};
pub use pruning::{StaleChannel, prunable};
pub use reply::{ReplyFault, read_reply};
pub use signed_message::{ChannelKeys, SignedMessage, Signers, reads, signature_at};
