//! The map: what a node keeps of the public channels and nodes.
//!
//! Contracts see a [`Map`] as its rows, in ascending lists. An item is first admitted, which gives an [`Op`] or a
//! refusal, and then absorbed. A list of operations is a history, and the map of a history is its fold.
//!
//! Two lawful announcements of one channel with different nodes contradict each other: the nodes of both are banned,
//! and all their channels are removed. BOLT 7 requires that if both name the same transaction in the same block; a
//! channel id identifies these by position. After a reorganisation another transaction may have that position: close
//! the channel before its id is announced again, or its nodes are banned. A ban lasts as long as the map.
//!
//! Where an error is `AllocError`, memory ran out.
#![tactic(auto)]

mod banned;
mod channel_info;
mod channel_table;
mod channels_by_node;
mod checked_message;
mod iter;
mod laws;
mod lookahead;
mod map;
mod node_table;
mod op;
mod scid_set;
mod seed;
mod shared;
mod slot_table;

pub use channel_info::ChannelInfo;
pub use channel_table::ROWS_TOGETHER;
pub use checked_message::CheckedMessage;
pub use iter::{Channels, ChannelsBetween, ChannelsTogether, Nodes};
pub use laws::{histories_are_lawful, rows_ascend};
pub use lookahead::Lookahead;
pub use lookahead::lookup::{Hint, NodeKey};
pub use lookahead::lookup_cache::LookupCache;
pub use map::Map;
pub use op::Op;
pub use seed::Seed;
pub use shared::Shared;
