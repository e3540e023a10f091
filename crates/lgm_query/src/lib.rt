//! Replies to queries about a map (BOLT 7, "Query Messages").
//!
//! [`read_query`] and [`read_filter`] read what a peer requests. [`answer_ids`] returns the messages in the map about
//! given channels, and [`answer_range`] the ids of the channels in a range of blocks. A [`Backlog`] iterates over what
//! passes a [`Filter`], [`backlog`] collects it, and [`news`] returns what is new of it in a later map; if operations
//! led from the earlier map to the later one, a [`MapDiff`] iterates over it without looking at the rest. All return
//! whole messages as bytes, ready to be sent.
//!
//! Where an error is `AllocError`, memory ran out.
#![tactic(auto)]

mod backlog_iter;
mod filter;
mod ids_reply;
mod laws;
mod map_diff;
mod matching_messages;
mod news_iter;
mod pairs;
mod range_reply;
mod reply;
mod reply_builder;
mod request;
mod sent_with;
mod touched_keys;

pub use backlog_iter::Backlog;
pub use filter::Filter;
pub use ids_reply::answer_ids;
pub use laws::replies_cover_range;
pub use map_diff::{MapDiff, news};
pub use news_iter::News;
pub use range_reply::answer_range;
pub use reply::{Replies, ReplyMessage, backlog};
pub use request::{Query, RequestFault, read_filter, read_query};
pub use touched_keys::TouchedKeys;
