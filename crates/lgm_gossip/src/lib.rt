//! The messages of the gossip protocol as types, and their encoding.
//!
//! [`decode`] parses the bytes of one message, as received from a peer, into a [`Message`] or reports their first
//! fault; [`encode`] writes one. Contracts say which bytes encode which message, field by field in the order of BOLT 7.
//! [`addresses`] parses a node's addresses, and [`has_even_bit`] tests feature bits.
//!
//! Where an error is `AllocError`, memory ran out.
#![tactic(auto)]

mod address;
mod announce;
mod borrowed;
mod channel_update;
mod decoder;
mod encode_fault;
mod encoded_ids;
mod encoder;
mod fault;
mod features;
mod fields;
mod filter_msg;
mod fixed_width;
mod ids_end;
mod ids_query;
mod layout;
mod message;
mod node_announce;
mod optional;
mod places;
mod query_flags;
mod range_query;
mod range_reply;
mod segment;
mod sequence;
mod timestamp_list;
mod timestamps;

pub use address::{Address, AddressList, addresses};
pub use announce::Announce;
pub use borrowed::{BorrowedBytes, Signature};
pub use channel_update::ChannelUpdate;
pub use decoder::{decode, one_message};
pub use encode_fault::EncodeFault;
pub use encoded_ids::Scids;
pub use encoder::encode;
pub use fault::DecodeFault;
pub use features::has_even_bit;
pub use filter_msg::FilterMsg;
pub use ids_end::IdsEnd;
pub use ids_query::IdsQuery;
pub use layout::{Layout, layout_of};
pub use lgm_wire::{ChainHash, Point, Scid};
pub use message::{MAX_LEN, Message};
pub use node_announce::NodeAnnounce;
pub use query_flags::QueryFlags;
pub use range_query::RangeQuery;
pub use range_reply::RangeReply;
pub use sequence::{Bytes, Sequence};
pub use timestamp_list::TimestampList;
pub use timestamps::Timestamps;
