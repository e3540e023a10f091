//! The messages.

use crate::announce::Announce;
use crate::channel_update::ChannelUpdate;
use crate::filter_msg::FilterMsg;
use crate::ids_end::IdsEnd;
use crate::ids_query::IdsQuery;
use crate::node_announce::NodeAnnounce;
use crate::range_query::RangeQuery;
use crate::range_reply::RangeReply;

/// The maximum length of a message in bytes, with its type (BOLT 1, "Lightning Message Format").
pub const MAX_LEN: usize = 65_535;

/// A gossip message, one variant per type.
#[derive(Debug, Drop)]
pub enum Message<'a> {
    /// Type 256, `channel_announcement`.
    Announce(Announce<'a>),
    /// Type 257, `node_announcement`.
    NodeAnnounce(NodeAnnounce<'a>),
    /// Type 258, `channel_update`.
    ChannelUpdate(ChannelUpdate<'a>),
    /// Type 261, `query_short_channel_ids`.
    IdsQuery(IdsQuery),
    /// Type 262, `reply_short_channel_ids_end`.
    IdsEnd(IdsEnd),
    /// Type 263, `query_channel_range`.
    RangeQuery(RangeQuery),
    /// Type 264, `reply_channel_range`.
    RangeReply(RangeReply),
    /// Type 265, `gossip_timestamp_filter`.
    FilterMsg(FilterMsg),
}
