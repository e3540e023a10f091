//! Which announcement or update bytes encode.

ghost use Rattle.lgm_gossip.specs.Layout.{IsLaidOut};

use crate::announce::Announce;
use crate::channel_update::ChannelUpdate;
use crate::message::MAX_LEN;
use crate::node_announce::NodeAnnounce;
use crate::places::number16;

/// A message whose fields are read at their offsets, or other bytes.
#[derive(Clone, Copy, Debug, PartialEq, Eq)]
pub enum Layout {
    /// A `channel_announcement` with all of its fields.
    Announce,
    /// A `channel_update` with all of its fields.
    Update,
    /// A `node_announcement` with all of its fields.
    Node,
    /// Another message, or none.
    Other,
}

/// The layout of any bytes.
#[inline(always)]
pub fn layout_of(bytes: &[u8]) -> Layout
    ensures { IsLaidOut result bytes.now }
{
    if bytes.len() < 2 || bytes.len() > MAX_LEN {
        return Layout::Other;
    }
    match number16(bytes, 0) {
        256 if Announce::is_long_enough(bytes) => Layout::Announce,
        257 if NodeAnnounce::is_long_enough(bytes) => Layout::Node,
        258 if ChannelUpdate::is_long_enough(bytes) => Layout::Update,
        _ => Layout::Other,
    }
}
