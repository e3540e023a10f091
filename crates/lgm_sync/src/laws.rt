//! Laws of maps that are synchronized, of covered ranges, and of signed messages.

ghost use Rattle.std.specs.Prelude.{◌≡◌, ◌⊎◌, ℕ, ◌<◌, ◌≤◌, List, [], map};
ghost use Rattle.std.specs.List.{Contains};
ghost use Rattle.lgm_wire.specs.declared.chain_hash.ChainHash.{ChainHash};
ghost use Rattle.lgm_gossip.specs.Message.{Wire};
ghost use Rattle.lgm_gossip.specs.RangeReply.{ReplyFields};
ghost use Rattle.lgm_gossip.specs.Spelling.{spelling};
ghost use Rattle.lgm_gossip.specs.declared.message.Message.{Message};
ghost use Rattle.lgm_gossip.specs.declared.message.Message.TheVariants as messages;
ghost use Rattle.lgm_gossip.specs.declared.range_query.RangeQuery.{RangeQuery};
ghost use Rattle.lgm_check.specs.declared.row.ChannelRow.{ChannelRow};
ghost use Rattle.lgm_query.specs.IdsReply.{ids_reply};
ghost use Rattle.lgm_query.specs.RangeReply.{range_reply};
ghost use Rattle.lgm_sync.specs.Covered.{covered_by_all, reply_end, IsReplied, LeaveNoGap};
ghost use Rattle.lgm_sync.specs.SignedMessage.{IsSigned};
ghost use Rattle.lgm_sync.specs.Synchronized.{replies_of, lacking_of_all, query_for, AsksForTimes, IsAsked, HasAsNew, IsToldLacking, IsAnswered};
ghost use Rattle.lgm_sync.specs.declared.lacking.Lacking.{Lacking};

use lgm_query::replies_cover_range;
use lgm_store::Map;

/// What is covered is replied: each block from the first one to that up to which the replies cover a range is in one of them,
/// whatever a peer sent. If the replies leave no gap, what is covered reaches the end of each. A call does nothing: its
/// contract is the law.
pub fn covered_is_replied()
    ensures replied { (chain : ChainHash) (first block : ℕ) (replies : List ReplyFields) → first ≤ block
        → block < covered_by_all chain first replies → IsReplied chain replies block }
    ensures reaches { (chain : ChainHash) (first : ℕ) (replies : List ReplyFields) (reply : ReplyFields)
        → LeaveNoGap chain first replies → Contains replies reply → reply_end reply ≤ covered_by_all chain first replies }
{}

/// The bytes of each message are the two of its type, its signatures, each of 64 bytes, and all that is signed. A call does
/// nothing: its contract is the law.
pub fn signatures_stand_first()
    ensures { (message : Message) (bytes : List ℕ) → Wire message bytes → IsSigned message bytes }
{}

/// What a map lacks of a peer's is told, and nothing is passed over: of each channel that a peer has in the range of a query, a
/// map has it already, with updates at least as new, or it is among what is lacking of the peer's replies, with the flags for all
/// that is newer, and never both. The answer to the query for it has its announcement, if the map doesn't have it, and each
/// update that is newer. Once nothing is lacking, the map has each channel of the peer in that range, with updates at least as
/// new.
///
/// The replies and the answer are those that this implementation gives. A timestamp of 0 counts as no update. A call does
/// nothing: its contract is the law.
pub fn what_is_lacking_is_told(own: &Map, peer: &Map)
    ensures told { (chain : ChainHash) (query : RangeQuery) (row : ChannelRow) → AsksForTimes chain query
        → IsAsked peer.now query row → HasAsNew own.now peer.now row.message.short_channel_id
        ⊎ IsToldLacking own.now peer.now (lacking_of_all own.now (replies_of chain peer.now query)) row.message.short_channel_id }
    ensures needed { (chain : ChainHash) (query : RangeQuery) (one : Lacking) → AsksForTimes chain query
        → Contains (lacking_of_all own.now (replies_of chain peer.now query)) one → HasAsNew own.now peer.now one.scid → ⊥ }
    ensures done { (chain : ChainHash) (query : RangeQuery) (row : ChannelRow) → AsksForTimes chain query
        → IsAsked peer.now query row → lacking_of_all own.now (replies_of chain peer.now query) ≡ []
        → HasAsNew own.now peer.now row.message.short_channel_id }
    ensures answered { (chain : ChainHash) (asked : List Lacking) (row : ChannelRow) → Contains peer.now.channels row
        → IsToldLacking own.now peer.now asked row.message.short_channel_id
        → IsAnswered own.now peer.now (ids_reply chain peer.now (query_for chain asked)) row }
    ensures sent { (chain : ChainHash) (query : RangeQuery) → range_reply chain peer.now query
        ≡ map (λ reply. spelling (messages.RangeReply reply)) (replies_of chain peer.now query) }
{
    own.rows_are_lawful();
    peer.rows_are_lawful();
    replies_cover_range();
}
