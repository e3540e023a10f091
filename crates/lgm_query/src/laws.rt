//! Laws of replies.

ghost use Rattle.lgm_wire.specs.declared.chain_hash.ChainHash.{ChainHash};
ghost use Rattle.lgm_gossip.specs.declared.range_query.RangeQuery.{RangeQuery};
ghost use Rattle.lgm_store.specs.Rows.{Rows, IsAscending};
ghost use Rattle.lgm_query.specs.RangeReply.{ids_asked_for};
ghost use Rattle.lgm_query.specs.Cover.{CoverRange};

/// The replies to a range cover it, if rows ascend, as those of every map do: they start and end where the range does,
/// skip no block, cover the blocks of their ids, and together have all ids. The call does nothing: its contract is the
/// law.
pub fn replies_cover_range()
    ensures { (chain : ChainHash) (rows : Rows) (query : RangeQuery) → IsAscending rows
        → CoverRange query (ids_asked_for chain rows query) }
{}
