//! Which blocks the replies to a query cover.

ghost use Rattle.std.specs.Prelude.{◌≡◌};
ghost use Rattle.lgm_sync.specs.Covered.{covered_by};

use lgm_gossip::{ChainHash, RangeReply};

/// The block up to which a range is covered with one reply more, exclusive; `next` is that without the reply, at first the
/// first block of the range.
///
/// A reply of another chain covers nothing. One that begins behind `next` would leave a gap, so it doesn't count, and one
/// that ends before it adds nothing: so it never goes back.
pub fn covered_by(chain: &ChainHash, next: u64, reply: &RangeReply) -> u64
    ensures { result ≡ covered_by chain.now next reply.now }
{
    let first = u64::from(reply.first_blocknum);
    let end = first + u64::from(reply.number_of_blocks);
    if reply.chain_hash == *chain && first <= next && next < end {
        end
    } else {
        next
    }
}
