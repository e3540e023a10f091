//! Chain hashes.

/// A `chain_hash`: the hash of the genesis block, 32 bytes (BOLT 7, "The channel_announcement Message").
#[derive(Clone, Copy, Debug, PartialEq, Eq)]
pub struct ChainHash(pub [u8; 32]);
