//! Short channel ids.

ghost use Rattle.std.specs.Prelude.{◌≡◌, ℕ, ◌+◌, ◌*◌, ◌/◌, ◌%◌, ◌^◌, ◌<◌};

use std::marker::Model;

/// A `short_channel_id`: block height, transaction index and output index of the funding output (BOLT 7, "Definition of
/// short_channel_id"). It has 3 + 3 + 2 bytes, and is ordered as they are. Contracts see the number that those eight
/// bytes encode, big-endian.
#[derive(Clone, Copy, Debug, PartialEq, Eq, PartialOrd, Ord)]
pub struct Scid {
    number: u64,
}

impl Model for Scid {
    ghost Value = { ℕ };

    ghost view = { λ s. s.number };

    ghost inverse = { λ n. record { number = n } };
}

impl Scid {
    /// The id with these eight bytes, as a big-endian number.
    pub fn from_u64(number: u64) -> Scid
        ensures { result ≡ number }
    {
        Scid { number }
    }

    /// Its eight bytes, as a big-endian number.
    pub fn to_u64(self) -> u64
        ensures { result ≡ self }
    {
        self.number
    }

    /// The id of an output of a transaction of a block.
    pub fn new(block: u32, index: u32, output: u16) -> Scid
        requires block { block < 2 ^ 24 }
        requires index { index < 2 ^ 24 }
        ensures { result ≡ (block * 2 ^ 24 + index) * 2 ^ 16 + output }
    {
        let transaction = u64::from(block) * 0x100_0000 + u64::from(index);
        Scid {
            number: transaction * 0x1_0000 + u64::from(output),
        }
    }

    /// The height of the block with the funding transaction.
    pub fn block(self) -> u32
        ensures { result ≡ self / 2 ^ 40 }
    {
        (self.number >> 40) as u32
    }

    /// The index of the funding transaction in its block, from 0.
    pub fn index(self) -> u32
        ensures { result ≡ self / 2 ^ 16 % 2 ^ 24 }
    {
        (self.number / 0x1_0000 % 0x100_0000) as u32
    }

    /// The index of the funding output in its transaction, from 0.
    pub fn output(self) -> u16
        ensures { result ≡ self % 2 ^ 16 }
    {
        (self.number % 0x1_0000) as u16
    }
}
