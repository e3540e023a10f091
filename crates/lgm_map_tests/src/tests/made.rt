//! Random items from a seed, with few ids and nodes.

ghost use Rattle.std.specs.Prelude.{◌<◌};

use super::item::Item;
use lgm_test_scripts::Numbers;

/// The ids of random items, ascending: in one block, in neighbouring ones, and up to the last id of all.
pub const IDS: [u64; 8] = [
    0x0000_0100_0000_0000,
    0x0000_0100_0000_0001,
    0x0000_0100_0001_0000,
    0x0000_0200_0000_0000,
    0x0000_0200_0000_0100,
    0x0001_0000_0000_0000,
    0x0927_c000_0001_0000,
    0xffff_ffff_ffff_ffff,
];

/// A source of items: the same ones for the same seed.
#[derive(Drop)]
pub struct Made {
    numbers: Numbers,
    count: u32,
}

impl Made {
    pub fn new(seed: u64) -> Made {
        Made {
            numbers: Numbers::new(seed),
            count: 0,
        }
    }

    /// A number below another.
    fn below(&mut self, end: u8) -> u8
        requires { 0 < end }
        ensures { result < end }
    {
        self.numbers.below(end)
    }

    /// A timestamp that rises slowly, and so is often older than one before, or equal.
    fn timestamp(&mut self) -> u32 {
        self.count / 20 + u32::from(self.below(6))
    }

    /// The next item.
    pub fn item(&mut self) -> Item {
        self.count = self.count.wrapping_add(1);
        match self.below(8) {
            0 | 1 => self.channel(),
            2..=4 => self.update(),
            5 => Item::Node {
                node: self.below(6),
                timestamp: self.timestamp(),
            },
            _ => Item::Close {
                id: IDS[usize::from(self.below(8))],
            },
        }
    }

    /// A channel: fifteen times of sixteen between the id's usual nodes, which are neighbours, else between any two.
    fn channel(&mut self) -> Item {
        let index = self.below(8);
        let mut first = index % 5;
        let mut second = first + 1;
        if self.below(16) == 0 {
            first = self.below(5);
            second = first + 1 + self.below(5 - first);
        }
        Item::Channel {
            id: IDS[usize::from(index)],
            nodes: (first, second),
        }
    }

    /// An update: three times of four by the usual node of its direction, else by any.
    fn update(&mut self) -> Item {
        let index = self.below(8);
        let flags = self.below(4);
        let mut signer = index % 5 + flags % 2;
        if self.below(4) == 0 {
            signer = self.below(6);
        }
        Item::Update {
            id: IDS[usize::from(index)],
            flags,
            timestamp: self.timestamp(),
            signer,
        }
    }
}
