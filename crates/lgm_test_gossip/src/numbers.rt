//! Random numbers from a seed.

ghost use Rattle.std.specs.Prelude.{◌<◌};

/// A source of numbers: the same ones for the same seed.
#[derive(Drop)]
pub struct Numbers {
    state: u64,
}

impl Numbers {
    pub fn new(seed: u64) -> Numbers {
        Numbers { state: seed }
    }

    /// The next number of SplitMix64.
    fn next(&mut self) -> u64 {
        self.state = self.state.wrapping_add(0x9e37_79b9_7f4a_7c15);
        let mixed = (self.state ^ (self.state >> 30)).wrapping_mul(0xbf58_476d_1ce4_e5b9);
        let mixed = (mixed ^ (mixed >> 27)).wrapping_mul(0x94d0_49bb_1331_11eb);
        mixed ^ (mixed >> 31)
    }

    /// A number below another.
    pub fn below(&mut self, end: u8) -> u8
        requires { 0 < end }
        ensures { result < end }
    {
        (self.next() % u64::from(end)) as u8
    }

    /// One of some values, or none of no values.
    pub fn one_of<T: Copy>(&mut self, values: &[T]) -> Option<T> {
        let Ok(count) = u8::try_from(values.len()) else {
            return None;
        };
        if count == 0 {
            return None;
        }
        values.get(usize::from(self.below(count))).copied()
    }
}
