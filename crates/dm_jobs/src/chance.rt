//! Numbers that look random, the same ones for the same seed.

ghost use Rattle.std.specs.Prelude.{◌<◌, ◌≤◌};

/// A generator of numbers, by Steele, Lea and Flood's SplitMix64.
#[derive(Clone, Copy)]
pub(crate) struct Chance {
    state: u64,
}

impl Chance {
    /// Begins at a seed.
    pub(crate) fn new(seed: u64) -> Chance {
        Chance { state: seed }
    }

    /// Gives the next number.
    fn next(&mut self) -> u64 {
        self.state = self.state.wrapping_add(0x9e37_79b9_7f4a_7c15);
        let mut mixed = self.state;
        mixed = (mixed ^ (mixed >> 30)).wrapping_mul(0xbf58_476d_1ce4_e5b9);
        mixed = (mixed ^ (mixed >> 27)).wrapping_mul(0x94d0_49bb_1331_11eb);
        mixed ^ (mixed >> 31)
    }

    /// Gives a number below `count`.
    pub(crate) fn below(&mut self, count: u32) -> u32
        requires { 0 < count }
        ensures { result < count }
    {
        (self.next() >> 32) as u32 % count
    }

    /// Gives a place below `count`, or 0 if there is none.
    pub(crate) fn place(&mut self, count: usize) -> usize
        ensures { result ≤ count }
    {
        if count == 0 {
            return 0;
        }
        (self.next() >> 32) as usize % count
    }

    /// Whether something happens that happens so many times in a hundred.
    pub(crate) fn happens(&mut self, percent: u32) -> bool {
        self.below(100) < percent
    }
}
