//! Random numbers, the same for the same seed.

ghost use Rattle.std.specs.Prelude.{◌≤◌};

/// The state of the generator: a counter, whose values are mixed.
#[derive(Clone, Copy)]
pub struct Draw {
    state: u64,
}

impl Draw {
    pub fn new(seed: u64) -> Draw {
        Draw { state: seed }
    }

    fn next(&mut self) -> u64 {
        self.state = self.state.wrapping_add(0x9e37_79b9_7f4a_7c15);
        let mixed = (self.state ^ (self.state >> 30)).wrapping_mul(0xbf58_476d_1ce4_e5b9);
        let mixed = (mixed ^ (mixed >> 27)).wrapping_mul(0x94d0_49bb_1331_11eb);
        mixed ^ (mixed >> 31)
    }

    /// A number below a bound, or 0.
    pub fn below(&mut self, bound: usize) -> usize
        ensures { result ≤ bound }
    {
        if bound == 0 {
            return 0;
        }
        let drawn = (self.next() >> 1) as usize;
        drawn % bound
    }

    /// One of some fragments, or nothing if there is none.
    pub fn one_of<'a, T>(&mut self, fragments: &'a [T]) -> Option<&'a T> {
        let number = self.below(fragments.len());
        fragments.get(number)
    }
}
