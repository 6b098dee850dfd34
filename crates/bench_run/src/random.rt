//! Numbers by chance, the same in each run.

/// A xorshift generator.
#[derive(Drop)]
pub struct Random {
    state: u64,
}

impl Random {
    pub fn new() -> Random {
        Random {
            state: 0x1991_0803_1978_0707,
        }
    }

    /// True one time in so many, and never for 0.
    pub fn is_one_in(&mut self, count: u32) -> bool {
        if count == 0 {
            return false;
        }
        self.state ^= self.state << 13;
        self.state ^= self.state >> 7;
        self.state ^= self.state << 17;
        self.state % u64::from(count) == 0
    }
}
