//! Numbers that look random, and are the same at each run.

/// The generator that shifts by 13, 17 and 5, and never comes to 0.
#[derive(Drop)]
pub struct Dice {
    state: u32,
}

impl Dice {
    pub fn new(seed: u32) -> Dice {
        Dice {
            state: seed.wrapping_mul(2_654_435_761) | 1,
        }
    }

    fn roll(&mut self) -> u32 {
        let mut state = self.state;
        state ^= state << 13;
        state ^= state >> 17;
        state ^= state << 5;
        self.state = state;
        state
    }

    /// A number below the count, and 0 where that is 0.
    pub fn below(&mut self, count: u32) -> u32 {
        self.roll().checked_rem(count).unwrap_or(0)
    }

    /// True one time in so many.
    pub fn one_in(&mut self, count: u32) -> bool {
        self.below(count) == 0
    }

    pub fn byte(&mut self) -> u8 {
        u8::try_from(self.below(256)).unwrap_or(0)
    }

    /// The place of one of so many items.
    pub fn place(&mut self, items: usize) -> usize {
        let items = u32::try_from(items).unwrap_or(u32::MAX);
        self.below(items) as usize
    }

    /// A number near this one, and now and then one of the smallest or of the greatest.
    pub fn near(&mut self, number: u32) -> u32 {
        match self.below(8) {
            0 => self.below(3),
            1 => u32::MAX.saturating_sub(self.below(3)),
            2 => number.saturating_add(self.below(12)),
            3 => number.saturating_sub(self.below(3)),
            _ => number.saturating_add(1),
        }
    }
}
