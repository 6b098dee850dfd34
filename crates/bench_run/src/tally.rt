//! What was delivered, in short.

use cb_history::{Event, Message};

/// What the digest begins with and is multiplied by: those of the hash of Fowler, Noll and Vo.
const START: u64 = 0xcbf2_9ce4_8422_2325;

const PRIME: u64 = 0x100_0000_01b3;

/// How many messages were delivered, and a digest of who delivered them, their names and their times, in order.
#[derive(Clone, Copy, Drop)]
pub struct Tally {
    pub deliveries: u64,
    pub digest: u64,
}

impl Tally {
    pub fn new() -> Tally {
        Tally {
            deliveries: 0,
            digest: START,
        }
    }

    /// The last so many events of member `me` are new: what it delivered counts.
    pub fn add_last(&mut self, me: u32, count: usize, events: &[Event]) {
        let before = events.len().saturating_sub(count);
        for event in &events[before..] {
            if let Event::Deliver(message) = event {
                self.add(me, message);
            }
        }
    }

    fn add(&mut self, me: u32, message: &Message) {
        self.deliveries = self.deliveries.wrapping_add(1);
        let begun = mixed(self.digest, me, message.name.sender);
        let (pairs, last) = message.time.as_slice().as_chunks::<2>();
        let mut digest = mixed(begun, message.name.number, 0);
        for [low, high] in pairs {
            digest = mixed(digest, *low, *high);
        }
        if let Some(field) = last.first() {
            digest = mixed(digest, *field, 0);
        }
        self.digest = digest;
    }
}

fn mixed(digest: u64, low: u32, high: u32) -> u64 {
    let word = u64::from(low) | u64::from(high) << 32;
    (digest ^ word).wrapping_mul(PRIME)
}
