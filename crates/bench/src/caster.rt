//! The talker that casts in a group in threads.

use crate::plan::Plan;
use cb_member::{Event, NoMemory};
use cb_threads::{Talk, Talker};
use std::alloc::Global;

/// Who casts so many messages, and has finished when it has seen those of all.
#[derive(Drop)]
pub struct Caster {
    alloc: Global,
    payload: usize,
    left: u32,
    all: u64,
    seen: u64,
}

impl Caster {
    pub fn new(alloc: Global, plan: Plan) -> Caster {
        Caster {
            alloc,
            payload: plan.payload,
            left: plan.casts,
            all: u64::from(plan.casts).saturating_mul(u64::from(plan.group.size())),
            seen: 0,
        }
    }

    /// How many messages it was shown.
    pub fn seen(&self) -> u64 {
        self.seen
    }
}

impl Talker for Caster {
    fn next(&mut self, news: &[Event]) -> Result<Talk, NoMemory> {
        if self.left > 0 {
            let payload = vec![in self.alloc; b'a'; self.payload]?;
            self.seen = self.seen.saturating_add(news.len() as u64);
            self.left -= 1;
            return Ok(Talk::Cast(payload));
        }
        self.seen = self.seen.saturating_add(news.len() as u64);
        Ok(if self.seen >= self.all {
            Talk::Finished
        } else {
            Talk::Idle
        })
    }

    fn is_quick(&self) -> bool {
        true
    }
}
