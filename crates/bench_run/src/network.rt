//! The frames on their way.

use crate::random::Random;
use bytes::Bytes;
use cb_history::Outgoing;
use cb_times::NoMemory;
use std::alloc::Global;
use std::mem;

/// A queue to each member. One frame in `lost` is lost, and one in `exchanged` goes before the frame that was put before it.
#[derive(Drop)]
pub struct Network {
    size: u32,
    queues: Vec<Vec<Bytes>>,
    lost: u32,
    exchanged: u32,
    random: Random,
}

impl Network {
    /// Nothing is on its way, and nothing is lost or exchanged.
    pub fn new(alloc: Global, size: u32) -> Result<Network, NoMemory> {
        let mut queues = Vec::with_capacity(alloc, size as usize)?;
        for _ in 0..size {
            queues.push(Vec::new(alloc))?;
        }
        Ok(Network {
            size,
            queues,
            lost: 0,
            exchanged: 0,
            random: Random::new(),
        })
    }

    /// From now on one frame in so many is lost or exchanged, 0 for none.
    pub fn disturb(&mut self, lost: u32, exchanged: u32) {
        self.lost = lost;
        self.exchanged = exchanged;
    }

    /// Loses the frame that was put last for the member.
    pub fn lose_last(&mut self, to: u32) {
        if let Some(queue) = self.queues.get_mut(to as usize) {
            drop(queue.pop());
        }
    }

    /// Changes all that is on its way to the member for what is in `inbox`.
    pub fn swap(&mut self, to: u32, inbox: &mut Vec<Bytes>) {
        if let Some(queue) = self.queues.get_mut(to as usize) {
            mem::swap(queue, inbox);
        }
    }

    /// Sends all these to whom they are for.
    pub fn send_all(&mut self, from: u32, out: Vec<Outgoing>) -> Result<(), NoMemory> {
        for Outgoing { to, bytes } in out {
            match to {
                Some(to) => self.send(to, &bytes)?,
                None => self.send_to_others(from, &bytes)?,
            }
        }
        Ok(())
    }

    pub fn send_to_others(&mut self, from: u32, bytes: &Bytes) -> Result<(), NoMemory> {
        for to in 0..self.size {
            if to != from {
                self.send(to, bytes)?;
            }
        }
        Ok(())
    }

    fn send(&mut self, to: u32, bytes: &Bytes) -> Result<(), NoMemory> {
        if self.random.is_one_in(self.lost) {
            return Ok(());
        }
        let is_early = self.random.is_one_in(self.exchanged);
        let Some(queue) = self.queues.get_mut(to as usize) else {
            return Ok(());
        };
        queue.push(bytes.clone()?)?;
        let count = queue.len();
        if is_early && count > 1 {
            queue.swap(count - 2, count - 1);
        }
        Ok(())
    }
}
