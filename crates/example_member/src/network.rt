//! The frames on their way: what a program has in place of this is its sockets.

use bytes::Bytes;
use cb_member::{NoMemory, Outgoing};
use std::alloc::Global;
use std::mem;

/// A frame is lost after so many that were not.
const KEPT: u32 = 4;

/// A queue to each member.
#[derive(Drop)]
pub struct Network {
    alloc: Global,
    size: u32,
    queues: Vec<Vec<Bytes>>,
    since_loss: u32,
}

impl Network {
    pub fn new(alloc: Global, size: u32) -> Result<Network, NoMemory> {
        let mut queues = Vec::with_capacity(alloc, size as usize)?;
        for _ in 0..size {
            queues.push(Vec::new(alloc))?;
        }
        Ok(Network {
            alloc,
            size,
            queues,
            since_loss: 0,
        })
    }

    /// Takes all that is on its way to the member.
    pub fn take(&mut self, to: u32) -> Vec<Bytes> {
        let mut taken = Vec::new(self.alloc);
        if let Some(queue) = self.queues.get_mut(to as usize) {
            mem::swap(queue, &mut taken);
        }
        taken
    }

    /// Sends each of these to one member or to all others.
    pub fn send(&mut self, from: u32, out: Vec<Outgoing>) -> Result<(), NoMemory> {
        for Outgoing { to, bytes } in out {
            match to {
                Some(to) => self.send_to(to, bytes)?,
                None => self.send_to_others(from, &bytes)?,
            }
        }
        Ok(())
    }

    /// Sends a frame to all members but its sender.
    pub fn send_to_others(&mut self, from: u32, bytes: &Bytes) -> Result<(), NoMemory> {
        for to in 0..self.size {
            if to != from {
                self.send_to(to, bytes.clone()?)?;
            }
        }
        Ok(())
    }

    fn send_to(&mut self, to: u32, bytes: Bytes) -> Result<(), NoMemory> {
        if self.since_loss >= KEPT {
            self.since_loss = 0;
            return Ok(());
        }
        self.since_loss += 1;
        match self.queues.get_mut(to as usize) {
            Some(queue) => Ok(queue.push(bytes)?),
            None => Ok(()),
        }
    }
}
