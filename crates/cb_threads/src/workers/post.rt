//! Where a worker hands what its member sends.

ghost use Rattle.std.specs.Prelude.{◌≡◌, ◌+◌, length};
ghost use Rattle.cb_links.specs.Counts.{held};

use cb_links::Slot;
use cb_member::Outgoing;
use std::alloc::Global;
use std::mem;
use std::sync::Wait;

/// How many gathered frames are enough: they go to the sender, whether or not more are to come.
pub const MOST_AT_ONCE: usize = 64;

/// Where a worker hands what is to be sent. The sender ends once every worker has let its own go.
///
/// Frames that come one by one are gathered, and the sender is woken once for all of them: a worker
/// calls `flush` before it waits, and after its last turn.
#[derive(Drop)]
pub struct Post {
    alloc: Global,
    out: Slot<Vec<Outgoing>>,
    /// Frames that the sender was not given yet.
    gathered: Vec<Outgoing>,
    /// How many frames were handed over.
    pub offered: u64,
    /// How many of them found no memory, or were not taken by the channel.
    pub lost: u64,
}

impl Post {
    pub fn new(alloc: Global, out: Slot<Vec<Outgoing>>) -> Post {
        Post {
            alloc,
            out,
            gathered: Vec::new(alloc),
            offered: 0,
            lost: 0,
        }
    }

    /// Gathers a frame for the sender. Where memory for it is refused, it is lost.
    pub fn put(&mut self, rt: &impl Wait, out: Outgoing)
        ensures { self.new.offered ≡ held (self.old.offered + 1) }
    {
        self.offered = self.offered.saturating_add(1);
        if self.gathered.push(out).is_err() {
            self.lost = self.lost.saturating_add(1);
        }
        if self.gathered.len() >= MOST_AT_ONCE {
            self.flush(rt);
        }
    }

    /// Hands frames to the sender, after those that are gathered, in order.
    pub fn put_all(&mut self, rt: &impl Wait, out: Vec<Outgoing>)
        ensures { self.new.offered ≡ held (self.old.offered + length out.items) }
    {
        self.offered = self.offered.saturating_add(out.len() as u64);
        self.flush(rt);
        self.give(rt, out);
    }

    /// Hands the gathered frames to the sender.
    pub fn flush(&mut self, rt: &impl Wait)
        ensures { self.new.offered ≡ self.old.offered }
    {
        if !self.gathered.is_empty() {
            let frames = mem::replace(&mut self.gathered, Vec::new(self.alloc));
            self.give(rt, frames);
        }
    }

    fn give(&mut self, rt: &impl Wait, frames: Vec<Outgoing>)
        ensures { self.new.offered ≡ self.old.offered }
    {
        if frames.is_empty() {
            return;
        }
        let count = frames.len() as u64;
        if self.out.put(rt, frames).is_err() {
            self.lost = self.lost.saturating_add(count);
        }
    }
}
