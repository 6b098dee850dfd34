//! Streams that take and give by a table, and a clock that counts sleeps.

use std::io;
use std::io::{ErrorKind, Read, Write};
use std::sync::Wait;
use std::sync::atomic::{AtomicU64, Ordering};
use std::time::{Clock, Duration};

/// What a stream does at one call.
#[derive(Clone, Copy)]
pub enum Turn {
    /// Takes or gives so many bytes at most.
    Some(usize),
    /// Takes or gives as many as it can.
    All,
    Fails(ErrorKind),
}

/// A stream that takes by a table, and all behind its end.
#[derive(Drop)]
pub struct Trickle<'a> {
    turns: &'a [Turn],
    pub held: Vec<u8>,
    pub writes: u64,
}

impl<'a> Trickle<'a> {
    pub fn new(held: Vec<u8>, turns: &'a [Turn]) -> Trickle<'a> {
        Trickle {
            turns,
            held,
            writes: 0,
        }
    }
}

impl<'a> Write for Trickle<'a> {
    fn write(&mut self, buf: &[u8]) -> io::Result<usize> {
        self.writes = self.writes.saturating_add(1);
        let most = most(&mut self.turns)?;
        let count = buf.len().min(most);
        self.held.extend_from_slice(&buf[..count])?;
        Ok(count)
    }

    fn flush(&mut self) -> io::Result<()> {
        Ok(())
    }
}

/// How many bytes the next turn lets pass.
fn most(turns: &mut &[Turn]) -> io::Result<usize> {
    let Some((turn, later)) = turns.split_first() else {
        return Ok(usize::MAX);
    };
    let turn = *turn;
    *turns = later;
    match turn {
        Turn::Some(most) => Ok(most),
        Turn::All => Ok(usize::MAX),
        Turn::Fails(kind) => Err(io::Error::from(kind)),
    }
}

/// A stream that gives its text by a table, and behind the table's end all that is left.
#[derive(Drop)]
pub struct Dripping<'a> {
    turns: &'a [Turn],
    text: &'a [u8],
    pub reads: u64,
}

impl<'a> Dripping<'a> {
    pub fn new(text: &'a [u8], turns: &'a [Turn]) -> Dripping<'a> {
        Dripping {
            turns,
            text,
            reads: 0,
        }
    }
}

impl<'a> Read for Dripping<'a> {
    fn read(&mut self, buf: &mut [u8]) -> io::Result<usize> {
        self.reads = self.reads.saturating_add(1);
        let most = most(&mut self.turns)?;
        let count = self.text.len().min(buf.len()).min(most);
        buf[..count].copy_from_slice(&self.text[..count]);
        self.text = &self.text[count..];
        Ok(count)
    }
}

/// A clock whose sleeps are counted and not slept.
#[derive(Drop)]
pub struct Counted<'a, R: Wait + Clock> {
    rt: &'a R,
    sleeps: AtomicU64,
}

impl<'a, R: Wait + Clock> Counted<'a, R> {
    pub fn new(rt: &'a R) -> Counted<'a, R> {
        Counted {
            rt,
            sleeps: AtomicU64::new(0),
        }
    }

    /// How often a millisecond was slept.
    pub fn sleeps(&self) -> u64 {
        self.sleeps.load(Ordering::SeqCst)
    }
}

impl<'a, R: Wait + Clock> Wait for Counted<'a, R> {}

impl<'a, R: Wait + Clock> Clock for Counted<'a, R> {
    fn monotonic(&self) -> io::Result<Duration> {
        self.rt.monotonic()
    }

    fn since_1970(&self) -> io::Result<Duration> {
        self.rt.since_1970()
    }

    fn sleep(&self, duration: Duration) {
        if duration == Duration::from_millis(1) {
            self.sleeps.fetch_add(1, Ordering::SeqCst);
        }
    }
}
