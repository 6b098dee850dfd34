//! A link that loses some frames, repeats some, and holds some back. What becomes of each is drawn by a
//! fixed generator.

ghost use Rattle.std.specs.Prelude.{◌≡◌, ◌<◌, ◌≤◌, IfErr, IfSome, length};
ghost use Rattle.cb_links.specs.declared.link.LinkFault.TheVariants.{NoMemory};

use bytes::Bytes;
use cb_threads::{Inlet, LinkFault, Received};
use std::alloc::Global;
use std::sync::Wait;
use std::time::{Clock, Duration};

/// Of a hundred frames so many are lost, so many repeated, and so many held back.
const LOST: u64 = 10;

const REPEATED: u64 = 5;

const HELD: u64 = 10;

/// For so many milliseconds a frame is held back at most.
const LONGEST: u64 = 100;

/// Numbers by chance, the same for the same seed.
#[derive(Clone, Copy, Drop)]
pub struct Chance {
    state: u64,
}

impl Chance {
    pub fn new(seed: u64) -> Chance {
        Chance { state: seed }
    }

    /// A number from 0 to below 2^31.
    fn next(&mut self) -> u64 {
        self.state = self
            .state
            .wrapping_mul(6_364_136_223_846_793_005)
            .wrapping_add(1_442_695_040_888_963_407);
        self.state >> 33
    }

    /// A number from 1 to 100.
    fn percent(&mut self) -> u64 {
        self.next() % 100 + 1
    }

    /// A time from 1 millisecond to so many.
    pub fn millis(&mut self, most: u64) -> Duration
        requires { 1 ≤ most }
    {
        Duration::from_millis((self.next() % most).saturating_add(1))
    }
}

/// A frame that comes later.
#[derive(Drop)]
struct Held {
    due: Duration,
    frame: Bytes,
}

/// An inlet of which frames are lost, repeated and held back.
#[derive(Drop)]
pub struct Lossy<I> {
    inner: I,
    chance: Chance,
    held: Vec<Held>,
}

impl<I> Lossy<I> {
    pub fn new(alloc: Global, inner: I, chance: Chance) -> Lossy<I> {
        Lossy {
            inner,
            chance,
            held: Vec::new(alloc),
        }
    }

    /// A frame whose time has come.
    fn due(&mut self, now: Duration) -> Option<Bytes>
        ensures { self.new.inner ≡ self.old.inner }
    {
        let place = first_due(&self.held, now)?;
        Some(self.held.swap_remove(place).frame)
    }

    /// What becomes of a frame that has come.
    fn draw(&mut self, now: Duration, frame: Bytes) -> Result<Received, LinkFault>
        ensures inner { self.new.inner ≡ self.old.inner }
        ensures fault { IfErr result (λ fault. fault ≡ NoMemory) }
    {
        let drawn = self.chance.percent();
        if drawn <= LOST {
            return Ok(Received::Nothing);
        }
        let later = now.saturating_add(self.chance.millis(LONGEST));
        if drawn <= LOST + REPEATED {
            let due = later;
            let again = frame.clone()?;
            self.held.push(Held { due, frame: again })?;
        } else if drawn <= LOST + REPEATED + HELD {
            self.held.push(Held { due: later, frame })?;
            return Ok(Received::Nothing);
        }
        Ok(Received::Frame(frame))
    }
}

/// The place of a frame whose time has come.
fn first_due(held: &[Held], now: Duration) -> Option<usize>
    ensures { IfSome result (λ place. place < length held.now) }
{
    for (place, later) in held.iter().enumerate() {
        if later.due <= now {
            return Some(place);
        }
    }
    None
}

impl<I: Inlet> Inlet for Lossy<I> {
    ghost failed = { λ lossy. I.failed lossy.inner };

    fn failures(&self) -> u64 {
        self.inner.failures()
    }

    fn receive<R: Wait + Clock>(&mut self, rt: &R) -> Result<Received, LinkFault> {
        let now = rt.monotonic().unwrap_or(Duration::ZERO);
        if let Some(frame) = self.due(now) {
            return Ok(Received::Frame(frame));
        }
        match self.inner.receive(rt) {
            Ok(Received::Frame(frame)) => self.draw(now, frame),
            nothing => nothing,
        }
    }

    fn close(&mut self) {
        self.inner.close();
    }
}
