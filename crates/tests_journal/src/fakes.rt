//! A clock that is set, links that lose frames, and keepers that fail.

use cb_history::Outgoing;
use cb_journal::{KeepFault, Keeper};
use cb_links::{Inlet, LinkFault, Outlet, Received, WaitingInlet};
use cb_member::Entry;
use std::io;
use std::sync::Wait;
use std::sync::atomic::{AtomicU64, Ordering};
use std::time::{Clock, Duration};

/// A clock that goes on only where it is told to, in microseconds.
#[derive(Drop)]
pub struct SetClock {
    micros: AtomicU64,
}

impl SetClock {
    pub fn new() -> SetClock {
        SetClock {
            micros: AtomicU64::new(0),
        }
    }

    pub fn pass(&self, time: Duration) {
        let micros = time.as_micros();
        let micros = if micros < 1_000_000_000 {
            micros as u64
        } else {
            1_000_000_000
        };
        self.micros.fetch_add(micros, Ordering::SeqCst);
    }

    pub fn micros(&self) -> u64 {
        self.micros.load(Ordering::SeqCst)
    }
}

/// A runtime with such a clock.
#[derive(Drop)]
pub struct Timed<'a, R: Wait + Clock> {
    pub rt: &'a R,
    pub clock: &'a SetClock,
}

impl<'a, R: Wait + Clock> Wait for Timed<'a, R> {}

impl<'a, R: Wait + Clock> Clock for Timed<'a, R> {
    fn monotonic(&self) -> io::Result<Duration> {
        Ok(Duration::from_micros(self.clock.micros()))
    }

    fn since_1970(&self) -> io::Result<Duration> {
        self.rt.since_1970()
    }

    fn sleep(&self, duration: Duration) {
        self.clock.pass(duration);
    }
}

/// An inlet to which nothing comes: it sleeps as long as it may.
#[derive(Drop)]
pub struct Silent;

impl Inlet for Silent {
    ghost failed = { λ _. 0 };

    fn failures(&self) -> u64 {
        0
    }

    fn receive<R: Wait + Clock>(&mut self, _rt: &R) -> Result<Received, LinkFault> {
        Ok(Received::Nothing)
    }
}

impl WaitingInlet for Silent {
    fn receive_within<R: Wait + Clock>(
        &mut self,
        rt: &R,
        longest: Duration,
    ) -> Result<Received, LinkFault> {
        rt.sleep(longest);
        Ok(Received::Nothing)
    }
}

/// An inlet that fails at once.
#[derive(Drop)]
pub struct Broken {
    failures: u64,
}

impl Broken {
    pub fn new() -> Broken {
        Broken { failures: 0 }
    }
}

impl Inlet for Broken {
    ghost failed = { λ b. b.failures };

    fn failures(&self) -> u64 {
        self.failures
    }

    fn receive<R: Wait + Clock>(&mut self, _rt: &R) -> Result<Received, LinkFault> {
        self.failures = self.failures.saturating_add(1);
        Err(LinkFault::Device)
    }
}

impl WaitingInlet for Broken {
    fn receive_within<R: Wait + Clock>(
        &mut self,
        rt: &R,
        _longest: Duration,
    ) -> Result<Received, LinkFault> {
        self.receive(rt)
    }
}

/// An outlet that loses each frame of which the number is a multiple of `each`.
#[derive(Drop)]
pub struct Lossy<O> {
    pub inner: O,
    pub each: u64,
    pub sent: u64,
}

impl<O: Outlet> Outlet for Lossy<O> {
    ghost failed = { λ l. O.failed l.inner };

    fn failures(&self) -> u64 {
        self.inner.failures()
    }

    fn send<R: Wait>(&mut self, rt: &R, out: &Outgoing) -> Result<(), LinkFault> {
        self.sent = self.sent.wrapping_add(1);
        if self.each != 0 && self.sent % self.each == 0 {
            return Ok(());
        }
        self.inner.send(rt, out)
    }
}

/// Keeps so many entries, and then fails.
#[derive(Drop)]
pub struct Short {
    pub left: u64,
}

impl Keeper for Short {
    ghost has = { λ _ _. Unit {0} };

    fn keep(&mut self, _entry: &Entry) -> Result<(), KeepFault> {
        if self.left == 0 {
            return Err(KeepFault::Device);
        }
        self.left -= 1;
        Ok(())
    }
}
