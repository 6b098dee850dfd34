//! Parts for tests: what waits for others, talks a little, or fails at a call.

ghost use Rattle.std.specs.Bool.{OnFalse, OnTrue};
ghost use Rattle.std.specs.Prelude.{◌≡◌, ◌+◌, ◌≤◌, false};
ghost use Rattle.cb_links.specs.Counts.{HasCounted, held};

use crate::{Every, Inlet, LinkFault, Outlet, Pace, PaceFault, Received, Talk, Talker};
use cb_member::{Event, NoMemory, Outgoing};
use std::alloc::{AllocError, Global};
use std::sync::Wait;
use std::sync::atomic::{AtomicBool, Ordering};
use std::thread::{sleep, yield_now};
use std::time::{Clock, Duration};

/// Flags, one for each thread that is to meet the others.
#[derive(Drop)]
pub struct Flags {
    pub set: [AtomicBool; 3],
}

impl Flags {
    pub fn new() -> Flags {
        Flags {
            set: [
                AtomicBool::new(false),
                AtomicBool::new(false),
                AtomicBool::new(false),
            ],
        }
    }

    pub fn all_set(&self) -> bool {
        self.set.iter().all(|flag| flag.load(Ordering::SeqCst))
    }

    /// Sets this flag, and waits until all are set. Whether they were within ten million turns.
    fn meet(&self, mine: usize) -> bool {
        if let Some(flag) = self.set.get(mine) {
            flag.store(true, Ordering::SeqCst);
        }
        for _ in 0..10_000_000u32 {
            if self.all_set() {
                return true;
            }
            yield_now();
        }
        false
    }
}

/// What meets others at its first call; it fails where they don't come. Later calls do nothing.
#[derive(Drop)]
pub struct Meeting<'a> {
    pub flags: &'a Flags,
    pub mine: usize,
    pub called: bool,
    pub failures: u64,
}

impl<'a> Meeting<'a> {
    pub fn new(flags: &'a Flags, mine: usize) -> Meeting<'a> {
        Meeting {
            flags,
            mine,
            called: false,
            failures: 0,
        }
    }

    fn call(&mut self) -> bool
        ensures rises { self.old.failures ≤ self.new.failures }
        ensures counted { result ≡ false → HasCounted self.old.failures self.new.failures }
        ensures fails { OnFalse result (self.new.failures ≡ held (self.old.failures + 1)) }
        ensures meets { OnTrue result (self.new.failures ≡ self.old.failures) }
    {
        if self.called {
            return true;
        }
        self.called = true;
        if self.flags.meet(self.mine) {
            return true;
        }
        self.failures = self.failures.saturating_add(1);
        false
    }
}

impl<'a> Inlet for Meeting<'a> {
    ghost failed = { λ m. m.failures };

    fn failures(&self) -> u64 {
        self.failures
    }

    fn receive<R: Wait + Clock>(&mut self, _rt: &R) -> Result<Received, LinkFault> {
        if self.call() {
            Ok(Received::Nothing)
        } else {
            Err(LinkFault::Device)
        }
    }
}

impl<'a> Outlet for Meeting<'a> {
    ghost failed = { λ m. m.failures };

    fn failures(&self) -> u64 {
        self.failures
    }

    fn send<R: Wait>(&mut self, _rt: &R, _out: &Outgoing) -> Result<(), LinkFault> {
        if self.call() {
            Ok(())
        } else {
            Err(LinkFault::Device)
        }
    }
}

impl<'a> Pace for Meeting<'a> {
    ghost failed = { λ m. m.failures };

    fn failures(&self) -> u64 {
        self.failures
    }

    fn wait<R: Wait + Clock>(&mut self, _rt: &R) -> Result<(), PaceFault> {
        if self.call() { Ok(()) } else { Err(PaceFault) }
    }
}

/// A millisecond between two ticks.
pub fn millisecond() -> Every {
    Every(Duration::from_millis(1))
}

/// Who has nothing to say.
#[derive(Drop)]
pub struct Silent;

impl Talker for Silent {
    fn next(&mut self, _news: &[Event]) -> Result<Talk, NoMemory> {
        Ok(Talk::Finished)
    }
}

/// Who waits until all flags are set.
#[derive(Drop)]
pub struct Patient<'a> {
    pub flags: &'a Flags,
}

impl<'a> Talker for Patient<'a> {
    fn next(&mut self, _news: &[Event]) -> Result<Talk, NoMemory> {
        Ok(if self.flags.all_set() {
            Talk::Finished
        } else {
            Talk::Idle
        })
    }
}

/// Who casts so often, and has finished once it has seen so many events.
#[derive(Drop)]
pub struct Counting {
    pub alloc: Global,
    pub casts: u32,
    pub events: usize,
    pub seen: usize,
    /// Out of memory so often before it says anything.
    pub refusals: u32,
    pub quick: bool,
}

impl Talker for Counting {
    fn next(&mut self, news: &[Event]) -> Result<Talk, NoMemory> {
        if self.refusals > 0 {
            self.refusals -= 1;
            return Err(AllocError);
        }
        self.seen = self.seen.saturating_add(news.len());
        if self.casts > 0 {
            self.casts -= 1;
            let mut payload = Vec::new(self.alloc);
            payload.extend_from_slice(b"hi")?;
            return Ok(Talk::Cast(payload));
        }
        Ok(if self.seen >= self.events {
            Talk::Finished
        } else {
            Talk::Idle
        })
    }

    fn is_quick(&self) -> bool {
        self.quick
    }
}

/// A pace that waits, and fails each time.
#[derive(Drop)]
pub struct Uneven {
    pub failures: u64,
}

impl Pace for Uneven {
    ghost failed = { λ p. p.failures };

    fn failures(&self) -> u64 {
        self.failures
    }

    fn wait<R: Wait + Clock>(&mut self, rt: &R) -> Result<(), PaceFault> {
        sleep(rt, Duration::from_millis(1));
        self.failures = self.failures.saturating_add(1);
        Err(PaceFault)
    }
}

/// What fails at each call, at once, an inlet by this fault.
#[derive(Drop)]
pub struct Broken {
    pub fault: LinkFault,
    pub failures: u64,
}

impl Inlet for Broken {
    ghost failed = { λ b. b.failures };

    fn failures(&self) -> u64 {
        self.failures
    }

    fn receive<R: Wait + Clock>(&mut self, _rt: &R) -> Result<Received, LinkFault> {
        match self.fault {
            LinkFault::Device => self.failures = self.failures.saturating_add(1),
            LinkFault::NoMemory => {}
        }
        Err(self.fault)
    }
}

impl Pace for Broken {
    ghost failed = { λ b. b.failures };

    fn failures(&self) -> u64 {
        self.failures
    }

    fn wait<R: Wait + Clock>(&mut self, _rt: &R) -> Result<(), PaceFault> {
        self.failures = self.failures.saturating_add(1);
        Err(PaceFault)
    }
}

/// What never waits.
#[derive(Drop)]
pub struct Hasty;

impl Pace for Hasty {
    ghost failed = { λ h. 0 };

    fn failures(&self) -> u64 {
        0
    }

    fn wait<R: Wait + Clock>(&mut self, _rt: &R) -> Result<(), PaceFault> {
        Ok(())
    }
}

/// What counts the cast frames that it is given, bursts among them, and sends nothing.
#[derive(Drop)]
pub struct Counter {
    pub casts: u32,
}

impl Outlet for Counter {
    ghost failed = { λ c. 0 };

    fn failures(&self) -> u64 {
        0
    }

    fn send<R: Wait>(&mut self, _rt: &R, out: &Outgoing) -> Result<(), LinkFault> {
        if matches!(out.bytes.as_slice().first(), Some(&0x11 | &0x21)) {
            self.casts = self.casts.saturating_add(1);
        }
        Ok(())
    }
}
