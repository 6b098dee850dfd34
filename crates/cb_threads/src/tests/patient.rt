//! A talker that thinks for long after its cast: the cast is sent meanwhile.

ghost use Rattle.std.specs.Prelude.{◌≡◌};

use super::parts::millisecond;
use super::speaker::inlet;
use crate::{Limits, LinkFault, Outlet, Stop, Talk, Talker, run_member};
use cb_lock::{Seat, SharedMember};
use cb_member::{Event, Group, Member, NoMemory, Outgoing};
use std::alloc::Global;
use std::marker::Brand;
use std::process::Abort;
use std::sync::Wait;
use std::sync::atomic::{AtomicBool, Ordering};
use std::sync::ledger::{Blank, Ledger};
use std::test::*;
use std::thread::{Threads, yield_now};
use std::time::Clock;

/// How often the talker looks whether its cast was sent.
const LOOKS: u32 = 1_000_000;

/// What says that it was given a cast.
#[derive(Drop)]
struct Telling<'a> {
    has_sent: &'a AtomicBool,
}

impl<'a> Outlet for Telling<'a> {
    ghost failed = { λ _. 0 };

    fn failures(&self) -> u64 {
        0
    }

    fn send<R: Wait>(&mut self, _rt: &R, out: &Outgoing) -> Result<(), LinkFault> {
        if matches!(out.bytes.as_slice().first(), Some(&0x11)) {
            self.has_sent.store(true, Ordering::SeqCst);
        }
        Ok(())
    }
}

/// Who casts, and then does not go on before that was sent.
#[derive(Drop)]
struct Patient<'a> {
    alloc: Global,
    has_sent: &'a AtomicBool,
    has_cast: bool,
    has_seen: bool,
}

impl<'a> Talker for Patient<'a> {
    fn next(&mut self, _news: &[Event]) -> Result<Talk, NoMemory> {
        if self.has_cast {
            self.has_seen = comes(self.has_sent);
            return Ok(Talk::Finished);
        }
        self.has_cast = true;
        let mut payload = Vec::new(self.alloc);
        payload.extend_from_slice(b"yo")?;
        Ok(Talk::Cast(payload))
    }
}

fn comes(has_sent: &AtomicBool) -> bool {
    for _look in 0..LOOKS {
        if has_sent.load(Ordering::SeqCst) {
            return true;
        }
        yield_now();
    }
    false
}

#[test]
fn a_cast_is_sent_while_a_talker_that_is_not_quick_thinks(rt: HostRuntime) {
    let seen = think::<Brand, _>(&rt, rt.alloc(), Blank::new(4));
    assert_eq!(&rt; seen, Some(true));
}

fn think<L: Ledger + Send + Sync, R: Threads + Wait + Clock + Abort + Sync>(
    rt: &R,
    alloc: Global,
    blank: Blank,
) -> Option<bool>
    requires { (blank.name ≡ L.name) × (blank.parts ≡ L.parts) × (blank.parts ≡ 4) }
{
    let group = Group::new(7, 2, 4).expect(rt, "a group");
    let member = Member::new(alloc, group, 0, 100).expect(rt, "a member");
    let (shared, seat) = SharedMember::<L>::new(alloc, blank, member);
    seen(rt, alloc, &shared, seat)
}

/// Whether the talker saw that its cast was sent.
fn seen<L: Ledger + Send + Sync, R: Threads + Wait + Clock + Abort + Sync>(
    rt: &R,
    alloc: Global,
    shared: &SharedMember<L>,
    seat: Seat<L>,
) -> Option<bool>
    requires { seat.parts ≡ 4 }
{
    let mut seat = seat;
    let seats = (seat.split(), seat.split(), seat.split(), seat);
    let has_sent = AtomicBool::new(false);
    let talker = Patient {
        alloc,
        has_sent: &has_sent,
        has_cast: false,
        has_seen: false,
    };
    let outlet = Telling {
        has_sent: &has_sent,
    };
    let stop = Stop::new();
    let (report, seats) = run_member(
        rt,
        alloc,
        shared,
        seats,
        (inlet(rt, alloc), outlet),
        millisecond(),
        talker,
        &stop,
        Limits { turns: 3 },
    );
    drop(seats);
    report.talker.map(|talker| talker.has_seen)
}
