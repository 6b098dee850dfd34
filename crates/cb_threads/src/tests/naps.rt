//! A device that fails at each call keeps no processor busy. Sleeps are counted and not slept.

ghost use Rattle.std.specs.Prelude.{◌≡◌};

use super::parts::Broken;
use crate::limits::{Ending, Limits, Stop};
use crate::workers::{Desk, Job, Receiving, Ticking, Worked, Worker};
use cb_links::{LinkFault, Slot, new_mailbox};
use cb_lock::{Seat, SharedMember};
use cb_member::{Group, Member, Outgoing};
use std::alloc::Global;
use std::io;
use std::marker::Brand;
use std::process::Abort;
use std::sync::Wait;
use std::sync::atomic::{AtomicU64, Ordering};
use std::sync::ledger::{Blank, Ledger};
use std::test::*;
use std::time::{Clock, Duration};

/// A clock whose sleeps of a millisecond and more are counted.
#[derive(Drop)]
struct Counted<'a, R: Wait + Clock> {
    rt: &'a R,
    sleeps: AtomicU64,
}

impl<'a, R: Wait + Clock> Wait for Counted<'a, R> {}

impl<'a, R: Wait + Clock> Clock for Counted<'a, R> {
    fn monotonic(&self) -> io::Result<Duration> {
        self.rt.monotonic()
    }

    fn since_1970(&self) -> io::Result<Duration> {
        self.rt.since_1970()
    }

    fn sleep(&self, duration: Duration) {
        if duration >= Duration::from_millis(1) {
            self.sleeps.fetch_add(1, Ordering::SeqCst);
        }
    }
}

/// Which worker has a device that fails, a receiver by which fault.
#[derive(Clone, Copy)]
enum Who {
    Receiver(LinkFault),
    Timer,
}

#[test]
fn a_receiver_sleeps_behind_each_fault(rt: HostRuntime) {
    let who = Who::Receiver(LinkFault::Device);
    let found = work::<Brand, _>(&rt, rt.alloc(), Blank::new(4), who);
    assert_eq!(&rt; found, (7, 7));
}

/// Memory that is refused is no failure of the device.
#[test]
fn a_receiver_sleeps_where_memory_is_refused(rt: HostRuntime) {
    let who = Who::Receiver(LinkFault::NoMemory);
    let found = work::<Brand, _>(&rt, rt.alloc(), Blank::new(4), who);
    assert_eq!(&rt; found, (0, 7));
}

#[test]
fn a_timer_sleeps_behind_each_fault(rt: HostRuntime) {
    let found = work::<Brand, _>(&rt, rt.alloc(), Blank::new(4), Who::Timer);
    assert_eq!(&rt; found, (7, 7));
}

/// How often a worker's device has failed in seven turns, and how often it has slept.
fn work<L: Ledger + Send + Sync, R: Wait + Clock + Abort>(
    rt: &R,
    alloc: Global,
    blank: Blank,
    who: Who,
) -> (u64, u64)
    requires { (blank.name ≡ L.name) × (blank.parts ≡ L.parts) × (blank.parts ≡ 4) }
{
    let group = Group::new(7, 2, 4).expect(rt, "a group");
    let member = Member::new(alloc, group, 0, 100).expect(rt, "a member");
    let (shared, seat) = SharedMember::<L>::new(alloc, blank, member);
    fail(rt, alloc, &shared, seat, who)
}

/// Of a member whose workers make so many turns.
pub fn desk<'a, L: Ledger>(
    alloc: Global,
    shared: &'a SharedMember<L>,
    stop: &'a Stop,
    turns: u64,
) -> Desk<'a, L> {
    let ending = Ending {
        limits: Limits { turns },
        stop,
        talking: None,
    };
    Desk {
        alloc,
        shared,
        ending,
    }
}

fn broken(fault: LinkFault) -> Broken {
    Broken { fault, failures: 0 }
}

/// A worker with a device that fails at each call.
fn run<L: Ledger + Send + Sync, R: Wait + Clock>(
    rt: &R,
    desk: &Desk<'_, L>,
    seat: Seat<L>,
    end: Slot<Vec<Outgoing>>,
    who: Who,
) -> Worked<Broken, L> {
    match who {
        Who::Receiver(fault) => {
            let inlet = broken(fault);
            let part = Receiving { inlet };
            Worker { part, seat, end }.run(rt, desk)
        }
        Who::Timer => {
            let pace = broken(LinkFault::Device);
            let part = Ticking::new(pace);
            Worker { part, seat, end }.run(rt, desk)
        }
    }
}

fn fail<L: Ledger + Send + Sync, R: Wait + Clock + Abort>(
    rt: &R,
    alloc: Global,
    shared: &SharedMember<L>,
    seat: Seat<L>,
    who: Who,
) -> (u64, u64) {
    let stop = Stop::new();
    let desk = desk(alloc, shared, &stop, 7);
    let (slot, mailbox) = new_mailbox(alloc).expect(rt, "a mailbox");
    let counted = Counted {
        rt,
        sleeps: AtomicU64::new(0),
    };
    let worked = run(&counted, &desk, seat, slot, who);
    drop(mailbox);
    let failures = worked.failures;
    drop(worked);
    (failures, counted.sleeps.load(Ordering::SeqCst))
}
