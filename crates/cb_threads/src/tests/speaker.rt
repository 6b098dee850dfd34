//! A talker that finishes behind its last cast, and one whose cast waits when the stop is set.

ghost use Rattle.std.specs.Prelude.{◌≡◌};

use super::parts::{Counter, Counting, millisecond};
use crate::{ChannelInlet, ChannelLink, Limits, Stop, Talk, Talker, run_member};
use cb_lock::{Seat, SharedMember};
use cb_member::{Event, Group, Member, NoMemory};
use std::alloc::Global;
use std::marker::Brand;
use std::process::Abort;
use std::sync::Wait;
use std::sync::ledger::{Blank, Ledger};
use std::test::*;
use std::thread::Threads;
use std::time::{Clock, Duration, Instant};

/// No turn without a cast is between the last cast and the end.
#[test]
fn what_was_cast_last_is_sent(rt: HostRuntime) {
    let casts = finish::<Brand, _>(&rt, rt.alloc(), Blank::new(4), false);
    assert_eq!(&rt; casts, Some(2));
}

/// Casts that are still gathered at the end go then.
#[test]
fn what_a_quick_talker_cast_last_is_sent(rt: HostRuntime) {
    let casts = finish::<Brand, _>(&rt, rt.alloc(), Blank::new(4), true);
    assert_eq!(&rt; casts, Some(2));
}

fn finish<L: Ledger + Send + Sync, R: Threads + Wait + Clock + Abort + Sync>(
    rt: &R,
    alloc: Global,
    blank: Blank,
    is_quick: bool,
) -> Option<u32>
    requires { (blank.name ≡ L.name) × (blank.parts ≡ L.parts) × (blank.parts ≡ 4) }
{
    let group = Group::new(7, 2, 4).expect(rt, "a group");
    let member = Member::new(alloc, group, 0, 100).expect(rt, "a member");
    let (shared, seat) = SharedMember::<L>::new(alloc, blank, member);
    sent(rt, alloc, &shared, seat, is_quick)
}

/// How many casts the outlet was given of a talker that casts twice and has finished once it has
/// seen both.
fn sent<L: Ledger + Send + Sync, R: Threads + Wait + Clock + Abort + Sync>(
    rt: &R,
    alloc: Global,
    shared: &SharedMember<L>,
    seat: Seat<L>,
    is_quick: bool,
) -> Option<u32>
    requires { seat.parts ≡ 4 }
{
    let mut seat = seat;
    let seats = (seat.split(), seat.split(), seat.split(), seat);
    let talker = Counting {
        alloc,
        casts: 2,
        events: 2,
        seen: 0,
        refusals: 0,
        quick: is_quick,
    };
    let link = (inlet(rt, alloc), Counter { casts: 0 });
    let limits = Limits { turns: 3 };
    let stop = Stop::new();
    let (report, seats) = run_member(
        rt,
        alloc,
        shared,
        seats,
        link,
        millisecond(),
        talker,
        &stop,
        limits,
    );
    drop(seats);
    report.outlet.map(|outlet| outlet.casts)
}

/// To which nobody sends.
pub fn inlet(rt: &impl Abort, alloc: Global) -> ChannelInlet {
    let mut links = ChannelLink::group(alloc, 2).expect(rt, "links");
    let (inlet, outlet) = links.pop().expect(rt, "a link");
    drop(outlet);
    inlet
}

/// Who sets the stop, and casts then.
#[derive(Drop)]
struct Stopping<'a> {
    alloc: Global,
    stop: &'a Stop,
}

impl<'a> Talker for Stopping<'a> {
    fn next(&mut self, _news: &[Event]) -> Result<Talk, NoMemory> {
        self.stop.set();
        let mut payload = Vec::new(self.alloc);
        payload.extend_from_slice(b"yo")?;
        Ok(Talk::Cast(payload))
    }
}

/// The history has no room for its cast, which would be tried again in each of 20,000 turns, with a
/// millisecond behind each.
#[test]
fn a_stop_ends_a_talker_whose_cast_waits(rt: HostRuntime) {
    let begin = Instant::now(&rt).expect(&rt, "a clock");
    stopped::<Brand, _>(&rt, rt.alloc(), Blank::new(4));
    let taken = begin.elapsed(&rt).expect(&rt, "a clock");
    assert!(&rt; taken < Duration::from_secs(10));
}

fn stopped<L: Ledger + Send + Sync, R: Threads + Wait + Clock + Abort + Sync>(
    rt: &R,
    alloc: Global,
    blank: Blank,
)
    requires { (blank.name ≡ L.name) × (blank.parts ≡ L.parts) × (blank.parts ≡ 4) }
{
    let group = Group::new(7, 2, 4).expect(rt, "a group");
    let member = Member::new(alloc, group, 0, 1).expect(rt, "a member");
    let (shared, seat) = SharedMember::<L>::new(alloc, blank, member);
    let mut seat = seat;
    shared.cast(rt, &mut seat, b"hi").expect(rt, "a cast");
    waits(rt, alloc, &shared, seat);
}

/// Its talker ends with the stop, and nothing is added to the full history.
fn waits<L: Ledger + Send + Sync, R: Threads + Wait + Clock + Abort + Sync>(
    rt: &R,
    alloc: Global,
    shared: &SharedMember<L>,
    seat: Seat<L>,
)
    requires { seat.parts ≡ 4 }
{
    let mut seat = seat;
    let seats = (seat.split(), seat.split(), seat.split(), seat);
    let stop = Stop::new();
    let talker = Stopping { alloc, stop: &stop };
    let link = (inlet(rt, alloc), Counter { casts: 0 });
    let limits = Limits { turns: 20_000 };
    let (report, seats) = run_member(
        rt,
        alloc,
        shared,
        seats,
        link,
        millisecond(),
        talker,
        &stop,
        limits,
    );
    drop(seats);
    let entries = report.entries;
    drop(report);
    assert_eq!(rt; entries, 1);
}
