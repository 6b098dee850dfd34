//! What is sent to a member whose turns are used up does not gather.

ghost use Rattle.std.specs.Prelude.{◌≡◌};

use super::parts::{Hasty, Silent};
use crate::{
    ChannelInlet, ChannelLink, ChannelOutlet, Inlet, Limits, MemberReport, Received, Stop,
    run_member,
};
use cb_lock::{Seat, SharedMember};
use cb_member::{Group, Member};
use std::alloc::Global;
use std::marker::Brand;
use std::process::Abort;
use std::sync::Wait;
use std::sync::ledger::{Blank, Ledger};
use std::test::*;
use std::thread::Threads;
use std::time::Clock;

type Link = (ChannelInlet, ChannelOutlet);

type Report = MemberReport<ChannelInlet, ChannelOutlet, Hasty, Silent>;

/// How many statuses the second member sends. Each would gather.
const TICKS: u64 = 500;

/// A member ends behind three turns, and only then the other one sends.
#[test]
fn what_is_sent_behind_the_last_turn_of_a_receiver_is_lost(rt: HostRuntime) {
    let mut links = ChannelLink::group(rt.alloc(), 2).expect(&rt, "links");
    let second = links.pop().expect(&rt, "a link");
    let first = links.pop().expect(&rt, "a link");
    let ended = alone(&rt, rt.alloc(), first, 3);
    let sent = alone(&rt, rt.alloc(), second, TICKS);
    assert!(&rt; sent.lost >= TICKS);
    assert_eq!(&rt; sent.send_failures, sent.lost);
    assert_eq!(&rt; gathered(&rt, ended), 0);
    drop(sent);
}

/// How many frames lie in the inlet that was handed back.
fn gathered<R: Wait + Clock + Abort>(rt: &R, report: Report) -> u64 {
    let mut inlet = report.inlet.expect(rt, "an inlet");
    for count in 0..TICKS {
        if !matches!(inlet.receive(rt), Ok(Received::Frame(_))) {
            return count;
        }
    }
    TICKS
}

/// What a member reports that runs by itself for so many turns.
fn alone<R: Threads + Wait + Clock + Abort + Sync>(
    rt: &R,
    alloc: Global,
    link: Link,
    turns: u64,
) -> Report {
    run::<Brand, _>(rt, alloc, Blank::new(4), link, turns)
}

fn run<L: Ledger + Send + Sync, R: Threads + Wait + Clock + Abort + Sync>(
    rt: &R,
    alloc: Global,
    blank: Blank,
    link: Link,
    turns: u64,
) -> Report
    requires { (blank.name ≡ L.name) × (blank.parts ≡ L.parts) × (blank.parts ≡ 4) }
{
    let group = Group::new(7, 2, 4).expect(rt, "a group");
    let member = Member::new(alloc, group, 0, 2_000).expect(rt, "a member");
    let (shared, seat) = SharedMember::<L>::new(alloc, blank, member);
    run_shared(rt, alloc, &shared, seat, link, turns)
}

fn run_shared<L: Ledger + Send + Sync, R: Threads + Wait + Clock + Abort + Sync>(
    rt: &R,
    alloc: Global,
    shared: &SharedMember<L>,
    seat: Seat<L>,
    link: Link,
    turns: u64,
) -> Report
    requires { seat.parts ≡ 4 }
{
    let mut seat = seat;
    let seats = (seat.split(), seat.split(), seat.split(), seat);
    let stop = Stop::new();
    let limits = Limits { turns };
    let (report, seats) = run_member(rt, alloc, shared, seats, link, Hasty, Silent, &stop, limits);
    drop(seats);
    report
}
