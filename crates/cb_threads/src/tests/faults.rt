//! Links and paces that fail, and a stop.

ghost use Rattle.std.specs.Prelude.{◌≡◌};

use super::parts::{Counting, Silent, Uneven};
use super::reports::{hands_all_back, has_delivered, has_failed};
use crate::{
    ChannelInlet, ChannelLink, ChannelOutlet, FailInlet, FailOutlet, GroupReport, Limits,
    MemberReport, Pace, Stop, run_group, run_member,
};
use cb_lock::{Seat, SharedMember};
use cb_member::{Group, Member};
use std::alloc::Global;
use std::marker::Brand;
use std::process::Abort;
use std::sync::Wait;
use std::sync::ledger::{Blank, Ledger};
use std::test::*;
use std::thread::Threads;
use std::time::Clock;

type FailingLink = (FailInlet<ChannelInlet>, FailOutlet<ChannelOutlet>);

/// What a group reports of which member 1's inlet and outlet fail at these calls, and every pace at
/// each.
type Failed = GroupReport<FailInlet<ChannelInlet>, FailOutlet<ChannelOutlet>, Uneven, Counting>;

fn run_failing<R: Threads + Wait + Clock + Abort + Sync>(
    rt: &R,
    alloc: Global,
    inlet_at: u64,
    outlet_at: u64,
) -> Failed {
    let group = Group::new(7, 3, 4).expect(rt, "a group");
    let (paces, talkers) = uneven(rt, alloc);
    let links = failing_links(rt, alloc, inlet_at, outlet_at);
    let limits = Limits { turns: 100_000 };
    match run_group(rt, alloc, group, 100_000, links, paces, talkers, limits) {
        Ok(ran) => ran,
        Err(fault) => panic!(rt; "{fault:?}"),
    }
}

fn uneven(rt: &impl Abort, alloc: Global) -> (Vec<Uneven>, Vec<Counting>) {
    let mut paces = Vec::new(alloc);
    let mut talkers = Vec::new(alloc);
    for _member in 0..3u32 {
        paces.push(Uneven { failures: 0 }).expect(rt, "memory");
        talkers.push(talker(alloc)).expect(rt, "memory");
    }
    (paces, talkers)
}

fn talker(alloc: Global) -> Counting {
    Counting {
        alloc,
        casts: 2,
        events: 6,
        seen: 0,
        refusals: 0,
        quick: false,
    }
}

fn failing_links(
    rt: &impl Abort,
    alloc: Global,
    inlet_at: u64,
    outlet_at: u64,
) -> Vec<FailingLink> {
    let mut links = Vec::new(alloc);
    for (inlet, outlet) in ChannelLink::group(alloc, 3).expect(rt, "links") {
        let (inlet_at, outlet_at) = if links.len() == 1 {
            (inlet_at, outlet_at)
        } else {
            (0, 0)
        };
        let link = (
            FailInlet::new(inlet, inlet_at),
            FailOutlet::new(outlet, outlet_at),
        );
        links.push(link).expect(rt, "memory");
    }
    links
}

/// All was delivered although a call failed, and each failure is in the report of member 1.
fn repairs(rt: &impl Abort, ran: Failed, receive_failures: u64, send_failures: u64) {
    for (member, report) in ran.reports.iter().enumerate() {
        let expected = if member == 1 {
            (receive_failures, send_failures)
        } else {
            (0, 0)
        };
        tells(rt, report, expected);
    }
    drop(ran);
}

/// All was cast and delivered, and so often receiving and sending failed.
fn tells<I, O, P: Pace, T>(
    rt: &impl Abort,
    report: &MemberReport<I, O, P, T>,
    expected: (u64, u64),
) {
    has_delivered(rt, report);
    has_failed(rt, report, expected);
    assert!(rt; report.lost >= expected.1);
    counts_waits(rt, report);
}

/// A group may end before a timer's first turn.
fn counts_waits<I, O, P: Pace, T>(rt: &impl Abort, report: &MemberReport<I, O, P, T>) {
    let waits = report.pace.as_ref().map(|pace| pace.failures());
    assert_eq!(rt; waits, Some(report.pace_failures));
}

/// Two casts are sure to be sent. How many statuses are sent with them depends on time, so that a
/// third call may not come.
#[test]
fn what_an_outlet_lost_is_sent_again(rt: HostRuntime) {
    for at in 1..=2u64 {
        let ran = run_failing(&rt, rt.alloc(), 0, at);
        repairs(&rt, ran, 0, 1);
    }
}

/// Four casts of others are sure to come.
#[test]
fn an_inlet_that_failed_is_asked_again(rt: HostRuntime) {
    for at in 1..=4u64 {
        let ran = run_failing(&rt, rt.alloc(), at, 0);
        repairs(&rt, ran, 1, 0);
    }
}

#[test]
fn a_stop_ends_workers_before_their_first_turn(rt: HostRuntime) {
    alone::<Brand, _>(&rt, rt.alloc(), Blank::new(4), true);
}

/// Nobody ends the timer before it has made its turns.
#[test]
fn each_wait_that_fails_is_counted(rt: HostRuntime) {
    alone::<Brand, _>(&rt, rt.alloc(), Blank::new(4), false);
}

fn alone<L: Ledger + Send + Sync, R: Threads + Wait + Clock + Abort + Sync>(
    rt: &R,
    alloc: Global,
    blank: Blank,
    is_stopped: bool,
)
    requires { (blank.name ≡ L.name) × (blank.parts ≡ L.parts) × (blank.parts ≡ 4) }
{
    let group = Group::new(7, 2, 4).expect(rt, "a group");
    let member = Member::new(alloc, group, 0, 100).expect(rt, "a member");
    let (shared, seat) = SharedMember::<L>::new(alloc, blank, member);
    works(rt, alloc, &shared, seat, is_stopped);
}

fn works<L: Ledger + Send + Sync, R: Threads + Wait + Clock + Abort + Sync>(
    rt: &R,
    alloc: Global,
    shared: &SharedMember<L>,
    seat: Seat<L>,
    is_stopped: bool,
)
    requires { seat.parts ≡ 4 }
{
    let stop = Stop::new();
    if is_stopped {
        stop.set();
    }
    let link = failing_link(rt, alloc);
    let mut seat = seat;
    let seats = (seat.split(), seat.split(), seat.split(), seat);
    let pace = Uneven { failures: 0 };
    let limits = Limits { turns: 3 };
    let (report, seats) = run_member(rt, alloc, shared, seats, link, pace, Silent, &stop, limits);
    let came_back = seats.len();
    drop(seats);
    has_worked(rt, &report, is_stopped);
    drop(report);
    assert_eq!(rt; came_back, 4);
}

/// A link that fails at the first calls.
fn failing_link(rt: &impl Abort, alloc: Global) -> FailingLink {
    failing_links(rt, alloc, 1, 1).pop().expect(rt, "a link")
}

/// Nothing where it was stopped, else each wait has failed.
fn has_worked<I, O, P, T>(rt: &impl Abort, report: &MemberReport<I, O, P, T>, is_stopped: bool) {
    if is_stopped {
        did_nothing(rt, report);
    } else {
        assert_eq!(rt; report.pace_failures, 3);
    }
}

fn did_nothing<I, O, P, T>(rt: &impl Abort, report: &MemberReport<I, O, P, T>) {
    assert_eq!(rt; (report.entries, report.lost), (0, 0));
    assert_eq!(rt; (report.receive_failures, report.pace_failures), (0, 0));
    hands_all_back(rt, report);
}
