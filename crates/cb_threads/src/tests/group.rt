//! Groups over each kind of link.

ghost use Rattle.std.specs.Prelude.{◌≡◌};

use super::parts::{Counting, millisecond};
use super::reports::{hands_all_back, has_delivered, has_offered_all, has_run_well};
use crate::{
    ChannelLink, Every, GroupFault, GroupReport, Inlet, Limits, MemberReport, Outlet, Pace,
    TcpLink, UdpLink, run_group,
};
use cb_member::Group;
use std::alloc::Global;
use std::process::Abort;
use std::sync::Wait;
use std::test::*;
use std::thread::Threads;
use std::time::Clock;

/// Each of three members casts twice, and ends once it has seen all six, each once.
fn all_casts<
    I: Inlet + Send + Drop,
    O: Outlet + Send + Drop,
    R: Threads + Wait + Clock + Abort + Sync,
>(rt: &R, alloc: Global, links: Vec<(I, O)>) {
    let group = Group::new(7, 3, 4).expect(rt, "a group");
    let paces = paces(rt, alloc, 3);
    let talkers = talkers(rt, alloc, 3);
    let limits = Limits { turns: 10_000 };
    match run_group(rt, alloc, group, 100_000, links, paces, talkers, limits) {
        Ok(ran) => have_delivered(rt, ran),
        Err(_fault) => panic!(rt; "the group ran"),
    }
}

fn paces(rt: &impl Abort, alloc: Global, count: u32) -> Vec<Every> {
    let mut paces = Vec::new(alloc);
    for _member in 0..count {
        paces.push(millisecond()).expect(rt, "memory");
    }
    paces
}

fn talkers(rt: &impl Abort, alloc: Global, count: u32) -> Vec<Counting> {
    let mut talkers = Vec::new(alloc);
    for member in 0..count {
        talkers.push(counting(alloc, member)).expect(rt, "memory");
    }
    talkers
}

/// Members 1 and 2 want memory three times before they say anything; to member 2 copies are shown.
fn counting(alloc: Global, member: u32) -> Counting {
    Counting {
        alloc,
        casts: 2,
        events: 6,
        seen: 0,
        refusals: if member > 0 { 3 } else { 0 },
        quick: member < 2,
    }
}

fn have_delivered<I: Drop, O: Drop, P: Drop>(rt: &impl Abort, ran: GroupReport<I, O, P, Counting>) {
    all_delivered(rt, &ran);
    drop(ran);
}

fn all_delivered<I, O, P>(rt: &impl Abort, ran: &GroupReport<I, O, P, Counting>) {
    for report in ran.reports.iter() {
        has_delivered(rt, report);
        has_run_well(rt, report);
        has_offered_all(rt, report);
        hands_all_back(rt, report);
        has_seen_all(rt, report);
    }
}

fn has_seen_all<I, O, P>(rt: &impl Abort, report: &MemberReport<I, O, P, Counting>) {
    let seen = report.talker.as_ref().map(|talker| talker.seen);
    assert_eq!(rt; seen, Some(6));
}

#[test]
fn a_group_over_channels_delivers_all(rt: HostRuntime) {
    let links = ChannelLink::group(rt.alloc(), 3).expect(&rt, "links");
    all_casts(&rt, rt.alloc(), links);
}

#[test]
fn a_group_over_udp_delivers_all(rt: HostRuntime) {
    let links = UdpLink::group(&rt, rt.alloc(), 3).expect(&rt, "links");
    all_casts(&rt, rt.alloc(), links);
}

#[test]
fn a_group_over_tcp_delivers_all(rt: HostRuntime) {
    let links = TcpLink::group(&rt, rt.alloc(), 3).expect(&rt, "links");
    all_casts(&rt, rt.alloc(), links);
}

/// A plan is refused where a list is too short, or the limit is 0 or too great.
fn is_bad_plan<R: Threads + Wait + Clock + Abort + Sync>(
    rt: &R,
    alloc: Global,
    missing: u32,
    limit: usize,
) -> bool {
    let group = Group::new(7, 3, 4).expect(rt, "a group");
    let links = ChannelLink::group(alloc, if missing == 0 { 2 } else { 3 }).expect(rt, "links");
    let paces = paces(rt, alloc, if missing == 1 { 2 } else { 3 });
    let talkers = talkers(rt, alloc, if missing == 2 { 2 } else { 3 });
    let limits = Limits { turns: 0 };
    let ran = run_group(rt, alloc, group, limit, links, paces, talkers, limits);
    is_refused(ran)
}

fn is_refused<I: Drop, O: Drop, P: Drop, T: Drop>(
    ran: Result<GroupReport<I, O, P, T>, GroupFault>,
) -> bool {
    match ran {
        Ok(ran) => {
            drop(ran);
            false
        }
        Err(fault) => matches!(fault, GroupFault::BadPlan),
    }
}

#[test]
fn a_bad_plan_is_refused(rt: HostRuntime) {
    for (missing, limit, is_bad) in [
        (0, 100, true),
        (1, 100, true),
        (2, 100, true),
        (3, 0, true),
        (3, 16_777_217, true),
        (3, 1, false),
        (3, 16_777_216, false),
    ] {
        assert_eq!(&rt; is_bad_plan(&rt, rt.alloc(), missing, limit), is_bad);
    }
}
