//! A group runs as its plan says: each talker at its own member, and no history longer than the
//! limit.

ghost use Rattle.std.specs.Prelude.{◌≡◌};

use super::parts::{Counting, millisecond};
use crate::{
    ChannelInlet, ChannelLink, ChannelOutlet, Every, GroupReport, Limits, MemberReport, run_group,
};
use cb_member::{Group, History};
use std::alloc::Global;
use std::process::Abort;
use std::sync::Wait;
use std::test::*;
use std::thread::Threads;
use std::time::Clock;

type Ran = GroupReport<ChannelInlet, ChannelOutlet, Every, Counting>;

/// What becomes of three members, the first of whom casts once, the second twice and the third
/// three times.
fn run_plan<R: Threads + Wait + Clock + Abort + Sync>(
    rt: &R,
    alloc: Global,
    history_max: usize,
    turns: u64,
) -> Ran {
    let group = Group::new(7, 3, 4).expect(rt, "a group");
    let links = ChannelLink::group(alloc, 3).expect(rt, "links");
    let (paces, talkers) = crew(rt, alloc);
    let limits = Limits { turns };
    match run_group(rt, alloc, group, history_max, links, paces, talkers, limits) {
        Ok(ran) => ran,
        Err(fault) => panic!(rt; "{fault:?}"),
    }
}

fn crew(rt: &impl Abort, alloc: Global) -> (Vec<Every>, Vec<Counting>) {
    let mut paces = Vec::new(alloc);
    let mut talkers = Vec::new(alloc);
    for casts in 1..=3u32 {
        paces.push(millisecond()).expect(rt, "memory");
        talkers.push(talker(alloc, casts)).expect(rt, "memory");
    }
    (paces, talkers)
}

/// Who has finished once it has seen all six messages.
fn talker(alloc: Global, casts: u32) -> Counting {
    Counting {
        alloc,
        casts,
        events: 6,
        seen: 0,
        refusals: 0,
        quick: false,
    }
}

#[test]
fn each_talker_talks_for_its_own_member(rt: HostRuntime) {
    let ran = run_plan(&rt, rt.alloc(), 100_000, 10_000);
    for (member, report) in ran.reports.iter().enumerate() {
        casts_one_more(&rt, report, member as u64);
    }
    drop(ran);
}

/// The member has cast once more than its number says, and has delivered all else.
fn casts_one_more<I, O, P, T>(rt: &impl Abort, report: &MemberReport<I, O, P, T>, member: u64) {
    let counts = (
        Some(report.casts),
        report.casts.checked_add(report.deliveries),
    );
    assert_eq!(rt; counts, (member.checked_add(1), Some(6)));
}

/// In so many turns each would have more entries: a status, its casts, and what it receives.
#[test]
fn no_history_is_longer_than_its_limit(rt: HostRuntime) {
    let ran = run_plan(&rt, rt.alloc(), 2, 100);
    let are_full = are_full(&ran.histories);
    drop(ran);
    assert!(&rt; are_full);
}

/// Each history has two entries.
fn are_full(histories: &[History]) -> bool {
    histories.len() == 3 && histories.iter().all(|history| history.entries.len() == 2)
}
