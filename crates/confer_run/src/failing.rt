//! Conferences of which one part fails at one call.

ghost use Rattle.std.specs.Prelude.{◌≡◌, length};

use crate::participant::Participant;
use crate::running::{pace, participants};
use crate::setting::{LinkKind, RunSetting};
use cb_member::Group;
use cb_threads::{
    ChannelInlet, ChannelLink, ChannelOutlet, Every, FailInlet, FailOutlet, GroupReport, Limits,
    MemberReport, run_group,
};
use cb_trace::audit;
use std::alloc::Global;
use std::process::Abort;
use std::sync::Wait;
use std::test::*;
use std::thread::Threads;
use std::time::Clock;

/// Three members over channels, where two questions are asked.
const SETTING: RunSetting = RunSetting {
    size: 3,
    window: 4,
    questions: 2,
    turns: 100_000,
    link: LinkKind::Channel,
    trace: false,
};

/// At which calls the inlet and the outlet of member 1 fail, from 1; 0 is never.
#[derive(Clone, Copy)]
struct Plan {
    inlet_at: u64,
    outlet_at: u64,
}

type Link = (FailInlet<ChannelInlet>, FailOutlet<ChannelOutlet>);

type Ran = GroupReport<FailInlet<ChannelInlet>, FailOutlet<ChannelOutlet>, Every, Participant>;

type Report = MemberReport<FailInlet<ChannelInlet>, FailOutlet<ChannelOutlet>, Every, Participant>;

fn links(rt: &impl Abort, alloc: Global, plan: Plan) -> Vec<Link> {
    let mut links = Vec::new(alloc);
    for (inlet, outlet) in ChannelLink::group(alloc, SETTING.size).expect(rt, "links") {
        let is_member_1 = links.len() == 1;
        let inlet_at = if is_member_1 { plan.inlet_at } else { 0 };
        let outlet_at = if is_member_1 { plan.outlet_at } else { 0 };
        let link = (
            FailInlet::new(inlet, inlet_at),
            FailOutlet::new(outlet, outlet_at),
        );
        links.push(link).expect(rt, "memory");
    }
    links
}

fn paces(rt: &impl Abort, alloc: Global) -> Vec<Every> {
    let mut paces = Vec::new(alloc);
    for _member in 0..SETTING.size {
        paces.push(pace()).expect(rt, "memory");
    }
    paces
}

fn run<R: Threads + Wait + Clock + Abort + Sync>(rt: &R, alloc: Global, plan: Plan) -> Ran {
    let group = Group::new(7, SETTING.size, SETTING.window).expect(rt, "a group");
    let links = links(rt, alloc, plan);
    let paces = paces(rt, alloc);
    let Ok(talkers) = participants(alloc, SETTING) else {
        panic!(rt; "memory");
    };
    let limits = Limits {
        turns: u64::from(SETTING.turns),
    };
    match run_group(rt, alloc, group, 100_000, links, paces, talkers, limits) {
        Ok(ran) => ran,
        Err(fault) => panic!(rt; "{fault}"),
    }
}

/// What was counted of member 1: the faults of its inlet and of its outlet, and the frames that it lost.
type Counted = (u64, u64, u64);

/// The histories are those of a run, and no answer was shown before its question.
fn counted_by_member_1<R: Threads + Wait + Clock + Abort + Sync>(
    rt: &R,
    alloc: Global,
    plan: Plan,
) -> Counted {
    let ran = run(rt, alloc, plan);
    let is_audited = audit(alloc, &ran.histories).is_ok();
    let orphans = orphans(&ran.reports);
    let counted = ran.reports.get(1).map(counts);
    drop(ran);
    assert!(rt; is_audited, "the histories are those of a run");
    assert_eq!(rt; orphans, Some(0));
    counted.expect(rt, "a report of member 1")
}

fn counts(report: &Report) -> Counted {
    (report.receive_failures, report.send_failures, report.lost)
}

/// How many answers were shown before their question, where each participant came back.
fn orphans(reports: &[Report]) -> Option<u64> {
    let mut orphans: u64 = 0;
    for report in reports {
        let talker = report.talker.as_ref()?;
        orphans = orphans.saturating_add(u64::from(talker.orphans()));
    }
    Some(orphans)
}

/// Two answers are sure to be sent, each in a call of its own. How many statuses go with them depends on
/// time, so that a later call may not come.
#[test]
fn a_conference_goes_on_where_an_outlet_fails_once(rt: HostRuntime) {
    for at in 1..=12u64 {
        let plan = Plan {
            inlet_at: 0,
            outlet_at: at,
        };
        let (received, sent, lost) = counted_by_member_1(&rt, rt.alloc(), plan);
        assert!(&rt; sent <= 1 && received == 0, "{sent} at {at}");
        assert!(&rt;
            at > 1 || sent == 1 && lost >= 1,
            "{sent} failed, {lost} lost"
        );
    }
}

/// What it did not take then is there at the next call.
#[test]
fn a_conference_goes_on_where_an_inlet_fails_once(rt: HostRuntime) {
    for at in 1..=12u64 {
        let plan = Plan {
            inlet_at: at,
            outlet_at: 0,
        };
        let (received, sent, _lost) = counted_by_member_1(&rt, rt.alloc(), plan);
        assert!(&rt; received <= 1 && sent == 0, "{received} at {at}");
        assert!(&rt; at > 1 || received == 1);
    }
}
