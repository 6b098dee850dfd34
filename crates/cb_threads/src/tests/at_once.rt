//! The workers of a member run at once, and so do the members of a group.

ghost use Rattle.std.specs.Prelude.{◌≡◌, []};

use super::parts::{Flags, Meeting, Patient, Silent};
use super::reports::{has_failed, has_run_well};
use crate::{
    ChannelInlet, ChannelLink, ChannelOutlet, GroupReport, Limits, MemberReport, Stop, run_group,
    run_member,
};
use cb_lock::{CloseRefusal, Closed, Seat, SharedMember};
use cb_member::{Group, Member};
use std::alloc::Global;
use std::marker::Brand;
use std::process::Abort;
use std::sync::Wait;
use std::sync::ledger::{Blank, Ledger};
use std::test::*;
use std::thread::Threads;
use std::time::Clock;

#[test]
fn three_workers_at_once(rt: HostRuntime) {
    share::<Brand, _>(&rt, rt.alloc(), Blank::new(4));
    let flags = Flags::new();
    meet(&rt, rt.alloc(), &flags);
    assert!(&rt; flags.all_set(), "each member has waited");
}

fn share<L: Ledger + Send + Sync, R: Threads + Wait + Clock + Abort + Sync>(
    rt: &R,
    alloc: Global,
    blank: Blank,
)
    requires { (blank.name ≡ L.name) × (blank.parts ≡ L.parts) × (blank.parts ≡ 4) }
{
    let (shared, seat) = SharedMember::<L>::new(alloc, blank, fresh(rt, alloc));
    let claimed = run_once(rt, alloc, &shared, seat);
    closes(rt, shared, claimed);
}

fn fresh(rt: &impl Abort, alloc: Global) -> Member
    ensures { result.entries ≡ [] }
{
    let group = Group::new(7, 3, 4).expect(rt, "a group");
    Member::new(alloc, group, 0, 100).expect(rt, "a member")
}

fn closes<L: Ledger>(rt: &impl Abort, shared: SharedMember<L>, claimed: Vec<Seat<L>>) {
    let has_entries = has_entries(shared.close(claimed));
    assert!(rt; has_entries, "the receipts are those of the history");
}

fn has_entries(closed: Result<Closed, CloseRefusal>) -> bool {
    let has_entries = matches!(&closed, Ok(Closed { member }) if !member.history().is_empty());
    drop(closed);
    has_entries
}

/// The first send, the first receive and the first wait each wait for the two others.
fn run_once<L: Ledger + Send + Sync, R: Threads + Wait + Clock + Abort + Sync>(
    rt: &R,
    alloc: Global,
    shared: &SharedMember<L>,
    seat: Seat<L>,
) -> Vec<Seat<L>>
    requires { seat.parts ≡ 4 }
{
    let flags = Flags::new();
    let mut seat = seat;
    let seats = (seat.split(), seat.split(), seat.split(), seat);
    let (report, seats) = run_member(
        rt,
        alloc,
        shared,
        seats,
        (Meeting::new(&flags, 0), Meeting::new(&flags, 1)),
        Meeting::new(&flags, 2),
        Silent,
        &Stop::new(),
        Limits { turns: 2 },
    );
    no_failures(rt, &report);
    drop(report);
    seats
}

fn no_failures<I, O, P, T>(rt: &impl Abort, report: &MemberReport<I, O, P, T>) {
    has_failed(rt, report, (0, 0));
    has_run_well(rt, report);
    assert!(rt; report.entries >= 1);
}

/// Each member's first wait waits for those of the two others.
fn meet<R: Threads + Wait + Clock + Abort + Sync>(rt: &R, alloc: Global, flags: &Flags) {
    let group = Group::new(7, 3, 4).expect(rt, "a group");
    let (paces, talkers) = patient(rt, alloc, flags);
    let links = ChannelLink::group(alloc, 3).expect(rt, "links");
    let limits = Limits { turns: 10_000 };
    match run_group(rt, alloc, group, 100_000, links, paces, talkers, limits) {
        Ok(ran) => have_met(rt, ran),
        Err(_fault) => panic!(rt; "the group ran"),
    }
}

fn patient<'a>(
    rt: &impl Abort,
    alloc: Global,
    flags: &'a Flags,
) -> (Vec<Meeting<'a>>, Vec<Patient<'a>>) {
    let mut paces = Vec::new(alloc);
    let mut talkers = Vec::new(alloc);
    for member in 0..3usize {
        paces.push(Meeting::new(flags, member)).expect(rt, "memory");
        talkers.push(Patient { flags }).expect(rt, "memory");
    }
    (paces, talkers)
}

fn have_met<'a>(
    rt: &impl Abort,
    ran: GroupReport<ChannelInlet, ChannelOutlet, Meeting<'a>, Patient<'a>>,
) {
    all_met(rt, &ran);
    // A call of `drop` takes the prover less time than a value that is left to the end.
    drop(ran);
}

fn all_met<I, O, P, T>(rt: &impl Abort, ran: &GroupReport<I, O, P, T>) {
    assert_eq!(rt; ran.histories.len(), 3);
    for report in ran.reports.iter() {
        has_run_well(rt, report);
    }
}
