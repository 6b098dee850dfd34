//! Talkers that cast bursts: what is cast of them, and a group of them.

ghost use Rattle.std.specs.Prelude.{◌≡◌};

use super::parts::{Counter, Counting, millisecond};
use super::reports::{hands_all_back, has_run_well};
use super::speaker::inlet;
use crate::{
    ChannelLink, Every, Gathering, GroupReport, Inlet, Limits, MemberReport, Outlet, Stop, Talk,
    Talker, UdpLink, run_group, run_member,
};
use cb_lock::{Seat, SharedMember};
use cb_member::{Entry, Event, Group, History, Member, NoMemory};
use std::alloc::{AllocError, Global};
use std::marker::Brand;
use std::process::Abort;
use std::sync::Wait;
use std::sync::ledger::{Blank, Ledger};
use std::test::*;
use std::thread::Threads;
use std::time::Clock;

type Burst = &'static [&'static [u8]];

/// Who says these bursts one after the other, and has finished then.
#[derive(Drop)]
struct Bursting {
    alloc: Global,
    bursts: &'static [Burst],
    said: usize,
}

impl Talker for Bursting {
    fn next(&mut self, _news: &[Event]) -> Result<Talk, NoMemory> {
        let Some(burst) = self.bursts.get(self.said) else {
            return Ok(Talk::Finished);
        };
        self.said = self.said.saturating_add(1);
        Ok(Talk::Burst(owned(self.alloc, burst)?))
    }
}

fn owned(alloc: Global, burst: &[&'static [u8]]) -> Result<Vec<Vec<u8>>, AllocError> {
    let mut payloads = Vec::new(alloc);
    for payload in burst {
        payloads.push(Vec::from_slice(alloc, payload)?)?;
    }
    Ok(payloads)
}

/// What came of a talker that says bursts.
#[derive(Clone, Copy, Debug, PartialEq, Eq)]
struct Outcome {
    /// The messages that were cast, and the frames that they went in.
    casts: u64,
    frames: Option<u32>,
    /// How many bursts it has said.
    said: Option<usize>,
}

fn outcome_of(casts: u64, frames: u32, said: usize) -> Outcome {
    Outcome {
        casts,
        frames: Some(frames),
        said: Some(said),
    }
}

const EMPTY: &[u8] = b"";

const TOO_MANY: Burst = &[EMPTY; 33];

const LONG: &[u8] = b"a payload of thirty-three letters";

const TOO_LONG: Burst = &[LONG; 32];

const WIDER_THAN_THE_WINDOW: Burst = &[EMPTY; 5];

/// Bursts of a member with window 4; what can't be cast at all is dropped, and what has no room waits for ever here.
const ROWS: &[(&[Burst], (u64, u32, usize))] = &[
    (&[&[b"hi", b"yo"]], (2, 1, 1)),
    (&[&[b"hi", b"yo"], &[b"a"]], (3, 2, 2)),
    (&[&[], &[b"hi", b"yo"]], (2, 1, 2)),
    (&[TOO_MANY, &[b"hi"]], (1, 1, 2)),
    (&[TOO_LONG, &[b"hi"]], (1, 1, 2)),
    (&[WIDER_THAN_THE_WINDOW, &[b"hi"]], (0, 0, 1)),
    (&[&[b"a", b"b", b"c"], &[b"d", b"e"], &[b"f"]], (3, 1, 2)),
];

#[test]
fn a_talker_that_says_a_burst_casts_all_of_it(rt: HostRuntime) {
    for (bursts, (casts, frames, said)) in ROWS {
        let came = says::<Brand, _>(&rt, rt.alloc(), Blank::new(4), bursts);
        assert_eq!(&rt; came, outcome_of(*casts, *frames, *said));
    }
}

fn says<L: Ledger + Send + Sync, R: Threads + Wait + Clock + Abort + Sync>(
    rt: &R,
    alloc: Global,
    blank: Blank,
    bursts: &'static [Burst],
) -> Outcome
    requires { (blank.name ≡ L.name) × (blank.parts ≡ L.parts) × (blank.parts ≡ 4) }
{
    let group = Group::new(7, 2, 4).expect(rt, "a group");
    let member = Member::new(alloc, group, 0, 100).expect(rt, "a member");
    let (shared, seat) = SharedMember::<L>::new(alloc, blank, member);
    runs(rt, alloc, &shared, seat, bursts)
}

fn runs<L: Ledger + Send + Sync, R: Threads + Wait + Clock + Abort + Sync>(
    rt: &R,
    alloc: Global,
    shared: &SharedMember<L>,
    seat: Seat<L>,
    bursts: &'static [Burst],
) -> Outcome
    requires { seat.parts ≡ 4 }
{
    let mut seat = seat;
    let seats = (seat.split(), seat.split(), seat.split(), seat);
    let talker = Bursting {
        alloc,
        bursts,
        said: 0,
    };
    let link = (inlet(rt, alloc), Counter { casts: 0 });
    let limits = Limits { turns: 20 };
    let stop = Stop::new();
    let (report, seats) = run_member(
        rt,
        alloc,
        shared,
        seats,
        link,
        millisecond(),
        talker,
        &stop,
        limits,
    );
    drop(seats);
    Outcome {
        casts: report.casts,
        frames: report.outlet.map(|outlet| outlet.casts),
        said: report.talker.map(|talker| talker.said),
    }
}

/// Each of three members casts six messages in two bursts, of which the window of four has room for
/// one at a time, and ends once it has seen all eighteen.
fn all_bursts<
    I: Inlet + Send + Drop,
    O: Outlet + Send + Drop,
    R: Threads + Wait + Clock + Abort + Sync,
>(rt: &R, alloc: Global, links: Vec<(I, O)>) {
    let group = Group::new(7, 3, 4).expect(rt, "a group");
    let (paces, talkers) = crew(rt, alloc);
    let limits = Limits { turns: 10_000 };
    match run_group(rt, alloc, group, 100_000, links, paces, talkers, limits) {
        Ok(ran) => have_delivered(rt, ran),
        Err(_fault) => panic!(rt; "the group ran"),
    }
}

fn crew(rt: &impl Abort, alloc: Global) -> (Vec<Every>, Vec<Gathering<Counting>>) {
    let mut paces = Vec::new(alloc);
    let mut talkers = Vec::new(alloc);
    for member in 0..3u32 {
        paces.push(millisecond()).expect(rt, "memory");
        talkers.push(talker(alloc, member)).expect(rt, "memory");
    }
    (paces, talkers)
}

/// To member 2 copies are shown, to the others the events in place.
fn talker(alloc: Global, member: u32) -> Gathering<Counting> {
    let counting = Counting {
        alloc,
        casts: 6,
        events: 18,
        seen: 0,
        refusals: 0,
        quick: member < 2,
    };
    Gathering::new(counting, 3)
}

fn have_delivered<I: Drop, O: Drop, P: Drop>(
    rt: &impl Abort,
    ran: GroupReport<I, O, P, Gathering<Counting>>,
) {
    for report in ran.reports.iter() {
        has_delivered(rt, report);
        has_run_well(rt, report);
        hands_all_back(rt, report);
    }
    let are_two = ran.histories.iter().all(|history| bursts_in(history) == 2);
    drop(ran);
    assert!(rt; are_two);
}

fn has_delivered<I, O, P>(rt: &impl Abort, report: &MemberReport<I, O, P, Gathering<Counting>>) {
    assert_eq!(rt; (report.casts, report.deliveries), (6, 12));
    let seen = report.talker.as_ref().map(|talker| talker.inner().seen);
    assert_eq!(rt; seen, Some(18));
}

/// How many bursts the member has cast.
fn bursts_in(history: &History) -> usize {
    history
        .entries
        .iter()
        .filter(|entry| is_burst(entry))
        .count()
}

fn is_burst(entry: &Entry) -> bool {
    matches!(entry, Entry::Cast { frame } if frame.as_slice().first() == Some(&0x21))
}

#[test]
fn a_group_that_casts_bursts_delivers_all_over_channels(rt: HostRuntime) {
    let links = ChannelLink::group(rt.alloc(), 3).expect(&rt, "links");
    all_bursts(&rt, rt.alloc(), links);
}

#[test]
fn a_group_that_casts_bursts_delivers_all_over_udp(rt: HostRuntime) {
    let links = UdpLink::group(&rt, rt.alloc(), 3).expect(&rt, "links");
    all_bursts(&rt, rt.alloc(), links);
}
