//! Third members are asked for what a sender's link does not bring.

ghost use Rattle.std.specs.Prelude.{◌≡◌};

use super::naps::desk;
use super::parts::{Counting, Hasty, millisecond};
use super::reports::{hands_all_back, has_delivered, has_offered_all, has_run_well};
use crate::workers::{Job, Ticking, Worker};
use crate::{
    ChannelLink, Every, GroupReport, Limits, LinkFault, MemberReport, Outlet, Stop, run_group,
};
use bytes::Bytes;
use cb_links::{ChannelInlet, ChannelOutlet, Mailbox, Taken, new_mailbox};
use cb_lock::{Seat, SharedMember};
use cb_member::{Group, Member, Outgoing};
use std::alloc::{AllocError, Global};
use std::marker::Brand;
use std::process::Abort;
use std::sync::Wait;
use std::sync::ledger::{Blank, Ledger};
use std::test::*;
use std::thread::Threads;
use std::time::Clock;

/// What an outlet of a member of three does not send.
#[derive(Clone, Copy)]
enum Drops {
    Nothing,
    /// What member 0 has for member 2.
    ForMember2,
    /// Help frames.
    Helps,
}

impl Drops {
    /// What is left of a frame.
    fn rest(self, out: &Outgoing) -> Result<Option<Outgoing>, AllocError> {
        let to = match (self, out.to) {
            (Drops::ForMember2, Some(2)) => return Ok(None),
            (Drops::ForMember2, None) => Some(1),
            (Drops::Helps, _) if is_help(&out.bytes) => return Ok(None),
            (_, to) => to,
        };
        let bytes = out.bytes.clone()?;
        Ok(Some(Outgoing { to, bytes }))
    }
}

fn is_help(bytes: &Bytes) -> bool {
    bytes.as_slice().first() == Some(&0x23)
}

/// An outlet that drops frames.
#[derive(Drop)]
struct Leaky<O> {
    inner: O,
    drops: Drops,
}

impl<O: Outlet> Outlet for Leaky<O> {
    ghost failed = { λ leaky. O.failed leaky.inner };

    fn failures(&self) -> u64 {
        self.inner.failures()
    }

    fn send<R: Wait>(&mut self, rt: &R, out: &Outgoing) -> Result<(), LinkFault> {
        match self.drops.rest(out)? {
            Some(rest) => self.inner.send(rt, &rest),
            None => Ok(()),
        }
    }
}

type Report = MemberReport<ChannelInlet, Leaky<ChannelOutlet>, Every, Counting>;

type Ran = GroupReport<ChannelInlet, Leaky<ChannelOutlet>, Every, Counting>;

/// Each of three members casts twice, and has finished once it has seen all six. Nothing comes from
/// member 0 to member 2, and this of what member 2 sends is dropped.
fn run<R: Threads + Wait + Clock + Abort + Sync>(
    rt: &R,
    alloc: Global,
    of_member_2: Drops,
    limits: Limits,
) -> Ran {
    let group = Group::new(7, 3, 4).expect(rt, "a group");
    let links = links(rt, alloc, [Drops::ForMember2, Drops::Nothing, of_member_2]);
    let (paces, talkers) = crew(rt, alloc);
    match run_group(rt, alloc, group, 100_000, links, paces, talkers, limits) {
        Ok(ran) => ran,
        Err(_fault) => panic!(rt; "the group ran"),
    }
}

fn links(
    rt: &impl Abort,
    alloc: Global,
    drops: [Drops; 3],
) -> Vec<(ChannelInlet, Leaky<ChannelOutlet>)> {
    let mut leaky = Vec::new(alloc);
    let links = ChannelLink::group(alloc, 3).expect(rt, "links");
    for ((inlet, inner), drops) in links.into_iter().zip(drops) {
        leaky
            .push((inlet, Leaky { inner, drops }))
            .expect(rt, "memory");
    }
    leaky
}

fn crew(rt: &impl Abort, alloc: Global) -> (Vec<Every>, Vec<Counting>) {
    let mut paces = Vec::new(alloc);
    let mut talkers = Vec::new(alloc);
    for _member in 0..3u32 {
        paces.push(millisecond()).expect(rt, "memory");
        talkers.push(talker(alloc)).expect(rt, "memory");
    }
    (paces, talkers)
}

fn talker(alloc: Global) -> Counting {
    Counting {
        alloc,
        casts: 2,
        events: 6,
        seen: 0,
        refusals: 0,
        quick: true,
    }
}

/// Member 1 hands member 2 what member 0 does not send it.
#[test]
fn a_third_member_hands_on_what_a_link_never_brings(rt: HostRuntime) {
    let limits = Limits { turns: 10_000 };
    let ran = run(&rt, rt.alloc(), Drops::Nothing, limits);
    all_delivered(&rt, &ran);
    drop(ran);
}

fn all_delivered(rt: &impl Abort, ran: &Ran) {
    for report in ran.reports.iter() {
        has_delivered(rt, report);
        has_run_well(rt, report);
        has_offered_all(rt, report);
        hands_all_back(rt, report);
        assert_eq!(rt; seen_by(report), Some(6));
    }
}

fn seen_by(report: &Report) -> Option<usize> {
    report.talker.as_ref().map(|talker| talker.seen)
}

/// Where nobody hears that member 2 asks, it delivers nothing of member 0, and its talker waits
/// until the turns are used up.
#[test]
fn without_helps_a_talker_waits_until_its_turns_are_used_up(rt: HostRuntime) {
    let limits = Limits { turns: 500 };
    let ran = run(&rt, rt.alloc(), Drops::Helps, limits);
    let report = ran.reports.get(2);
    let has_run = report.map(|report| report.fault.is_none());
    let seen = report.and_then(seen_by);
    drop(ran);
    assert_eq!(&rt; has_run, Some(true));
    assert!(&rt; matches!(seen, Some(2..=4)));
}

/// What the timer of member 2 sends in nine turns, by the kinds of the frames: in each a status and
/// a request to member 0, and behind each fourth a help frame.
const IN_NINE_TURNS: &[u8] = &[
    0x12, 0x13, 0x12, 0x13, 0x12, 0x13, 0x12, 0x13, 0x23, //
    0x12, 0x13, 0x12, 0x13, 0x12, 0x13, 0x12, 0x13, 0x23, //
    0x12, 0x13,
];

#[test]
fn a_third_member_is_asked_behind_each_fourth_tick(rt: HostRuntime) {
    let kinds = ticks::<Brand, _>(&rt, rt.alloc(), Blank::new(4));
    let are_these = kinds.as_slice() == IN_NINE_TURNS;
    drop(kinds);
    assert!(&rt; are_these);
}

/// Member 1 says that it has delivered two casts of member 0, of which member 2 has none.
const STATUS: &[u8] = b"\x12\x07\x01\x01\x00\x02";

fn ticks<L: Ledger + Send + Sync, R: Wait + Clock + Abort>(
    rt: &R,
    alloc: Global,
    blank: Blank,
) -> Vec<u8>
    requires { (blank.name ≡ L.name) × (blank.parts ≡ L.parts) × (blank.parts ≡ 4) }
{
    let group = Group::new(7, 3, 4).expect(rt, "a group");
    let member = Member::new(alloc, group, 2, 100).expect(rt, "a member");
    let (shared, mut seat) = SharedMember::<L>::new(alloc, blank, member);
    drop(shared.arrive(rt, &mut seat, &Bytes::from_static(STATUS)));
    work(rt, alloc, &shared, seat)
}

fn work<L: Ledger + Send + Sync, R: Wait + Clock + Abort>(
    rt: &R,
    alloc: Global,
    shared: &SharedMember<L>,
    seat: Seat<L>,
) -> Vec<u8> {
    let stop = Stop::new();
    let desk = desk(alloc, shared, &stop, 9);
    let (end, mailbox) = new_mailbox(alloc).expect(rt, "a mailbox");
    let part = Ticking::new(Hasty);
    drop(Worker { part, seat, end }.run(rt, &desk));
    kinds(rt, alloc, &mailbox)
}

/// The first bytes of the frames that wait there.
fn kinds<R: Wait + Abort>(rt: &R, alloc: Global, mailbox: &Mailbox<Vec<Outgoing>>) -> Vec<u8> {
    let mut kinds = Vec::new(alloc);
    for _list in 0..100u32 {
        let Taken::Message(frames) = mailbox.take_at_once(rt) else {
            break;
        };
        for frame in &frames {
            let kind = frame.bytes.as_slice().first().copied();
            kinds.push(kind.unwrap_or(0)).expect(rt, "memory");
        }
    }
    kinds
}
