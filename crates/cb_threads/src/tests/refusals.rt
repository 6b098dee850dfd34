//! A member whose history is full refuses what arrives, and its report says how often.

ghost use Rattle.std.specs.Prelude.{◌≡◌, []};

use super::parts::{Hasty, Silent};
use crate::{
    ChannelLink, ChannelOutlet, Inlet, Limits, LinkFault, MemberReport, Received, Stop, run_member,
};
use bytes::Bytes;
use cb_lock::{Seat, SharedMember};
use cb_member::{Group, Member};
use std::alloc::Global;
use std::marker::Brand;
use std::process::Abort;
use std::sync::Wait;
use std::sync::ledger::{Blank, Ledger};
use std::test::*;
use std::thread::Threads;
use std::time::Clock;

/// The first cast of member 0, "hi", and that of member 2, which is empty.
const FRAMES: [&[u8]; 2] = [b"\x11\x07\x00\x01\x00\x02hi", b"\x11\x07\x02\x01\x00\x00"];

/// An inlet that gives these frames, and then nothing.
#[derive(Drop)]
struct Given {
    count: usize,
}

impl Inlet for Given {
    ghost failed = { λ given. 0 };

    fn failures(&self) -> u64 {
        0
    }

    fn receive<R: Wait + Clock>(&mut self, _rt: &R) -> Result<Received, LinkFault> {
        match FRAMES.get(self.count) {
            None => Ok(Received::Nothing),
            Some(frame) => {
                self.count = self.count.saturating_add(1);
                Ok(Received::Frame(Bytes::from_static(frame)))
            }
        }
    }
}

type Report = MemberReport<Given, ChannelOutlet, Hasty, Silent>;

/// The history has room for one entry: the first arrival, or a tick that came before it.
#[test]
fn arrivals_at_a_full_history_are_refused_and_counted(rt: HostRuntime) {
    let report = run::<Brand, _>(&rt, rt.alloc(), Blank::new(4), 1);
    let (entries, refused) = (report.entries, report.refused);
    drop(report);
    assert_eq!(&rt; entries, 1);
    assert!(&rt; matches!(refused, 1 | 2), "{refused} were refused");
}

#[test]
fn where_there_is_room_no_arrival_is_refused(rt: HostRuntime) {
    let report = run::<Brand, _>(&rt, rt.alloc(), Blank::new(4), 100);
    let (deliveries, refused) = (report.deliveries, report.refused);
    drop(report);
    assert_eq!(&rt; (deliveries, refused), (2, 0));
}

/// What member 1 reports, whose history may have so many entries.
fn run<L: Ledger + Send + Sync, R: Threads + Wait + Clock + Abort + Sync>(
    rt: &R,
    alloc: Global,
    blank: Blank,
    history_max: usize,
) -> Report
    requires { (blank.name ≡ L.name) × (blank.parts ≡ L.parts) × (blank.parts ≡ 4) }
{
    let group = Group::new(7, 3, 4).expect(rt, "a group");
    let member = Member::new(alloc, group, 1, history_max).expect(rt, "a member");
    let (shared, seat) = SharedMember::<L>::new(alloc, blank, member);
    run_shared(rt, alloc, &shared, seat)
}

fn run_shared<L: Ledger + Send + Sync, R: Threads + Wait + Clock + Abort + Sync>(
    rt: &R,
    alloc: Global,
    shared: &SharedMember<L>,
    seat: Seat<L>,
) -> Report
    requires { seat.parts ≡ 4 }
{
    let mut seat = seat;
    let seats = (seat.split(), seat.split(), seat.split(), seat);
    let mut links = ChannelLink::group(alloc, 3).expect(rt, "links");
    let (_inlet, outlet) = links.pop().expect(rt, "a link");
    let link = (Given { count: 0 }, outlet);
    let stop = Stop::new();
    let limits = Limits { turns: 2 };
    let (report, seats) = run_member(rt, alloc, shared, seats, link, Hasty, Silent, &stop, limits);
    drop(seats);
    report
}
