//! A member that goes on with two casts of its past.

ghost use Rattle.std.specs.Prelude.{◌≡◌};

use super::parts::{Counter, Counting, millisecond};
use super::speaker::inlet;
use crate::{Limits, Stop, run_member};
use cb_lock::{Closed, Seat, SharedMember};
use cb_member::{Group, Member};
use std::alloc::Global;
use std::marker::Brand;
use std::process::Abort;
use std::sync::Wait;
use std::sync::ledger::{Blank, Ledger};
use std::test::*;
use std::thread::Threads;
use std::time::Clock;

/// The casts that the report counts, those that were sent, the events that the talker was shown, and how many entries of the history the
/// report does not count.
type Counts = (u64, Option<u32>, Option<usize>, u64);

/// Whether the seat with the past is a worker's, and what comes of it.
const ROWS: &[(bool, Counts)] = &[
    (false, (1, Some(1), Some(3), 2)),
    (true, (3, Some(1), Some(3), 0)),
];

#[test]
fn the_talker_is_shown_the_past_and_the_report_counts_the_four_seats(rt: HostRuntime) {
    for (works, wanted) in ROWS {
        let counts = runs::<Brand, _>(&rt, rt.alloc(), Blank::new(5), *works);
        assert_eq!(&rt; counts, *wanted);
    }
}

fn runs<L: Ledger + Send + Sync, R: Threads + Wait + Clock + Abort + Sync>(
    rt: &R,
    alloc: Global,
    blank: Blank,
    works: bool,
) -> Counts
    requires { (blank.name ≡ L.name) × (blank.parts ≡ L.parts) × (blank.parts ≡ 5) }
{
    let member = cast_twice(rt, alloc);
    let shared = SharedMember::<L>::going_on(alloc, blank, member);
    let (shared, seat) = shared.ok().expect(rt, "memory");
    let (workers, beside) = seats_of(seat, works);
    let (counted, sent, seen, mut seats) = works_once(rt, alloc, &shared, workers);
    seats.push(beside).expect(rt, "memory");
    let entries = entries_in(rt, shared, seats);
    let (casts, entries_counted) = counted;
    (casts, sent, seen, entries.saturating_sub(entries_counted))
}

fn cast_twice(rt: &impl Abort, alloc: Global) -> Member {
    let group = Group::new(7, 2, 4).expect(rt, "a group");
    let mut member = Member::new(alloc, group, 0, 100).expect(rt, "a member");
    drop(member.cast(b"a").expect(rt, "a cast"));
    drop(member.cast(b"b").expect(rt, "a cast"));
    member
}

type Four<L> = (Seat<L>, Seat<L>, Seat<L>, Seat<L>);

/// The seats of the workers, and the one that none of them has.
fn seats_of<L: Ledger>(seat: Seat<L>, works: bool) -> (Four<L>, Seat<L>)
    requires { seat.parts ≡ 5 }
{
    let mut past = seat;
    let (one, two, three, four) = (past.split(), past.split(), past.split(), past.split());
    if works {
        ((one, two, three, past), four)
    } else {
        ((one, two, three, four), past)
    }
}

/// The casts and the entries of the report, the casts that were sent, and the events that the talker was shown.
fn works_once<L: Ledger + Send + Sync, R: Threads + Wait + Clock + Abort + Sync>(
    rt: &R,
    alloc: Global,
    shared: &SharedMember<L>,
    seats: Four<L>,
) -> ((u64, u64), Option<u32>, Option<usize>, Vec<Seat<L>>) {
    let talker = Counting {
        alloc,
        casts: 1,
        events: 3,
        seen: 0,
        refusals: 0,
        quick: false,
    };
    let link = (inlet(rt, alloc), Counter { casts: 0 });
    let (limits, stop, pace) = (Limits { turns: 20 }, Stop::new(), millisecond());
    let (report, seats) = run_member(rt, alloc, shared, seats, link, pace, talker, &stop, limits);
    let counted = (report.casts, report.entries);
    let sent = report.outlet.map(|outlet| outlet.casts);
    let seen = report.talker.map(|talker| talker.seen);
    (counted, sent, seen, seats)
}

/// How many entries the history has, all of which have a receipt in these seats.
fn entries_in<L: Ledger>(rt: &impl Abort, shared: SharedMember<L>, seats: Vec<Seat<L>>) -> u64 {
    match shared.close(seats) {
        Ok(Closed { member }) => member.history().len() as u64,
        Err(refusal) => panic!(rt; "{:?}", refusal.fault),
    }
}
