//! Two members have two locks.

ghost use Rattle.std.specs.Prelude.{◌≡◌};

use super::{closed, member, seats};
use crate::{CloseFault, CloseRefusal, Seat, SharedMember};
use bytes::Bytes;
use cb_member::{Entry, Member};
use std::alloc::Global;
use std::marker::Brand;
use std::process::Abort;
use std::sync::Wait;
use std::sync::atomic::{AtomicBool, Ordering};
use std::sync::ledger::{Blank, Ledger};
use std::test::*;
use std::thread::{Threads, join, yield_now};

#[test]
fn two_members_two_locks(rt: HostRuntime) {
    share_both::<Brand, Brand, _>(&rt, rt.alloc(), Blank::new(2), Blank::new(2));
}

/// Of the first member both seats come back at the end, of the second only the one that cast.
fn share_both<A: Ledger + Send + Sync, B: Ledger + Send + Sync, R: Threads + Wait + Abort + Sync>(
    rt: &R,
    alloc: Global,
    first: Blank,
    second: Blank,
)
    requires first { (first.name ≡ A.name) × (first.parts ≡ A.parts) × (first.parts ≡ 2) }
    requires second { (second.name ≡ B.name) × (second.parts ≡ B.parts) × (second.parts ≡ 2) }
{
    let (one, mut seat) = SharedMember::<A>::new(alloc, first, member(rt, alloc, (3, 4), 0, 100));
    let (two, mut other) = SharedMember::<B>::new(alloc, second, member(rt, alloc, (3, 4), 1, 100));
    let beside = seat.split();
    let lost = other.split();
    let out = cast_while_the_first_is_locked(rt, &one, &mut seat, &two, &mut other);
    ends_with(rt, &two, &mut other, out);
    closes_with_both(rt, alloc, one, seat, beside);
    closes_with_one(rt, alloc, two, other, lost);
}

fn closes_with_both<L: Ledger, R: Wait + Abort>(
    rt: &R,
    alloc: Global,
    shared: SharedMember<L>,
    seat: Seat<L>,
    beside: Seat<L>,
) {
    let seat = cast(rt, &shared, seat);
    let beside = ticked(rt, &shared, beside);
    let member = closed(rt, shared, seats(rt, alloc, seat, Some(beside)));
    let entries = member.history().len();
    drop(member);
    assert_eq!(rt; entries, 2);
}

fn closes_with_one<L: Ledger, R: Wait + Abort>(
    rt: &R,
    alloc: Global,
    shared: SharedMember<L>,
    seat: Seat<L>,
    lost: Seat<L>,
) {
    drop(ticked(rt, &shared, lost));
    match shared.close(seats(rt, alloc, seat, None)) {
        Ok(_closed) => panic!(rt; "a seat is missing"),
        Err(refusal) => is_a_missing_seat(rt, refusal),
    }
}

fn is_a_missing_seat(rt: &impl Abort, refusal: CloseRefusal) {
    let CloseRefusal { fault, member } = refusal;
    let entries = member.history().len();
    drop(member);
    let missing = CloseFault::SeatsMissing {
        claimed: 1,
        entries: 2,
    };
    assert_eq!(rt; fault, missing);
    assert_eq!(rt; entries, 2);
}

/// The seat with the receipt of a cast, which it then sees at the end of the history.
fn cast<L: Ledger>(rt: &(impl Wait + Abort), shared: &SharedMember<L>, seat: Seat<L>) -> Seat<L> {
    let mut seat = seat;
    let out = shared.cast(rt, &mut seat, b"hi").expect(rt, "a cast").out;
    ends_with(rt, shared, &mut seat, out);
    seat
}

/// What the seat's holder has cast is the last entry of the history.
fn ends_with<L: Ledger>(
    rt: &(impl Wait + Abort),
    shared: &SharedMember<L>,
    seat: &mut Seat<L>,
    out: Bytes,
) {
    let is_last = shared.with_state(rt, seat, |member| ends_with_cast(member, &out));
    drop(out);
    assert!(rt; is_last);
}

/// A closure under the lock of the first member sees that a cast on the second, which was begun behind it, was answered meanwhile. The
/// frame of that cast.
fn cast_while_the_first_is_locked<
    A: Ledger + Send + Sync,
    B: Ledger + Send + Sync,
    R: Threads + Wait + Abort + Sync,
>(
    rt: &R,
    one: &SharedMember<A>,
    seat: &mut Seat<A>,
    two: &SharedMember<B>,
    other: &mut Seat<B>,
) -> Bytes {
    let (entered, answered) = (AtomicBool::new(false), AtomicBool::new(false));
    let (begun, done) = (&entered, &answered);
    let (seen, out) = join(
        rt,
        || one.with_state(rt, seat, |_member| says_and_waits(begun, done)),
        || cast_behind(rt, two, other, begun, done),
    );
    assert!(rt;
        seen,
        "the cast was answered while the other member was locked"
    );
    out.expect(rt, "the closure has begun, and the cast was answered")
}

/// Sets the first flag. Whether the second is set in time.
fn says_and_waits(begun: &AtomicBool, done: &AtomicBool) -> bool {
    begun.store(true, Ordering::SeqCst);
    is_set(done)
}

/// Casts once the first flag is set, and sets the second.
fn cast_behind<L: Ledger>(
    rt: &impl Wait,
    shared: &SharedMember<L>,
    seat: &mut Seat<L>,
    begun: &AtomicBool,
    done: &AtomicBool,
) -> Option<Bytes> {
    if !is_set(begun) {
        return None;
    }
    let cast = shared.cast(rt, seat, b"hi");
    done.store(cast.is_ok(), Ordering::SeqCst);
    Some(cast.ok()?.out)
}

/// Whether the flag is set within ten million turns.
fn is_set(flag: &AtomicBool) -> bool {
    for _ in 0..10_000_000u32 {
        if flag.load(Ordering::SeqCst) {
            return true;
        }
        yield_now();
    }
    false
}

fn ends_with_cast(member: &Member, out: &Bytes) -> bool {
    matches!(member.history().last(), Some(Entry::Cast { frame }) if frame == out)
}

/// The seat with the receipt of a tick.
fn ticked<L: Ledger>(rt: &(impl Wait + Abort), shared: &SharedMember<L>, seat: Seat<L>) -> Seat<L> {
    let mut seat = seat;
    let ticked = shared.tick(rt, &mut seat).expect(rt, "a tick");
    let entered = ticked.entered;
    drop(ticked);
    assert!(rt; entered);
    assert!(rt; matches!(seat.receipts().last(), Some(receipt) if receipt.place == 2));
    seat
}
