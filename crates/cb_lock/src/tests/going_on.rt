//! A member that has entries already.

ghost use Rattle.std.specs.Prelude.{◌≡◌, ◌≤◌};

use super::{claims_all, closed, seats, with_three_entries};
use crate::{CloseFault, CloseRefusal, Closed, Seat, SharedMember};
use cb_member::Member;
use std::alloc::Global;
use std::marker::Brand;
use std::process::Abort;
use std::sync::Wait;
use std::sync::ledger::{Blank, Ledger};
use std::test::*;

#[test]
fn a_member_goes_on_with_a_receipt_of_each_entry(rt: HostRuntime) {
    goes_on::<Brand, _>(&rt, rt.alloc(), Blank::new(1));
}

/// As a member without a lock does, which casts the same.
fn goes_on<L: Ledger, R: Wait + Abort>(rt: &R, alloc: Global, blank: Blank)
    requires name { blank.name ≡ L.name }
    requires parts { (blank.parts ≡ L.parts) × (1 ≤ blank.parts) }
{
    let mut plain = with_three_entries(rt, alloc);
    let (shared, mut seat) = shared_again::<L, R>(rt, alloc, blank);
    claims_all(rt, plain.history(), seat.receipts());
    drop(shared.cast(rt, &mut seat, b"c").expect(rt, "a cast"));
    drop(plain.cast(b"c").expect(rt, "a cast"));
    claims_all(rt, plain.history(), seat.receipts());
    closes_as(rt, shared, seats(rt, alloc, seat, None), plain);
}

fn shared_again<L: Ledger, R: Abort>(
    rt: &R,
    alloc: Global,
    blank: Blank,
) -> (SharedMember<L>, Seat<L>)
    requires name { blank.name ≡ L.name }
    requires parts { (blank.parts ≡ L.parts) × (1 ≤ blank.parts) }
    ensures { result.1.parts ≡ blank.parts }
{
    let shared = SharedMember::<L>::going_on(alloc, blank, with_three_entries(rt, alloc));
    shared.ok().expect(rt, "memory")
}

fn closes_as<L: Ledger>(
    rt: &impl Abort,
    shared: SharedMember<L>,
    seats: Vec<Seat<L>>,
    plain: Member,
) {
    let member = closed(rt, shared, seats);
    let is_one = member.history() == plain.history();
    drop(member);
    drop(plain);
    assert!(rt; is_one);
}

#[test]
fn closing_wants_the_seat_with_the_past(rt: HostRuntime) {
    past_is_missing::<Brand, _>(&rt, rt.alloc(), Blank::new(2));
}

/// The new entry has a receipt in the seat that was split off.
fn past_is_missing<L: Ledger, R: Wait + Abort>(rt: &R, alloc: Global, blank: Blank)
    requires name { blank.name ≡ L.name }
    requires parts { (blank.parts ≡ L.parts) × (blank.parts ≡ 2) }
{
    let (shared, mut past) = shared_again::<L, R>(rt, alloc, blank);
    let mut seat = past.split();
    drop(past);
    drop(shared.cast(rt, &mut seat, b"c").expect(rt, "a cast"));
    let fault = fault_of(shared.close(seats(rt, alloc, seat, None)));
    let missing = CloseFault::SeatsMissing {
        claimed: 1,
        entries: 4,
    };
    assert_eq!(rt; fault, Some(missing));
}

fn fault_of(closed: Result<Closed, CloseRefusal>) -> Option<CloseFault> {
    let fault = match &closed {
        Ok(_closed) => None,
        Err(refusal) => Some(refusal.fault),
    };
    drop(closed);
    fault
}
