//! What closing finds wrong.

ghost use Rattle.std.specs.Prelude.{◌≡◌};

use super::{member, seats, with_three_entries};
use crate::closing::{fault_of, none_seen, wrong_in_seat};
use crate::{CloseFault, Held, Receipt, Seat};
use cb_member::{Identity, Member};
use std::alloc::Global;
use std::marker::Brand;
use std::process::Abort;
use std::sync::ledger::{Blank, Ledger};
use std::test::*;

/// Receipts of one seat, each with a place and the number of the entry that it shows.
type Claims = &'static [(usize, usize)];

/// The receipts of two seats, and the place of the first that is wrong.
const ROWS: &[(Claims, Claims, Option<usize>)] = &[
    (&[(1, 1), (3, 3)], &[(2, 2)], None),
    (&[(3, 3), (1, 1)], &[(2, 2)], Some(1)),
    (&[(1, 1), (3, 3)], &[(1, 1)], Some(1)),
    (&[(1, 1), (3, 3)], &[(2, 3)], Some(2)),
    (&[(1, 1), (3, 1)], &[(2, 2)], Some(3)),
    (&[(1, 1), (3, 3)], &[(0, 1)], Some(0)),
    (&[(1, 1), (3, 3)], &[(4, 1)], Some(4)),
];

#[test]
fn a_receipt_is_the_entry_at_its_place_and_the_only_one_of_it(rt: HostRuntime) {
    let member = with_three_entries(&rt, rt.alloc());
    for (first, second, wrong) in ROWS {
        assert_eq!(rt;
            found_in_both(&rt, rt.alloc(), &member, first, second),
            *wrong
        );
    }
    drop(member);
}

fn found_in_both(
    rt: &impl Abort,
    alloc: Global,
    member: &Member,
    first: Claims,
    second: Claims,
) -> Option<usize> {
    let mut seen = none_seen(alloc, 3).expect(rt, "memory");
    let found = match found_in(rt, alloc, member, &mut seen, first) {
        Some(place) => Some(place),
        None => found_in(rt, alloc, member, &mut seen, second),
    };
    drop(seen);
    found
}

fn found_in(
    rt: &impl Abort,
    alloc: Global,
    member: &Member,
    seen: &mut [bool],
    claims: Claims,
) -> Option<usize> {
    let mut receipts = Vec::new(alloc);
    for (place, number) in claims {
        let entry = member
            .history()
            .get(number.saturating_sub(1))
            .expect(rt, "an entry");
        let entry = entry.copy().expect(rt, "memory");
        receipts
            .push(Receipt {
                place: *place,
                entry,
            })
            .expect(rt, "memory");
    }
    wrong_in_seat(member.history(), seen, &receipts)
}

#[test]
fn a_seat_that_is_missing_comes_before_another_member(rt: HostRuntime) {
    finds::<Brand, _>(&rt, rt.alloc(), Blank::new(1));
}

fn finds<L: Ledger, R: Abort>(rt: &R, alloc: Global, blank: Blank)
    requires { (blank.name ≡ L.name) × (blank.parts ≡ L.parts) × (blank.parts ≡ 1) }
{
    let (mut held, mut seat) = Held::<L>::new(alloc, blank, member(rt, alloc, (3, 4), 0, 100));
    cast(rt, &mut held, &mut seat);
    is_missing::<L, R>(rt, alloc, held.member());
    is_another(rt, held.member(), seats(rt, alloc, seat, None));
    drop(held);
}

fn cast<L: Ledger>(rt: &impl Abort, held: &mut Held<L>, seat: &mut Seat<L>) {
    drop(held.cast(seat, b"a").expect(rt, "a cast"));
}

/// Without the seat it is missing, also where the member is another one.
fn is_missing<L: Ledger, R: Abort>(rt: &R, alloc: Global, member: &Member) {
    let no_seats: Vec<Seat<L>> = Vec::new(alloc);
    let missing = CloseFault::SeatsMissing {
        claimed: 0,
        entries: 1,
    };
    let found = fault_of(member_one(rt, alloc), member, &no_seats);
    drop(no_seats);
    assert_eq!(rt; found, Some(missing));
}

fn member_one(rt: &impl Abort, alloc: Global) -> Identity {
    let member = member(rt, alloc, (3, 4), 1, 100);
    let seat = member.seat();
    drop(member);
    seat
}

/// With the seat nothing is wrong but that the member is another one.
fn is_another<L: Ledger>(rt: &impl Abort, member: &Member, all: Vec<Seat<L>>) {
    let other = fault_of(member_one(rt, *all.allocator()), member, &all);
    let same = fault_of(member.seat(), member, &all);
    drop(all);
    assert_eq!(rt; other, Some(CloseFault::OtherMember));
    assert_eq!(rt; same, None);
}
