//! Members under locks: beside members without one, and over real threads.
//!
//! What has a destructor is dropped by a call of `drop`, and before what is asserted: a test that leaves it to its end takes the
//! prover ten times as long.

ghost use Rattle.std.specs.Prelude.{◌≡◌, []};

mod closing;
mod crowd;
mod going_on;
mod locked;
mod said;
mod two;

use crate::{Closed, Receipt, Seat, SharedMember};
use cb_member::{Entry, Group, Member};
use std::alloc::Global;
use std::process::Abort;
use std::sync::ledger::Ledger;

/// Member `me` of group 7 of this size and window.
fn member(rt: &impl Abort, alloc: Global, sizes: (u32, u32), me: u32, limit: usize) -> Member
    ensures { result.entries ≡ [] }
{
    let group = Group::new(7, sizes.0, sizes.1).expect(rt, "a group");
    Member::new(alloc, group, me, limit).expect(rt, "a member")
}

/// A member that cast, ticked and cast.
fn with_three_entries(rt: &impl Abort, alloc: Global) -> Member {
    let mut member = member(rt, alloc, (3, 4), 0, 100);
    drop(member.cast(b"a").expect(rt, "a cast"));
    drop(member.tick().expect(rt, "a tick"));
    drop(member.cast(b"b").expect(rt, "a cast"));
    member
}

/// These receipts of one seat are those of the whole history.
fn claims_all(rt: &impl Abort, entries: &[Entry], receipts: &[Receipt]) {
    assert_eq!(rt; receipts.len(), entries.len());
    for (index, receipt) in receipts.iter().enumerate() {
        assert_eq!(rt; receipt.place, index + 1);
        assert!(rt; is_at(entries, index, &receipt.entry));
    }
}

fn is_at(entries: &[Entry], index: usize, entry: &Entry) -> bool {
    entries.get(index) == Some(entry)
}

/// One seat or two, to close with.
fn seats<L: Ledger>(
    rt: &impl Abort,
    alloc: Global,
    seat: Seat<L>,
    beside: Option<Seat<L>>,
) -> Vec<Seat<L>> {
    let mut seats = Vec::new(alloc);
    seats.push(seat).expect(rt, "memory");
    if let Some(beside) = beside {
        seats.push(beside).expect(rt, "memory");
    }
    seats
}

/// The member of a sharing that closes well.
fn closed<L: Ledger>(rt: &impl Abort, shared: SharedMember<L>, seats: Vec<Seat<L>>) -> Member {
    match shared.close(seats) {
        Ok(Closed { member }) => member,
        Err(refusal) => panic!(rt; "{:?}", refusal.fault),
    }
}
