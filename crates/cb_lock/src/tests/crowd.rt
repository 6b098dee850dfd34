//! Eight threads at one member.

ghost use Rattle.std.specs.Prelude.{◌≡◌};

use super::{closed, member};
use crate::{Seat, SharedMember};
use bytes::Bytes;
use cb_member::Member;
use std::alloc::{AllocError, Global};
use std::marker::Brand;
use std::process::Abort;
use std::sync::Wait;
use std::sync::ledger::{Blank, Ledger};
use std::test::*;
use std::thread::{Threads, map_vec};

/// How many calls each of the eight threads makes.
const CALLS: u32 = 1250;

/// The casts of member 1 that are received, and what frames are made with.
#[derive(Drop)]
struct Mail {
    alloc: Global,
    frames: Vec<Bytes>,
}

#[test]
fn eight_threads_have_a_receipt_of_every_entry(rt: HostRuntime) {
    share::<Brand, _>(&rt, rt.alloc(), Blank::new(8));
}

fn share<L: Ledger + Send + Sync, R: Threads + Wait + Abort + Sync>(
    rt: &R,
    alloc: Global,
    blank: Blank,
)
    requires { (blank.name ≡ L.name) × (blank.parts ≡ L.parts) × (blank.parts ≡ 8) }
{
    let member = member(rt, alloc, (2, 256), 0, 10_000);
    let (shared, seat) = SharedMember::<L>::new(alloc, blank, member);
    let seats = eight_seats(rt, alloc, seat);
    let seats = all_call(rt, &shared, &mail_of_the_other(rt, alloc), seats).expect(rt, "memory");
    claims_all_entries(rt, shared, seats);
}

/// The seats have as many receipts as the history has entries.
fn claims_all_entries<L: Ledger>(rt: &impl Abort, shared: SharedMember<L>, seats: Vec<Seat<L>>) {
    let claimed = receipts_in(&seats);
    let member = closed(rt, shared, seats);
    let entries = member.history().len();
    drop(member);
    assert!(rt; claimed > 4 * 256);
    assert_eq!(rt; entries, claimed);
}

/// As many casts of member 1 as it may make before others have delivered some.
fn mail_of_the_other(rt: &impl Abort, alloc: Global) -> Mail {
    let mut other = member(rt, alloc, (2, 256), 1, 1000);
    let mut frames = Vec::new(alloc);
    for _ in 0..256u32 {
        frames.push(frame_of(rt, &mut other)).expect(rt, "memory");
    }
    drop(other);
    Mail { alloc, frames }
}

fn frame_of(rt: &impl Abort, other: &mut Member) -> Bytes {
    other.cast(b"yo").expect(rt, "a cast").out
}

/// Eight seats of one part each.
fn eight_seats<L: Ledger>(rt: &impl Abort, alloc: Global, seat: Seat<L>) -> Vec<Seat<L>>
    requires { seat.parts ≡ 8 }
{
    let mut seats = Vec::new(alloc);
    let mut seat = seat;
    for _part in 1..8u32 {
        seats.push(seat.split()).expect(rt, "memory");
    }
    seats.push(seat).expect(rt, "memory");
    seats
}

fn receipts_in<L: Ledger>(seats: &[Seat<L>]) -> usize {
    let mut count: usize = 0;
    for seat in seats {
        count = count.saturating_add(seat.receipts().len());
    }
    count
}

fn all_call<L: Ledger + Send + Sync, R: Threads + Wait + Sync>(
    rt: &R,
    shared: &SharedMember<L>,
    mail: &Mail,
    seats: Vec<Seat<L>>,
) -> Result<Vec<Seat<L>>, AllocError> {
    map_vec(rt, seats, &|seat| calls(rt, shared, mail, seat))
}

/// Casts, lets the other member report that it has delivered the cast, takes a cast of the other, and ticks, in turn.
fn calls<L: Ledger>(
    rt: &impl Wait,
    shared: &SharedMember<L>,
    mail: &Mail,
    seat: Seat<L>,
) -> Seat<L> {
    let mut seat = seat;
    let mut number = 0;
    for call in 0..CALLS {
        match call % 4 {
            0 => number = cast(rt, shared, &mut seat),
            1 => tell(rt, shared, mail, &mut seat, number),
            2 => take(rt, shared, mail, &mut seat, call / 4),
            _ => _ = shared.tick(rt, &mut seat),
        }
    }
    seat
}

fn cast<L: Ledger>(rt: &impl Wait, shared: &SharedMember<L>, seat: &mut Seat<L>) -> u32 {
    match shared.cast(rt, seat, b"hi") {
        Ok(done) => done.name.number,
        Err(_refusal) => 0,
    }
}

/// The other member has delivered so many.
fn tell<L: Ledger>(
    rt: &impl Wait,
    shared: &SharedMember<L>,
    mail: &Mail,
    seat: &mut Seat<L>,
    number: u32,
) {
    if let Ok(status) = status_of_the_other(mail.alloc, number) {
        let _ = shared.arrive(rt, seat, &status);
    }
}

fn status_of_the_other(alloc: Global, number: u32) -> Result<Bytes, AllocError> {
    let mut text = Vec::new(alloc);
    text.extend_from_slice(b"\x12\x07\x01\x01\x00")?;
    cb_varint::put(number, &mut text)?;
    Bytes::copy_from_slice(alloc, &text)
}

fn take<L: Ledger>(
    rt: &impl Wait,
    shared: &SharedMember<L>,
    mail: &Mail,
    seat: &mut Seat<L>,
    index: u32,
) {
    if let Some(frame) = mail.frames.get(index as usize) {
        let _ = shared.arrive(rt, seat, frame);
    }
}
