//! Frames on streams that take parts.

ghost use Rattle.std.specs.Prelude.{◌≡◌};

use super::fakes::{Trickle, Turn};
use crate::going::Going;
use crate::tcp::TcpOutlet;
use crate::{LONGEST_FRAME, LinkFault, Outlet};
use bytes::Bytes;
use cb_history::Outgoing;
use std::alloc::Global;
use std::io::ErrorKind;
use std::process::Abort;
use std::sync::Wait;
use std::test::*;

/// A frame of two bytes, on a stream `02` and these.
fn frame(number: u8) -> [u8; 2] {
    [number, number]
}

/// Each way of taking, behind each other.
const TABLE: [Turn; 24] = [
    Turn::Some(0),
    Turn::Some(1),
    Turn::Some(0),
    Turn::Some(2),
    Turn::All,
    Turn::Fails(ErrorKind::WouldBlock),
    Turn::Some(3),
    Turn::Fails(ErrorKind::BrokenPipe),
    Turn::Some(1),
    Turn::Some(1),
    Turn::Some(1),
    Turn::Some(2),
    Turn::Fails(ErrorKind::Interrupted),
    Turn::Fails(ErrorKind::WouldBlock),
    Turn::Some(1),
    Turn::Some(2),
    Turn::Some(2),
    Turn::Some(1),
    Turn::Some(1),
    Turn::Fails(ErrorKind::BrokenPipe),
    Turn::Some(2),
    Turn::Some(3),
    Turn::All,
    Turn::Some(1),
];

/// Offers so many frames; those that were taken stand in the list as they are to stand on the stream.
fn offers(rt: &impl Abort, going: &mut Going<&mut Trickle<'_>>, count: u8, taken: &mut Vec<u8>) {
    for number in 0..count {
        let text = frame(number);
        match going.send(&text) {
            Ok(()) => {
                taken.push(2).expect(rt, "memory");
                taken.extend_from_slice(&text).expect(rt, "memory");
            }
            Err(fault) => assert!(rt; fault == LinkFault::Device),
        }
    }
}

#[test]
fn a_stream_has_the_frames_that_were_taken_whole_and_in_order(rt: HostRuntime) {
    let mut stream = Trickle::new(Vec::new(rt.alloc()), &TABLE);
    let mut going = Going::new(rt.alloc(), &mut stream).expect(&rt, "memory");
    let mut taken = Vec::new(rt.alloc());
    offers(&rt, &mut going, 40, &mut taken);
    drop(going);
    assert!(&rt; taken.len() > 60 && taken.len() < 120);
    assert!(&rt; stream.held.as_slice() == taken.as_slice());
}

/// What `send` answers to frames of two bytes on a stream with this table, and what the stream then has.
fn answers(rt: &impl Abort, alloc: Global, turns: &[Turn], expected: &[bool], held: &[u8]) {
    let mut stream = Trickle::new(Vec::new(alloc), turns);
    let mut going = Going::new(alloc, &mut stream).expect(rt, "memory");
    let mut number = 7_u8;
    for is_taken in expected {
        assert_eq!(rt; going.send(&frame(number)).is_ok(), *is_taken);
        number = number.wrapping_add(1);
    }
    drop(going);
    assert!(rt; stream.held.as_slice() == held);
}

#[test]
fn a_frame_is_taken_where_a_byte_of_it_was(rt: HostRuntime) {
    answers(&rt, rt.alloc(), &[Turn::Some(0)], &[false], &[]);
    let blocks = Turn::Fails(ErrorKind::WouldBlock);
    answers(&rt, rt.alloc(), &[blocks], &[false, true], &[2, 8, 8]);
    let interrupted = Turn::Fails(ErrorKind::Interrupted);
    answers(&rt, rt.alloc(), &[interrupted], &[false, true], &[2, 8, 8]);
    answers(&rt, rt.alloc(), &[Turn::Some(1)], &[true], &[2]);
    answers(
        &rt,
        rt.alloc(),
        &[Turn::Some(1)],
        &[true, true],
        &[2, 7, 7, 2, 8, 8],
    );
}

#[test]
fn no_frame_begins_while_one_is_left(rt: HostRuntime) {
    let slow = [Turn::Some(1), Turn::Some(1)];
    answers(&rt, rt.alloc(), &slow, &[true, false], &[2, 7]);
    let fails = [Turn::Some(2), Turn::Fails(ErrorKind::BrokenPipe)];
    answers(&rt, rt.alloc(), &fails, &[true, false], &[2, 7]);
    answers(
        &rt,
        rt.alloc(),
        &fails,
        &[true, false, true],
        &[2, 7, 7, 2, 9, 9],
    );
    // All that was left went, but nothing of the frame.
    let parts = [Turn::Some(1), Turn::Some(2), Turn::Some(0)];
    answers(&rt, rt.alloc(), &parts, &[true, false], &[2, 7, 7]);
}

#[test]
fn bytes_that_no_frame_can_be_are_not_offered(rt: HostRuntime) {
    let mut stream = Trickle::new(Vec::new(rt.alloc()), &[]);
    let mut going = Going::new(rt.alloc(), &mut stream).expect(&rt, "memory");
    let text = vec![in rt.alloc(); 0; LONGEST_FRAME + 1].expect(&rt, "memory");
    assert!(&rt; going.send(&[]) == Err(LinkFault::Device));
    assert!(&rt; going.send(&text) == Err(LinkFault::Device));
    assert!(&rt; going.send(&text[1..]).is_ok());
    drop(going);
    assert_eq!(&rt; stream.held.len(), LONGEST_FRAME + 2);
    assert_eq!(&rt; stream.writes, 1);
}

/// An outlet of member 1 of 3 over these streams.
fn outlet<'a, 'b>(
    rt: &impl Abort,
    alloc: Global,
    first: &'a mut Trickle<'b>,
    last: &'a mut Trickle<'b>,
) -> TcpOutlet<&'a mut Trickle<'b>> {
    let mut to = Vec::new(alloc);
    to.push(Some(Going::new(alloc, first).expect(rt, "memory")))
        .expect(rt, "memory");
    to.push(None).expect(rt, "memory");
    to.push(Some(Going::new(alloc, last).expect(rt, "memory")))
        .expect(rt, "memory");
    TcpOutlet::new(to)
}

/// Sends a frame, and whether it was taken.
fn sends<R: Wait>(
    rt: &R,
    outlet: &mut TcpOutlet<&mut Trickle<'_>>,
    to: Option<u32>,
    bytes: Bytes,
) -> bool {
    outlet.send(rt, &Outgoing { to, bytes }).is_ok()
}

/// A frame of this one byte.
fn of_one(byte: &'static [u8]) -> Bytes {
    Bytes::from_static(byte)
}

#[test]
fn each_frame_is_offered_to_whom_it_is_to(rt: HostRuntime) {
    let turns = [Turn::Some(0), Turn::Some(0)];
    let mut first = Trickle::new(Vec::new(rt.alloc()), &turns);
    let mut last = Trickle::new(Vec::new(rt.alloc()), &[]);
    let mut outlet = outlet(&rt, rt.alloc(), &mut first, &mut last);
    // The first stream takes nothing twice; the last one is offered its own all the same.
    assert!(&rt; !sends(&rt, &mut outlet, None, of_one(b"a")));
    assert_eq!(&rt; outlet.failures(), 1);
    assert!(&rt; !sends(&rt, &mut outlet, Some(0), of_one(b"b")));
    assert!(&rt; sends(&rt, &mut outlet, Some(2), of_one(b"c")));
    assert!(&rt; sends(&rt, &mut outlet, None, of_one(b"d")));
    assert_eq!(&rt; outlet.failures(), 2);
    // The member's own number, and one that is no member's.
    assert!(&rt; !sends(&rt, &mut outlet, Some(1), of_one(b"e")));
    assert!(&rt; !sends(&rt, &mut outlet, Some(3), of_one(b"f")));
    assert_eq!(&rt; outlet.failures(), 4);
    drop(outlet);
    assert!(&rt; first.held.as_slice() == b"\x01d".as_slice());
    assert!(&rt; last.held.as_slice() == b"\x01a\x01c\x01d".as_slice());
}
