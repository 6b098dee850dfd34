//! Frames from streams that drip.

ghost use Rattle.std.specs.Prelude.{◌≡◌};

use super::fakes::{Counted, Dripping, Turn};
use crate::coming::{Coming, ROOM};
use crate::tcp::TcpInlet;
use crate::{Inlet, LinkFault, Received};
use bytes::Bytes;
use std::alloc::Global;
use std::io::ErrorKind;
use std::process::Abort;
use std::sync::Wait;
use std::test::*;
use std::time::Clock;

/// The frame of the cast `hi` of member 0.
const QUESTION: &[u8] = b"\x11\x07\x00\x01\x00\x02hi";

/// That frame on a stream.
const STREAM: &[u8] = b"\x08\x11\x07\x00\x01\x00\x02hi";

/// The frames of two statuses.
const STATUSES: [&[u8]; 2] = [b"\x12\x07\x02\x00", b"\x12\x07\x01\x00"];

/// Those on a stream.
const TWO: &[u8] = b"\x04\x12\x07\x02\x00\x04\x12\x07\x01\x00";

/// The frame of another status, and three of it on a stream.
const LAST: &[u8] = b"\x12\x07\x05\x00";

const THREE: &[u8] = b"\x04\x12\x07\x05\x00\x04\x12\x07\x05\x00\x04\x12\x07\x05\x00";

const ONE_BYTE: Turn = Turn::Some(1);

const NONE_YET: Turn = Turn::Fails(ErrorKind::WouldBlock);

/// What a connection gave.
fn gives(
    rt: &impl Abort,
    coming: &mut Coming<&mut Dripping<'_>>,
    expected: Result<Option<&'static [u8]>, LinkFault>,
) {
    let mut room = [0; ROOM];
    match (coming.take(&mut room), expected) {
        (Ok(Some(frame)), Ok(Some(text))) => assert!(rt; frame.as_slice() == text),
        (Ok(None), Ok(None)) => {}
        (Err(fault), Err(other)) => assert!(rt; fault == other),
        (_answer, _other) => panic!(rt; "another answer"),
    }
}

#[test]
fn a_frame_that_comes_byte_by_byte_is_given_with_its_last(rt: HostRuntime) {
    let turns = [ONE_BYTE; 9];
    let mut stream = Dripping::new(STREAM, &turns);
    let mut coming = Coming::new(rt.alloc(), &mut stream);
    for _byte in 0..8u32 {
        gives(&rt, &mut coming, Ok(None));
    }
    gives(&rt, &mut coming, Ok(Some(QUESTION)));
    drop(coming);
    assert_eq!(&rt; stream.reads, 9);
}

/// The second is given before anything more is read. Then the stream ends.
#[test]
fn two_frames_of_one_read_are_given_in_turn(rt: HostRuntime) {
    let mut stream = Dripping::new(TWO, &[NONE_YET, Turn::All]);
    let mut coming = Coming::new(rt.alloc(), &mut stream);
    gives(&rt, &mut coming, Ok(None));
    for status in STATUSES {
        gives(&rt, &mut coming, Ok(Some(status)));
    }
    gives(&rt, &mut coming, Err(LinkFault::Device));
    gives(&rt, &mut coming, Ok(None));
    drop(coming);
    assert_eq!(&rt; stream.reads, 3);
}

/// What a stream gives first is a fault, and behind it nothing is given or read, whatever comes.
fn breaks(rt: &impl Abort, alloc: Global, text: &[u8], turns: &[Turn], reads: u64) {
    let mut stream = Dripping::new(text, turns);
    let mut coming = Coming::new(alloc, &mut stream);
    gives(rt, &mut coming, Err(LinkFault::Device));
    gives(rt, &mut coming, Ok(None));
    gives(rt, &mut coming, Ok(None));
    drop(coming);
    assert_eq!(rt; stream.reads, reads);
}

#[test]
fn what_is_no_frame_closes_a_stream(rt: HostRuntime) {
    breaks(&rt, rt.alloc(), b"\x00", &[ONE_BYTE], 1);
    // Frames that come behind it are not found.
    breaks(
        &rt,
        rt.alloc(),
        b"\x00\x08\x11\x07\x00\x01\x00\x02hi",
        &[],
        1,
    );
    breaks(
        &rt,
        rt.alloc(),
        b"\x00\x08\x11\x07\x00\x01\x00\x02hi",
        &[ONE_BYTE],
        1,
    );
    // A length that is spelled too long, one above the longest frame's, and bytes that are no frame.
    breaks(&rt, rt.alloc(), b"\x80\x00", &[], 1);
    breaks(&rt, rt.alloc(), b"\xb1\x0b", &[], 1);
    breaks(&rt, rt.alloc(), b"\x01\xff", &[], 1);
}

#[test]
fn an_end_or_a_fault_closes_a_stream(rt: HostRuntime) {
    breaks(&rt, rt.alloc(), b"", &[], 1);
    let reset = Turn::Fails(ErrorKind::ConnectionReset);
    breaks(&rt, rt.alloc(), STREAM, &[reset], 1);
}

/// An end in the middle of a frame.
#[test]
fn an_end_within_a_frame_closes_a_stream(rt: HostRuntime) {
    let mut stream = Dripping::new(b"\x08\x11\x07", &[]);
    let mut coming = Coming::new(rt.alloc(), &mut stream);
    gives(&rt, &mut coming, Ok(None));
    gives(&rt, &mut coming, Err(LinkFault::Device));
    gives(&rt, &mut coming, Ok(None));
    drop(coming);
    assert_eq!(&rt; stream.reads, 2);
}

#[test]
fn a_read_that_waits_or_was_interrupted_closes_nothing(rt: HostRuntime) {
    let turns = [
        NONE_YET,
        Turn::Some(5),
        Turn::Fails(ErrorKind::Interrupted),
        NONE_YET,
    ];
    let mut stream = Dripping::new(STREAM, &turns);
    let mut coming = Coming::new(rt.alloc(), &mut stream);
    for _read in 0..4u32 {
        gives(&rt, &mut coming, Ok(None));
    }
    gives(&rt, &mut coming, Ok(Some(QUESTION)));
    drop(coming);
}

/// An inlet over these streams.
fn inlet<'a, 'b>(
    rt: &impl Abort,
    alloc: Global,
    streams: &'a mut [Dripping<'b>],
) -> TcpInlet<&'a mut Dripping<'b>> {
    let mut from = Vec::new(alloc);
    let each = streams.iter_mut();
    for stream in each {
        from.push(Coming::new(alloc, stream)).expect(rt, "memory");
    }
    TcpInlet::new(from)
}

/// The inlet gives these frames, one after another.
fn come<R: Wait + Clock + Abort>(
    rt: &R,
    inlet: &mut TcpInlet<&mut Dripping<'_>>,
    expected: &[&'static [u8]],
) {
    for text in expected {
        let frame = Received::Frame(Bytes::from_static(text));
        assert!(rt; inlet.receive(rt) == Ok(frame));
    }
}

/// The inlet is over three streams. The second gives nothing at first, and the first one ends.
#[test]
fn connections_give_in_turn(rt: HostRuntime) {
    let mut streams = [
        Dripping::new(TWO, &[Turn::All, NONE_YET, NONE_YET]),
        Dripping::new(STREAM, &[NONE_YET, Turn::All, NONE_YET, NONE_YET, NONE_YET]),
        Dripping::new(THREE, &[Turn::All, NONE_YET, NONE_YET]),
    ];
    let clock = Counted::new(&rt);
    let mut inlet = inlet(&rt, rt.alloc(), &mut streams);
    let [first, later] = STATUSES;
    come(&rt, &mut inlet, &[first, LAST, later, QUESTION, LAST, LAST]);
    assert!(&rt; inlet.receive(&clock) == Ok(Received::Nothing));
    assert_eq!(&rt; (clock.sleeps(), inlet.failures()), (1, 0));
    assert!(&rt; inlet.receive(&clock) == Err(LinkFault::Device));
    assert_eq!(&rt; (clock.sleeps(), inlet.failures()), (1, 1));
    assert!(&rt; inlet.receive(&clock) == Ok(Received::Nothing));
    assert_eq!(&rt; (clock.sleeps(), inlet.failures()), (2, 1));
    drop(inlet);
    let [of_first, of_second, of_third] = streams;
    assert_eq!(&rt;
        (of_first.reads, of_second.reads, of_third.reads),
        (4, 5, 3)
    );
    drop((of_first, of_second, of_third));
}
