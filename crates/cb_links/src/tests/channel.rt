//! Frames that a sender sends at once, over channels, and what becomes of them where an end is gone.

use crate::waits::WAIT;
use crate::{
    ChannelInlet, ChannelLink, ChannelOutlet, Inlet, Outlet, Received, Unsent, WaitingInlet,
};
use bytes::Bytes;
use cb_history::Outgoing;
use std::alloc::Global;
use std::process::Abort;
use std::sync::Wait;
use std::test::*;
use std::time::{Clock, Duration};

type Link = (ChannelInlet, ChannelOutlet);

/// Links of three members, in the order of their numbers.
fn three(rt: &impl Abort, alloc: Global) -> (Link, Link, Link) {
    let mut links = ChannelLink::group(alloc, 3).expect(rt, "links");
    let last = links.pop().expect(rt, "a link");
    let second = links.pop().expect(rt, "a link");
    let first = links.pop().expect(rt, "a link");
    (first, second, last)
}

/// A frame to all, one to each of the three, and one to nobody.
fn frames(rt: &impl Abort, alloc: Global) -> Vec<Outgoing> {
    let mut frames = Vec::new(alloc);
    for (to, text) in [
        (None, b"all"),
        (Some(1), b"one"),
        (Some(0), b"own"),
        (Some(2), b"two"),
        (Some(64), b"non"),
    ] {
        let bytes = Bytes::from_static(text);
        frames.push(Outgoing { to, bytes }).expect(rt, "memory");
    }
    frames
}

/// These frames have come, in this order, and no other.
fn came<R: Wait + Clock + Abort>(rt: &R, inlet: &mut ChannelInlet, expected: &[&'static str]) {
    for text in expected {
        let frame = Received::Frame(Bytes::from_static(text.as_bytes()));
        assert!(rt; is_next(rt, inlet, frame), "a frame has come");
    }
    assert!(rt; is_next(rt, inlet, Received::Nothing), "no more has come");
}

fn is_next<R: Wait + Clock + Abort>(rt: &R, inlet: &mut ChannelInlet, expected: Received) -> bool {
    let received = inlet.receive(rt).expect(rt, "channels do not fail");
    received == expected
}

/// Sends all the frames, of which so many are lost, each at the device.
fn sends<R: Wait + Abort>(rt: &R, alloc: Global, outlet: &mut ChannelOutlet, lost: u64) {
    let unsent = outlet.send_all(rt, &frames(rt, alloc));
    let expected = Unsent {
        offered: 5,
        failures: lost,
        refused: 0,
    };
    assert_eq!(rt; unsent, expected);
    assert_eq!(rt; outlet.failures(), lost);
}

#[test]
fn each_frame_goes_to_whom_it_is_to(rt: HostRuntime) {
    let (mut of_0, mut of_1, mut of_2) = three(&rt, rt.alloc());
    // The sender's own number, and one that is no member's.
    sends(&rt, rt.alloc(), &mut of_0.1, 2);
    came(&rt, &mut of_1.0, &["all", "one"]);
    came(&rt, &mut of_2.0, &["all", "two"]);
    came(&rt, &mut of_0.0, &[]);
}

/// The member behind it is offered its own all the same.
#[test]
fn frames_to_a_member_that_is_gone_are_lost(rt: HostRuntime) {
    let (mut of_0, of_1, mut of_2) = three(&rt, rt.alloc());
    drop(of_1);
    sends(&rt, rt.alloc(), &mut of_0.1, 4);
    came(&rt, &mut of_2.0, &["all", "two"]);
}

/// What lies there is gone too.
#[test]
fn frames_to_an_inlet_that_was_closed_are_lost(rt: HostRuntime) {
    let (mut of_0, mut of_1, mut of_2) = three(&rt, rt.alloc());
    sends(&rt, rt.alloc(), &mut of_0.1, 2);
    of_1.0.close();
    came(&rt, &mut of_1.0, &[]);
    let unsent = of_0.1.send_all(&rt, &frames(&rt, rt.alloc()));
    assert_eq!(&rt; unsent.failures, 4);
    assert_eq!(&rt; of_0.1.failures(), 6);
    came(&rt, &mut of_2.0, &["all", "two", "all", "two"]);
}

/// More frames than are taken out of a mailbox at once.
const MANY: u8 = 200;

#[test]
fn each_frame_of_a_long_list_comes_in_its_order(rt: HostRuntime) {
    let (mut of_0, mut of_1, of_2) = three(&rt, rt.alloc());
    let mut frames = Vec::new(rt.alloc());
    for number in 0..MANY {
        let bytes = Bytes::copy_from_slice(rt.alloc(), &[number]).expect(&rt, "memory");
        frames
            .push(Outgoing { to: None, bytes })
            .expect(&rt, "memory");
    }
    assert_eq!(&rt; of_0.1.send_all(&rt, &frames).lost(), 0);
    for number in 0..MANY {
        let bytes = Bytes::copy_from_slice(rt.alloc(), &[number]).expect(&rt, "memory");
        assert!(&rt; is_next(&rt, &mut of_1.0, Received::Frame(bytes)));
    }
    drop(of_2);
}

/// So often an inlet is asked whose senders are gone.
const LOOKS: u64 = 10;

#[test]
fn an_inlet_whose_senders_are_gone_waits(rt: HostRuntime) {
    let (of_0, mut of_1, of_2) = three(&rt, rt.alloc());
    drop(of_0);
    drop(of_2);
    let begun = rt.monotonic().expect(&rt, "a clock");
    for _look in 0..LOOKS {
        assert!(&rt; is_next(&rt, &mut of_1.0, Received::Nothing));
    }
    let ended = rt.monotonic().expect(&rt, "a clock");
    assert!(&rt; ended.saturating_sub(begun) >= Duration::from_micros(WAIT * LOOKS));
}

/// How long an inlet takes to say that nothing came within so many milliseconds.
fn waits<R: Wait + Clock + Abort>(rt: &R, inlet: &mut ChannelInlet, longest: u64) -> Duration {
    let begun = rt.monotonic().expect(rt, "a clock");
    let answer = inlet.receive_within(rt, Duration::from_millis(longest));
    assert!(rt; answer == Ok(Received::Nothing));
    rt.monotonic().expect(rt, "a clock").saturating_sub(begun)
}

#[test]
fn an_inlet_sleeps_for_as_long_as_it_may(rt: HostRuntime) {
    let (of_0, mut of_1, of_2) = three(&rt, rt.alloc());
    assert!(&rt; waits(&rt, &mut of_1.0, 0) < Duration::from_secs(10));
    assert!(&rt; waits(&rt, &mut of_1.0, 60) >= Duration::from_millis(60));
    drop(of_0);
    drop(of_2);
    assert!(&rt;
        waits(&rt, &mut of_1.0, 60) >= Duration::from_millis(60),
        "with no senders too"
    );
}

#[test]
fn an_inlet_does_not_sleep_where_a_frame_is_there(rt: HostRuntime) {
    let (mut of_0, mut of_1, of_2) = three(&rt, rt.alloc());
    sends(&rt, rt.alloc(), &mut of_0.1, 2);
    let begun = rt.monotonic().expect(&rt, "a clock");
    for text in [b"all", b"one"] {
        let frame = Received::Frame(Bytes::from_static(text));
        let came = of_1.0.receive_within(&rt, Duration::from_secs(20));
        assert!(&rt; came == Ok(frame));
    }
    let slept = rt.monotonic().expect(&rt, "a clock").saturating_sub(begun);
    assert!(&rt; slept < Duration::from_secs(10));
    drop(of_2);
}
