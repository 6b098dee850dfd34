//! What every link is to do, over channels, UDP and TCP.

use crate::{
    ChannelLink, Inlet, LONGEST_FRAME, LinkFault, Outlet, Received, TcpLink, UdpLink, UdpOutlet,
};
use bytes::Bytes;
use cb_frames::{Burst, Change, Frame, encode};
use cb_history::Outgoing;
use std::alloc::Global;
use std::process::Abort;
use std::sync::Wait;
use std::test::*;
use std::time::Clock;

/// More than a datagram can carry.
const TOO_LONG: usize = 70_000;

/// Bytes that differ from one to the next, to all or to one member.
fn frame(rt: &impl Abort, alloc: Global, to: Option<u32>, length: usize) -> Outgoing {
    let mut text = Vec::new(alloc);
    for place in 0..length {
        text.push((place % 251) as u8).expect(rt, "memory");
    }
    let bytes = Bytes::from_vec(text).expect(rt, "memory");
    Outgoing { to, bytes }
}

/// The next frame within a hundred looks.
fn next<I: Inlet, R: Wait + Clock + Abort>(rt: &R, inlet: &mut I) -> Option<Bytes> {
    for _look in 0..100u32 {
        if let Ok(Received::Frame(frame)) = inlet.receive(rt) {
            return Some(frame);
        }
    }
    None
}

/// The longest frame that there is: a burst with 63 changes and 32 payloads, of which eight have 128 bytes.
fn longest(rt: &impl Abort, alloc: Global) -> Bytes {
    let mut changes = Vec::new(alloc);
    for field in 1..64 {
        let change = Change {
            field,
            amount: u32::MAX,
        };
        changes.push(change).expect(rt, "memory");
    }
    let mut payloads = Vec::new(alloc);
    for place in 0..32 {
        let size = if place < 8 { 128 } else { 0 };
        let payload = frame(rt, alloc, None, size).bytes;
        payloads.push(payload).expect(rt, "memory");
    }
    let burst = Frame::Burst(Burst {
        group: u32::MAX,
        sender: 0,
        first: u32::MAX - 31,
        changes,
        payloads,
    });
    let bytes = encode(alloc, &burst).expect(rt, "a frame");
    drop(burst);
    bytes
}

/// The longest frame that there is comes from member 0 to member 1 as it was sent.
fn the_longest_frame_crosses<I: Inlet + Drop, O: Outlet + Drop, R: Wait + Clock + Abort>(
    rt: &R,
    alloc: Global,
    links: Vec<(I, O)>,
) {
    let mut links = links;
    let (mut inlet, outlet) = links.pop().expect(rt, "a link");
    let (unread, mut from) = links.pop().expect(rt, "a link");
    let bytes = longest(rt, alloc);
    assert_eq!(rt; bytes.len(), LONGEST_FRAME);
    let sent = Outgoing { to: None, bytes };
    assert!(rt; from.send(rt, &sent).is_ok());
    let came = next(rt, &mut inlet);
    assert!(rt; came == Some(sent.bytes), "it came whole");
    drop(outlet);
    drop(unread);
}

#[test]
fn the_longest_frame_crosses_channels(rt: HostRuntime) {
    let links = ChannelLink::group(rt.alloc(), 2).expect(&rt, "links");
    the_longest_frame_crosses(&rt, rt.alloc(), links);
}

#[test]
fn the_longest_frame_crosses_tcp(rt: HostRuntime) {
    let links = TcpLink::group(&rt, rt.alloc(), 2).expect(&rt, "links");
    the_longest_frame_crosses(&rt, rt.alloc(), links);
}

#[test]
fn the_longest_frame_crosses_udp(rt: HostRuntime) {
    let links = UdpLink::group(&rt, rt.alloc(), 2).expect(&rt, "links");
    the_longest_frame_crosses(&rt, rt.alloc(), links);
}

/// The frame is refused, and its failures are counted: one for each member that it was for.
fn is_counted<R: Wait + Abort>(rt: &R, outlet: &mut UdpOutlet, frame: &Outgoing, failures: u64) {
    let before = outlet.failures();
    assert!(rt; outlet.send(rt, frame) == Err(LinkFault::Device));
    assert_eq!(rt; Some(outlet.failures()), before.checked_add(failures));
}

#[test]
fn a_datagram_that_the_system_refuses_is_counted(rt: HostRuntime) {
    let mut links = UdpLink::group(&rt, rt.alloc(), 3).expect(&rt, "links");
    let (inlet, mut outlet) = links.pop().expect(&rt, "a link");
    is_counted(
        &rt,
        &mut outlet,
        &frame(&rt, rt.alloc(), Some(0), TOO_LONG),
        1,
    );
    is_counted(&rt, &mut outlet, &frame(&rt, rt.alloc(), None, TOO_LONG), 2);
    drop(inlet);
    drop(links);
}
