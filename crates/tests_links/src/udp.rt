//! Links over UDP at known addresses.

ghost use Rattle.std.specs.Prelude.{◌≡◌};

use crate::places::{at, come, frame, free, is_quiet, peers_of, sends};
use bytes::Bytes;
use cb_history::Outgoing;
use cb_links::{Inlet, LinkFault, Outlet, Received, WaitingInlet};
use cb_remote::{MakeFault, UdpPeerInlet, UdpPeerOutlet, UdpPeers};
use std::alloc::Global;
use std::net::{Net, SocketAddr, UdpSocket};
use std::process::Abort;
use std::sync::Wait;
use std::test::*;
use std::time::{Clock, Duration, Instant};

type Link = (UdpPeerInlet, UdpPeerOutlet);

fn link<R: Net + Abort>(rt: &R, alloc: Global, me: u32, addresses: &[SocketAddr]) -> Link {
    let peers = peers_of(rt, alloc, me, addresses);
    UdpPeers::link(rt, alloc, peers).expect(rt, "a link")
}

#[test]
fn a_frame_goes_each_way_between_two(rt: HostRuntime) {
    let addresses = free(&rt, rt.alloc(), 2);
    let (mut of_0, mut first) = link(&rt, rt.alloc(), 0, &addresses);
    let (mut of_1, mut second) = link(&rt, rt.alloc(), 1, &addresses);
    sends(&rt, &mut first, None, "there");
    come(&rt, &mut of_1, &["there"]);
    sends(&rt, &mut second, Some(0), "back");
    come(&rt, &mut of_0, &["back"]);
    is_quiet(&rt, &mut of_0);
    is_quiet(&rt, &mut of_1);
}

#[test]
fn each_frame_goes_to_whom_it_is_to(rt: HostRuntime) {
    let addresses = free(&rt, rt.alloc(), 3);
    let (mut of_0, mut first) = link(&rt, rt.alloc(), 0, &addresses);
    let (mut of_1, second) = link(&rt, rt.alloc(), 1, &addresses);
    let (mut of_2, third) = link(&rt, rt.alloc(), 2, &addresses);
    sends(&rt, &mut first, None, "all");
    sends(&rt, &mut first, Some(1), "one");
    sends(&rt, &mut first, Some(2), "two");
    come(&rt, &mut of_1, &["all", "one"]);
    come(&rt, &mut of_2, &["all", "two"]);
    is_quiet(&rt, &mut of_0);
    is_quiet(&rt, &mut of_1);
    is_quiet(&rt, &mut of_2);
    drop(second);
    drop(third);
}

#[test]
fn a_strangers_datagram_is_dropped_and_counted(rt: HostRuntime) {
    let addresses = free(&rt, rt.alloc(), 2);
    let (mut of_0, first) = link(&rt, rt.alloc(), 0, &addresses);
    let (of_1, mut second) = link(&rt, rt.alloc(), 1, &addresses);
    let stranger = UdpSocket::bind(&rt, "127.0.0.1:0").expect(&rt, "a socket");
    assert!(&rt; stranger.send_to(b"hostile", at(&rt, &addresses, 0)).is_ok());
    sends(&rt, &mut second, None, "honest");
    come(&rt, &mut of_0, &["honest"]);
    assert_eq!(&rt; of_0.strangers(), 1);
    assert_eq!(&rt; of_0.failures(), 0);
    drop(first);
    drop(of_1);
}

#[test]
fn frames_behind_many_strangers_are_found(rt: HostRuntime) {
    let addresses = free(&rt, rt.alloc(), 2);
    let (mut of_0, first) = link(&rt, rt.alloc(), 0, &addresses);
    let (of_1, mut second) = link(&rt, rt.alloc(), 1, &addresses);
    let stranger = UdpSocket::bind(&rt, "127.0.0.1:0").expect(&rt, "a socket");
    for _datagram in 0..150u32 {
        assert!(&rt; stranger.send_to(b"hostile", at(&rt, &addresses, 0)).is_ok());
    }
    sends(&rt, &mut second, None, "honest");
    come(&rt, &mut of_0, &["honest"]);
    assert_eq!(&rt; of_0.strangers(), 150);
    drop(first);
    drop(of_1);
}

#[test]
fn a_peer_that_is_gone_is_no_failure_and_may_come_back(rt: HostRuntime) {
    let addresses = free(&rt, rt.alloc(), 2);
    let (mut of_0, mut first) = link(&rt, rt.alloc(), 0, &addresses);
    drop(link(&rt, rt.alloc(), 1, &addresses));
    sends(&rt, &mut first, None, "lost");
    is_quiet(&rt, &mut of_0);
    let (mut of_1, mut second) = link(&rt, rt.alloc(), 1, &addresses);
    sends(&rt, &mut first, None, "there");
    come(&rt, &mut of_1, &["there"]);
    sends(&rt, &mut second, None, "back");
    come(&rt, &mut of_0, &["back"]);
    assert_eq!(&rt; of_0.failures(), 0);
    assert_eq!(&rt; first.failures(), 0);
}

#[test]
fn an_address_in_use_is_named(rt: HostRuntime) {
    let addresses = free(&rt, rt.alloc(), 2);
    let first = link(&rt, rt.alloc(), 0, &addresses);
    let again = UdpPeers::link(&rt, rt.alloc(), peers_of(&rt, rt.alloc(), 0, &addresses));
    assert!(&rt; again.err() == Some(MakeFault::AddressInUse));
    drop(first);
}

#[test]
fn an_address_of_another_machine_is_named(rt: HostRuntime) {
    let addresses = [
        SocketAddr::from(([192, 0, 2, 1], 9_000)),
        SocketAddr::from(([192, 0, 2, 2], 9_000)),
    ];
    let none = UdpPeers::link(&rt, rt.alloc(), peers_of(&rt, rt.alloc(), 0, &addresses));
    assert!(&rt; none.err() == Some(MakeFault::NoRoute));
}

/// More than a datagram can carry.
const TOO_LONG: usize = 70_000;

#[test]
fn a_datagram_that_the_system_refuses_is_a_failure(rt: HostRuntime) {
    let addresses = free(&rt, rt.alloc(), 3);
    let (inlet, mut outlet) = link(&rt, rt.alloc(), 0, &addresses);
    for (to, failures) in [(Some(1), 1), (None, 3)] {
        let bytes = Bytes::from_vec(zeros(&rt, rt.alloc(), TOO_LONG)).expect(&rt, "memory");
        assert!(&rt; outlet.send(&rt, &Outgoing { to, bytes }) == Err(LinkFault::Device));
        assert_eq!(&rt; outlet.failures(), failures);
    }
    drop(inlet);
}

fn zeros(rt: &impl Abort, alloc: Global, count: usize) -> Vec<u8> {
    let mut zeros = Vec::new(alloc);
    zeros.resize(count, 0).expect(rt, "memory");
    zeros
}

#[test]
fn a_frame_to_nobody_is_a_failure(rt: HostRuntime) {
    let addresses = free(&rt, rt.alloc(), 2);
    let (inlet, mut outlet) = link(&rt, rt.alloc(), 0, &addresses);
    for to in [0, 2] {
        assert!(&rt; outlet.send(&rt, &frame(Some(to), "none")) == Err(LinkFault::Device));
    }
    assert_eq!(&rt; outlet.failures(), 2);
    drop(inlet);
}

/// How many milliseconds the inlet waits for nothing.
fn waited<R: Wait + Clock + Abort>(rt: &R, inlet: &mut UdpPeerInlet, longest: u64) -> u128 {
    let start = Instant::now(rt).expect(rt, "a clock");
    let answer = inlet.receive_within(rt, Duration::from_millis(longest));
    assert!(rt; answer == Ok(Received::Nothing));
    start.elapsed(rt).expect(rt, "a clock").as_millis()
}

#[test]
fn an_inlet_sleeps_for_as_long_as_it_may(rt: HostRuntime) {
    let addresses = free(&rt, rt.alloc(), 2);
    let (mut inlet, outlet) = link(&rt, rt.alloc(), 0, &addresses);
    assert!(&rt; waited(&rt, &mut inlet, 0) < 10_000, "not at all");
    let slept = waited(&rt, &mut inlet, 100);
    assert!(&rt; 99 <= slept, "the whole time");
    drop(outlet);
}

/// Another thread may have it.
fn can_be_handed_over<T: Send + Drop>(part: T) {
    drop(part);
}

#[test]
fn the_ends_can_be_in_two_threads(rt: HostRuntime) {
    let addresses = free(&rt, rt.alloc(), 2);
    let (inlet, outlet) = link(&rt, rt.alloc(), 0, &addresses);
    can_be_handed_over(inlet);
    can_be_handed_over(outlet);
}
