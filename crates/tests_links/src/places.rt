//! Free addresses on the loopback address, and what every link is to do.

use bytes::Bytes;
use cb_history::Outgoing;
use cb_links::{Inlet, Outlet, Received, WaitingInlet};
use cb_peers::Peers;
use std::alloc::Global;
use std::net::{Net, SocketAddr, UdpSocket};
use std::process::Abort;
use std::sync::Wait;
use std::test::*;
use std::time::{Clock, Duration};

/// Addresses that nobody has now. They are all held before one is let go, so no two are alike. Their host is one at which no other
/// program of this machine is: a connection of another test may take any port of the usual one.
pub fn free<R: Net + Abort>(rt: &R, alloc: Global, count: u32) -> Vec<SocketAddr> {
    let mut sockets = Vec::new(alloc);
    let mut free = Vec::new(alloc);
    for _member in 0..count {
        let socket = UdpSocket::bind(rt, "127.77.88.99:0").expect(rt, "a socket");
        let address = socket.local_addr().expect(rt, "an address");
        free.push(address).expect(rt, "memory");
        sockets.push(socket).expect(rt, "memory");
    }
    drop(sockets);
    free
}

/// The address of a member.
pub fn at(rt: &impl Abort, addresses: &[SocketAddr], member: usize) -> SocketAddr {
    *addresses.get(member).expect(rt, "an address")
}

/// How many members have these addresses.
pub fn size_of(rt: &impl Abort, addresses: &[SocketAddr]) -> u32 {
    u32::try_from(addresses.len()).expect(rt, "few addresses")
}

/// The addresses as member `me` uses them.
pub fn peers_of(rt: &impl Abort, alloc: Global, me: u32, addresses: &[SocketAddr]) -> Peers {
    Peers::new(alloc, size_of(rt, addresses), me, addresses).expect(rt, "peers")
}

pub fn frame(to: Option<u32>, text: &'static str) -> Outgoing {
    let bytes = Bytes::from_static(text.as_bytes());
    Outgoing { to, bytes }
}

/// The frame is sent to whom it is to.
pub fn sends<O: Outlet, R: Wait + Abort>(
    rt: &R,
    outlet: &mut O,
    to: Option<u32>,
    text: &'static str,
) {
    assert!(rt; outlet.send(rt, &frame(to, text)).is_ok(), "it is sent");
}

/// These frames come, in this order.
pub fn come<I: WaitingInlet, R: Wait + Clock + Abort>(
    rt: &R,
    inlet: &mut I,
    expected: &[&'static str],
) {
    for text in expected {
        let frame = Bytes::from_static(text.as_bytes());
        assert!(rt; next(rt, inlet) == Some(frame), "a frame has come");
    }
}

/// No frame is there.
pub fn is_quiet<I: WaitingInlet, R: Wait + Clock + Abort>(rt: &R, inlet: &mut I) {
    assert!(rt;
        inlet.receive(rt) == Ok(Received::Nothing),
        "no more has come"
    );
}

/// The next frame within a hundred waits of ten milliseconds.
fn next<I: WaitingInlet, R: Wait + Clock>(rt: &R, inlet: &mut I) -> Option<Bytes> {
    for _wait in 0..100u32 {
        if let Ok(Received::Frame(frame)) = inlet.receive_within(rt, Duration::from_millis(10)) {
            return Some(frame);
        }
    }
    None
}
