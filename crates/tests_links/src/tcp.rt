//! Links over TCP at known addresses.

ghost use Rattle.std.specs.Prelude.{◌≡◌};

use crate::places::{at, free, peers_of, size_of};
use bytes::Bytes;
use cb_history::{Group, Outgoing};
use cb_links::{Inlet, LinkFault, Outlet, Received, WaitingInlet};
use cb_remote::{Disagreement, MakeFault, Refusal, TcpPeerInlet, TcpPeerOutlet, TcpPeers};
use std::alloc::Global;
use std::io::{Read, Write};
use std::net::{Net, SocketAddr, TcpStream};
use std::process::Abort;
use std::sync::Wait;
use std::test::*;
use std::time::{Clock, Duration};

pub type Link<'a, R> = (TcpPeerInlet<&'a R>, TcpPeerOutlet);

/// The frames of three casts: to all, and to each of two members.
pub const ALL: &[u8] = b"\x11\x07\x00\x01\x00\x03all";

const ONE: &[u8] = b"\x11\x07\x00\x02\x00\x03one";

const TWO: &[u8] = b"\x11\x07\x00\x03\x00\x03two";

/// So long an inlet waits for something at most.
pub fn a_while() -> Duration {
    Duration::from_millis(5)
}

/// The link of a member of the group of this number, with a window of 8.
pub fn link<'a, R: Net + Abort>(
    rt: &'a R,
    alloc: Global,
    me: u32,
    addresses: &[SocketAddr],
    number: u32,
) -> Link<'a, R> {
    let group = Group::new(number, size_of(rt, addresses), 8).expect(rt, "a group");
    link_in(rt, alloc, me, addresses, group)
}

pub fn link_in<'a, R: Net + Abort>(
    rt: &'a R,
    alloc: Global,
    me: u32,
    addresses: &[SocketAddr],
    group: Group,
) -> Link<'a, R> {
    let peers = peers_of(rt, alloc, me, addresses);
    TcpPeers::link(rt, alloc, group, &peers).expect(rt, "a link")
}

/// Both make their connection. Nothing is sent meanwhile.
fn meet<R: Wait + Clock + Abort, N: Net + Drop>(
    rt: &R,
    one: &mut TcpPeerInlet<N>,
    other: &mut TcpPeerInlet<N>,
    members: (u32, u32),
) {
    for _turn in 0..400u32 {
        if one.is_connected(members.1) && other.is_connected(members.0) {
            return;
        }
        let _ = one.receive_within(rt, a_while());
        let _ = other.receive_within(rt, a_while());
    }
    panic!(rt; "they have not met");
}

/// Both make turns until each has refused the other, at most four hundred.
fn until_refused<R: Wait + Clock, N: Net + Drop>(
    rt: &R,
    caller: &mut TcpPeerInlet<N>,
    called: &mut TcpPeerInlet<N>,
) {
    for _turn in 0..400u32 {
        if caller.refusal().is_some() && called.refusal().is_some() {
            return;
        }
        let _ = caller.receive_within(rt, a_while());
        let _ = called.receive_within(rt, a_while());
    }
}

/// Each refuses the other, and says why.
fn refuse<R: Wait + Clock + Abort, N: Net + Drop>(
    rt: &R,
    caller: &mut TcpPeerInlet<N>,
    called: &mut TcpPeerInlet<N>,
    why: Disagreement,
) {
    until_refused(rt, caller, called);
    let of_1 = Refusal {
        member: Some(1),
        why,
    };
    assert!(rt; caller.refusal() == Some(of_1), "the caller names it");
    let of_0 = Refusal {
        member: Some(0),
        why,
    };
    assert!(rt;
        called.refusal() == Some(of_0),
        "the one that is called names it"
    );
    assert!(rt; !caller.is_connected(1) && !called.is_connected(0));
}

pub fn sends<R: Wait + Abort>(
    rt: &R,
    outlet: &mut TcpPeerOutlet,
    to: Option<u32>,
    text: &'static [u8],
) {
    let bytes = Bytes::from_static(text);
    assert!(rt;
        outlet.send(rt, &Outgoing { to, bytes }).is_ok(),
        "it is sent"
    );
}

/// The next frame or fault within a hundred waits.
fn next<R: Wait + Clock, N: Net + Drop>(
    rt: &R,
    inlet: &mut TcpPeerInlet<N>,
) -> Result<Received, LinkFault> {
    for _wait in 0..100u32 {
        let received = inlet.receive_within(rt, a_while())?;
        if received != Received::Nothing {
            return Ok(received);
        }
    }
    Ok(Received::Nothing)
}

/// These frames come, in this order.
pub fn come<R: Wait + Clock + Abort, N: Net + Drop>(
    rt: &R,
    inlet: &mut TcpPeerInlet<N>,
    expected: &[&'static [u8]],
) {
    for text in expected {
        let frame = Received::Frame(Bytes::from_static(text));
        assert!(rt; next(rt, inlet) == Ok(frame), "a frame has come");
    }
}

fn is_quiet<R: Wait + Clock + Abort, N: Net + Drop>(rt: &R, inlet: &mut TcpPeerInlet<N>) {
    assert!(rt;
        inlet.receive(rt) == Ok(Received::Nothing),
        "no more has come"
    );
}

#[test]
fn a_frame_goes_each_way_between_two(rt: HostRuntime) {
    let addresses = free(&rt, rt.alloc(), 2);
    let (mut of_0, mut first) = link(&rt, rt.alloc(), 0, &addresses, 7);
    let (mut of_1, mut second) = link(&rt, rt.alloc(), 1, &addresses, 7);
    meet(&rt, &mut of_0, &mut of_1, (0, 1));
    sends(&rt, &mut first, None, ALL);
    come(&rt, &mut of_1, &[ALL]);
    sends(&rt, &mut second, Some(0), ONE);
    come(&rt, &mut of_0, &[ONE]);
    is_quiet(&rt, &mut of_0);
    is_quiet(&rt, &mut of_1);
}

#[test]
fn each_frame_goes_to_whom_it_is_to(rt: HostRuntime) {
    let addresses = free(&rt, rt.alloc(), 3);
    let (mut of_0, first) = link(&rt, rt.alloc(), 0, &addresses, 7);
    let (mut of_1, mut second) = link(&rt, rt.alloc(), 1, &addresses, 7);
    let (mut of_2, third) = link(&rt, rt.alloc(), 2, &addresses, 7);
    meet(&rt, &mut of_0, &mut of_1, (0, 1));
    meet(&rt, &mut of_1, &mut of_2, (1, 2));
    sends(&rt, &mut second, None, ALL);
    sends(&rt, &mut second, Some(0), ONE);
    sends(&rt, &mut second, Some(2), TWO);
    come(&rt, &mut of_0, &[ALL, ONE]);
    come(&rt, &mut of_2, &[ALL, TWO]);
    is_quiet(&rt, &mut of_1);
    drop(first);
    drop(third);
}

#[test]
fn a_frame_to_who_is_not_connected_is_a_failure(rt: HostRuntime) {
    let addresses = free(&rt, rt.alloc(), 3);
    let (inlet, mut outlet) = link(&rt, rt.alloc(), 0, &addresses, 7);
    let bytes = Bytes::from_static(ALL);
    let all = Outgoing { to: None, bytes };
    assert!(&rt; outlet.send(&rt, &all) == Err(LinkFault::Device));
    assert_eq!(&rt; outlet.failures(), 2);
    drop(inlet);
}

#[test]
fn two_groups_are_named_at_both_ends(rt: HostRuntime) {
    let addresses = free(&rt, rt.alloc(), 2);
    let (mut of_0, first) = link(&rt, rt.alloc(), 0, &addresses, 7);
    let (mut of_1, second) = link(&rt, rt.alloc(), 1, &addresses, 8);
    refuse(&rt, &mut of_0, &mut of_1, Disagreement::Group);
    drop(first);
    drop(second);
}

#[test]
fn two_windows_are_named_at_both_ends(rt: HostRuntime) {
    let addresses = free(&rt, rt.alloc(), 2);
    let narrow = Group::new(7, 2, 4).expect(&rt, "a group");
    let (mut of_0, first) = link(&rt, rt.alloc(), 0, &addresses, 7);
    let (mut of_1, second) = link_in(&rt, rt.alloc(), 1, &addresses, narrow);
    refuse(&rt, &mut of_0, &mut of_1, Disagreement::Window);
    drop(first);
    drop(second);
}

#[test]
fn two_sizes_are_named_at_both_ends(rt: HostRuntime) {
    let addresses = free(&rt, rt.alloc(), 3);
    let (mut of_0, first) = link(&rt, rt.alloc(), 0, &addresses, 7);
    let two = [at(&rt, &addresses, 0), at(&rt, &addresses, 1)];
    let (mut of_1, second) = link(&rt, rt.alloc(), 1, &two, 7);
    refuse(&rt, &mut of_0, &mut of_1, Disagreement::Size);
    drop(first);
    drop(second);
}

#[test]
fn a_group_of_another_size_than_its_addresses_is_refused(rt: HostRuntime) {
    let addresses = free(&rt, rt.alloc(), 2);
    let peers = peers_of(&rt, rt.alloc(), 0, &addresses);
    let group = Group::new(7, 3, 8).expect(&rt, "a group");
    let refused = TcpPeers::link(&rt, rt.alloc(), group, &peers);
    assert!(&rt; refused.err() == Some(MakeFault::BadMember));
}

#[test]
fn an_address_in_use_is_named(rt: HostRuntime) {
    let addresses = free(&rt, rt.alloc(), 2);
    let first = link(&rt, rt.alloc(), 0, &addresses, 7);
    let peers = peers_of(&rt, rt.alloc(), 0, &addresses);
    let group = Group::new(7, 2, 8).expect(&rt, "a group");
    let again = TcpPeers::link(&rt, rt.alloc(), group, &peers);
    assert!(&rt; again.err() == Some(MakeFault::AddressInUse));
    drop(first);
}

/// The inlet meets the end of its connection, and from then on nothing can be sent on it.
fn is_lost<R: Wait + Clock + Abort, N: Net + Drop>(
    rt: &R,
    inlet: &mut TcpPeerInlet<N>,
    outlet: &mut TcpPeerOutlet,
    member: u32,
) {
    assert!(rt;
        next(rt, inlet) == Err(LinkFault::Device),
        "the connection is lost"
    );
    let to = Some(member);
    let bytes = Bytes::from_static(ALL);
    assert!(rt;
        outlet.send(rt, &Outgoing { to, bytes }) == Err(LinkFault::Device),
        "nothing goes there"
    );
    assert_eq!(rt; (inlet.failures(), outlet.failures()), (1, 1));
}

/// The one that is called dies, and comes back.
#[test]
fn a_member_that_is_called_comes_back(rt: HostRuntime) {
    let addresses = free(&rt, rt.alloc(), 2);
    let (mut of_0, mut first) = link(&rt, rt.alloc(), 0, &addresses, 7);
    let (mut of_1, second) = link(&rt, rt.alloc(), 1, &addresses, 7);
    meet(&rt, &mut of_0, &mut of_1, (0, 1));
    drop(of_1);
    drop(second);
    is_lost(&rt, &mut of_0, &mut first, 1);
    let (mut of_1, second) = link(&rt, rt.alloc(), 1, &addresses, 7);
    meet(&rt, &mut of_0, &mut of_1, (0, 1));
    sends(&rt, &mut first, None, ALL);
    come(&rt, &mut of_1, &[ALL]);
    assert_eq!(&rt; of_0.failures(), 1);
    drop(second);
}

/// The one that calls dies, and comes back.
#[test]
fn a_member_that_calls_comes_back(rt: HostRuntime) {
    let addresses = free(&rt, rt.alloc(), 2);
    let (mut of_0, first) = link(&rt, rt.alloc(), 0, &addresses, 7);
    let (mut of_1, mut second) = link(&rt, rt.alloc(), 1, &addresses, 7);
    meet(&rt, &mut of_0, &mut of_1, (0, 1));
    drop(of_0);
    drop(first);
    let (mut of_0, first) = link(&rt, rt.alloc(), 0, &addresses, 7);
    assert!(&rt;
        next(&rt, &mut of_1) == Err(LinkFault::Device),
        "it is lost"
    );
    meet(&rt, &mut of_0, &mut of_1, (0, 1));
    sends(&rt, &mut second, None, ALL);
    come(&rt, &mut of_0, &[ALL]);
    drop(first);
}

/// What a stranger says, what it is answered, and what is made of it.
fn stranger<R: Net<Stream = TcpStream> + Wait + Clock + Abort>(
    rt: &R,
    alloc: Global,
    text: &[u8],
    answer: &[u8],
    why: Disagreement,
) {
    let addresses = free(rt, alloc, 2);
    let (mut of_1, second) = link(rt, alloc, 1, &addresses, 7);
    let mut stream = TcpStream::connect(rt, at(rt, &addresses, 1)).expect(rt, "a connection");
    assert!(rt; stream.write_all(text).is_ok());
    for _turn in 0..20u32 {
        assert!(rt; of_1.receive_within(rt, a_while()) == Ok(Received::Nothing));
    }
    assert!(rt; of_1.refusal() == Some(Refusal { member: None, why }));
    let mut came = Vec::new(alloc);
    let _ = stream.read_to_end(&mut came);
    assert!(rt; came.as_slice() == answer);
    drop(second);
}

#[test]
fn a_stranger_is_named_and_not_answered(rt: HostRuntime) {
    let request = b"GET / HTTP/1.1\r\nHost: abcde\r\n\r\n";
    stranger(&rt, rt.alloc(), request, b"", Disagreement::NotOurs);
}

#[test]
fn another_version_is_answered_so_that_both_can_name_it(rt: HostRuntime) {
    let call =
        b"jolunza\x02\x00\x00\x00\x00\x00\x00\x00\x01\x00\x00\x00\x07\x00\x00\x00\x02\x00\x00\x00\x08";
    let answer =
        b"jolunza\x01\x00\x00\x00\x01\x00\x00\x00\x01\x00\x00\x00\x07\x00\x00\x00\x02\x00\x00\x00\x08";
    stranger(&rt, rt.alloc(), call, answer, Disagreement::Version);
}

/// Many strangers that say nothing keep no member out.
#[test]
fn silent_strangers_keep_nobody_out(rt: HostRuntime) {
    let addresses = free(&rt, rt.alloc(), 2);
    let (mut of_1, second) = link(&rt, rt.alloc(), 1, &addresses, 7);
    let mut strangers = Vec::new(rt.alloc());
    for _stranger in 0..100u32 {
        let stream = TcpStream::connect(&rt, at(&rt, &addresses, 1)).expect(&rt, "a connection");
        strangers.push(stream).expect(&rt, "memory");
        is_quiet(&rt, &mut of_1);
    }
    let (mut of_0, mut first) = link(&rt, rt.alloc(), 0, &addresses, 7);
    meet(&rt, &mut of_0, &mut of_1, (0, 1));
    sends(&rt, &mut first, None, ALL);
    come(&rt, &mut of_1, &[ALL]);
    drop(strangers);
    drop(second);
}

/// Another thread may have it.
fn can_be_handed_over<T: Send + Drop>(part: T) {
    drop(part);
}

#[test]
fn the_ends_can_be_in_two_threads(rt: HostRuntime) {
    let addresses = free(&rt, rt.alloc(), 2);
    let (inlet, outlet) = link(&rt, rt.alloc(), 0, &addresses, 7);
    can_be_handed_over(inlet);
    can_be_handed_over(outlet);
}
