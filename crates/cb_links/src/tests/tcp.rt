//! Groups over TCP.

ghost use Rattle.std.specs.Prelude.{◌≡◌};

use crate::tcp::Door;
use crate::{Inlet, LinkFault, Outlet, Received, TcpInlet, TcpLink, TcpOutlet};
use bytes::Bytes;
use cb_history::Outgoing;
use std::alloc::Global;
use std::io;
use std::io::{ErrorKind, Read};
use std::net::{Net, SocketAddr, TcpListener, TcpStream};
use std::process::Abort;
use std::sync::Wait;
use std::test::*;
use std::time::Clock;

type Link = (TcpInlet, TcpOutlet);

/// The frames of three casts: to all, and to each of two members.
const ALL: &[u8] = b"\x11\x07\x00\x01\x00\x03all";

const ONE: &[u8] = b"\x11\x07\x00\x02\x00\x03one";

const TWO: &[u8] = b"\x11\x07\x00\x03\x00\x03two";

/// Links of three members, in the order of their numbers.
fn three<N: Net<Listener = TcpListener, Stream = TcpStream>>(
    rt: &impl Abort,
    alloc: Global,
    net: &N,
) -> (Link, Link, Link) {
    let mut links = TcpLink::group(net, alloc, 3).expect(rt, "links");
    let last = links.pop().expect(rt, "a link");
    let second = links.pop().expect(rt, "a link");
    let first = links.pop().expect(rt, "a link");
    (first, second, last)
}

fn sends<R: Wait + Abort>(rt: &R, outlet: &mut TcpOutlet) {
    for (to, text) in [(None, ALL), (Some(1), ONE), (Some(2), TWO)] {
        let bytes = Bytes::from_static(text);
        assert!(rt; outlet.send(rt, &Outgoing { to, bytes }).is_ok());
    }
}

/// What comes within a hundred looks.
fn next<R: Wait + Clock>(rt: &R, inlet: &mut TcpInlet) -> Result<Received, LinkFault> {
    for _look in 0..100u32 {
        let received = inlet.receive(rt)?;
        if received != Received::Nothing {
            return Ok(received);
        }
    }
    Ok(Received::Nothing)
}

/// These frames have come, in this order, and no other.
fn came<R: Wait + Clock + Abort>(rt: &R, inlet: &mut TcpInlet, expected: &[&'static [u8]]) {
    for text in expected {
        let frame = Received::Frame(Bytes::from_static(text));
        assert!(rt; next(rt, inlet) == Ok(frame), "a frame has come");
    }
    assert!(rt;
        inlet.receive(rt) == Ok(Received::Nothing),
        "no more has come"
    );
}

/// Member 0 of three that this net links sends, and each has what is to it.
fn is_linked<R, N>(rt: &R, alloc: Global, net: &N)
where
    R: Wait + Clock + Abort,
    N: Net<Listener = TcpListener, Stream = TcpStream>,
{
    let (mut of_0, mut of_1, mut of_2) = three(rt, alloc, net);
    sends(rt, &mut of_0.1);
    came(rt, &mut of_1.0, &[ALL, ONE]);
    came(rt, &mut of_2.0, &[ALL, TWO]);
    came(rt, &mut of_0.0, &[]);
    // And from the last member to the others.
    assert!(rt; send(rt, &mut of_2.1, None, ALL).is_ok());
    came(rt, &mut of_0.0, &[ALL]);
    came(rt, &mut of_1.0, &[ALL]);
    came(rt, &mut of_2.0, &[]);
}

fn send<R: Wait>(
    rt: &R,
    outlet: &mut TcpOutlet,
    to: Option<u32>,
    text: &'static [u8],
) -> Result<(), LinkFault> {
    let bytes = Bytes::from_static(text);
    outlet.send(rt, &Outgoing { to, bytes })
}

#[test]
fn over_tcp_each_frame_goes_to_whom_it_is_to(rt: HostRuntime) {
    is_linked(&rt, rt.alloc(), &rt);
}

/// Each connection is the last of so many to its port: those before it are strangers'.
#[derive(Drop)]
struct Crowded<'a, N> {
    net: &'a N,
    strangers: u32,
}

impl<'a, N: Net<Listener = TcpListener, Stream = TcpStream>> Net for Crowded<'a, N> {
    type Stream = TcpStream;

    type Listener = TcpListener;

    fn bind(&self, addr: SocketAddr) -> io::Result<TcpListener> {
        self.net.bind(addr)
    }

    fn connect(&self, addr: SocketAddr) -> io::Result<TcpStream> {
        for _stranger in 0..self.strangers {
            drop(self.net.connect(addr)?);
        }
        self.net.connect(addr)
    }
}

#[test]
fn a_stranger_that_connects_first_is_dropped(rt: HostRuntime) {
    let net = Crowded {
        net: &rt,
        strangers: 2,
    };
    is_linked(&rt, rt.alloc(), &net);
}

#[test]
fn among_many_strangers_no_link_is_made(rt: HostRuntime) {
    let net = Crowded {
        net: &rt,
        strangers: 40,
    };
    let links = TcpLink::group(&net, rt.alloc(), 2);
    assert!(&rt; matches!(links, Err(LinkFault::Device)));
}

#[test]
fn a_connection_waits_neither_for_bytes_nor_for_acknowledgements(rt: HostRuntime) {
    let door = Door::open(&rt).expect(&rt, "a port");
    let (going, mut coming) = door.connect(&rt).expect(&rt, "a connection");
    assert!(&rt; going.nodelay().expect(&rt, "a socket"));
    let mut room = [0; 8];
    match coming.read(&mut room) {
        Err(error) => assert!(&rt; error.kind() == ErrorKind::WouldBlock),
        Ok(_count) => panic!(&rt; "nothing was sent"),
    }
    drop(going);
}

/// It is a failure once; what others send comes.
#[test]
fn a_member_that_is_gone_is_one_failure(rt: HostRuntime) {
    let (mut of_0, of_1, mut of_2) = three(&rt, rt.alloc(), &rt);
    drop(of_1);
    assert!(&rt; next(&rt, &mut of_0.0) == Err(LinkFault::Device));
    assert!(&rt; send(&rt, &mut of_2.1, Some(0), ALL).is_ok());
    came(&rt, &mut of_0.0, &[ALL]);
    assert_eq!(&rt; of_0.0.failures(), 1);
}

/// The system takes the first frame, and finds that nobody is there.
#[test]
fn a_frame_to_a_member_that_is_gone_is_refused(rt: HostRuntime) {
    let (mut of_0, of_1, mut of_2) = three(&rt, rt.alloc(), &rt);
    drop(of_1);
    assert!(&rt; send(&rt, &mut of_0.1, Some(1), ALL).is_ok());
    assert!(&rt; send(&rt, &mut of_0.1, Some(1), ONE) == Err(LinkFault::Device));
    assert!(&rt; send(&rt, &mut of_0.1, Some(1), ONE) == Err(LinkFault::Device));
    assert_eq!(&rt; of_0.1.failures(), 2);
    // One to all goes to the others all the same.
    assert!(&rt; next(&rt, &mut of_2.0) == Err(LinkFault::Device));
    assert!(&rt; send(&rt, &mut of_0.1, None, ALL) == Err(LinkFault::Device));
    came(&rt, &mut of_2.0, &[ALL]);
}

/// The first of the numbers that have 3 bytes on the wire.
const FIRST: u32 = 16_384;

/// So many frames of a thousand bytes are more than the system keeps for a connection that nobody reads.
const MANY: u32 = 50_000;

/// The frame of a long cast of this number.
fn numbered(rt: &impl Abort, alloc: Global, number: u32) -> Bytes {
    let mut text = vec![in alloc; b'x'; 1_000].expect(rt, "memory");
    let low = 0x80 | (number & 0x7f) as u8;
    let middle = 0x80 | (number >> 7 & 0x7f) as u8;
    let high = (number >> 14 & 0x7f) as u8;
    let head = [0x11, 0x07, 0x00, low, middle, high, 0x00, 0xdf, 0x07];
    text[..9].copy_from_slice(&head);
    Bytes::from_vec(text).expect(rt, "memory")
}

/// Sends frames to member 1 until one is not taken: the number of that one.
fn fills<R: Wait + Abort>(rt: &R, alloc: Global, outlet: &mut TcpOutlet) -> u32 {
    for number in FIRST..FIRST + MANY {
        let bytes = numbered(rt, alloc, number);
        if outlet.send(rt, &Outgoing { to: Some(1), bytes }).is_err() {
            return number;
        }
    }
    FIRST + MANY
}

/// Receives frames from this number on until nothing comes: the number that is to come next.
fn drains<R: Wait + Clock + Abort>(rt: &R, alloc: Global, inlet: &mut TcpInlet, first: u32) -> u32 {
    for number in first..FIRST + MANY {
        match next(rt, inlet) {
            Ok(Received::Frame(frame)) => assert!(rt; frame == numbered(rt, alloc, number)),
            Ok(Received::Nothing) => return number,
            Err(_fault) => panic!(rt; "no fault"),
        }
    }
    FIRST + MANY
}

/// What a connection took of the last frame is followed by the rest of it, and by the next frame.
#[test]
fn a_full_connection_loses_no_frame_that_it_took(rt: HostRuntime) {
    let (mut of_0, mut of_1, of_2) = three(&rt, rt.alloc(), &rt);
    let refused = fills(&rt, rt.alloc(), &mut of_0.1);
    assert!(&rt; refused < FIRST + MANY);
    assert_eq!(&rt; of_0.1.failures(), 1);
    let next = drains(&rt, rt.alloc(), &mut of_1.0, FIRST);
    assert!(&rt; next == refused || next.checked_add(1) == Some(refused));
    let bytes = numbered(&rt, rt.alloc(), refused);
    assert!(&rt; of_0.1.send(&rt, &Outgoing { to: Some(1), bytes }).is_ok());
    assert_eq!(&rt; drains(&rt, rt.alloc(), &mut of_1.0, next), refused + 1);
    drop(of_2);
}
