//! Hellos over TCP that come in pieces, that end too early, and that are wrong.

ghost use Rattle.std.specs.Prelude.{◌≡◌};

use crate::places::{at, free};
use crate::tcp::{ALL, a_while, come, link, link_in, sends};
use cb_history::Group;
use cb_links::{Received, WaitingInlet};
use cb_remote::{Disagreement, Refusal, TcpPeerInlet};
use std::alloc::Global;
use std::io::{ErrorKind, Read, Write};
use std::net::{Net, Shutdown, SocketAddr, TcpListener, TcpStream};
use std::process::Abort;
use std::sync::Wait;
use std::test::*;
use std::time::{Clock, Duration};

const LENGTH: usize = 28;

/// What member 0 says to member 1, in group 7 of two members with windows of 8.
const CALL: [u8; LENGTH] =
    *b"jolunza\x01\x00\x00\x00\x00\x00\x00\x00\x01\x00\x00\x00\x07\x00\x00\x00\x02\x00\x00\x00\x08";

/// What member 1 says to member 0.
const ANSWER: [u8; LENGTH] =
    *b"jolunza\x01\x00\x00\x00\x01\x00\x00\x00\x00\x00\x00\x00\x07\x00\x00\x00\x02\x00\x00\x00\x08";

/// Where the number of who says it ends, and the size.
const FROM: usize = 11;

const SIZE: usize = 23;

/// So many waits there are for what is sure to come.
const WAITS: u32 = 2_500;

/// A hello with another byte at this place.
fn with_wrong(text: [u8; LENGTH], place: usize) -> [u8; LENGTH] {
    let mut wrong = text;
    if let Some(byte) = wrong.get_mut(place) {
        *byte ^= 0x80;
    }
    wrong
}

/// The first so many bytes of a hello.
fn front(text: &[u8; LENGTH], length: usize) -> &[u8] {
    text.get(..length).unwrap_or(text)
}

/// A stream that waits for nothing.
fn waits_for_nothing<R: Abort>(rt: &R, stream: TcpStream) -> TcpStream {
    stream.set_nonblocking(true).expect(rt, "a stream");
    stream
}

/// A stranger's connection to this address.
fn stranger_at<R: Net<Stream = TcpStream> + Abort>(rt: &R, address: SocketAddr) -> TcpStream {
    let stream = TcpStream::connect(rt, address).expect(rt, "a connection");
    waits_for_nothing(rt, stream)
}

/// A door of the test's own at this address.
fn door_at<R: Net<Stream = TcpStream, Listener = TcpListener> + Abort>(
    rt: &R,
    address: SocketAddr,
) -> TcpListener {
    let door = TcpListener::bind(rt, address).expect(rt, "a door");
    door.set_nonblocking(true).expect(rt, "a door");
    door
}

fn says<R: Abort>(rt: &R, stream: &mut TcpStream, text: &[u8]) {
    assert!(rt; stream.write_all(text).is_ok(), "it is said");
}

/// The link does what it can. No frame comes.
fn turn<R: Wait + Clock + Abort, N: Net + Drop>(rt: &R, inlet: &mut TcpPeerInlet<N>) {
    assert!(rt;
        inlet.receive_within(rt, a_while()) == Ok(Received::Nothing),
        "no frame"
    );
}

/// Says this byte by byte. There is no connection with the member before the last byte.
fn says_slowly<R: Wait + Clock + Abort, N: Net + Drop>(
    rt: &R,
    stream: &mut TcpStream,
    text: &[u8],
    inlet: &mut TcpPeerInlet<N>,
    member: u32,
) {
    for byte in text {
        turn(rt, inlet);
        assert!(rt; !inlet.is_connected(member), "not yet");
        says(rt, stream, &[*byte]);
    }
}

/// The link takes up the connection with this member.
fn connects<R: Wait + Clock + Abort, N: Net + Drop>(
    rt: &R,
    inlet: &mut TcpPeerInlet<N>,
    member: u32,
) {
    for _wait in 0..WAITS {
        if inlet.is_connected(member) {
            return;
        }
        turn(rt, inlet);
    }
    panic!(rt; "it is not connected");
}

/// A byte of this stream, where one is there; `Err` where it has ended.
fn byte_of(stream: &mut TcpStream) -> Result<Option<u8>, ()> {
    let mut room = [0];
    match stream.read(&mut room) {
        Ok(0) => Err(()),
        Ok(_one) => Ok(Some(room[0])),
        Err(error) if error.kind() == ErrorKind::WouldBlock => Ok(None),
        Err(_error) => Err(()),
    }
}

/// The next byte from the link, or none where it has ended the connection.
fn next_byte<R: Wait + Clock + Abort, N: Net + Drop>(
    rt: &R,
    stream: &mut TcpStream,
    inlet: &mut TcpPeerInlet<N>,
) -> Option<u8> {
    for _wait in 0..WAITS {
        match byte_of(stream) {
            Ok(None) => turn(rt, inlet),
            Ok(byte) => return byte,
            Err(()) => return None,
        }
    }
    panic!(rt; "nothing comes, and no end");
}

/// This comes from the link.
fn hears<R: Wait + Clock + Abort, N: Net + Drop>(
    rt: &R,
    stream: &mut TcpStream,
    text: &[u8],
    inlet: &mut TcpPeerInlet<N>,
) {
    for byte in text {
        assert!(rt;
            next_byte(rt, stream, inlet) == Some(*byte),
            "this byte has come"
        );
    }
}

/// The link ends the connection, whatever it says before.
fn is_closed<R: Wait + Clock + Abort, N: Net + Drop>(
    rt: &R,
    stream: &mut TcpStream,
    inlet: &mut TcpPeerInlet<N>,
) {
    for _byte in 0..=LENGTH {
        if next_byte(rt, stream, inlet).is_none() {
            return;
        }
    }
    panic!(rt; "it is not closed");
}

/// The next call of the link.
fn accepted<R: Wait + Clock + Abort, N: Net + Drop>(
    rt: &R,
    door: &TcpListener,
    inlet: &mut TcpPeerInlet<N>,
) -> TcpStream {
    for _wait in 0..WAITS {
        if let Ok((stream, _from)) = door.accept() {
            return waits_for_nothing(rt, stream);
        }
        turn(rt, inlet);
    }
    panic!(rt; "nobody calls");
}

#[test]
fn a_hello_that_comes_byte_by_byte_is_heard(rt: HostRuntime) {
    let addresses = free(&rt, rt.alloc(), 2);
    let (mut of_1, second) = link(&rt, rt.alloc(), 1, &addresses, 7);
    let mut stream = stranger_at(&rt, at(&rt, &addresses, 1));
    says_slowly(&rt, &mut stream, &CALL, &mut of_1, 0);
    connects(&rt, &mut of_1, 0);
    hears(&rt, &mut stream, &ANSWER, &mut of_1);
    says(&rt, &mut stream, b"\x09");
    says(&rt, &mut stream, ALL);
    come(&rt, &mut of_1, &[ALL]);
    drop(second);
}

/// Its beginning ends the connection there, and no more.
#[test]
fn a_hello_that_ends_in_its_middle_keeps_nobody_out(rt: HostRuntime) {
    let addresses = free(&rt, rt.alloc(), 2);
    let (mut of_1, second) = link(&rt, rt.alloc(), 1, &addresses, 7);
    for length in 0..LENGTH {
        let mut stream = stranger_at(&rt, at(&rt, &addresses, 1));
        says(&rt, &mut stream, front(&CALL, length));
        assert!(&rt; stream.shutdown(Shutdown::Write).is_ok());
        is_closed(&rt, &mut stream, &mut of_1);
        assert!(&rt; !of_1.is_connected(0) && of_1.refusal().is_none());
    }
    let mut stream = stranger_at(&rt, at(&rt, &addresses, 1));
    says(&rt, &mut stream, &CALL);
    connects(&rt, &mut of_1, 0);
    drop(second);
}

/// What is wrong with a call whose byte at this place is another. A member that the group does not
/// have is no disagreement: it is answered, and no connection is taken up.
fn refusal_of_call(place: usize) -> Option<Refusal> {
    let (member, why) = match place {
        0..=6 => (None, Disagreement::NotOurs),
        7 => (None, Disagreement::Version),
        8..=11 => return None,
        12..=15 => (Some(0), Disagreement::Member),
        16..=19 => (Some(0), Disagreement::Group),
        20..=23 => (Some(0), Disagreement::Size),
        _ => (Some(0), Disagreement::Window),
    };
    Some(Refusal { member, why })
}

/// A call whose byte at this place is another is refused, and who calls rightly then is not.
fn a_wrong_call<R: Net<Stream = TcpStream> + Wait + Clock + Abort>(
    rt: &R,
    alloc: Global,
    place: usize,
) {
    let addresses = free(rt, alloc, 2);
    let (mut of_1, second) = link(rt, alloc, 1, &addresses, 7);
    let mut wrong = stranger_at(rt, at(rt, &addresses, 1));
    says(rt, &mut wrong, &with_wrong(CALL, place));
    is_closed(rt, &mut wrong, &mut of_1);
    assert!(rt; of_1.refusal() == refusal_of_call(place), "it is named");
    assert!(rt; !of_1.is_connected(0), "it is not taken");
    let mut right = stranger_at(rt, at(rt, &addresses, 1));
    says(rt, &mut right, &CALL);
    connects(rt, &mut of_1, 0);
    drop(second);
}

#[test]
fn a_wrong_byte_at_each_place_of_a_call_is_refused(rt: HostRuntime) {
    for place in 0..LENGTH {
        a_wrong_call(&rt, rt.alloc(), place);
    }
}

/// Of two members the one with the smaller number calls. So the member itself and one with a greater
/// number are not taken, whatever they say.
#[test]
fn who_is_not_to_call_is_not_taken(rt: HostRuntime) {
    let addresses = free(&rt, rt.alloc(), 3);
    let group = Group::new(7, 3, 8).expect(&rt, "a group");
    let (mut of_1, second) = link_in(&rt, rt.alloc(), 1, &addresses, group);
    for from in [1u8, 2, 3] {
        let mut stream = stranger_at(&rt, at(&rt, &addresses, 1));
        let mut text = CALL;
        text[FROM] = from;
        text[SIZE] = 3;
        says(&rt, &mut stream, &text);
        is_closed(&rt, &mut stream, &mut of_1);
        assert!(&rt; !of_1.is_connected(u32::from(from)) && of_1.refusal().is_none());
    }
    drop(second);
}

/// Of strangers that say nothing 64 stay. One more takes the place of the first, and each of the others
/// is heard as soon as it speaks.
#[test]
fn the_first_of_too_many_silent_strangers_goes(rt: HostRuntime) {
    let addresses = free(&rt, rt.alloc(), 2);
    let (mut of_1, second) = link(&rt, rt.alloc(), 1, &addresses, 7);
    let mut first = stranger_at(&rt, at(&rt, &addresses, 1));
    turn(&rt, &mut of_1);
    let mut next = stranger_at(&rt, at(&rt, &addresses, 1));
    turn(&rt, &mut of_1);
    let mut others = Vec::new(rt.alloc());
    for _stranger in 2..65u32 {
        let stream = stranger_at(&rt, at(&rt, &addresses, 1));
        others.push(stream).expect(&rt, "memory");
        turn(&rt, &mut of_1);
    }
    is_closed(&rt, &mut first, &mut of_1);
    says(&rt, &mut next, &CALL);
    connects(&rt, &mut of_1, 0);
    drop(others);
    drop(second);
}

#[test]
fn a_hello_can_be_read_and_answered_byte_by_byte(rt: HostRuntime) {
    let addresses = free(&rt, rt.alloc(), 2);
    let door = door_at(&rt, at(&rt, &addresses, 1));
    let (mut of_0, mut first) = link(&rt, rt.alloc(), 0, &addresses, 7);
    let mut stream = accepted(&rt, &door, &mut of_0);
    for byte in &CALL {
        hears(&rt, &mut stream, &[*byte], &mut of_0);
        turn(&rt, &mut of_0);
    }
    says_slowly(&rt, &mut stream, &ANSWER, &mut of_0, 1);
    connects(&rt, &mut of_0, 1);
    sends(&rt, &mut first, None, ALL);
    hears(&rt, &mut stream, b"\x09", &mut of_0);
    hears(&rt, &mut stream, ALL, &mut of_0);
}

/// The call is made again, and the whole answer is taken.
#[test]
fn an_answer_that_ends_in_its_middle_is_no_answer(rt: HostRuntime) {
    let addresses = free(&rt, rt.alloc(), 2);
    let door = door_at(&rt, at(&rt, &addresses, 1));
    let (mut of_0, first) = link(&rt, rt.alloc(), 0, &addresses, 7);
    for length in [0, 1, 7, 8, 27] {
        let mut stream = accepted(&rt, &door, &mut of_0);
        hears(&rt, &mut stream, &CALL, &mut of_0);
        says(&rt, &mut stream, front(&ANSWER, length));
        drop(stream);
        assert!(&rt; !of_0.is_connected(1) && of_0.refusal().is_none());
    }
    let mut stream = accepted(&rt, &door, &mut of_0);
    says(&rt, &mut stream, &ANSWER);
    connects(&rt, &mut of_0, 1);
    drop(first);
}

/// What is wrong with an answer whose byte at this place is another.
fn refusal_of_answer(place: usize) -> Refusal {
    let why = match place {
        0..=6 => Disagreement::NotOurs,
        7 => Disagreement::Version,
        8..=15 => Disagreement::Member,
        16..=19 => Disagreement::Group,
        20..=23 => Disagreement::Size,
        _ => Disagreement::Window,
    };
    Refusal {
        member: Some(1),
        why,
    }
}

/// An answer whose byte at this place is another is refused, and the call is made again.
fn a_wrong_answer<R: Net<Stream = TcpStream, Listener = TcpListener> + Wait + Clock + Abort>(
    rt: &R,
    alloc: Global,
    place: usize,
) {
    let addresses = free(rt, alloc, 2);
    let door = door_at(rt, at(rt, &addresses, 1));
    let (mut of_0, first) = link(rt, alloc, 0, &addresses, 7);
    let mut stream = accepted(rt, &door, &mut of_0);
    says(rt, &mut stream, &with_wrong(ANSWER, place));
    let mut again = accepted(rt, &door, &mut of_0);
    assert!(rt;
        of_0.refusal() == Some(refusal_of_answer(place)),
        "it is named"
    );
    assert!(rt; !of_0.is_connected(1), "it is not taken");
    says(rt, &mut again, &ANSWER);
    connects(rt, &mut of_0, 1);
    drop(first);
}

#[test]
fn a_wrong_byte_at_each_place_of_an_answer_is_refused(rt: HostRuntime) {
    for place in 0..LENGTH {
        a_wrong_answer(&rt, rt.alloc(), place);
    }
}

/// Who accepts the call and says nothing, or a part of a hello, is called again behind five seconds.
#[test]
fn a_call_without_an_answer_is_made_again(rt: HostRuntime) {
    let addresses = free(&rt, rt.alloc(), 2);
    let door = door_at(&rt, at(&rt, &addresses, 1));
    let begun = rt.monotonic().expect(&rt, "a clock");
    let (mut of_0, first) = link(&rt, rt.alloc(), 0, &addresses, 7);
    let mut silent = accepted(&rt, &door, &mut of_0);
    says(&rt, &mut silent, front(&ANSWER, 27));
    let mut again = accepted(&rt, &door, &mut of_0);
    let now = rt.monotonic().expect(&rt, "a clock");
    let waited = now.saturating_sub(begun);
    assert!(&rt; waited >= Duration::from_secs(5), "not before");
    says(&rt, &mut again, &ANSWER);
    connects(&rt, &mut of_0, 1);
    drop(first);
}
