//! What no contract says: the worked example byte by byte, texts of each fault, limits, and that calls with ample memory answer.
//!
//! What has a destructor is dropped by a call of `drop`: a test that leaves it to its end takes the prover several times as long.

ghost use Rattle.std.specs.Prelude.{◌≡◌};

use cb_rooms::{
    ComposeFault, Conference, ConferenceFault, LONGEST_PAYLOAD, LONGEST_ROOM, LONGEST_SCREEN, Line,
    Showing, Shown,
};
use cb_times::{MOST_MEMBERS, Name, NoMemory};
use std::alloc::Global;
use std::process::Abort;
use std::test::*;

const fn name(sender: u32, number: u32) -> Name
    ensures sender { result.sender ≡ sender }
    ensures number { result.number ≡ number }
{
    Name { sender, number }
}

const fn say<'a>(room: &'a str, text: &'a str) -> Line<'a> {
    Line::Say { room, text }
}

const fn answer(question: Name, text: &str) -> Line<'_> {
    Line::Answer { question, text }
}

/// What "when?" in the room plan is on the wire.
const WHEN: [u8; 11] = [
    0x01, 0x04, 0x70, 0x6c, 0x61, 0x6e, 0x77, 0x68, 0x65, 0x6e, 0x3f,
];

/// What the answer "noon" to 0.1 is on the wire.
const NOON: [u8; 7] = [0x02, 0x00, 0x01, 0x6e, 0x6f, 0x6f, 0x6e];

/// "hi" in the room other, an answer to the unknown 2.1, and no line.
const HI: &[u8] = b"\x01\x05otherhi";

const LOST: &[u8] = b"\x02\x02\x01";

const NO_LINE: &[u8] = b"\x03";

fn is_shown(
    conference: &mut Conference,
    name: Name,
    payload: &[u8],
    showing: Showing,
) -> Result<bool, NoMemory> {
    let can_be = name.sender < MOST_MEMBERS && name.number > 0;
    Ok(can_be && conference.show(name, payload)? == showing)
}

/// A conference that holds no line.
fn empty(rt: &impl Abort, alloc: Global, last: usize) -> Conference {
    Conference::new(alloc, last).expect(rt, "a conference")
}

/// A conference that was shown these messages, each of which has to be answered so.
fn shown(
    rt: &impl Abort,
    alloc: Global,
    last: usize,
    messages: &[(Name, &[u8], Showing)],
) -> Conference {
    let mut conference = empty(rt, alloc, last);
    for (name, payload, showing) in messages {
        let is_so = is_shown(&mut conference, *name, payload, *showing);
        assert_eq!(rt; is_so, Ok(true), "at {name}");
    }
    conference
}

fn is_text(printed: Result<String, NoMemory>, text: &str) -> bool {
    let is_so = matches!(&printed, Ok(printed) if printed.as_str() == text);
    drop(printed);
    is_so
}

fn has_screen(conference: &Conference, text: &str) -> bool {
    is_text(conference.screen(), text)
}

fn has_rooms(conference: &Conference, names: &[&str]) -> bool {
    let rooms = conference.rooms();
    let has = matches!(&rooms, Ok(rooms) if rooms.as_slice() == names);
    drop(rooms);
    has
}

fn count(conference: &Conference, room: &str) -> Option<usize> {
    Some(conference.lines(room)?.len())
}

/// Whether the line at this place of a room, from 0, is that one.
fn has_line(
    conference: &Conference,
    (room, place): (&str, usize),
    (name, question, text): (Name, Option<Name>, &str),
) -> bool {
    let Some(lines) = conference.lines(room) else {
        return false;
    };
    match lines.get(place) {
        Some(line) => line.name == name && line.question == question && line.text.as_str() == text,
        None => false,
    }
}

fn composes(conference: &Conference, line: &Line<'_>, bytes: &[u8]) -> bool {
    let payload = conference.compose(line);
    let is_so = matches!(&payload, Ok(payload) if payload.as_slice() == bytes);
    drop(payload);
    is_so
}

/// How many bytes the payload has, where it is read as this line again.
fn length_composed(conference: &Conference, line: &Line<'_>) -> Option<usize> {
    let payload = conference.compose(line).ok()?;
    let length = payload.len();
    let is_read = Line::read(&payload) == Some(*line);
    drop(payload);
    if is_read { Some(length) } else { None }
}

fn fault(conference: &Conference, line: &Line<'_>) -> Option<ComposeFault> {
    conference.compose(line).err()
}

fn is_refused(rt: &impl Abort, conference: &Conference, line: &Line<'_>, wanted: ComposeFault) {
    assert_eq!(rt; fault(conference, line), Some(wanted), "at {line:?}");
}

fn has_length(rt: &impl Abort, conference: &Conference, line: &Line<'_>, wanted: usize) {
    assert_eq!(rt;
        length_composed(conference, line),
        Some(wanted),
        "at {line:?}"
    );
}

#[test]
fn a_say_and_its_answer_are_their_bytes(rt: HostRuntime) {
    let conference = shown(&rt, rt.alloc(), 20, &[(name(0, 1), &WHEN, Showing::Shown)]);
    assert!(rt; composes(&conference, &say("plan", "when?"), &WHEN));
    assert!(rt; composes(&conference, &answer(name(0, 1), "noon"), &NOON));
    drop(conference);
}

#[test]
fn an_answer_stands_under_its_question(rt: HostRuntime) {
    let messages = [
        (name(0, 1), WHEN.as_slice(), Showing::Shown),
        (name(1, 1), NOON.as_slice(), Showing::Shown),
        (name(0, 1), WHEN.as_slice(), Showing::Again),
        (name(1, 3), NO_LINE, Showing::NotALine),
        (name(1, 2), LOST, Showing::Orphan),
    ];
    let conference = shown(&rt, rt.alloc(), 20, &messages);
    assert!(rt; has_screen(&conference, "[plan] 0.1 when?\n[plan] 1.1 re 0.1 noon\n"));
    assert!(rt; has_rooms(&conference, &["plan"]));
    drop(conference);
}

#[test]
fn an_answer_goes_to_a_question_with_a_line_alone(rt: HostRuntime) {
    let messages = [
        (name(0, 1), WHEN.as_slice(), Showing::Shown),
        (name(1, 2), LOST, Showing::Orphan),
    ];
    let conference = shown(&rt, rt.alloc(), 20, &messages);
    let unknown = ComposeFault::UnknownQuestion;
    is_refused(&rt, &conference, &answer(name(2, 1), "\u{7}"), unknown);
    is_refused(&rt, &conference, &answer(name(1, 2), "x"), unknown);
    is_refused(&rt, &conference, &answer(name(64, 0), "x"), unknown);
    has_length(&rt, &conference, &answer(name(0, 1), "x"), 4);
    drop(conference);
}

#[test]
fn an_orphan_is_shown_once_its_question_is(rt: HostRuntime) {
    let first = [(name(1, 1), NOON.as_slice(), Showing::Orphan)];
    let conference = shown(&rt, rt.alloc(), 20, &first);
    assert!(rt; has_rooms(&conference, &[]));
    drop(conference);
    let messages = [
        (name(1, 1), NOON.as_slice(), Showing::Orphan),
        (name(0, 1), WHEN.as_slice(), Showing::Shown),
        (name(1, 1), NOON.as_slice(), Showing::Shown),
    ];
    let conference = shown(&rt, rt.alloc(), 20, &messages);
    assert_eq!(rt; count(&conference, "plan"), Some(2));
    drop(conference);
}

#[test]
fn a_name_is_shown_once_whatever_it_carries(rt: HostRuntime) {
    let messages = [
        (name(0, 1), WHEN.as_slice(), Showing::Shown),
        (name(0, 1), HI, Showing::Again),
        (name(0, 1), NO_LINE, Showing::Again),
        (name(0, 1), LOST, Showing::Again),
    ];
    let conference = shown(&rt, rt.alloc(), 20, &messages);
    assert!(rt; has_rooms(&conference, &["plan"]));
    assert_eq!(rt; count(&conference, "plan"), Some(1));
    assert_eq!(rt; count(&conference, "other"), None);
    drop(conference);
}

#[test]
fn two_rooms_keep_their_lines_and_the_order_of_their_first(rt: HostRuntime) {
    let messages = [
        (name(0, 1), WHEN.as_slice(), Showing::Shown),
        (name(1, 1), b"\x01\x05other", Showing::Shown),
        (name(1, 2), NOON.as_slice(), Showing::Shown),
        (name(63, 4_294_967_295), b"\x01\x04planfine", Showing::Shown),
    ];
    let conference = shown(&rt, rt.alloc(), 3, &messages);
    assert!(rt; has_rooms(&conference, &["plan", "other"]));
    let screen = "[other] 1.1 \n[plan] 1.2 re 0.1 noon\n[plan] 63.4294967295 fine\n";
    assert!(rt; has_screen(&conference, screen));
    assert_eq!(rt; count(&conference, "plan"), Some(3));
    assert_eq!(rt; count(&conference, "other"), Some(1));
    let line = (name(1, 2), Some(name(0, 1)), "noon");
    assert!(rt; has_line(&conference, ("plan", 1), line));
    drop(conference);
}

/// A conference with a screen of so many lines, which was shown `count` lines.
fn full(rt: &impl Abort, alloc: Global, last: usize, count: u32) -> Conference {
    let mut conference = empty(rt, alloc, last);
    for number in 1..=count {
        let showing = conference.show(name(5, number), b"\x01\x04mainx");
        assert_eq!(rt; showing, Ok(Showing::Shown), "at {number}");
    }
    conference
}

#[test]
fn a_screen_of_one_line_has_the_last(rt: HostRuntime) {
    let conference = full(&rt, rt.alloc(), 1, 3);
    assert!(rt; has_screen(&conference, "[main] 5.3 x\n"));
    assert_eq!(rt; count(&conference, "main"), Some(3));
    drop(conference);
}

#[test]
fn a_screen_of_1000_lines_has_the_last_1000(rt: HostRuntime) {
    let conference = full(&rt, rt.alloc(), 1000, 1002);
    let screen = conference.screen().expect(&rt, "a screen");
    drop(conference);
    let text = screen.as_str();
    assert_eq!(rt; text.lines().count(), 1000);
    assert_eq!(rt; text.lines().next(), Some("[main] 5.3 x"));
    drop(screen);
}

#[test]
fn a_screen_has_1_to_1000_lines(rt: HostRuntime) {
    for last in [0, 1001, 18_446_744_073_709_551_615] {
        let refused = Conference::new(rt.alloc(), last).err();
        assert_eq!(rt; refused, Some(ConferenceFault::BadScreen), "at {last}");
    }
}

#[test]
fn names_of_rooms_that_cannot_be(rt: HostRuntime) {
    const BAD: &[&str] = &[
        "",
        "Plan",
        "a b",
        "a_b",
        "a/b",
        "a:b",
        "`",
        "{",
        "123456789012345678901234567890123",
    ];
    const GOOD: &[&str] = &["a", "-", "09az-", "12345678901234567890123456789012"];
    let conference = empty(&rt, rt.alloc(), 1);
    for room in BAD {
        is_refused(&rt, &conference, &say(room, "\u{7}"), ComposeFault::BadRoom);
    }
    for room in GOOD {
        has_length(&rt, &conference, &say(room, "x"), 3 + room.len());
    }
    drop(conference);
}

#[test]
fn texts_that_cannot_be(rt: HostRuntime) {
    const BAD: &[&str] = &["\0", "a\n", "\t", "\u{1f}b", "\u{7f}", "\r"];
    const GOOD: &[&str] = &["", " ", "~ !", "na\u{ef}ve \u{20ac}", "\u{80}\u{10ffff}"];
    let conference = empty(&rt, rt.alloc(), 1);
    for text in BAD {
        is_refused(&rt, &conference, &say("a", text), ComposeFault::BadText);
    }
    for text in GOOD {
        has_length(&rt, &conference, &say("a", text), 3 + text.len());
    }
    drop(conference);
}

/// So many times `x`.
fn long_text(rt: &impl Abort, alloc: Global, length: usize) -> String {
    let mut text = String::new(alloc);
    for _ in 0..length {
        text.push('x').expect(rt, "memory");
    }
    text
}

#[test]
fn a_payload_has_at_most_1024_bytes(rt: HostRuntime) {
    let conference = shown(&rt, rt.alloc(), 20, &[(name(0, 1), &WHEN, Showing::Shown)]);
    let longest = long_text(&rt, rt.alloc(), 1021);
    has_length(&rt, &conference, &say("a", &longest), 1024);
    has_length(&rt, &conference, &answer(name(0, 1), &longest), 1024);
    drop(longest);
    let longer = long_text(&rt, rt.alloc(), 1022);
    is_refused(&rt, &conference, &say("a", &longer), ComposeFault::TooLong);
    is_refused(
        &rt,
        &conference,
        &answer(name(0, 1), &longer),
        ComposeFault::TooLong,
    );
    drop(longer);
    drop(conference);
}

/// Whether something said in the room a, in so many bytes, is a line.
fn is_line_of(rt: &impl Abort, alloc: Global, length: usize) -> bool {
    let mut payload = b"\x01\x01a".to_vec(alloc).expect(rt, "memory");
    payload.resize(length, b'x').expect(rt, "memory");
    let is_line = Line::read(&payload).is_some();
    drop(payload);
    is_line
}

#[test]
fn a_payload_of_1025_bytes_is_no_line(rt: HostRuntime) {
    assert!(rt; is_line_of(&rt, rt.alloc(), 1024));
    assert!(rt; !is_line_of(&rt, rt.alloc(), 1025));
}

#[test]
fn payloads_that_are_no_line(rt: HostRuntime) {
    const NONE: [&[u8]; 18] = [
        &[],
        &[0x00],
        &[0x03],
        &[0x01],
        &[0x01, 0x00],
        &[0x01, 0x80],
        &[0x01, 0x81, 0x00, b'a'],
        &[0x01, 0x02, b'a'],
        &[0x01, 0x01, b'A'],
        &[0x01, 0x01, b'a', 0x1f],
        &[0x01, 0x01, b'a', 0x7f],
        &[0x01, 0x01, b'a', 0xff],
        &[0x02],
        &[0x02, 0x00],
        &[0x02, 0x00, 0x00],
        &[0x02, 0x40, 0x01],
        &[0x02, 0x00, 0x01, 0x80],
        &[0x02, 0x00, 0xff, 0xff, 0xff, 0xff, 0x1f],
    ];
    for payload in NONE {
        assert_eq!(rt; Line::read(payload), None, "at {payload:?}");
    }
    assert_eq!(rt; Line::read(&[0x01, 0x01, b'a']), Some(say("a", "")));
    assert_eq!(rt;
        Line::read(&[0x02, 0x3f, 0x01]),
        Some(answer(name(63, 1), ""))
    );
    assert_eq!(rt;
        Line::read(&[0x02, 0x00, 0xff, 0xff, 0xff, 0xff, 0x0f, b'y']),
        Some(answer(name(0, 4_294_967_295), "y"))
    );
}

#[test]
fn a_fault_prints_its_name(rt: HostRuntime) {
    const COMPOSE: &[(ComposeFault, &str)] = &[
        (ComposeFault::BadRoom, "BadRoom"),
        (ComposeFault::UnknownQuestion, "UnknownQuestion"),
        (ComposeFault::BadText, "BadText"),
        (ComposeFault::TooLong, "TooLong"),
        (ComposeFault::NoMemory, "NoMemory"),
    ];
    for (fault, name) in COMPOSE {
        assert!(rt; is_text(fault.to_string(rt.alloc()), name), "at {name}");
    }
    let bad = ConferenceFault::BadScreen.to_string(rt.alloc());
    assert!(rt; is_text(bad, "BadScreen"));
    let no_memory = ConferenceFault::NoMemory.to_string(rt.alloc());
    assert!(rt; is_text(no_memory, "NoMemory"));
}
