//! Runs of whole schedules.

use bytes::Bytes;
use cb_member::{BurstRefusal, Event, Group, HelpFault, Name};
use cb_world::{Answer, PlayFault, Run, Step, play};
use std::alloc::Global;
use std::process::Abort;

const HI: &[u8] = &[0x11, 7, 0, 1, 0, 2, b'h', b'i'];

const YO: &[u8] = &[0x11, 7, 1, 1, 1, 0, 1, 2, b'y', b'o'];

const OK: &[u8] = &[0x11, 7, 1, 2, 0, 2, b'o', b'k'];

const HI_AND_YO: &[u8] = &[0x21, 7, 0, 1, 0, 2, 2, b'h', b'i', 2, b'y', b'o'];

const A_AND_B: &[u8] = &[0x21, 7, 1, 1, 1, 0, 2, 2, 1, b'a', 1, b'b'];

const C: &[u8] = &[0x11, 7, 1, 3, 0, 1, b'c'];

const STATUS: &[u8] = &[0x12, 7, 1, 1, 0, 1];

const HELP: &[u8] = &[0x23, 7, 2, 1, 0, 1, 0, 0];

const NOTHING: &[u8] = &[];

const LONG: &[u8] = &[0; 1_025];

fn run_of(rt: &impl Abort, alloc: Global, steps: &[Step]) -> Run {
    let group = Group::new(7, 3, 4).expect(rt, "the numbers are those of a group");
    play(alloc, group, 100, steps).expect(rt, "a run")
}

fn cast(i: u32, payload: &'static [u8]) -> Step {
    Step::Cast(i, Bytes::from_static(payload))
}

fn burst(rt: &impl Abort, alloc: Global, i: u32, payloads: &[&'static [u8]]) -> Step {
    let mut shared = Vec::new(alloc);
    for payload in payloads {
        shared
            .push(Bytes::from_static(payload))
            .expect(rt, "memory");
    }
    Step::Burst(i, shared)
}

fn word(answer: &Answer) -> &'static str {
    match answer {
        Answer::Cast { .. } => "cast",
        Answer::CastRefused(_refusal) => "cast refused",
        Answer::Burst { count: 1, .. } => "burst of one",
        Answer::Burst { .. } => "burst",
        Answer::BurstRefused(BurstRefusal::EmptyBurst) => "no payload",
        Answer::BurstRefused(BurstRefusal::BurstTooLong) => "too many",
        Answer::BurstRefused(BurstRefusal::PayloadTooLong) => "too many bytes",
        Answer::BurstRefused(BurstRefusal::WindowFull) => "no room for all",
        Answer::BurstRefused(_refusal) => "burst refused",
        Answer::Accepted { changed: true, .. } => "changed",
        Answer::Accepted { .. } => "same",
        Answer::Repeat => "repeat",
        Answer::ArrivalRefused(_refusal) => "arrival refused",
        Answer::Ticked { entered: true } => "entered",
        Answer::Ticked { .. } => "not entered",
        Answer::TickRefused(_refusal) => "tick refused",
        Answer::Help { asked: true } => "asked",
        Answer::Help { .. } => "asked nobody",
        Answer::HelpRefused(HelpFault::BadMember) => "bad member",
        Answer::HelpRefused(_fault) => "help refused",
        Answer::NoSuchMember => "no such member",
        Answer::NoSuchFrame => "no such frame",
    }
}

/// Each answer in a word, the number of its first frame and how many it sent.
fn assert_outcomes(rt: &impl Abort, run: &Run, rows: &[(&str, usize, usize)]) {
    assert_eq!(rt; run.outcomes().len(), rows.len());
    for (outcome, (answer, first, count)) in run.outcomes().iter().zip(rows) {
        assert_eq!(rt; word(&outcome.answer), *answer);
        assert_eq!(rt; outcome.first_frame, *first);
        assert_eq!(rt; outcome.frame_count, *count);
    }
}

fn assert_frames(rt: &impl Abort, run: &Run, frames: &[&[u8]]) {
    assert_eq!(rt; run.frames().len(), frames.len());
    for (sent, frame) in run.frames().iter().zip(frames) {
        assert_eq!(rt; sent.bytes.as_slice(), *frame);
    }
}

fn name_of(event: &Event) -> Name {
    match event {
        Event::Cast(message) | Event::Deliver(message) => message.name,
    }
}

fn assert_names(rt: &impl Abort, run: &Run, j: u32, names: &[(u32, u32)]) {
    let events = run.events(j).expect(rt, "a member");
    assert_eq!(rt; events.len(), names.len());
    for (event, (sender, number)) in events.iter().zip(names) {
        assert_eq!(rt;
            name_of(event),
            Name {
                sender: *sender,
                number: *number
            }
        );
    }
}

#[test]
fn an_answer_that_overtakes_its_question_waits_for_it(rt: HostRuntime) {
    let steps = [
        cast(0, b"hi"),
        Step::Arrive(1, 0),
        cast(1, b"yo"),
        Step::Arrive(2, 1),
        Step::Arrive(2, 0),
    ];
    let run = run_of(&rt, rt.alloc(), &steps);
    assert_frames(&rt, &run, &[HI, YO]);
    assert_names(&rt, &run, 2, &[(0, 1), (1, 1)]);
    assert_eq!(rt; run.history(2).map(|entries| entries.len()), Some(2));
    assert!(rt; run.events(3).is_none());
    assert!(rt; run.history(3).is_none());
}

#[test]
fn two_casts_that_come_reversed_are_delivered_in_order(rt: HostRuntime) {
    let steps = [
        cast(0, b"hi"),
        Step::Arrive(1, 0),
        cast(1, b"yo"),
        cast(1, b"ok"),
        Step::Arrive(0, 2),
        Step::Arrive(0, 1),
    ];
    let run = run_of(&rt, rt.alloc(), &steps);
    assert_frames(&rt, &run, &[HI, YO, OK]);
    assert_names(&rt, &run, 0, &[(0, 1), (1, 1), (1, 2)]);
}

#[test]
fn each_answer_names_its_frames(rt: HostRuntime) {
    let steps = [
        cast(0, b"hi"),
        cast(3, b"hi"),
        Step::Arrive(1, 1),
        Step::Arrive(3, 0),
        Step::Arrive(1, 0),
        Step::Tick(1),
        Step::Tick(1),
        Step::Arrive(1, 0),
        cast(0, LONG),
        Step::Tick(3),
        Step::Arrive(0, 1),
    ];
    let run = run_of(&rt, rt.alloc(), &steps);
    let rows = &[
        ("cast", 0, 1),
        ("no such member", 1, 0),
        ("no such frame", 1, 0),
        ("no such member", 1, 0),
        ("changed", 1, 0),
        ("entered", 1, 1),
        ("not entered", 2, 1),
        ("repeat", 3, 0),
        ("cast refused", 3, 0),
        ("no such member", 3, 0),
        ("changed", 3, 0),
    ];
    assert_outcomes(&rt, &run, rows);
    assert_frames(&rt, &run, &[HI, STATUS, STATUS]);
    assert_eq!(rt; run.frames().last().map(|sent| sent.from), Some(1));
}

#[test]
fn a_full_history_refuses(rt: HostRuntime) {
    let group = Group::new(7, 3, 4).expect(&rt, "the numbers are those of a group");
    let steps = [
        cast(0, b"hi"),
        cast(1, b"yo"),
        Step::Arrive(0, 1),
        Step::Tick(0),
        cast(0, b"ok"),
    ];
    let run = play(rt.alloc(), group, 1, &steps).expect(&rt, "a run");
    let rows = &[
        ("cast", 0, 1),
        ("cast", 1, 1),
        ("arrival refused", 2, 0),
        ("tick refused", 2, 0),
        ("cast refused", 2, 0),
    ];
    assert_outcomes(&rt, &run, rows);
}

#[test]
fn a_run_wants_a_limit(rt: HostRuntime) {
    let group = Group::new(7, 3, 4).expect(&rt, "the numbers are those of a group");
    assert_eq!(rt;
        play(rt.alloc(), group, 0, &[]).err(),
        Some(PlayFault::BadLimit)
    );
    let run = play(rt.alloc(), group, 16_777_216, &[]).expect(&rt, "a run");
    assert!(rt; run.outcomes().is_empty());
}

#[test]
fn a_delivered_message_is_copied(rt: HostRuntime) {
    let steps = [
        cast(0, b"hi"),
        Step::Arrive(1, 0),
        cast(1, b"yo"),
        Step::Arrive(2, 1),
        Step::Arrive(2, 0),
    ];
    let run = run_of(&rt, rt.alloc(), &steps);
    let events = run.events(2).expect(&rt, "a member");
    let Some(Event::Deliver(message)) = events.last() else {
        panic!(&rt; "a delivery is the last event");
    };
    let copy = message.copy().expect(&rt, "a copy");
    assert_eq!(rt;
        copy.name,
        Name {
            sender: 1,
            number: 1
        }
    );
    assert_eq!(rt; copy.time.as_slice(), [1, 1, 0].as_slice());
    assert_eq!(rt; copy.payload.as_slice(), b"yo".as_slice());
}

/// The first message of the burst that the step made, and how many there are.
fn assert_burst(rt: &impl Abort, run: &Run, step: usize, first: Name, count: u32, time: &[u32]) {
    let Some(
        Answer::Burst {
            first: name,
            count: many,
            time: at,
        },
    ) = run.outcomes().get(step).map(|outcome| &outcome.answer)
    else {
        panic!(rt; "a burst");
    };
    assert_eq!(rt; (*name, *many, at.as_slice()), (first, count, time));
}

fn assert_times(rt: &impl Abort, run: &Run, j: u32, times: &[&[u32]]) {
    let events = run.events(j).expect(rt, "a member");
    assert_eq!(rt; events.len(), times.len());
    for (event, time) in events.iter().zip(times) {
        assert_eq!(rt; event.message().time.as_slice(), *time);
    }
}

#[test]
fn a_burst_that_overtakes_another_waits_for_all_of_it(rt: HostRuntime) {
    let steps = [
        burst(&rt, rt.alloc(), 0, &[b"hi", b"yo"]),
        Step::Arrive(1, 0),
        burst(&rt, rt.alloc(), 1, &[b"a", b"b"]),
        Step::Arrive(2, 1),
        Step::Arrive(2, 0),
        cast(1, b"c"),
        Step::Arrive(2, 0),
        Step::Arrive(2, 1),
    ];
    let run = run_of(&rt, rt.alloc(), &steps);
    let rows = &[
        ("burst", 0, 1),
        ("changed", 1, 0),
        ("burst", 1, 1),
        ("changed", 2, 0),
        ("changed", 2, 0),
        ("cast", 2, 1),
        ("repeat", 3, 0),
        ("repeat", 3, 0),
    ];
    assert_outcomes(&rt, &run, rows);
    assert_frames(&rt, &run, &[HI_AND_YO, A_AND_B, C]);
    assert_names(&rt, &run, 2, &[(0, 1), (0, 2), (1, 1), (1, 2)]);
    let times: [&[u32]; 4] = [&[1, 0, 0], &[2, 0, 0], &[2, 1, 0], &[2, 2, 0]];
    assert_times(&rt, &run, 2, &times);
    assert_eq!(rt; run.history(2).map(|entries| entries.len()), Some(2));
    let first = Name {
        sender: 1,
        number: 1,
    };
    assert_burst(&rt, &run, 2, first, 2, &[2, 1, 0]);
}

#[test]
fn a_burst_is_refused_as_a_whole(rt: HostRuntime) {
    let steps = [
        burst(&rt, rt.alloc(), 0, &[]),
        burst(&rt, rt.alloc(), 0, &[NOTHING; 33]),
        burst(&rt, rt.alloc(), 0, &[b"", LONG]),
        burst(&rt, rt.alloc(), 0, &[NOTHING; 5]),
        burst(&rt, rt.alloc(), 3, &[b""]),
        burst(&rt, rt.alloc(), 0, &[b""]),
        burst(&rt, rt.alloc(), 0, &[NOTHING; 4]),
        burst(&rt, rt.alloc(), 0, &[NOTHING; 3]),
    ];
    let run = run_of(&rt, rt.alloc(), &steps);
    let rows = &[
        ("no payload", 0, 0),
        ("too many", 0, 0),
        ("too many bytes", 0, 0),
        ("no room for all", 0, 0),
        ("no such member", 0, 0),
        ("burst of one", 0, 1),
        ("no room for all", 1, 0),
        ("burst", 1, 1),
    ];
    assert_outcomes(&rt, &run, rows);
    assert_eq!(rt; run.history(0).map(|entries| entries.len()), Some(2));
}

/// Member 2 has heard of "hi" by member 1, which delivered it.
const HELPED: &[(&str, usize, usize)] = &[
    ("cast", 0, 1),
    ("changed", 1, 0),
    ("entered", 1, 1),
    ("asked nobody", 2, 0),
    ("changed", 2, 0),
    ("asked", 2, 1),
    ("asked nobody", 3, 0),
    ("bad member", 3, 0),
    ("bad member", 3, 0),
    ("no such member", 3, 0),
    ("same", 3, 0),
    ("same", 3, 1),
    ("changed", 4, 0),
    ("asked nobody", 4, 0),
];

#[test]
fn a_third_member_hands_on_what_is_missing(rt: HostRuntime) {
    let steps = [
        cast(0, b"hi"),
        Step::Arrive(1, 0),
        Step::Tick(1),
        Step::Help(2, 0),
        Step::Arrive(2, 1),
        Step::Help(2, 0),
        Step::Help(2, 1),
        Step::Help(2, 2),
        Step::Help(2, 3),
        Step::Help(3, 0),
        Step::Arrive(0, 2),
        Step::Arrive(1, 2),
        Step::Arrive(2, 3),
        Step::Help(2, 0),
    ];
    let run = run_of(&rt, rt.alloc(), &steps);
    assert_outcomes(&rt, &run, HELPED);
    assert_frames(&rt, &run, &[HI, STATUS, HELP, HI]);
    let sent = run.frames();
    assert_eq!(rt;
        sent.get(2).map(|frame| (frame.from, frame.to)),
        Some((2, Some(1)))
    );
    assert_eq!(rt;
        sent.last().map(|frame| (frame.from, frame.to)),
        Some((1, Some(2)))
    );
    assert_names(&rt, &run, 2, &[(0, 1)]);
    assert_eq!(rt; run.history(2).map(|entries| entries.len()), Some(2));
}
