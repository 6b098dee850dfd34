//! Conferences in threads, and the lines of their members.

ghost use Rattle.confer_run.specs.Settings.{IsRunSetting};

use crate::fault::ThreadFault;
use crate::participant::Participant;
use crate::run_conference;
use crate::running::{lines_of, pace};
use crate::setting::{LinkKind, RunSetting};
use bytes::Bytes;
use cb_member::{Event, Message};
use cb_threads::{Every, MemberReport, Talk, Talker, WorkerFault};
use cb_times::{Name, VectorTime};
use confer_fakes::{is_report, writing};
use std::alloc::Global;
use std::net::{Net, TcpListener, TcpStream};
use std::process::Abort;
use std::slice;
use std::sync::Wait;
use std::thread::Threads;
use std::time::Clock;

/// A conference of three members over channels, where two questions are asked.
const SETTING: RunSetting = RunSetting {
    size: 3,
    window: 4,
    questions: 2,
    turns: 1_000_000,
    link: LinkKind::Channel,
    trace: false,
};

/// What a conference prints of which the audit says yes.
fn printed<
    R: Threads + Wait + Clock + Net<Listener = TcpListener, Stream = TcpStream> + Abort + Sync,
>(rt: &R, alloc: Global, setting: RunSetting) -> String
    requires { IsRunSetting setting }
{
    let mut output = writing(alloc);
    let ended = run_conference(rt, alloc, setting, &mut output);
    assert!(rt; matches!(ended, Ok(false)));
    text_in(rt, output.text)
}

fn text_in(rt: &impl Abort, bytes: Vec<u8>) -> String {
    let Ok(text) = String::from_utf8(bytes) else {
        panic!(rt; "the text is not UTF-8");
    };
    text
}

/// The conference prints a line for each member, which says this.
fn tells<
    R: Threads + Wait + Clock + Net<Listener = TcpListener, Stream = TcpStream> + Abort + Sync,
>(rt: &R, alloc: Global, setting: RunSetting, part: &str)
    requires { IsRunSetting setting }
{
    let text = printed(rt, alloc, setting);
    assert!(rt;
        is_report(alloc, &text, setting.size as usize, part),
        "{text}"
    );
    drop(text);
}

#[test]
fn a_conference_ends_with_all_cast_and_delivered(rt: HostRuntime) {
    tells(&rt, rt.alloc(), SETTING, "casts 2 deliveries 4");
    let over_udp = RunSetting {
        link: LinkKind::Udp,
        ..SETTING
    };
    tells(&rt, rt.alloc(), over_udp, "casts 2 deliveries 4");
    let over_tcp = RunSetting {
        link: LinkKind::Tcp,
        ..SETTING
    };
    tells(&rt, rt.alloc(), over_tcp, "casts 2 deliveries 4");
}

#[test]
fn the_window_may_be_narrow_and_the_members_eight(rt: HostRuntime) {
    let setting = RunSetting {
        size: 8,
        window: 1,
        questions: 3,
        ..SETTING
    };
    tells(&rt, rt.alloc(), setting, "casts 3 deliveries 21");
}

#[test]
fn one_turn_is_too_few_to_say_all(rt: HostRuntime) {
    let setting = RunSetting {
        turns: 1,
        ..SETTING
    };
    let text = printed(&rt, rt.alloc(), setting);
    let is_begun = text.starts_with("member 0 casts 1 deliveries ");
    drop(text);
    assert!(&rt; is_begun);
}

/// The participant of member 2 of three, where one question is asked.
fn participant(rt: &impl Abort, alloc: Global) -> Participant {
    let setting = RunSetting {
        size: 3,
        window: 4,
        questions: 1,
        turns: 1,
        link: LinkKind::Channel,
        trace: false,
    };
    Participant::new(alloc, setting, 2).expect(rt, "memory")
}

/// The first message of this member is delivered, and says this.
fn delivered(rt: &impl Abort, alloc: Global, sender: u32, payload: &[u8]) -> Event {
    Event::Deliver(Message {
        name: Name { sender, number: 1 },
        time: VectorTime::zero(alloc, 3).expect(rt, "memory"),
        payload: Bytes::copy_from_slice(alloc, payload).expect(rt, "memory"),
    })
}

/// What the participant says once the message was delivered, and how many orphans it has counted then.
fn answer_to(rt: &impl Abort, participant: &mut Participant, event: Event) -> (bool, u32) {
    let talk = participant
        .next(slice::from_ref(&event))
        .expect(rt, "memory");
    let is_answer = match &talk {
        Talk::Cast(payload) => payload.as_slice() == b"\x02\x00\x01yes".as_slice(),
        Talk::Burst(_) | Talk::Idle | Talk::Finished => false,
    };
    drop(talk);
    drop(event);
    (is_answer, participant.orphans())
}

#[test]
fn an_answer_before_its_question_is_an_orphan(rt: HostRuntime) {
    let alloc = rt.alloc();
    let mut participant = participant(&rt, alloc);
    let answer = delivered(&rt, alloc, 1, b"\x02\x00\x01yes");
    let first = answer_to(&rt, &mut participant, answer);
    let question = delivered(&rt, alloc, 0, b"\x01\x04mainquestion 1");
    let second = answer_to(&rt, &mut participant, question);
    drop(participant);
    assert_eq!(&rt; first, (false, 1));
    assert_eq!(&rt; second, (true, 1));
}

/// What became of a member: its participant was shown an answer before its question.
fn report(
    rt: &impl Abort,
    alloc: Global,
    fault: Option<WorkerFault>,
) -> MemberReport<u8, u8, Every, Participant> {
    let mut talker = participant(rt, alloc);
    let orphan = delivered(rt, alloc, 1, b"\x02\x00\x01yes");
    let _ = answer_to(rt, &mut talker, orphan);
    MemberReport {
        casts: 11,
        deliveries: 12,
        entries: 13,
        refused: 20,
        posted: 22,
        offered: 21,
        lost: 14,
        receive_failures: 15,
        send_failures: 16,
        pace_failures: 17,
        inlet: Some(18),
        outlet: Some(19),
        pace: Some(pace()),
        talker: Some(talker),
        fault,
    }
}

#[test]
fn the_line_of_a_member_says_its_counts(rt: HostRuntime) {
    let report = report(&rt, rt.alloc(), None);
    let lines = lines_of(rt.alloc(), slice::from_ref(&report));
    drop(report);
    let text = text_in(&rt, lines.expect(&rt, "all workers ran"));
    let line = "member 0 casts 11 deliveries 12 entries 13 lost 14 orphans 1\n";
    let is_said = text.as_str() == line;
    drop(text);
    assert!(&rt; is_said);
}

/// Why nothing is printed of a member of which a worker did not run for this fault.
fn fault_of(rt: &impl Abort, alloc: Global, fault: WorkerFault) -> Option<ThreadFault> {
    let report = report(rt, alloc, Some(fault));
    let lines = lines_of(alloc, slice::from_ref(&report));
    drop(report);
    lines.err()
}

#[test]
fn a_worker_that_did_not_run_leaves_no_lines(rt: HostRuntime) {
    let no_thread = fault_of(&rt, rt.alloc(), WorkerFault::NoThread);
    assert!(&rt; matches!(no_thread, Some(ThreadFault::NoThread)));
    let no_memory = fault_of(&rt, rt.alloc(), WorkerFault::NoMemory);
    assert!(&rt; matches!(no_memory, Some(ThreadFault::NoMemory)));
}
