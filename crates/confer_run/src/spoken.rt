//! What participants say, call by call, without threads.

ghost use Rattle.std.specs.Prelude.{◌≡◌};

use crate::participant::Participant;
use crate::running::participants;
use crate::setting::{LinkKind, RunSetting};
use bytes::Bytes;
use cb_member::{Event, Message};
use cb_threads::{Talk, Talker};
use cb_times::{Name, VectorTime};
use std::alloc::Global;
use std::process::Abort;

const QUESTION_1: &[u8] = b"\x01\x04mainquestion 1";

const QUESTION_2: &[u8] = b"\x01\x04mainquestion 2";

const YES_TO_1: &[u8] = b"\x02\x00\x01yes";

const YES_TO_2: &[u8] = b"\x02\x00\x02yes";

/// The messages of a conference of two members with two questions, each with its sender and its number.
const MESSAGES: [(u32, u32, &[u8]); 4] = [
    (0, 1, QUESTION_1),
    (0, 2, QUESTION_2),
    (1, 1, YES_TO_1),
    (1, 2, YES_TO_2),
];

/// Of one call: how many messages were shown before it, how many it shows, and what is said then.
type Call = (usize, usize, Said);

#[derive(Clone, Copy)]
enum Said {
    Casts(&'static [u8]),
    Nothing,
    NothingMore,
}

/// Two questions are asked in a group of two.
const SETTING: RunSetting = RunSetting {
    size: 2,
    window: 4,
    questions: 2,
    turns: 100,
    link: LinkKind::Channel,
    trace: false,
};

/// Who talks for this member.
fn participant(rt: &impl Abort, alloc: Global, me: u32) -> Participant {
    Participant::new(alloc, SETTING, me).expect(rt, "memory")
}

/// So many of the messages, from this one on, as they are delivered.
fn news(rt: &impl Abort, alloc: Global, first: usize, count: usize) -> Vec<Event> {
    let mut news = Vec::new(alloc);
    for message in MESSAGES.iter().skip(first).take(count) {
        news.push(delivered(rt, alloc, *message))
            .expect(rt, "memory");
    }
    news
}

fn delivered(rt: &impl Abort, alloc: Global, message: (u32, u32, &'static [u8])) -> Event {
    let (sender, number, text) = message;
    Event::Deliver(Message {
        name: Name { sender, number },
        time: VectorTime::zero(alloc, 2).expect(rt, "memory"),
        payload: Bytes::from_static(text),
    })
}

/// Each call of the participant of this member is answered so.
fn says(rt: &impl Abort, alloc: Global, me: u32, calls: &[Call]) {
    let mut participant = participant(rt, alloc, me);
    for (first, count, said) in calls {
        let news = news(rt, alloc, *first, *count);
        let talk = participant.next(&news).expect(rt, "memory");
        drop(news);
        assert!(rt; is_said(talk, *said), "behind {first} and {count}");
    }
    drop(participant);
}

fn is_said(talk: Talk, said: Said) -> bool {
    match (talk, said) {
        (Talk::Cast(payload), Said::Casts(text)) => payload.as_slice() == text,
        (Talk::Idle, Said::Nothing) => true,
        (Talk::Finished, Said::NothingMore) => true,
        _ => false,
    }
}

#[test]
fn member_0_asks_its_questions_and_waits_for_all_answers(rt: HostRuntime) {
    let calls = [
        (0, 0, Said::Casts(QUESTION_1)),
        (0, 1, Said::Casts(QUESTION_2)),
        (1, 1, Said::Nothing),
        (2, 1, Said::Nothing),
        (3, 1, Said::NothingMore),
    ];
    says(&rt, rt.alloc(), 0, &calls);
}

#[test]
fn another_member_answers_each_question_that_it_was_shown(rt: HostRuntime) {
    let calls = [
        (0, 0, Said::Nothing),
        (0, 2, Said::Casts(YES_TO_1)),
        (2, 1, Said::Casts(YES_TO_2)),
        (3, 0, Said::Nothing),
        (3, 1, Said::NothingMore),
    ];
    says(&rt, rt.alloc(), 1, &calls);
}

/// The participant in this place says this where nothing was cast.
fn begins_with(rt: &impl Abort, talkers: &mut Vec<Participant>, place: usize, said: Said) {
    let Some(talker) = talkers.get_mut(place) else {
        panic!(rt; "there is no participant {place}");
    };
    let talk = talker.next(&[]).expect(rt, "memory");
    assert!(rt; is_said(talk, said), "participant {place}");
}

#[test]
fn the_first_participant_asks_and_the_second_does_not(rt: HostRuntime) {
    let mut talkers = participants(rt.alloc(), SETTING).expect(&rt, "memory");
    begins_with(&rt, &mut talkers, 0, Said::Casts(QUESTION_1));
    begins_with(&rt, &mut talkers, 1, Said::Nothing);
    drop(talkers);
}
