//! What is gathered into bursts, and that nothing is lost.

use crate::{Gathering, Talk, Talker};
use cb_member::{Event, Group, Member, NoMemory};
use std::alloc::{AllocError, Global};
use std::process::Abort;
use std::slice;
use std::test::*;

/// What a talker says when it is asked.
#[derive(Clone, Copy)]
enum Say {
    /// To cast so many bytes of this letter.
    Cast(u8, usize),
    /// To cast a burst of two such payloads.
    Burst(u8, usize),
    Idle,
    Finished,
    /// It finds no memory.
    Refuse,
}

/// Who says one after the other, and nothing behind the last.
#[derive(Drop)]
struct Reader {
    alloc: Global,
    says: &'static [Say],
    asked: usize,
}

impl Reader {
    fn payload(&self, letter: u8, count: usize) -> Result<Vec<u8>, AllocError> {
        vec![in self.alloc; letter; count]
    }

    fn burst(&self, letter: u8, count: usize) -> Result<Vec<Vec<u8>>, AllocError> {
        let mut payloads = Vec::new(self.alloc);
        payloads.push(self.payload(letter, count)?)?;
        payloads.push(self.payload(letter, count)?)?;
        Ok(payloads)
    }
}

impl Talker for Reader {
    fn next(&mut self, _news: &[Event]) -> Result<Talk, NoMemory> {
        let say = self.says.get(self.asked).copied();
        self.asked = self.asked.saturating_add(1);
        Ok(match say {
            Some(Say::Cast(letter, count)) => Talk::Cast(self.payload(letter, count)?),
            Some(Say::Burst(letter, count)) => Talk::Burst(self.burst(letter, count)?),
            Some(Say::Idle) | None => Talk::Idle,
            Some(Say::Finished) => Talk::Finished,
            Some(Say::Refuse) => return Err(AllocError),
        })
    }
}

/// How many messages are gathered, what the talker says, and what is handed on in each turn: of each payload its letter and its length.
type Row = (usize, &'static [Say], &'static [&'static str]);

const ROWS: &[Row] = &[
    // until it has nothing to say
    (
        32,
        &[
            Say::Cast(b'a', 1),
            Say::Cast(b'b', 2),
            Say::Idle,
            Say::Cast(b'c', 3),
        ],
        &["burst a1 b2", "cast c3", "idle"],
    ),
    // one alone
    (32, &[Say::Cast(b'a', 1), Say::Idle], &["cast a1", "idle"]),
    (
        32,
        &[Say::Idle, Say::Cast(b'a', 1)],
        &["idle", "cast a1", "idle"],
    ),
    // until there are as many as a burst is to have, and each alone where that is one
    (
        2,
        &[Say::Cast(b'a', 1), Say::Cast(b'b', 1), Say::Cast(b'c', 1)],
        &["burst a1 b1", "cast c1", "idle"],
    ),
    (
        1,
        &[Say::Cast(b'a', 1), Say::Cast(b'b', 1), Say::Finished],
        &["cast a1", "cast b1", "finished", "finished"],
    ),
    // until one has no room, which goes first in the next turn
    (
        32,
        &[
            Say::Cast(b'a', 1000),
            Say::Cast(b'b', 24),
            Say::Cast(b'c', 1),
            Say::Cast(b'd', 1023),
            Say::Cast(b'e', 2),
        ],
        &["burst a1000 b24", "burst c1 d1023", "cast e2", "idle"],
    ),
    (
        32,
        &[
            Say::Cast(b'a', 1000),
            Say::Cast(b'b', 1000),
            Say::Cast(b'c', 1000),
        ],
        &["cast a1000", "cast b1000", "cast c1000", "idle"],
    ),
    // what can't be cast goes alone
    (
        32,
        &[
            Say::Cast(b'a', 1025),
            Say::Cast(b'b', 1),
            Say::Cast(b'c', 1025),
        ],
        &["cast a1025", "cast b1", "cast c1025", "idle"],
    ),
    // it says that it has finished only behind all that it had to say
    (
        32,
        &[Say::Cast(b'a', 1000), Say::Cast(b'b', 1000), Say::Finished],
        &["cast a1000", "cast b1000", "finished", "finished"],
    ),
    (
        32,
        &[
            Say::Cast(b'a', 1),
            Say::Cast(b'b', 1),
            Say::Finished,
            Say::Cast(b'c', 1),
        ],
        &["burst a1 b1", "finished", "finished"],
    ),
    // a burst of its own goes as it is, and what comes before it goes before
    (
        32,
        &[
            Say::Burst(b'a', 1),
            Say::Cast(b'b', 1),
            Say::Burst(b'c', 600),
            Say::Burst(b'd', 1),
        ],
        &[
            "burst a1 a1",
            "cast b1",
            "burst c600 c600",
            "burst d1 d1",
            "idle",
        ],
    ),
    // want of memory is told where the talker has not seen the news, and ends the burst where it has
    (
        32,
        &[
            Say::Refuse,
            Say::Cast(b'a', 1),
            Say::Refuse,
            Say::Cast(b'b', 1),
        ],
        &["no memory", "cast a1", "cast b1", "idle"],
    ),
    (
        32,
        &[
            Say::Cast(b'a', 1000),
            Say::Cast(b'b', 1000),
            Say::Refuse,
            Say::Cast(b'c', 1),
        ],
        &["cast a1000", "no memory", "burst b1000 c1", "idle"],
    ),
];

#[test]
fn what_a_talker_says_is_gathered_in_order(rt: HostRuntime) {
    for (most, says, turns) in ROWS {
        let reader = Reader {
            alloc: rt.alloc(),
            says,
            asked: 0,
        };
        hands_on(&rt, rt.alloc(), Gathering::new(reader, *most), turns);
    }
}

fn hands_on(rt: &impl Abort, alloc: Global, talker: Gathering<Reader>, turns: &[&'static str]) {
    let mut talker = talker;
    for turn in turns {
        let said = in_words(alloc, talker.next(&[])).expect(rt, "memory");
        assert_eq!(rt; said.as_str(), *turn);
    }
    drop(talker);
}

fn in_words(alloc: Global, talk: Result<Talk, NoMemory>) -> Result<String, AllocError> {
    let said = words_of(alloc, &talk);
    drop(talk);
    said
}

fn words_of(alloc: Global, talk: &Result<Talk, NoMemory>) -> Result<String, AllocError> {
    match talk {
        Ok(Talk::Cast(payload)) => words(alloc, "cast", slice::from_ref(payload)),
        Ok(Talk::Burst(payloads)) => words(alloc, "burst", payloads),
        Ok(Talk::Idle) => format!(in alloc; "idle"),
        Ok(Talk::Finished) => format!(in alloc; "finished"),
        Err(_refused) => format!(in alloc; "no memory"),
    }
}

fn words(alloc: Global, verb: &str, payloads: &[Vec<u8>]) -> Result<String, AllocError> {
    let mut text = format!(in alloc; "{verb}")?;
    for payload in payloads {
        append(&mut text, word_of(alloc, payload)?)?;
    }
    Ok(text)
}

fn append(text: &mut String, more: String) -> Result<(), AllocError> {
    let done = text.push_str(more.as_str());
    drop(more);
    done
}

/// The letter and the length of a payload.
fn word_of(alloc: Global, payload: &[u8]) -> Result<String, AllocError> {
    let letter = char::from(payload.first().copied().unwrap_or(b'-'));
    format!(in alloc; " {letter}{}", payload.len())
}

/// The talker is shown each event once, however much is gathered.
#[derive(Drop)]
struct Watcher {
    alloc: Global,
    asked: usize,
    shown: usize,
}

impl Talker for Watcher {
    fn next(&mut self, news: &[Event]) -> Result<Talk, NoMemory> {
        self.asked = self.asked.saturating_add(1);
        self.shown = self.shown.saturating_add(news.len());
        Ok(Talk::Cast(Vec::new(self.alloc)))
    }

    fn is_quick(&self) -> bool {
        true
    }
}

#[test]
fn a_talker_is_shown_the_news_once(rt: HostRuntime) {
    let events = two_events(&rt, rt.alloc());
    let watcher = Watcher {
        alloc: rt.alloc(),
        asked: 0,
        shown: 0,
    };
    let mut talker = Gathering::new(watcher, 4);
    let is_quick = talker.is_quick();
    drop(talker.next(&events));
    let seen = (talker.inner().asked, talker.inner().shown, is_quick);
    drop(talker);
    drop(events);
    assert_eq!(&rt; seen, (4, 2, true));
}

fn two_events(rt: &impl Abort, alloc: Global) -> Vec<Event> {
    let group = Group::new(7, 2, 4).expect(rt, "a group");
    let mut member = Member::new(alloc, group, 0, 100).expect(rt, "a member");
    drop(member.cast(b"hi").expect(rt, "a cast"));
    drop(member.cast(b"yo").expect(rt, "a cast"));
    let events = Event::copies(Vec::new(alloc), member.events()).expect(rt, "memory");
    drop(member);
    events
}
