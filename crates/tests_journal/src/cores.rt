//! A core comes back by its journal, entry by entry, and why one does not.

use bytes::Bytes;
use cb_history::{Entry, Group, History, Outgoing};
use cb_member::CoreMember;
use cb_replay::{ResumeFault, Returning, replay_entry, resume, resume_core};
use std::alloc::Global;
use std::process::Abort;

/// Member 0's first cast, "hi", and its second.
const HI: [u8; 8] = [0x11, 7, 0, 1, 0, 2, 0x68, 0x69];

const HO: [u8; 8] = [0x11, 7, 0, 2, 0, 2, 0x68, 0x6f];

/// Entries in the order of the calls that made them.
type Journal = Vec<Entry>;

fn group(rt: &impl Abort) -> Group {
    Group::new(7, 3, 4).expect(rt, "it is a group")
}

fn keeps(rt: &impl Abort, journal: &mut Journal, noted: Option<Entry>) {
    if let Some(entry) = noted {
        journal.push(entry).expect(rt, "memory");
    }
}

fn takes(rt: &impl Abort, core: &mut CoreMember, frame: &[u8], journal: &mut Journal) {
    let alloc = *journal.allocator();
    let mut events = Vec::new(alloc);
    let bytes = Bytes::copy_from_slice(alloc, frame).expect(rt, "memory");
    let (_taken, noted) = core
        .receive_noted(&bytes, &mut events)
        .expect(rt, "it is taken");
    keeps(rt, journal, noted);
}

fn casts(rt: &impl Abort, core: &mut CoreMember, journal: &mut Journal) {
    let mut events = Vec::new(*journal.allocator());
    let (_frame, noted) = core.cast(b"yo", &mut events).expect(rt, "it is cast");
    journal.push(noted).expect(rt, "memory");
}

fn casts_two(rt: &impl Abort, core: &mut CoreMember, journal: &mut Journal) {
    let mut events = Vec::new(*journal.allocator());
    let (_frame, noted) = core
        .cast_burst(&[b"one", b"two"], &mut events)
        .expect(rt, "it is cast");
    journal.push(noted).expect(rt, "memory");
}

fn ticks(rt: &impl Abort, core: &mut CoreMember, journal: &mut Journal) {
    let (_ticked, noted) = core.tick_noted().expect(rt, "it ticks");
    keeps(rt, journal, noted);
}

/// Member 1, which took "ho" too early, then "hi", cast "yo" and a burst of two, ticked twice, and the five entries of that.
fn core(rt: &impl Abort, alloc: Global) -> (CoreMember, Journal) {
    let mut core = CoreMember::new(alloc, group(rt), 1).expect(rt, "it is a member");
    let mut journal = Vec::new(alloc);
    takes(rt, &mut core, &HO, &mut journal);
    takes(rt, &mut core, &HI, &mut journal);
    casts(rt, &mut core, &mut journal);
    casts_two(rt, &mut core, &mut journal);
    ticks(rt, &mut core, &mut journal);
    ticks(rt, &mut core, &mut journal);
    (core, journal)
}

fn history(rt: &impl Abort, me: u32, entries: Journal) -> History {
    History {
        group: group(rt),
        me,
        entries,
    }
}

/// The core that has this history.
fn back(rt: &impl Abort, alloc: Global, journal: Journal) -> CoreMember {
    let history = history(rt, 1, journal);
    let back = resume_core(alloc, &history).expect(rt, "it is legal");
    drop(history);
    back
}

/// The frames of a cast and of the tick behind it.
fn frames_of(rt: &impl Abort, alloc: Global, cast: Bytes, ticked: Vec<Outgoing>) -> Vec<Bytes> {
    let mut frames = Vec::new(alloc);
    frames.push(cast).expect(rt, "memory");
    for out in ticked {
        frames.push(out.bytes).expect(rt, "memory");
    }
    frames
}

/// What the core sends next.
fn sent(rt: &impl Abort, alloc: Global, core: &mut CoreMember) -> Vec<Bytes> {
    let mut events = Vec::new(alloc);
    let (frame, _entry) = core.cast(b"next", &mut events).expect(rt, "it is cast");
    let ticked = core.tick().expect(rt, "it ticks");
    frames_of(rt, alloc, frame, ticked.out)
}

/// What was sent behind its end is what it would have sent, and it has the same time.
fn goes_on_alike(rt: &impl Abort, alloc: Global, mut core: CoreMember, mut other: CoreMember) {
    let one = sent(rt, alloc, &mut core);
    let two = sent(rt, alloc, &mut other);
    let is_same_time = core.time().as_slice() == other.time().as_slice();
    let is_same_wait = core.waiting() == other.waiting();
    drop(core);
    drop(other);
    let is_same_sent = one == two;
    drop(one);
    drop(two);
    assert!(rt; is_same_time);
    assert!(rt; is_same_wait);
    assert!(rt; is_same_sent);
}

#[test]
fn a_core_comes_back_by_its_own_entries(rt: HostRuntime) {
    let (core, journal) = core(&rt, rt.alloc());
    let count = journal.len();
    let back = back(&rt, rt.alloc(), journal);
    goes_on_alike(&rt, rt.alloc(), core, back);
    assert_eq!(&rt; count, 5);
}

/// What a member sends next that comes back by the same entries.
fn member_sends(rt: &impl Abort, alloc: Global, history: History) -> Vec<Bytes> {
    let mut member = resume(alloc, history, 10).expect(rt, "it is legal");
    let cast = member.cast(b"next").expect(rt, "it is cast");
    let ticked = member.tick().expect(rt, "it ticks");
    drop(member);
    frames_of(rt, alloc, cast.out, ticked.out)
}

#[test]
fn a_core_and_a_member_come_back_alike(rt: HostRuntime) {
    let (core, journal) = core(&rt, rt.alloc());
    drop(core);
    let history = history(&rt, 1, journal);
    let mut back = resume_core(rt.alloc(), &history).expect(&rt, "it is legal");
    let one = sent(&rt, rt.alloc(), &mut back);
    drop(back);
    let two = member_sends(&rt, rt.alloc(), history);
    let is_same = one == two;
    drop(one);
    drop(two);
    assert!(&rt; is_same);
}

/// A history of member `me` of the entries at these places, in this order.
fn history_of(rt: &impl Abort, alloc: Global, me: u32, places: &[usize]) -> History {
    let (core, journal) = core(rt, alloc);
    drop(core);
    let mut entries = Vec::new(alloc);
    for place in places {
        let entry = journal.get(*place).expect(rt, "it is there");
        let entry = entry.copy().expect(rt, "memory");
        entries.push(entry).expect(rt, "memory");
    }
    drop(journal);
    history(rt, me, entries)
}

fn refuses(rt: &impl Abort, alloc: Global, me: u32, places: &[usize], fault: ResumeFault) {
    let history = history_of(rt, alloc, me, places);
    let answer = resume_core(alloc, &history).err();
    drop(history);
    assert_eq!(rt; answer, Some(fault));
}

#[test]
fn the_first_wrong_entry_is_told_by_its_number(rt: HostRuntime) {
    let alloc = rt.alloc();
    let not_legal = |entry: usize| ResumeFault::NotLegal { entry };
    refuses(&rt, alloc, 3, &[], ResumeFault::BadMember);
    refuses(&rt, alloc, 1, &[1, 0], not_legal(1));
    refuses(&rt, alloc, 1, &[0, 1, 1], not_legal(3));
    refuses(&rt, alloc, 1, &[0, 1, 2, 4, 3], not_legal(4));
    refuses(&rt, alloc, 1, &[0, 1, 3], not_legal(3));
    refuses(&rt, alloc, 1, &[0, 1, 2, 3, 4, 4], not_legal(6));
    refuses(&rt, alloc, 2, &[0, 1, 2], not_legal(3));
}

/// How many events there are of the entries that a core on its way back takes.
fn events_of(rt: &impl Abort, alloc: Global, journal: &Journal) -> usize {
    let mut back = Returning::new(alloc, group(rt), 1).expect(rt, "it is a member");
    let mut events = Vec::new(alloc);
    for entry in journal {
        back = back
            .take(alloc, entry, &mut events)
            .expect(rt, "it is legal");
    }
    drop(back.finish());
    let count = events.len();
    drop(events);
    count
}

#[test]
fn the_events_of_its_entries_are_handed_out_again(rt: HostRuntime) {
    let (core, journal) = core(&rt, rt.alloc());
    drop(core);
    let count = events_of(&rt, rt.alloc(), &journal);
    drop(journal);
    // Two deliveries, and three messages of its own.
    assert_eq!(&rt; count, 5);
}

/// Whether a new core of member 1 makes the call that the entry at this place tells.
fn adds(rt: &impl Abort, alloc: Global, place: usize) -> bool {
    let history = history_of(rt, alloc, 1, &[place]);
    let mut core = CoreMember::new(alloc, group(rt), 1).expect(rt, "it is a member");
    let mut events = Vec::new(alloc);
    let entry = history.entries.first().expect(rt, "it is there");
    let is_added = replay_entry(alloc, &mut core, entry, &mut events).expect(rt, "memory");
    drop(core);
    drop(events);
    drop(history);
    is_added
}

#[test]
fn one_entry_is_added_or_not(rt: HostRuntime) {
    let early = adds(&rt, rt.alloc(), 0);
    let burst_of_numbers_that_were_not_cast = adds(&rt, rt.alloc(), 3);
    let status_of_nothing = adds(&rt, rt.alloc(), 4);
    assert_eq!(&rt;
        (
            early,
            burst_of_numbers_that_were_not_cast,
            status_of_nothing
        ),
        (true, false, false)
    );
}
