//! A member comes back by its journal, and why a history brings none back.

use bytes::Bytes;
use cb_history::{Entry, Group, History, LONGEST_HISTORY};
use cb_journal::{Identity, JournalWriter, read_journal};
use cb_member::{CastRefusal, Member};
use cb_replay::{ResumeFault, resume};
use std::alloc::Global;
use std::process::Abort;

/// Member 0's first cast, "hi".
const HI: [u8; 8] = [0x11, 7, 0, 1, 0, 2, 0x68, 0x69];

const LIMIT: usize = 10;

fn group(rt: &impl Abort) -> Group {
    Group::new(7, 3, 4).expect(rt, "it is a group")
}

/// Member 1, which took "hi", cast "yo", cast a burst of two and ticked.
fn member(rt: &impl Abort, alloc: Global) -> Member {
    let mut member = Member::new(alloc, group(rt), 1, LIMIT).expect(rt, "it is a member");
    let hi = Bytes::copy_from_slice(alloc, &HI).expect(rt, "memory");
    drop(member.arrive(&hi).expect(rt, "it is taken"));
    drop(member.cast(b"yo").expect(rt, "it is cast"));
    let burst = member.cast_burst(&[b"one", b"two"]);
    drop(burst.expect(rt, "it is cast"));
    drop(member.tick().expect(rt, "it ticks"));
    member
}

/// The journal of these entries.
fn journal_of(rt: &impl Abort, alloc: Global, seat: Identity, entries: &[Entry]) -> Vec<u8> {
    let begun = JournalWriter::begin(alloc, Vec::new(alloc), seat);
    let mut writer = begun.expect(rt, "it begins");
    for entry in entries {
        writer.append(entry).expect(rt, "it is written");
    }
    writer.into_device()
}

/// Its next cast is the same frame.
fn goes_on_alike(rt: &impl Abort, mut member: Member, mut other: Member) {
    let is_same_history = member.history() == other.history();
    let one = member.cast(b"next").expect(rt, "it is cast");
    let two = other.cast(b"next").expect(rt, "it is cast");
    drop(member);
    drop(other);
    let is_same_frame = one.out == two.out;
    drop(one);
    drop(two);
    assert!(rt; is_same_history);
    assert!(rt; is_same_frame);
}

#[test]
fn a_member_comes_back_by_its_journal(rt: HostRuntime) {
    let member = member(&rt, rt.alloc());
    let text = journal_of(&rt, rt.alloc(), member.seat(), member.history());
    let journal = read_journal(rt.alloc(), &text).expect(&rt, "it is a journal");
    drop(text);
    let back = resume(rt.alloc(), journal.history, LIMIT).expect(&rt, "it is legal");
    goes_on_alike(&rt, member, back);
}

/// How many entries the member has that comes back by these bytes.
fn entries_of(rt: &impl Abort, alloc: Global, text: &[u8]) -> usize {
    let journal = read_journal(alloc, text).expect(rt, "it is a journal");
    let back = resume(alloc, journal.history, LIMIT).expect(rt, "it is legal");
    let count = back.history().len();
    drop(back);
    count
}

#[test]
fn what_a_crash_leaves_brings_it_back(rt: HostRuntime) {
    let member = member(&rt, rt.alloc());
    let text = journal_of(&rt, rt.alloc(), member.seat(), member.history());
    drop(member);
    let mut counts: [u32; 5] = [0; 5];
    for length in 59..=text.len() {
        let place = entries_of(&rt, rt.alloc(), &text[..length]).min(4);
        counts[place] = counts[place].saturating_add(1);
    }
    drop(text);
    // The lengths of the five lines behind the head; the last cut has all.
    assert_eq!(&rt; counts, [45, 43, 51, 39, 1]);
}

/// A history with the first entries of the member, and then those of these places again.
fn history_with(rt: &impl Abort, alloc: Global, me: u32, again: &[usize]) -> History {
    let member = member(rt, alloc);
    let mut entries = Entry::copies(alloc, member.history()).expect(rt, "memory");
    for place in again {
        let entry = member.history().get(*place).expect(rt, "it is there");
        let entry = entry.copy().expect(rt, "memory");
        entries.push(entry).expect(rt, "memory");
    }
    drop(member);
    History {
        group: group(rt),
        me,
        entries,
    }
}

fn refuses(rt: &impl Abort, history: History, alloc: Global, limit: usize, fault: ResumeFault) {
    let answer = resume(alloc, history, limit).err();
    assert_eq!(rt; answer, Some(fault));
}

#[test]
fn a_history_that_is_refused_is_told_why(rt: HostRuntime) {
    let alloc = rt.alloc();
    let of = |me: u32, again: &[usize]| history_with(&rt, alloc, me, again);
    refuses(&rt, of(3, &[0]), alloc, 0, ResumeFault::BadMember);
    refuses(&rt, of(1, &[0]), alloc, 0, ResumeFault::BadLimit);
    refuses(
        &rt,
        of(1, &[]),
        alloc,
        LONGEST_HISTORY + 1,
        ResumeFault::BadLimit,
    );
    refuses(
        &rt,
        of(1, &[0]),
        alloc,
        4,
        ResumeFault::TooLong { entries: 5 },
    );
    refuses(
        &rt,
        of(1, &[0, 1]),
        alloc,
        LIMIT,
        ResumeFault::NotLegal { entry: 5 },
    );
    refuses(
        &rt,
        of(1, &[3]),
        alloc,
        LIMIT,
        ResumeFault::NotLegal { entry: 5 },
    );
    refuses(
        &rt,
        of(2, &[]),
        alloc,
        LIMIT,
        ResumeFault::NotLegal { entry: 2 },
    );
}

#[test]
fn a_member_that_is_back_has_the_limit_that_was_given(rt: HostRuntime) {
    let history = history_with(&rt, rt.alloc(), 1, &[]);
    let mut back = resume(rt.alloc(), history, 4).expect(&rt, "it is legal");
    let answer = back.cast(b"more").err();
    drop(back);
    assert_eq!(&rt; answer, Some(CastRefusal::HistoryFull));
}

fn has_text(rt: &impl Abort, alloc: Global, fault: ResumeFault, text: &str) {
    let said = fault.to_string(alloc).expect(rt, "memory");
    let is_said = said.as_str() == text;
    drop(said);
    assert!(rt; is_said, "{text}");
}

#[test]
fn refusals_print_their_names(rt: HostRuntime) {
    has_text(&rt, rt.alloc(), ResumeFault::BadMember, "BadMember");
    has_text(&rt, rt.alloc(), ResumeFault::BadLimit, "BadLimit");
    has_text(
        &rt,
        rt.alloc(),
        ResumeFault::TooLong { entries: 5 },
        "TooLong entries 5",
    );
    has_text(
        &rt,
        rt.alloc(),
        ResumeFault::NotLegal { entry: 2 },
        "NotLegal entry 2",
    );
    has_text(&rt, rt.alloc(), ResumeFault::NoMemory, "NoMemory");
}
