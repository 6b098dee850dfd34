//! The limits of groups, and copies of histories.
use bytes::Bytes;
use cb_frames::FrameFault;
use cb_history::{
    ArriveRefusal, BadGroup, BurstRefusal, CastRefusal, Entry, Group, History, Identity,
    MissingFault, Name, Names, NewFault, TickRefusal,
};
use std::alloc::Global;
use std::fmt;
use std::process::Abort;
use std::test::*;

#[test]
fn a_group_has_2_to_64_members_and_a_window_of_1_to_256(rt: HostRuntime) {
    for (number, size, window) in [(7, 1, 4), (7, 65, 4), (7, 3, 0), (7, 3, 257)] {
        assert!(rt;
            Group::new(number, size, window) == Err(BadGroup),
            "at {size} and {window}"
        );
    }
    for (number, size, window) in [(4_294_967_295, 64, 256), (0, 2, 1)] {
        match Group::new(number, size, window) {
            Ok(group) => assert_eq!(rt;
                (group.number(), group.size(), group.window()),
                (number, size, window)
            ),
            Err(BadGroup) => panic!(rt; "{size} and {window} are no group"),
        }
    }
}

#[test]
fn a_seat_is_of_a_member_of_the_group(rt: HostRuntime) -> Result<(), Fail> {
    let group = Group::new(7, 3, 4).ok().ok_or("a group")?;
    let seat = Identity::new(group, 2).ok_or("a seat")?;
    assert!(rt; seat.group() == group);
    assert_eq!(rt; seat.me(), 2);
    assert!(rt; Identity::new(group, 3).is_none());
    Ok(())
}

fn prints<F: fmt::Display>(rt: &impl Abort, alloc: Global, fault: &F, name: &str) {
    match fault.to_string(alloc) {
        Ok(text) => assert_eq!(rt; text.as_str(), name),
        Err(_) => panic!(rt; "out of memory"),
    }
}

#[test]
fn a_refusal_prints_its_name(rt: HostRuntime) {
    let alloc = rt.alloc();
    prints(&rt, alloc, &CastRefusal::PayloadTooLong, "PayloadTooLong");
    prints(&rt, alloc, &CastRefusal::WindowFull, "WindowFull");
    prints(&rt, alloc, &CastRefusal::HistoryFull, "HistoryFull");
    prints(&rt, alloc, &CastRefusal::NoMemory, "NoMemory");
    prints(&rt, alloc, &BurstRefusal::EmptyBurst, "EmptyBurst");
    prints(&rt, alloc, &BurstRefusal::BurstTooLong, "BurstTooLong");
    prints(&rt, alloc, &BurstRefusal::PayloadTooLong, "PayloadTooLong");
    prints(&rt, alloc, &BurstRefusal::WindowFull, "WindowFull");
    prints(&rt, alloc, &BurstRefusal::HistoryFull, "HistoryFull");
    prints(&rt, alloc, &BurstRefusal::NoMemory, "NoMemory");
    let malformed = ArriveRefusal::Malformed(FrameFault::BadIndex);
    prints(&rt, alloc, &malformed, "Malformed(BadIndex)");
    prints(&rt, alloc, &ArriveRefusal::Overlap, "Overlap");
    prints(&rt, alloc, &ArriveRefusal::TooFar, "TooFar");
    prints(&rt, alloc, &TickRefusal::HistoryFull, "HistoryFull");
    prints(&rt, alloc, &NewFault::BadLimit, "BadLimit");
    prints(&rt, alloc, &MissingFault::BadMember, "BadMember");
    prints(&rt, alloc, &BadGroup, "BadGroup");
}

/// A history with an entry of each kind.
fn history_of_three(rt: &impl Abort, alloc: Global) -> History {
    let mut entries = Vec::new(alloc);
    for entry in [arrival(rt, alloc), cast(), tick()] {
        entries.push(entry).expect(rt, "memory");
    }
    History {
        group: Group::new(7, 3, 4).expect(rt, "a group"),
        me: 1,
        entries,
    }
}

fn arrival(rt: &impl Abort, alloc: Global) -> Entry {
    let hi = Name {
        sender: 0,
        number: 1,
    };
    Entry::Arrive {
        frame: Bytes::from_static(b"\x11\x07\x00\x01\x00\x02hi"),
        delivered: Names::from_slice(alloc, &[hi]).expect(rt, "memory"),
    }
}

fn cast() -> Entry {
    Entry::Cast {
        frame: Bytes::from_static(b"\x11\x07\x01\x01\x01\x00\x01\x02yo"),
    }
}

fn tick() -> Entry {
    Entry::Tick {
        status: Bytes::from_static(b"\x12\x07\x01\x02\x00\x01\x00\x01"),
    }
}

fn are_alike(history: &History, copy: &History) -> bool {
    copy.me == history.me && copy.group == history.group && copy.entries == history.entries
}

#[test]
fn a_copied_history_has_the_same_entries(rt: HostRuntime) {
    let history = history_of_three(&rt, rt.alloc());
    let copy = history.copy().expect(&rt, "memory");
    let (are_alike, entries) = (are_alike(&history, &copy), copy.entries.len());
    drop(history);
    drop(copy);
    assert_eq!(rt; (are_alike, entries), (true, 3));
}
