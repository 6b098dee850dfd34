//! Frames that were damaged on their way: cut, prolonged, or with one byte in place of another.
//!
//! A damaged frame may be one that is accepted. Then the history says so: a member that takes the frames of the entries is like the one
//! that took the damaged one. Else the member is as it was. `checks/damage.sh` does with long frames what is done here with short ones.

use crate::forms::{Forms, is_text};
use cb_history::Group;
use std::alloc::Global;
use std::process::Abort;
use std::test::*;

/// One damage in this many of the long frames is tried. `checks/damage.sh` tries all.
const EVERY: usize = 1009;

/// A part of a text, and how often it stands there.
pub type Part = (usize, &'static [u8]);

/// Whom frames are given.
#[derive(Clone, Copy)]
struct Receiver {
    number: u32,
    size: u32,
    me: u32,
    /// What it took before.
    before: &'static [&'static [u8]],
}

type Case = (Receiver, &'static [Part]);

/// Member 2 of three, which took nothing.
const FRESH: Receiver = Receiver {
    number: 7,
    size: 3,
    me: 2,
    before: &[],
};

/// It has delivered 0.1, keeps 0.3, and 1.1 waits for 0.2.
const BUSY: Receiver = Receiver {
    number: 7,
    size: 3,
    me: 2,
    before: &[
        b"\x11\x07\x00\x01\x00\x02hi",
        b"\x11\x07\x00\x03\x00\x01c",
        b"\x11\x07\x01\x01\x01\x00\x02\x02yo",
    ],
};

const FRESH_OF_5: Receiver = Receiver {
    number: 300,
    size: 5,
    me: 3,
    before: &[],
};

/// Who would have sent the frames of five members.
const SENDER_OF_5: Receiver = Receiver {
    number: 300,
    size: 5,
    me: 2,
    before: &[],
};

const FRESH_OF_64: Receiver = Receiver {
    number: 4_294_967_295,
    size: 64,
    me: 2,
    before: &[],
};

/// The casts of the worked examples.
const CASTS: &[Case] = &[
    (FRESH, &[(1, b"\x11\x07\x00\x01\x00\x02hi")]),
    (FRESH, &[(1, b"\x11\x07\x01\x01\x01\x00\x01\x02yo")]),
    (FRESH, &[(1, b"\x11\x07\x01\x02\x00\x02ok")]),
    (FRESH, &[(1, b"\x11\x07\x00\x01\x00\x01a")]),
    (FRESH, &[(1, b"\x11\x07\x00\x02\x00\x01b")]),
    (FRESH, &[(1, b"\x11\x07\x00\x03\x00\x01c")]),
    (FRESH, &[(1, b"\x11\x07\x00\x04\x00\x01d")]),
    (
        FRESH_OF_5,
        &[(1, b"\x11\xac\x02\x02\x01\x03\x00\x03\x00\x01\x02\x02\x00")],
    ),
    (
        FRESH_OF_5,
        &[(1, b"\x11\xac\x02\x02\x02\x01\x00\xc8\x01\x00")],
    ),
];

/// Their statuses and their request.
const STATUSES: &[Case] = &[
    (FRESH, &[(1, b"\x12\x07\x01\x01\x00\x02")]),
    (FRESH, &[(1, b"\x12\x07\x02\x01\x00\x02")]),
    (FRESH, &[(1, b"\x12\x07\x02\x00")]),
    (FRESH, &[(1, b"\x12\x07\x02\x01\x00\x01")]),
    (FRESH, &[(1, b"\x13\x07\x02\x00\x01\x01\x01")]),
    (
        FRESH_OF_5,
        &[(
            1,
            b"\x12\xac\x02\x02\x04\x00\xcb\x01\x00\x01\x00\x02\x01\x02",
        )],
    ),
];

/// What comes to a member as its own: two casts that it did not make, and a status that it did not send.
const OWN: &[Case] = &[
    (
        SENDER_OF_5,
        &[(1, b"\x11\xac\x02\x02\x01\x03\x00\x03\x00\x01\x02\x02\x00")],
    ),
    (
        SENDER_OF_5,
        &[(1, b"\x11\xac\x02\x02\x02\x01\x00\xc8\x01\x00")],
    ),
    (
        SENDER_OF_5,
        &[(
            1,
            b"\x12\xac\x02\x02\x04\x00\xcb\x01\x00\x01\x00\x02\x01\x02",
        )],
    ),
];

/// A burst and a help frame; and what comes to a member that took something before, of which some is a repeat then, or overlaps.
const OTHERS: &[Case] = &[
    (FRESH, &[(1, b"\x21\x07\x00\x01\x00\x02\x02hi\x02yo")]),
    (FRESH, &[(1, b"\x23\x07\x01\x02\x00\x01\x00\x01")]),
    (BUSY, &[(1, b"\x11\x07\x00\x02\x00\x01b")]),
    (BUSY, &[(1, b"\x11\x07\x01\x02\x01\x00\x01\x02ok")]),
    (BUSY, &[(1, b"\x12\x07\x01\x02\x00\x01\x00\x01")]),
    (BUSY, &[(1, b"\x21\x07\x00\x04\x00\x02\x01d\x01e")]),
    (BUSY, &[(1, b"\x23\x07\x01\x02\x00\x01\x00\x01")]),
];

/// By member 63, whatever has five bytes at its greatest; a part of a vector time with 63 fields.
const FIELD: &[u8] = b"\x00\xff\xff\xff\xff\x0f";

/// A payload of 128 bytes in a burst.
const LENGTH: Part = (1, b"\x80\x01");

const PAYLOAD: Part = (128, b"a");

/// The longest cast, burst and status, which a fresh member refuses; those with small numbers that it takes; and a request and a help
/// frame of 32 ranges.
const LONG: &[Case] = &[
    (
        FRESH_OF_64,
        &[
            (1, b"\x11\xff\xff\xff\xff\x0f\x3f\xff\xff\xff\xff\x0f\x3f"),
            (63, FIELD),
            (1, b"\x80\x08"),
            (1_024, b"a"),
        ],
    ),
    (
        FRESH_OF_64,
        &[
            (1, b"\x11\xff\xff\xff\xff\x0f\x3f\x01\x3f"),
            (63, FIELD),
            (1, b"\x80\x08"),
            (1_024, b"a"),
        ],
    ),
    (
        FRESH_OF_64,
        &[
            (1, b"\x21\xff\xff\xff\xff\x0f\x3f\xe0\xff\xff\xff\x0f\x3f"),
            (63, FIELD),
            (1, b"\x20"),
            LENGTH,
            PAYLOAD,
            LENGTH,
            PAYLOAD,
            LENGTH,
            PAYLOAD,
            LENGTH,
            PAYLOAD,
            LENGTH,
            PAYLOAD,
            LENGTH,
            PAYLOAD,
            LENGTH,
            PAYLOAD,
            LENGTH,
            PAYLOAD,
            (24, b"\x00"),
        ],
    ),
    (
        FRESH_OF_64,
        &[
            (1, b"\x21\xff\xff\xff\xff\x0f\x3f\x01\x3f"),
            (63, FIELD),
            (1, b"\x04"),
            LENGTH,
            PAYLOAD,
            LENGTH,
            PAYLOAD,
            (2, b"\x00"),
        ],
    ),
    (
        FRESH_OF_64,
        &[(1, b"\x12\xff\xff\xff\xff\x0f\x3f\x40"), (64, FIELD)],
    ),
    (
        FRESH_OF_64,
        &[
            (1, b"\x12\xff\xff\xff\xff\x0f\x3f\x3f"),
            (2, FIELD),
            (1, b"\x01\xff\xff\xff\xff\x0f"),
            (60, FIELD),
        ],
    ),
    (
        FRESH_OF_64,
        &[
            (1, b"\x13\xff\xff\xff\xff\x0f\x3f\x02\x20"),
            (15, b"\x80\x80\x80\x80\x01\x80\x80\x80\x01"),
            (17, b"\x80\x80\x80\x01\x80\x80\x80\x01"),
        ],
    ),
    (
        FRESH_OF_64,
        &[
            (1, b"\x23\xff\xff\xff\xff\x0f\x3f\x02\x01\x20"),
            (15, b"\x80\x80\x80\x80\x01\x80\x80\x80\x01"),
            (17, b"\x80\x80\x80\x01\x80\x80\x80\x01"),
        ],
    ),
];

impl Receiver {
    fn empty(&self, rt: &impl Abort, alloc: Global) -> Forms {
        let group = Group::new(self.number, self.size, 4).expect(rt, "a group");
        Forms::new(rt, alloc, group, self.me)
    }

    /// The member, which took what came before.
    fn member(&self, rt: &impl Abort, alloc: Global) -> Forms {
        let mut member = self.empty(rt, alloc);
        for bytes in self.before {
            drop(member.take(rt, alloc, bytes));
        }
        member
    }
}

/// The parts one behind the other.
pub fn text_of(rt: &impl Abort, alloc: Global, parts: &[Part]) -> Vec<u8> {
    let mut text = Vec::new(alloc);
    for (count, part) in parts {
        add(rt, &mut text, *count, part);
    }
    text
}

fn add(rt: &impl Abort, text: &mut Vec<u8>, count: usize, part: &[u8]) {
    for _ in 0..count {
        text.extend_from_slice(part).expect(rt, "memory");
    }
}

#[test]
fn a_part_of_a_frame_is_short_and_a_byte_more_is_trailing(rt: HostRuntime) {
    are_whole_only(&rt, rt.alloc(), CASTS);
    are_whole_only(&rt, rt.alloc(), STATUSES);
    are_whole_only(&rt, rt.alloc(), OWN);
    are_whole_only(&rt, rt.alloc(), OTHERS);
    are_whole_only(&rt, rt.alloc(), LONG);
}

fn are_whole_only(rt: &impl Abort, alloc: Global, cases: &[Case]) {
    for (receiver, parts) in cases {
        is_whole_only(rt, alloc, *receiver, text_of(rt, alloc, parts));
    }
}

/// What the text begins with is refused, and it with a byte behind it. The member is as it was then.
fn is_whole_only(rt: &impl Abort, alloc: Global, receiver: Receiver, text: Vec<u8>) {
    let mut member = receiver.member(rt, alloc);
    for length in 0..text.len() {
        let answer = member.take(rt, alloc, &text[..length]);
        is_text(rt, answer, "Malformed(Short)");
    }
    let mut text = text;
    text.push(0).expect(rt, "memory");
    is_text(rt, member.take(rt, alloc, &text), "Malformed(Trailing)");
    drop(text);
    are_alike(rt, member, &receiver.member(rt, alloc));
}

fn are_alike(rt: &impl Abort, member: Forms, other: &Forms) {
    let are_alike = member.is_like(other);
    drop(member);
    assert!(rt; are_alike);
}

#[test]
fn a_cast_with_another_byte_is_refused_or_stands_in_the_history(rt: HostRuntime) {
    withstand(&rt, rt.alloc(), CASTS, 1);
}

#[test]
fn a_status_with_another_byte_is_refused_or_stands_in_the_history(rt: HostRuntime) {
    withstand(&rt, rt.alloc(), STATUSES, 1);
}

#[test]
fn an_own_frame_with_another_byte_is_refused_or_stands_in_the_history(rt: HostRuntime) {
    withstand(&rt, rt.alloc(), OWN, 1);
}

#[test]
fn other_frames_with_another_byte_are_refused_or_stand_in_the_history(rt: HostRuntime) {
    withstand(&rt, rt.alloc(), OTHERS, 1);
}

#[test]
fn a_long_frame_with_another_byte_is_refused_or_stands_in_the_history(rt: HostRuntime) {
    withstand(&rt, rt.alloc(), LONG, EVERY);
}

/// One damage in so many of each frame.
fn withstand(rt: &impl Abort, alloc: Global, cases: &[Case], every: usize) {
    for (receiver, parts) in cases {
        let text = text_of(rt, alloc, parts);
        withstands(rt, alloc, *receiver, &text, every);
        drop(text);
    }
}

/// The text with each value in place of each byte, but for one in so many.
fn withstands(rt: &impl Abort, alloc: Global, receiver: Receiver, text: &[u8], every: usize) {
    let untouched = receiver.member(rt, alloc);
    for turn in 0..text.len().saturating_mul(256) {
        if turn.checked_rem(every) == Some(0) {
            let damaged = damaged(rt, alloc, text, turn);
            takes(rt, alloc, receiver, &damaged, &untouched);
            drop(damaged);
        }
    }
    drop(untouched);
}

fn damaged(rt: &impl Abort, alloc: Global, text: &[u8], turn: usize) -> Vec<u8> {
    let mut damaged = text.to_vec(alloc).expect(rt, "memory");
    *damaged.get_mut(turn / 256).expect(rt, "a byte") = u8::try_from(turn % 256).unwrap_or(0);
    damaged
}

/// A member that takes the bytes is as it was, or as one that takes the frames of its entries.
fn takes(rt: &impl Abort, alloc: Global, receiver: Receiver, bytes: &[u8], untouched: &Forms) {
    let mut member = receiver.member(rt, alloc);
    let answer = member.take(rt, alloc, bytes);
    let is_changed = answer.starts_with("changed");
    drop(answer);
    if !is_changed {
        return are_alike(rt, member, untouched);
    }
    let mut other = receiver.empty(rt, alloc);
    member.replay(rt, alloc, &mut other);
    are_alike(rt, member, &other);
    drop(other);
}
