//! Burst frames as values and as bytes.

use crate::asserts::{holds_at, same};
use crate::frames::{decoded, is_whole_only, many};
use bytes::Bytes;
use cb_frames::{
    Burst, Change, EncodeFault, Frame, FrameFault, LAST_NUMBER, MOST_MESSAGES, encode,
    message_count,
};
use std::alloc::Global;
use std::process::Abort;
use std::test::*;

/// What a burst of group 7 is made of.
#[derive(Clone, Copy, Debug, Drop)]
struct Parts<'a> {
    /// Sender and first number.
    name: [u32; 2],
    changes: &'a [Change],
    payloads: &'a [&'a [u8]],
}

fn burst(rt: &impl Abort, alloc: Global, parts: &Parts<'_>) -> Frame {
    let [sender, first] = parts.name;
    let mut payloads = Vec::new(alloc);
    for payload in parts.payloads {
        let payload = Bytes::copy_from_slice(alloc, payload).expect(rt, "memory");
        payloads.push(payload).expect(rt, "memory");
    }
    Frame::Burst(Burst {
        group: 7,
        sender,
        first,
        changes: Vec::from_slice(alloc, parts.changes).expect(rt, "memory"),
        payloads,
    })
}

/// Two of member 0, two of member 1 once it has delivered these, and the last number of member 2.
const TEXTS: [&[u8]; 3] = [
    b"\x21\x07\x00\x01\x00\x02\x02hi\x02yo",
    b"\x21\x07\x01\x01\x01\x00\x02\x02\x01a\x01b",
    b"\x21\x07\x02\xff\xff\xff\xff\x0f\x00\x01\x00",
];

const COUNTS: &[(&[u8], u32)] = &[
    (b"\x21\x07\x00\x01\x00\x02\x02hi\x02yo", 2),
    (b"\x21\x07\x02\xff\xff\xff\xff\x0f\x00\x01\x00", 1),
    (b"\x11\x07\x00\x01\x00\x02hi", 1),
    (b"\x12\x07\x02\x00", 0),
    (b"\x23\x07\x02\x01\x00\x01\x00\x01", 0),
    // What is no frame carries nothing, whatever it begins with.
    (b"\x21\x07\x00\x01\x00\x02\x02hi\x02y", 0),
    (b"\x11\x07\x00\x01\x00\x02hi\x00", 0),
    (b"", 0),
];

#[test]
fn the_messages_of_a_frame_are_counted(rt: HostRuntime) {
    for (text, count) in COUNTS {
        let bytes = Bytes::copy_from_slice(rt.alloc(), text).expect(&rt, "memory");
        let found = message_count(&bytes);
        drop(bytes);
        same(&rt, (*text, found), (*text, *count));
    }
}

#[test]
fn a_part_of_a_burst_is_short_and_a_byte_more_is_trailing(rt: HostRuntime) {
    for text in TEXTS {
        is_whole_only(&rt, rt.alloc(), text);
    }
}

/// Each is a frame, which is written so, or has a fault that is not of memory.
#[test]
fn a_burst_with_another_byte_is_a_frame_or_has_a_fault(rt: HostRuntime) {
    for text in TEXTS {
        for place in 0..text.len() {
            let mut bytes = text.to_vec(rt.alloc()).expect(&rt, "memory");
            with_each_byte(&rt, rt.alloc(), &mut bytes, place);
            drop(bytes);
        }
    }
}

fn with_each_byte(rt: &impl Abort, alloc: Global, bytes: &mut [u8], place: usize) {
    for byte in 0..=255 {
        *bytes.get_mut(place).expect(rt, "a byte") = byte;
        let fault = decoded(rt, alloc, bytes);
        holds_at(rt, fault != Some(FrameFault::NoMemory), &bytes);
    }
}

const NOTHING: &[u8] = b"";

const BROKEN: &[Parts<'static>] = &[
    Parts {
        name: [0, 1],
        changes: &[],
        payloads: &[],
    },
    Parts {
        name: [0, 1],
        changes: &[],
        payloads: &[NOTHING; MOST_MESSAGES + 1],
    },
    Parts {
        name: [0, LAST_NUMBER],
        changes: &[],
        payloads: &[b"", b""],
    },
    Parts {
        name: [0, 0],
        changes: &[],
        payloads: &[b""],
    },
    Parts {
        name: [64, 1],
        changes: &[],
        payloads: &[b""],
    },
    Parts {
        name: [0, 1],
        changes: &[Change {
            field: 0,
            amount: 1,
        }],
        payloads: &[b""],
    },
];

#[test]
fn bursts_that_break_a_rule_have_no_text(rt: HostRuntime) {
    for parts in BROKEN {
        has_no_text(&rt, rt.alloc(), parts, EncodeFault::BadField);
    }
    let long = many(&rt, rt.alloc(), 0, 1_024);
    let parts = Parts {
        name: [64, 0],
        changes: &[],
        payloads: &[&long, b"x"],
    };
    has_no_text(&rt, rt.alloc(), &parts, EncodeFault::PayloadTooLong);
    drop(long);
}

fn has_no_text(rt: &impl Abort, alloc: Global, parts: &Parts<'_>, fault: EncodeFault) {
    let frame = burst(rt, alloc, parts);
    let refusal = encode(alloc, &frame).err();
    drop(frame);
    holds_at(rt, refusal == Some(fault), parts);
}
