//! Frames as values and as bytes, and blocks that frames lie in.

use crate::asserts::{holds_at, same};
use bytes::Bytes;
use cb_frames::{
    Cast, Change, EncodeFault, Frame, FrameBlock, FrameFault, Help, Range, Request, Status, decode,
    encode,
};
use std::alloc::Global;
use std::process::Abort;
use std::test::*;

/// What a frame is made of; a request and a help frame are of group 7.
#[derive(Clone, Copy, Debug, Drop)]
pub enum Parts<'a> {
    Cast {
        /// Group, sender and number.
        name: [u32; 3],
        changes: &'a [Change],
        payload: &'a [u8],
    },
    Status {
        group: u32,
        sender: u32,
        values: &'a [Change],
    },
    Request {
        requester: u32,
        asked: u32,
        ranges: &'a [Range],
    },
    Help {
        /// Requester, helper and sender.
        members: [u32; 3],
        ranges: &'a [Range],
    },
}

pub fn frame(rt: &impl Abort, alloc: Global, parts: &Parts<'_>) -> Frame {
    match *parts {
        Parts::Cast {
            name,
            changes,
            payload,
        } => Frame::Cast(cast(rt, alloc, name, changes, payload)),
        Parts::Status {
            group,
            sender,
            values,
        } => Frame::Status(Status {
            group,
            sender,
            values: Vec::from_slice(alloc, values).expect(rt, "memory"),
        }),
        Parts::Request {
            requester,
            asked,
            ranges,
        } => Frame::Request(Request {
            group: 7,
            requester,
            asked,
            ranges: Vec::from_slice(alloc, ranges).expect(rt, "memory"),
        }),
        Parts::Help { members, ranges } => Frame::Help(help(rt, alloc, members, ranges)),
    }
}

fn help(rt: &impl Abort, alloc: Global, members: [u32; 3], ranges: &[Range]) -> Help {
    let [requester, helper, sender] = members;
    Help {
        group: 7,
        requester,
        helper,
        sender,
        ranges: Vec::from_slice(alloc, ranges).expect(rt, "memory"),
    }
}

fn cast(
    rt: &impl Abort,
    alloc: Global,
    name: [u32; 3],
    changes: &[Change],
    payload: &[u8],
) -> Cast {
    let [group, sender, number] = name;
    let changes = Vec::from_slice(alloc, changes).expect(rt, "memory");
    let payload = Bytes::copy_from_slice(alloc, payload).expect(rt, "memory");
    Cast {
        group,
        sender,
        number,
        changes,
        payload,
    }
}

/// The cast's own payload is not looked at.
fn is_written(rt: &impl Abort, block: &mut FrameBlock, cast: &Cast, payload: &[u8], text: &[u8]) {
    let bytes = block.encode_cast(cast, payload).expect(rt, "a text");
    same(rt, bytes.as_slice(), text);
    drop(bytes);
}

#[test]
fn a_cast_is_written_with_a_payload_that_lies_elsewhere(rt: HostRuntime) {
    let text = b"\x11\x07\x01\x02\x00\x02ok";
    let cast = cast(&rt, rt.alloc(), [7, 1, 2], &[], b"not looked at");
    let mut block = FrameBlock::new(rt.alloc());
    is_written(&rt, &mut block, &cast, b"ok", text);
    is_written(&rt, &mut block, &cast, b"ok", text);
    is_too_long(&rt, &mut block, &cast, many(&rt, rt.alloc(), 0, 1_025));
    drop(block);
    drop(cast);
}

fn is_too_long(rt: &impl Abort, block: &mut FrameBlock, cast: &Cast, payload: Vec<u8>) {
    let refusal = block.encode_cast(cast, &payload).err();
    drop(payload);
    same(rt, refusal, Some(EncodeFault::PayloadTooLong));
}

/// So many times this byte.
pub fn many(rt: &impl Abort, alloc: Global, byte: u8, count: usize) -> Vec<u8> {
    vec![in alloc; byte; count].expect(rt, "memory")
}

/// More than go into one block, and long ones between them, each of which stays as it was made.
#[test]
fn frames_in_one_block_and_in_the_next_stay_as_they_are(rt: HostRuntime) {
    let mut block = FrameBlock::new(rt.alloc());
    let mut frames = Vec::new(rt.alloc());
    for number in 1..=12 {
        let frame = numbered(&rt, rt.alloc(), &mut block, number);
        frames.push(frame).expect(&rt, "memory");
    }
    for (place, frame) in frames.iter().enumerate() {
        holds_at(&rt, is_numbered(frame.as_slice(), place + 1), &place);
    }
    drop(frames);
    drop(block);
}

/// Each third is long.
fn payload_length(number: usize) -> usize {
    if number % 3 == 0 { 999 } else { 399 }
}

fn is_numbered(frame: &[u8], number: usize) -> bool {
    let length = if number % 3 == 0 { 1_006 } else { 406 };
    frame.len() == length && is_at(frame.get(3), number) && is_at(frame.last(), number)
}

fn is_at(byte: Option<&u8>, number: usize) -> bool {
    byte.is_some_and(|byte| *byte as usize == number)
}

/// A cast of this number, whose payload is made of it.
fn numbered(rt: &impl Abort, alloc: Global, block: &mut FrameBlock, number: u8) -> Bytes {
    let cast = cast(rt, alloc, [7, 1, u32::from(number)], &[], b"");
    let payload = many(rt, alloc, number, payload_length(usize::from(number)));
    let frame = block.encode_cast(&cast, &payload);
    drop(cast);
    drop(payload);
    frame.expect(rt, "a text")
}

const HELPS: [&[u8]; 2] = [
    b"\x23\x07\x02\x01\x00\x01\x00\x01",
    b"\x23\x07\x00\x3f\x01\x02\x01\x01\x00\xfa\xff\xff\xff\x0f",
];

#[test]
fn a_part_of_a_help_frame_is_short_and_a_byte_more_is_trailing(rt: HostRuntime) {
    for text in HELPS {
        is_whole_only(&rt, rt.alloc(), text);
    }
}

/// The text is a frame, what it begins with is short, and with a byte behind it it is none.
pub fn is_whole_only(rt: &impl Abort, alloc: Global, text: &[u8]) {
    let mut longer = text.to_vec(alloc).expect(rt, "memory");
    longer.push(0).expect(rt, "memory");
    for length in 0..=longer.len() {
        is_cut(rt, alloc, &longer[..length], text.len());
    }
    drop(longer);
}

/// The text has so many bytes, of which these are the first ones, or which these begin with.
fn is_cut(rt: &impl Abort, alloc: Global, bytes: &[u8], whole: usize) {
    let expected = match bytes.len() {
        length if length < whole => Some(FrameFault::Short),
        length if length > whole => Some(FrameFault::Trailing),
        _ => None,
    };
    same(rt, (bytes, decoded(rt, alloc, bytes)), (bytes, expected));
}

/// What is wrong with the bytes. A frame that they are has these as its text.
pub fn decoded(rt: &impl Abort, alloc: Global, text: &[u8]) -> Option<FrameFault> {
    let bytes = Bytes::copy_from_slice(alloc, text).expect(rt, "memory");
    let fault = match decode(alloc, &bytes) {
        Ok(frame) => {
            is_written_as(rt, alloc, &frame, text);
            drop(frame);
            None
        }
        Err(fault) => Some(fault),
    };
    drop(bytes);
    fault
}

fn is_written_as(rt: &impl Abort, alloc: Global, frame: &Frame, text: &[u8]) {
    let bytes = encode(alloc, frame).expect(rt, "a text");
    let is_same = bytes.as_slice() == text;
    drop(bytes);
    holds_at(rt, is_same, &text);
}

/// Ranges of one number each, with one number between two.
pub fn ranges_of(rt: &impl Abort, alloc: Global, count: u32) -> Vec<Range> {
    let mut ranges = Vec::new(alloc);
    for number in (1..).step_by(2).take(count as usize) {
        let range = Range {
            first: number,
            last: number,
        };
        ranges.push(range).expect(rt, "memory");
    }
    ranges
}

#[test]
fn a_copied_cast_says_the_same(rt: HostRuntime) {
    let change = Change {
        field: 3,
        amount: 9,
    };
    let cast = Cast {
        group: 7,
        sender: 2,
        number: 1,
        changes: vec![in rt.alloc(); change; 2].expect(&rt, "memory"),
        payload: Bytes::from_static(b"hello"),
    };
    let copy = cast.copy().expect(&rt, "memory");
    let is_same = copy == cast;
    drop(cast);
    drop(copy);
    assert!(rt; is_same);
}
