//! Requests and help frames as bytes, and how many ranges they have.

use bytes::Bytes;
use cb_frames::{EncodeFault, Frame, Range, encode};
use cb_gaps::{help_of, request_of};
use std::alloc::Global;
use std::process::Abort;
use std::test::*;

/// The bytes by which member 2 of group 7 asks member 0 for these; none where it does not ask.
fn asked(alloc: Global, ranges: &[Range]) -> Result<Bytes, EncodeFault> {
    bytes_of(alloc, request_of(alloc, 7, 2, 0, ranges)?)
}

/// Those by which it asks member 1 for casts of member 0.
fn asked_for_help(alloc: Global, ranges: &[Range]) -> Result<Bytes, EncodeFault> {
    bytes_of(alloc, help_of(alloc, 7, 2, 1, 0, ranges)?)
}

fn bytes_of(alloc: Global, frame: Option<Frame>) -> Result<Bytes, EncodeFault> {
    match frame {
        Some(frame) => encode(alloc, &frame),
        None => Ok(Bytes::new()),
    }
}

fn asks(rt: &impl Abort, alloc: Global, ranges: &[Range], bytes: &[u8]) {
    let asked = asked(alloc, ranges).expect(rt, "a request");
    assert_eq!(rt; asked.as_slice(), bytes);
    drop(asked);
}

fn asks_for_help(rt: &impl Abort, alloc: Global, ranges: &[Range], bytes: &[u8]) {
    let asked = asked_for_help(alloc, ranges).expect(rt, "a help frame");
    assert_eq!(rt; asked.as_slice(), bytes);
    drop(asked);
}

#[test]
fn a_request_for_two_numbers_is_seven_bytes(rt: HostRuntime) {
    let ranges = [Range { first: 2, last: 3 }];
    asks(&rt, rt.alloc(), &ranges, b"\x13\x07\x02\x00\x01\x01\x01");
}

#[test]
fn a_help_frame_names_requester_helper_and_sender_in_this_order(rt: HostRuntime) {
    let ranges = [Range { first: 1, last: 2 }];
    asks_for_help(
        &rt,
        rt.alloc(),
        &ranges,
        b"\x23\x07\x02\x01\x00\x01\x00\x01",
    );
}

#[test]
fn nothing_is_asked_for_where_nothing_is_missing(rt: HostRuntime) {
    asks(&rt, rt.alloc(), &[], b"");
    asks_for_help(&rt, rt.alloc(), &[], b"");
}

/// 1 to 2, 4 to 5, and so on to 97 to 98.
fn ranges_of_two() -> [Range; 33] {
    let mut ranges = [Range::default(); 33];
    for (k, range) in ranges.iter_mut().enumerate() {
        range.first = 3 * k as u32 + 1;
        range.last = range.first + 1;
    }
    ranges
}

/// The request for 32 such ranges, where each begins as near as it may to the one before it, and one number follows its first.
const FIRST_32: &[u8] = b"\x13\x07\x02\x00\x20\
    \x00\x01\x00\x01\x00\x01\x00\x01\x00\x01\x00\x01\x00\x01\x00\x01\
    \x00\x01\x00\x01\x00\x01\x00\x01\x00\x01\x00\x01\x00\x01\x00\x01\
    \x00\x01\x00\x01\x00\x01\x00\x01\x00\x01\x00\x01\x00\x01\x00\x01\
    \x00\x01\x00\x01\x00\x01\x00\x01\x00\x01\x00\x01\x00\x01\x00\x01";

/// The help frame for them.
const HELP_WITH_32: &[u8] = b"\x23\x07\x02\x01\x00\x20\
    \x00\x01\x00\x01\x00\x01\x00\x01\x00\x01\x00\x01\x00\x01\x00\x01\
    \x00\x01\x00\x01\x00\x01\x00\x01\x00\x01\x00\x01\x00\x01\x00\x01\
    \x00\x01\x00\x01\x00\x01\x00\x01\x00\x01\x00\x01\x00\x01\x00\x01\
    \x00\x01\x00\x01\x00\x01\x00\x01\x00\x01\x00\x01\x00\x01\x00\x01";

#[test]
fn a_request_has_the_first_32_of_33_ranges(rt: HostRuntime) {
    let ranges = ranges_of_two();
    let (_, first) = ranges.split_last().expect(&rt, "33 ranges");
    asks(&rt, rt.alloc(), first, FIRST_32);
    asks(&rt, rt.alloc(), &ranges, FIRST_32);
}

#[test]
fn a_help_frame_has_the_first_32_of_33_ranges(rt: HostRuntime) {
    let ranges = ranges_of_two();
    let (_, first) = ranges.split_last().expect(&rt, "33 ranges");
    asks_for_help(&rt, rt.alloc(), first, HELP_WITH_32);
    asks_for_help(&rt, rt.alloc(), &ranges, HELP_WITH_32);
}
