//! Frames by their numbers, for the tests of the windows and the relays.
use bytes::Bytes;
use cb_frames::Range;
use std::alloc::Global;
use std::process::Abort;
use std::test::*;

pub const fn range(first: u32, last: u32) -> Range {
    Range { first, last }
}

/// The four bytes of this number.
pub fn frame_of(rt: &impl Abort, alloc: Global, number: u32) -> Bytes {
    Bytes::copy_from_slice(alloc, &number.to_be_bytes()).expect(rt, "memory")
}

/// The frames are those of these numbers.
pub fn are_of(frames: &[Bytes], numbers: &[u32]) -> bool {
    frames.len() == numbers.len() && frames.iter().zip(numbers).all(is_of)
}

fn is_of(pair: (&Bytes, &u32)) -> bool {
    let (frame, number) = pair;
    frame.as_slice() == number.to_be_bytes().as_slice()
}

/// 2 to 65.
pub fn numbers_to_65() -> [u32; 64] {
    let mut numbers = [0; 64];
    for (number, at) in (2..).zip(numbers.iter_mut()) {
        *at = number;
    }
    numbers
}
