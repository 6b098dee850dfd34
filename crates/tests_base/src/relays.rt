//! Worked examples: which frames are handed on, and in which order they are kept.
ghost use Rattle.cb_times.specs.Group.{IsWindow};

use crate::asserts::holds_at;
use crate::windows::{are_of, frame_of, numbers_to_65, range};
use cb_frames::Range;
use cb_stability::Relays;
use std::alloc::Global;
use std::process::Abort;
use std::test::*;

// A frame with these numbers: the four bytes of the first.
fn put_next(rt: &impl Abort, alloc: Global, relays: &mut Relays, first: u32, last: u32) {
    relays.put(first, last, frame_of(rt, alloc, first));
}

// With frames of the numbers 1 to 2, 3 to 5 and 6, put in this order.
fn relays_of_three(rt: &impl Abort, alloc: Global, window: u32) -> Relays
    requires { IsWindow window }
{
    let mut relays = Relays::new(alloc, window).expect(rt, "memory");
    for (first, last) in [(1, 2), (3, 5), (6, 6)] {
        put_next(rt, alloc, &mut relays, first, last);
    }
    relays
}

// The frames handed on, where the numbers above `stable` are delivered up to `delivered`, are those of these numbers.
fn hands_on(rt: &impl Abort, relays: &Relays, stable: u32, delivered: u32, numbers: &[u32]) {
    gives(
        rt,
        relays,
        (stable, delivered),
        &[range(0, u32::MAX)],
        numbers,
    );
}

// The same of the frames in these ranges.
fn gives(rt: &impl Abort, relays: &Relays, known: (u32, u32), ranges: &[Range], numbers: &[u32]) {
    let (stable, delivered) = known;
    let frames = relays
        .frames_in(stable, delivered, ranges)
        .expect(rt, "memory");
    let are_these = are_of(&frames, numbers);
    drop(frames);
    holds_at(rt, are_these, &numbers);
}

#[test]
fn a_frame_is_handed_on_once_all_of_it_is_delivered(rt: HostRuntime) {
    let relays = relays_of_three(&rt, rt.alloc(), 8);
    hands_on(&rt, &relays, 0, 0, &[]);
    hands_on(&rt, &relays, 0, 2, &[1]);
    hands_on(&rt, &relays, 0, 4, &[1]);
    hands_on(&rt, &relays, 0, 5, &[1, 3]);
    hands_on(&rt, &relays, 0, 9, &[1, 3, 6]);
    drop(relays);
}

#[test]
fn a_frame_is_handed_on_until_all_of_it_is_stable(rt: HostRuntime) {
    let relays = relays_of_three(&rt, rt.alloc(), 8);
    hands_on(&rt, &relays, 1, 6, &[1, 3, 6]);
    hands_on(&rt, &relays, 2, 6, &[3, 6]);
    hands_on(&rt, &relays, 4, 6, &[3, 6]);
    hands_on(&rt, &relays, 5, 6, &[6]);
    hands_on(&rt, &relays, 6, 6, &[]);
    hands_on(&rt, &relays, 4, 5, &[3]);
    drop(relays);
}

#[test]
fn a_frame_that_fills_a_gap_gets_its_place(rt: HostRuntime) {
    let mut relays = Relays::new(rt.alloc(), 4).expect(&rt, "memory");
    for first in [4, 1, 3, 2, 6, 5] {
        put_next(&rt, rt.alloc(), &mut relays, first, first);
    }
    hands_on(&rt, &relays, 2, 9, &[3, 4, 5, 6]);
    hands_on(&rt, &relays, 0, 3, &[1, 2, 3]);
    relays.trim(3);
    hands_on(&rt, &relays, 0, 9, &[4, 5, 6]);
    drop(relays);
}

#[test]
fn of_more_frames_than_the_window_the_last_are_handed_on(rt: HostRuntime) {
    let relays = relays_of_three(&rt, rt.alloc(), 2);
    hands_on(&rt, &relays, 0, 6, &[3, 6]);
    hands_on(&rt, &relays, 0, 5, &[1, 3]);
    gives(&rt, &relays, (0, 6), &[range(1, 2)], &[]);
    gives(&rt, &relays, (0, 5), &[range(1, 2)], &[1]);
    drop(relays);
}

#[test]
fn a_window_of_one_has_two_places(rt: HostRuntime) {
    let mut relays = relays_of_three(&rt, rt.alloc(), 1);
    hands_on(&rt, &relays, 0, 6, &[6]);
    hands_on(&rt, &relays, 0, 5, &[3]);
    hands_on(&rt, &relays, 0, 2, &[]);
    relays.trim(5);
    put_next(&rt, rt.alloc(), &mut relays, 7, 7);
    hands_on(&rt, &relays, 0, 6, &[6]);
    hands_on(&rt, &relays, 0, 7, &[7]);
    drop(relays);
}

#[test]
fn where_all_places_are_taken_the_first_frame_is_let_go(rt: HostRuntime) {
    let mut relays = Relays::new(rt.alloc(), 2).expect(&rt, "memory");
    for first in [2, 5, 3, 6] {
        put_next(&rt, rt.alloc(), &mut relays, first, first);
    }
    put_next(&rt, rt.alloc(), &mut relays, 4, 4);
    hands_on(&rt, &relays, 0, 4, &[3, 4]);
    put_next(&rt, rt.alloc(), &mut relays, 1, 1);
    hands_on(&rt, &relays, 0, 4, &[1, 4]);
    hands_on(&rt, &relays, 0, 6, &[5, 6]);
    drop(relays);
}

#[test]
fn trimming_stops_at_a_frame_with_a_number_that_is_not_stable(rt: HostRuntime) {
    let mut relays = relays_of_three(&rt, rt.alloc(), 4);
    relays.trim(1);
    hands_on(&rt, &relays, 0, 6, &[1, 3, 6]);
    relays.trim(4);
    hands_on(&rt, &relays, 0, 6, &[3, 6]);
    relays.trim(2);
    hands_on(&rt, &relays, 0, 6, &[3, 6]);
    relays.trim(99);
    relays.trim(99);
    hands_on(&rt, &relays, 0, 6, &[]);
    put_next(&rt, rt.alloc(), &mut relays, 7, 8);
    hands_on(&rt, &relays, 0, 8, &[7]);
    drop(relays);
}

#[test]
fn any_number_of_a_frame_asks_for_it_and_frames_come_once_and_rising(rt: HostRuntime) {
    let relays = relays_of_three(&rt, rt.alloc(), 4);
    gives(
        &rt,
        &relays,
        (0, 6),
        &[range(6, 6), range(4, 4), range(5, 6), range(2, 3)],
        &[1, 3, 6],
    );
    gives(&rt, &relays, (0, 6), &[range(2, 2)], &[1]);
    gives(&rt, &relays, (0, 6), &[range(5, 4), range(7, 9)], &[]);
    gives(&rt, &relays, (0, 6), &[], &[]);
    drop(relays);
}

#[test]
fn of_65_frames_asked_for_the_first_64_are_given(rt: HostRuntime) {
    let mut relays = Relays::new(rt.alloc(), 65).expect(&rt, "memory");
    for number in 1..67 {
        put_next(&rt, rt.alloc(), &mut relays, number, number);
    }
    hands_on(&rt, &relays, 0, 66, &numbers_to_65());
    gives(&rt, &relays, (0, 66), &[range(66, 99)], &[66]);
    gives(&rt, &relays, (0, 65), &[range(1, 1)], &[1]);
    drop(relays);
}

#[test]
fn a_copy_hands_on_the_same_frames_and_what_one_lets_go_the_other_keeps(rt: HostRuntime) {
    let mut relays = relays_of_three(&rt, rt.alloc(), 2);
    let mut copy = relays.copy().expect(&rt, "memory");
    put_next(&rt, rt.alloc(), &mut copy, 7, 8);
    put_next(&rt, rt.alloc(), &mut copy, 9, 9);
    hands_on(&rt, &copy, 0, 6, &[3, 6]);
    hands_on(&rt, &copy, 0, 2, &[]);
    hands_on(&rt, &relays, 0, 2, &[1]);
    relays.trim(6);
    hands_on(&rt, &relays, 0, 9, &[]);
    hands_on(&rt, &copy, 0, 9, &[7, 9]);
    drop(relays);
    drop(copy);
}

#[test]
fn the_last_frame_may_end_at_the_greatest_number(rt: HostRuntime) {
    let mut relays = Relays::new(rt.alloc(), 1).expect(&rt, "memory");
    put_next(&rt, rt.alloc(), &mut relays, 4294967294, 4294967295);
    hands_on(&rt, &relays, 4294967294, 4294967295, &[4294967294]);
    hands_on(&rt, &relays, 0, 4294967294, &[]);
    relays.trim(4294967294);
    hands_on(&rt, &relays, 0, 4294967295, &[4294967294]);
    relays.trim(4294967295);
    hands_on(&rt, &relays, 0, 4294967295, &[]);
    drop(relays);
}
