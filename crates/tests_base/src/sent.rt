//! Worked examples: what a window keeps, and what it gives when asked.
ghost use Rattle.cb_times.specs.Group.{IsWindow};

use crate::asserts::{holds_at, same};
use crate::windows::{are_of, frame_of, numbers_to_65, range};
use cb_frames::Range;
use cb_stability::SentWindow;
use std::alloc::Global;
use std::process::Abort;
use std::test::*;

// With this many frames put, each the four bytes of its number.
fn window_with(rt: &impl Abort, alloc: Global, window: u32, count: u32) -> SentWindow
    requires { IsWindow window }
{
    let mut sent = SentWindow::new(alloc, window).expect(rt, "memory");
    for number in 1..=count {
        put_next(rt, alloc, &mut sent, number);
    }
    sent
}

fn put_next(rt: &impl Abort, alloc: Global, sent: &mut SentWindow, number: u32) {
    put_several(rt, alloc, sent, number, 1);
}

// A frame of so many messages: the four bytes of this number.
fn put_several(rt: &impl Abort, alloc: Global, sent: &mut SentWindow, number: u32, count: u32) {
    assert!(rt;
        0 < count && count <= sent.room(),
        "no room for {count} from {number}"
    );
    sent.put(frame_of(rt, alloc, number), count);
}

// With frames of 2, 3 and 1 numbers, which are 1 to 2, 3 to 5 and 6; each has the bytes of its first number.
fn window_of_three(rt: &impl Abort, alloc: Global) -> SentWindow {
    let mut sent = SentWindow::new(alloc, 8).expect(rt, "memory");
    for (number, count) in [(1, 2), (3, 3), (6, 1)] {
        put_several(rt, alloc, &mut sent, number, count);
    }
    sent
}

// The frames given for these ranges are those of these numbers.
fn gives(rt: &impl Abort, sent: &SentWindow, ranges: &[Range], numbers: &[u32]) {
    let frames = sent.frames_in(ranges).expect(rt, "memory");
    let are_these = are_of(&frames, numbers);
    drop(frames);
    holds_at(rt, are_these, &numbers);
}

fn has_room(rt: &impl Abort, sent: &SentWindow, room: u32) {
    same(rt, sent.room(), room);
}

#[test]
fn a_trimmed_frame_makes_room_and_is_not_given_again(rt: HostRuntime) {
    let mut sent = window_with(&rt, rt.alloc(), 2, 2);
    has_room(&rt, &sent, 0);
    sent.trim(1);
    has_room(&rt, &sent, 1);
    gives(&rt, &sent, &[range(1, 2)], &[2]);
    drop(sent);
}

#[test]
fn overlapping_ranges_in_any_order_give_each_frame_once_and_rising(rt: HostRuntime) {
    let sent = window_with(&rt, rt.alloc(), 8, 7);
    let ranges = [range(5, 6), range(2, 3), range(3, 5), range(2, 2)];
    gives(&rt, &sent, &ranges, &[2, 3, 4, 5, 6]);
    drop(sent);
}

#[test]
fn empty_ranges_and_numbers_that_are_not_kept_give_nothing(rt: HostRuntime) {
    let mut sent = window_with(&rt, rt.alloc(), 8, 7);
    sent.trim(4);
    gives(&rt, &sent, &[], &[]);
    let ranges = [range(6, 5), range(0, 4), range(8, 4294967295)];
    gives(&rt, &sent, &ranges, &[]);
    gives(&rt, &sent, &[range(0, 4294967295)], &[5, 6, 7]);
    drop(sent);
}

#[test]
fn of_65_frames_asked_for_the_first_64_are_given(rt: HostRuntime) {
    let sent = window_with(&rt, rt.alloc(), 100, 66);
    let numbers = numbers_to_65();
    gives(&rt, &sent, &[range(2, 66)], &numbers);
    gives(&rt, &sent, &[range(2, 65)], &numbers);
    gives(&rt, &sent, &[range(66, 66)], &[66]);
    drop(sent);
}

#[test]
fn trimming_twice_or_below_what_was_trimmed_changes_nothing(rt: HostRuntime) {
    let mut sent = window_with(&rt, rt.alloc(), 4, 4);
    sent.trim(2);
    sent.trim(2);
    sent.trim(1);
    sent.trim(0);
    has_room(&rt, &sent, 2);
    gives(&rt, &sent, &[range(1, 4)], &[3, 4]);
    drop(sent);
}

#[test]
fn past_the_end_it_empties_the_window_and_the_next_number_follows(rt: HostRuntime) {
    let mut sent = window_with(&rt, rt.alloc(), 3, 2);
    sent.trim(4294967295);
    has_room(&rt, &sent, 3);
    gives(&rt, &sent, &[range(0, 4294967295)], &[]);
    put_next(&rt, rt.alloc(), &mut sent, 3);
    gives(&rt, &sent, &[range(3, 3)], &[3]);
    drop(sent);
}

#[test]
fn frames_stay_in_order_where_the_ring_goes_round(rt: HostRuntime) {
    let mut sent = window_with(&rt, rt.alloc(), 3, 3);
    sent.trim(2);
    put_next(&rt, rt.alloc(), &mut sent, 4);
    put_next(&rt, rt.alloc(), &mut sent, 5);
    gives(&rt, &sent, &[range(1, 9)], &[3, 4, 5]);
    sent.trim(4);
    put_next(&rt, rt.alloc(), &mut sent, 6);
    gives(&rt, &sent, &[range(1, 9)], &[5, 6]);
    drop(sent);
}

#[test]
fn a_copy_gives_the_same_frames_and_what_one_lets_go_of_the_other_keeps(rt: HostRuntime) {
    let mut sent = window_with(&rt, rt.alloc(), 3, 3);
    sent.trim(1);
    let mut copy = sent.copy().expect(&rt, "memory");
    gives(&rt, &copy, &[range(1, 9)], &[2, 3]);
    has_room(&rt, &copy, 1);
    put_next(&rt, rt.alloc(), &mut copy, 4);
    copy.trim(2);
    gives(&rt, &copy, &[range(1, 9)], &[3, 4]);
    gives(&rt, &sent, &[range(1, 9)], &[2, 3]);
    sent.trim(9);
    put_next(&rt, rt.alloc(), &mut sent, 4);
    gives(&rt, &sent, &[range(1, 9)], &[4]);
    gives(&rt, &copy, &[range(1, 9)], &[3, 4]);
    drop(sent);
    drop(copy);
}

#[test]
fn each_number_of_a_frame_takes_and_makes_room(rt: HostRuntime) {
    let mut sent = SentWindow::new(rt.alloc(), 4).expect(&rt, "memory");
    put_several(&rt, rt.alloc(), &mut sent, 1, 2);
    has_room(&rt, &sent, 2);
    sent.trim(1);
    gives(&rt, &sent, &[range(2, 2)], &[1]);
    has_room(&rt, &sent, 3);
    put_several(&rt, rt.alloc(), &mut sent, 3, 3);
    has_room(&rt, &sent, 0);
    sent.trim(2);
    gives(&rt, &sent, &[range(1, 9)], &[3]);
    has_room(&rt, &sent, 1);
    drop(sent);
}

#[test]
fn any_number_of_a_frame_asks_for_it_and_several_for_it_once(rt: HostRuntime) {
    let sent = window_of_three(&rt, rt.alloc());
    gives(&rt, &sent, &[range(2, 2)], &[1]);
    gives(&rt, &sent, &[range(4, 4)], &[3]);
    gives(&rt, &sent, &[range(5, 5), range(3, 4), range(4, 5)], &[3]);
    gives(&rt, &sent, &[range(5, 6), range(2, 3)], &[1, 3, 6]);
    gives(&rt, &sent, &[range(5, 4), range(7, 9)], &[]);
    drop(sent);
}

#[test]
fn a_frame_stays_until_its_last_number_is_trimmed(rt: HostRuntime) {
    let mut sent = window_of_three(&rt, rt.alloc());
    sent.trim(4);
    gives(&rt, &sent, &[range(0, 9)], &[3, 6]);
    gives(&rt, &sent, &[range(3, 3)], &[3]);
    gives(&rt, &sent, &[range(1, 2)], &[]);
    has_room(&rt, &sent, 6);
    sent.trim(3);
    has_room(&rt, &sent, 6);
    sent.trim(5);
    gives(&rt, &sent, &[range(0, 9)], &[6]);
    has_room(&rt, &sent, 7);
    drop(sent);
}

#[test]
fn numbers_trimmed_past_the_end_do_not_count_for_the_next_frame(rt: HostRuntime) {
    let mut sent = window_of_three(&rt, rt.alloc());
    sent.trim(8);
    has_room(&rt, &sent, 8);
    put_several(&rt, rt.alloc(), &mut sent, 7, 3);
    has_room(&rt, &sent, 5);
    gives(&rt, &sent, &[range(8, 8)], &[7]);
    let mut copy = sent.copy().expect(&rt, "memory");
    copy.trim(8);
    has_room(&rt, &copy, 7);
    gives(&rt, &copy, &[range(9, 9)], &[7]);
    drop(copy);
    drop(sent);
}
