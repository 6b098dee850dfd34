//! Worked examples: which frames a helper keeps, and what it gives when asked.
ghost use Rattle.cb_times.specs.Group.{IsWindow};

use crate::asserts::holds_at;
use crate::windows::{are_of, frame_of, numbers_to_65, range};
use cb_frames::Range;
use cb_stability::HelperWindow;
use std::alloc::Global;
use std::marker::Model;
use std::process::Abort;
use std::test::*;

/// A helper's window, and the last number put into it.
#[derive(Drop)]
struct Helped {
    window: HelperWindow,
    put: u32,
}

impl Model for Helped {
    ghost use Rattle.std.specs.Prelude.{◌≡◌};
    ghost use Rattle.cb_stability.specs.Sent.{Sent};

    ghost Value = { Sent };

    ghost view = { λ h. h.window };

    ghost invariant = { λ h. h.window.put ≡ h.put };
}

impl Helped {
    /// Puts a frame of that many messages: the four bytes of the first number.
    fn put_next(&mut self, rt: &impl Abort, alloc: Global, count: u32) {
        assert!(rt;
            0 < count && count <= u32::MAX - self.put,
            "no number is left"
        );
        self.window.put(count, frame_of(rt, alloc, self.put + 1));
        self.put += count;
    }

    fn trim(&mut self, number: u32) {
        self.window.trim(number);
    }

    fn copy(&self, rt: &impl Abort) -> Helped {
        Helped {
            window: self.window.copy().expect(rt, "memory"),
            put: self.put,
        }
    }
}

fn fresh(rt: &impl Abort, alloc: Global, places: u32) -> Helped
    requires { IsWindow places }
{
    Helped {
        window: HelperWindow::new(alloc, places).expect(rt, "memory"),
        put: 0,
    }
}

/// Of places for that many frames, with frames of 2, 3 and 1 numbers, which are 1 to 2, 3 to 5 and 6.
fn window_of_three(rt: &impl Abort, alloc: Global, places: u32) -> Helped
    requires { IsWindow places }
{
    let mut helped = fresh(rt, alloc, places);
    for count in [2, 3, 1] {
        helped.put_next(rt, alloc, count);
    }
    helped
}

/// The frames given for these ranges are those of these numbers.
fn gives(rt: &impl Abort, helped: &Helped, ranges: &[Range], numbers: &[u32]) {
    let frames = helped.window.frames_in(ranges).expect(rt, "memory");
    let are_these = are_of(&frames, numbers);
    drop(frames);
    holds_at(rt, are_these, &numbers);
}

#[test]
fn the_oldest_frame_is_dropped_where_all_places_are_taken(rt: HostRuntime) {
    let mut window = window_of_three(&rt, rt.alloc(), 2);
    gives(&rt, &window, &[range(1, 9)], &[3, 6]);
    gives(&rt, &window, &[range(1, 2)], &[]);
    window.put_next(&rt, rt.alloc(), 4);
    gives(&rt, &window, &[range(1, 99)], &[6, 7]);
    drop(window);
}

#[test]
fn a_window_of_one_place_keeps_the_last_frame(rt: HostRuntime) {
    let mut window = window_of_three(&rt, rt.alloc(), 1);
    gives(&rt, &window, &[range(1, 9)], &[6]);
    window.trim(5);
    gives(&rt, &window, &[range(1, 9)], &[6]);
    window.trim(6);
    gives(&rt, &window, &[range(1, 9)], &[]);
    drop(window);
}

#[test]
fn a_frame_stays_until_its_last_number_is_trimmed(rt: HostRuntime) {
    let mut window = window_of_three(&rt, rt.alloc(), 8);
    window.trim(4);
    gives(&rt, &window, &[range(0, 9)], &[3, 6]);
    window.trim(3);
    gives(&rt, &window, &[range(3, 3)], &[3]);
    window.trim(5);
    gives(&rt, &window, &[range(0, 9)], &[6]);
    drop(window);
}

#[test]
fn a_trimmed_frame_leaves_its_place_to_another(rt: HostRuntime) {
    let mut window = window_of_three(&rt, rt.alloc(), 3);
    window.trim(2);
    window.put_next(&rt, rt.alloc(), 2);
    gives(&rt, &window, &[range(1, 9)], &[3, 6, 7]);
    window.put_next(&rt, rt.alloc(), 2);
    gives(&rt, &window, &[range(1, 9)], &[6, 7, 9]);
    drop(window);
}

#[test]
fn numbers_that_were_never_put_are_not_trimmed(rt: HostRuntime) {
    let mut window = window_of_three(&rt, rt.alloc(), 2);
    window.trim(8);
    gives(&rt, &window, &[range(0, 4294967295)], &[]);
    window.put_next(&rt, rt.alloc(), 2);
    gives(&rt, &window, &[range(8, 8)], &[7]);
    drop(window);
}

#[test]
fn any_number_of_a_frame_asks_for_it_and_frames_come_once_and_rising(rt: HostRuntime) {
    let window = window_of_three(&rt, rt.alloc(), 3);
    gives(
        &rt,
        &window,
        &[range(6, 6), range(4, 4), range(5, 6), range(2, 3)],
        &[1, 3, 6],
    );
    gives(&rt, &window, &[range(2, 2)], &[1]);
    gives(&rt, &window, &[range(5, 4), range(7, 9)], &[]);
    drop(window);
}

#[test]
fn of_65_frames_asked_for_the_first_64_are_given(rt: HostRuntime) {
    let mut window = fresh(&rt, rt.alloc(), 65);
    for _ in 0..66 {
        window.put_next(&rt, rt.alloc(), 1);
    }
    gives(&rt, &window, &[range(0, 99)], &numbers_to_65());
    gives(&rt, &window, &[range(66, 99)], &[66]);
    drop(window);
}

#[test]
fn a_copy_gives_the_same_frames_and_what_one_drops_the_other_keeps(rt: HostRuntime) {
    let mut window = window_of_three(&rt, rt.alloc(), 2);
    let mut copy = window.copy(&rt);
    copy.put_next(&rt, rt.alloc(), 2);
    gives(&rt, &copy, &[range(1, 9)], &[6, 7]);
    gives(&rt, &window, &[range(1, 9)], &[3, 6]);
    window.trim(6);
    window.put_next(&rt, rt.alloc(), 1);
    gives(&rt, &window, &[range(1, 9)], &[7]);
    gives(&rt, &copy, &[range(6, 8)], &[6, 7]);
    drop(window);
    drop(copy);
}

#[test]
fn the_last_frame_may_end_at_the_greatest_number(rt: HostRuntime) {
    let mut window = fresh(&rt, rt.alloc(), 4);
    window.put_next(&rt, rt.alloc(), 4294967293);
    window.trim(4294967293);
    window.put_next(&rt, rt.alloc(), 2);
    window.trim(4294967294);
    gives(
        &rt,
        &window,
        &[range(4294967295, 4294967295)],
        &[4294967294],
    );
    window.trim(4294967295);
    gives(&rt, &window, &[range(0, 4294967295)], &[]);
    drop(window);
}
