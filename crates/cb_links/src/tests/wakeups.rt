//! A reader sleeps over no message that is put in while it falls asleep.

ghost use Rattle.std.specs.Prelude.{◌≡◌};

use crate::mailbox::{Mailbox, Slot, Taken, new_mailbox};
use std::process::Abort;
use std::sync::Wait;
use std::sync::atomic::{AtomicBool, AtomicU32, Ordering};
use std::test::*;
use std::thread::{Threads, join, yield_now};
use std::time::{Clock, Duration};

/// So many messages come at most, and for so many seconds: a machine may be busy.
const MESSAGES: u32 = 200_000;

const TIME: u64 = 4;

/// So many seconds a reader sleeps that is not woken.
const LONGEST: u64 = 20;

/// All that comes took less seconds, unless the reader slept over a message.
const LIMIT: u64 = 14;

/// How far the reader is.
#[derive(Drop)]
struct Course {
    /// The number of the message that it is about to wait for, counted from 1.
    awaited: AtomicU32,
    /// It waits for no more.
    has_ended: AtomicBool,
}

/// Waits for one message after another, as long as there is time.
fn reads<R: Wait + Clock + Abort>(rt: &R, mailbox: &Mailbox<u32>, course: &Course) {
    let begun = rt.monotonic().expect(rt, "a clock");
    for number in 1..=MESSAGES {
        if rt.monotonic().expect(rt, "a clock").saturating_sub(begun) > Duration::from_secs(TIME) {
            break;
        }
        course.awaited.store(number, Ordering::SeqCst);
        assert_eq!(rt; next(rt, mailbox), Some(number));
    }
    course.has_ended.store(true, Ordering::SeqCst);
}

/// The next message. A reader that was woken for one which it found before it slept finds nothing then.
fn next<R: Wait>(rt: &R, mailbox: &Mailbox<u32>) -> Option<u32> {
    for _wait in 0..MESSAGES {
        if let Taken::Message(message) = mailbox.take_within(rt, Duration::from_secs(LONGEST)) {
            return Some(message);
        }
    }
    None
}

/// Puts in each message while the reader begins to wait for it, each time a little later.
fn puts<R: Wait + Abort>(rt: &R, slot: &Slot<u32>, course: &Course) {
    for number in 1..=MESSAGES {
        if !is_awaited(course, number) {
            return;
        }
        for _moment in 0..number % 256 {
            let _same = course.awaited.load(Ordering::SeqCst);
        }
        assert!(rt; slot.put(rt, number).is_ok());
    }
}

/// The reader is about to wait for this message, and not at its end.
fn is_awaited(course: &Course, number: u32) -> bool {
    for look in 0..u64::MAX {
        if course.awaited.load(Ordering::SeqCst) == number {
            return true;
        }
        if course.has_ended.load(Ordering::SeqCst) {
            return false;
        }
        if look % 1_024 == 1_023 {
            yield_now();
        }
    }
    false
}

fn crosses<R: Threads + Wait + Clock + Abort + Sync>(
    rt: &R,
    slot: Slot<u32>,
    mailbox: Mailbox<u32>,
) {
    let course = Course {
        awaited: AtomicU32::new(0),
        has_ended: AtomicBool::new(false),
    };
    join(
        rt,
        || reads(rt, &mailbox, &course),
        || puts(rt, &slot, &course),
    );
}

#[test]
fn no_message_is_slept_over(rt: HostRuntime) {
    let (slot, mailbox) = new_mailbox(rt.alloc()).expect(&rt, "a mailbox");
    let begun = rt.monotonic().expect(&rt, "a clock");
    crosses(&rt, slot, mailbox);
    let ended = rt.monotonic().expect(&rt, "a clock");
    assert!(&rt; ended.saturating_sub(begun) < Duration::from_secs(LIMIT));
}

/// A look, and a message that is put in right behind it.
fn looks_and_puts(
    rt: &(impl Wait + Abort),
    mailbox: &Mailbox<u32>,
    slot: &Slot<u32>,
) -> Taken<u32> {
    let found = mailbox.look(rt);
    assert!(rt; slot.put(rt, 1).is_ok());
    found
}

#[test]
fn a_message_behind_the_look_wakes_the_reader(rt: HostRuntime) {
    let (slot, mailbox) = new_mailbox(rt.alloc()).expect(&rt, "a mailbox");
    let begun = rt.monotonic().expect(&rt, "a clock");
    let longest = Duration::from_secs(LONGEST);
    let taken = mailbox.sleep_between(&rt, longest, || looks_and_puts(&rt, &mailbox, &slot));
    let ended = rt.monotonic().expect(&rt, "a clock");
    assert!(&rt; matches!(taken, Taken::Message(1)));
    assert!(&rt; ended.saturating_sub(begun) < Duration::from_secs(LIMIT));
    drop(slot);
}
