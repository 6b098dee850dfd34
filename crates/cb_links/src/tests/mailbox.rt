//! A mailbox with two slots, in one thread.

use crate::mailbox::{ENOUGH_GATHERED, Taken, new_mailbox};
use crate::waits::{GATHERING, WAIT};
use std::process::Abort;
use std::test::*;
use std::time::{Clock, Duration};

/// This message was taken, or none was there.
fn gave(rt: &impl Abort, taken: Taken<u32>, expected: Option<u32>) {
    match taken {
        Taken::Message(message) => assert_eq!(rt; Some(message), expected),
        Taken::Nothing => assert_eq!(rt; None, expected),
        Taken::Closed => panic!(rt; "it has a slot"),
    }
}

#[test]
fn messages_come_in_the_order_of_all_slots_and_then_nothing(rt: HostRuntime) {
    let (slot, mailbox) = new_mailbox(rt.alloc()).expect(&rt, "a mailbox");
    let other = slot.again().expect(&rt, "a slot");
    assert!(&rt; slot.put(&rt, 1).is_ok());
    assert!(&rt; other.put(&rt, 2).is_ok());
    assert!(&rt; slot.put(&rt, 3).is_ok());
    gave(&rt, mailbox.take_at_once(&rt), Some(1));
    gave(&rt, mailbox.take(&rt), Some(2));
    gave(&rt, mailbox.look(&rt), Some(3));
    gave(&rt, mailbox.look(&rt), None);
    gave(&rt, mailbox.take_at_once(&rt), None);
    gave(&rt, mailbox.take(&rt), None);
    drop(slot);
    drop(other);
}

#[test]
fn a_mailbox_is_closed_once_its_last_slot_is_gone_and_it_is_empty(rt: HostRuntime) {
    let (slot, mailbox) = new_mailbox(rt.alloc()).expect(&rt, "a mailbox");
    assert!(&rt; slot.put(&rt, 1).is_ok());
    drop(slot);
    gave(&rt, mailbox.take_at_once(&rt), Some(1));
    assert!(&rt; matches!(mailbox.take_at_once(&rt), Taken::Closed));
}

/// So often a reader does what is to take no time.
const READINGS: u64 = 5_000;

/// So often a reader takes from an empty mailbox. The machine may be busy: of the times that it
/// takes the least counts.
const LOOKS: u32 = 100;

/// So many readings took less time than if messages had been let gather in each.
fn has_not_gathered<R: Clock + Abort>(rt: &R, begun: Duration) {
    let ended = rt.monotonic().expect(rt, "a clock");
    let all = Duration::from_micros(GATHERING * READINGS);
    assert!(rt; ended.saturating_sub(begun) < all);
}

/// Nobody wakes a reader for what was put in before it said that it lets messages gather.
#[test]
fn a_reader_does_not_wait_for_what_is_there(rt: HostRuntime) {
    let (slot, mailbox) = new_mailbox(rt.alloc()).expect(&rt, "a mailbox");
    for number in 0..ENOUGH_GATHERED {
        assert!(&rt; slot.put(&rt, number).is_ok());
    }
    let begun = rt.monotonic().expect(&rt, "a clock");
    for _reading in 0..READINGS {
        mailbox.gather(&rt);
    }
    has_not_gathered(&rt, begun);
    drop(slot);
}

/// Whoever reads from it waits by itself where it has nothing else to do.
#[test]
fn a_reader_does_not_wait_where_no_slot_is_left(rt: HostRuntime) {
    let (slot, mailbox) = new_mailbox::<u32>(rt.alloc()).expect(&rt, "a mailbox");
    drop(slot);
    let begun = rt.monotonic().expect(&rt, "a clock");
    for _reading in 0..READINGS {
        assert!(&rt; matches!(mailbox.take(&rt), Taken::Closed));
    }
    has_not_gathered(&rt, begun);
}

/// Gathering and sleeping take a millisecond together.
#[test]
fn nothing_is_found_after_a_millisecond(rt: HostRuntime) {
    let (slot, mailbox) = new_mailbox::<u32>(rt.alloc()).expect(&rt, "a mailbox");
    let mut least = Duration::from_secs(1);
    for _look in 0..LOOKS {
        let begun = rt.monotonic().expect(&rt, "a clock");
        gave(&rt, mailbox.take(&rt), None);
        let ended = rt.monotonic().expect(&rt, "a clock");
        least = least.min(ended.saturating_sub(begun));
    }
    assert!(&rt; least >= Duration::from_micros(WAIT));
    assert!(&rt; least < Duration::from_micros(WAIT + GATHERING));
    drop(slot);
}
