//! Steps and their copies.

use bytes::Bytes;
use cb_world::{Step, payload_slices};
use std::alloc::Global;
use std::process::Abort;

/// The kind, the member, and the frame's number, how many bytes of payload there are, or the sender.
fn numbers(step: &Step) -> (u32, u32, usize) {
    match step {
        Step::Cast(i, payload) => (0, *i, payload.len()),
        Step::Arrive(j, number) => (1, *j, *number),
        Step::Tick(i) => (2, *i, 0),
        Step::Burst(i, payloads) => (3, *i, bytes_in(payloads)),
        Step::Help(j, i) => (4, *j, *i as usize),
    }
}

fn bytes_in(payloads: &[Bytes]) -> usize {
    let mut count: usize = 0;
    for payload in payloads {
        count = count.saturating_add(payload.len());
    }
    count
}

fn is_copied(rt: &impl Abort, step: Step) {
    let copy = step.copy().expect(rt, "a copy");
    assert_eq!(rt; numbers(&copy), numbers(&step));
}

#[test]
fn a_copy_is_the_same_step(rt: HostRuntime) {
    is_copied(&rt, Step::Cast(1, Bytes::from_static(b"hi")));
    is_copied(&rt, Step::Arrive(2, 7));
    is_copied(&rt, Step::Tick(3));
    is_copied(&rt, Step::Help(4, 1));
}

const PAYLOADS: [&[u8]; 3] = [b"hi", b"", b"yo"];

fn burst(rt: &impl Abort, alloc: Global) -> Step {
    let mut payloads = Vec::new(alloc);
    for payload in PAYLOADS {
        payloads
            .push(Bytes::from_static(payload))
            .expect(rt, "memory");
    }
    Step::Burst(1, payloads)
}

fn has_the_payloads(rt: &impl Abort, alloc: Global, step: &Step) -> bool {
    let Step::Burst(1, payloads) = step else {
        return false;
    };
    let slices = payload_slices(alloc, payloads).expect(rt, "memory");
    slices.as_slice() == PAYLOADS.as_slice()
}

#[test]
fn a_copy_of_a_burst_has_its_payloads(rt: HostRuntime) {
    let step = burst(&rt, rt.alloc());
    assert_eq!(rt; (step.member(), numbers(&step)), (1, (3, 1, 4)));
    let copy = step.copy().expect(&rt, "a copy");
    drop(step);
    assert!(rt; has_the_payloads(&rt, rt.alloc(), &copy));
}
