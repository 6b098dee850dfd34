//! Numbers on the wire.

use crate::asserts::{same, says};
use cb_varint::{NumberFault, length, put, take};
use std::alloc::Global;
use std::process::Abort;
use std::test::*;

const TABLE: [(u32, &[u8]); 9] = [
    (0, &[0x00]),
    (127, &[0x7f]),
    (128, &[0x80, 0x01]),
    (300, &[0xac, 0x02]),
    (1_024, &[0x80, 0x08]),
    (16_384, &[0x80, 0x80, 0x01]),
    (2_097_152, &[0x80, 0x80, 0x80, 0x01]),
    (268_435_456, &[0x80, 0x80, 0x80, 0x80, 0x01]),
    (4_294_967_295, &[0xff, 0xff, 0xff, 0xff, 0x0f]),
];

#[test]
fn each_number_of_the_table_is_written_and_read(rt: HostRuntime) {
    for (number, text) in TABLE {
        is_written_and_read(&rt, rt.alloc(), number, text);
    }
}

/// The number is written behind a byte, and read in front of one.
fn is_written_and_read(rt: &impl Abort, alloc: Global, number: u32, text: &[u8]) {
    let mut out = [1].to_vec(alloc).expect(rt, "memory");
    put(number, &mut out).expect(rt, "memory");
    out.push(0xff).expect(rt, "memory");
    stands_between(rt, &out, number, text);
    drop(out);
}

fn stands_between(rt: &impl Abort, out: &[u8], number: u32, text: &[u8]) {
    let (front, rest) = out.split_first().expect(rt, "a byte in front");
    let (behind, spelled) = rest.split_last().expect(rt, "a byte behind");
    same(rt, (*front, *behind), (1, 0xff));
    same(rt, spelled, text);
    same(rt, (number, length(number)), (number, text.len()));
    same(rt, take(rest), Ok((number, text.len())));
}

#[test]
fn what_begins_with_no_number_has_its_fault(rt: HostRuntime) {
    const FAULTS: [(&[u8], NumberFault); 8] = [
        (&[0xff, 0xff, 0xff, 0xff, 0x1f], NumberFault::TooLarge),
        (&[0x80, 0x80, 0x80, 0x80, 0x80], NumberFault::TooLarge),
        (&[0x80, 0x80, 0x80, 0x80, 0x10, 0x00], NumberFault::TooLarge),
        (&[0x80, 0x80, 0x80, 0x80, 0x00], NumberFault::NotMinimal),
        (&[0x87, 0x00], NumberFault::NotMinimal),
        (&[0x80], NumberFault::Short),
        (&[0xff, 0xff, 0xff, 0xff], NumberFault::Short),
        (&[], NumberFault::Short),
    ];
    for (bytes, fault) in FAULTS {
        same(&rt, (bytes, take(bytes)), (bytes, Err(fault)));
    }
}

#[test]
fn a_fault_prints_its_name(rt: HostRuntime) {
    const NAMES: [(NumberFault, &str); 3] = [
        (NumberFault::Short, "Short"),
        (NumberFault::NotMinimal, "NotMinimal"),
        (NumberFault::TooLarge, "TooLarge"),
    ];
    for (fault, name) in NAMES {
        says(&rt, fault.to_string(rt.alloc()), name);
    }
}
