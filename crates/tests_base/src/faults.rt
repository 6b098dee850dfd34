//! Values that are no frame's, and how faults print.

use crate::asserts::{holds_at, same, says};
use crate::frames::{Parts, frame, many, ranges_of};
use cb_frames::{Change, EncodeFault, FrameFault, LAST_NUMBER, Range, encode};
use std::alloc::Global;
use std::process::Abort;
use std::test::*;

#[test]
fn a_33rd_range_has_no_text(rt: HostRuntime) {
    let ranges = ranges_of(&rt, rt.alloc(), 33);
    let request = Parts::Request {
        requester: 2,
        asked: 0,
        ranges: &ranges,
    };
    let help = Parts::Help {
        members: [2, 1, 0],
        ranges: &ranges,
    };
    has_no_text(&rt, rt.alloc(), &request, EncodeFault::BadField);
    has_no_text(&rt, rt.alloc(), &help, EncodeFault::BadField);
    drop(ranges);
}

fn has_no_text(rt: &impl Abort, alloc: Global, parts: &Parts<'_>, fault: EncodeFault) {
    let frame = frame(rt, alloc, parts);
    let refusal = encode(alloc, &frame).err();
    drop(frame);
    holds_at(rt, refusal == Some(fault), parts);
}

#[test]
fn a_payload_that_is_too_long_comes_before_a_broken_rule(rt: HostRuntime) {
    let long = many(&rt, rt.alloc(), 0, 1_025);
    let parts = Parts::Cast {
        name: [7, 64, 0],
        changes: &[],
        payload: &long,
    };
    has_no_text(&rt, rt.alloc(), &parts, EncodeFault::PayloadTooLong);
    drop(long);
}

const BROKEN_CASTS: &[Parts<'static>] = &[
    Parts::Cast {
        name: [7, 64, 1],
        changes: &[],
        payload: b"",
    },
    Parts::Cast {
        name: [7, 0, 0],
        changes: &[],
        payload: b"",
    },
    Parts::Cast {
        name: [7, 0, 1],
        changes: &[Change {
            field: 0,
            amount: 1,
        }],
        payload: b"",
    },
    Parts::Cast {
        name: [7, 0, 1],
        changes: &[Change {
            field: 1,
            amount: 0,
        }],
        payload: b"",
    },
    Parts::Cast {
        name: [7, 0, 1],
        changes: &[Change {
            field: 64,
            amount: 1,
        }],
        payload: b"",
    },
    Parts::Cast {
        name: [7, 0, 1],
        changes: &[
            Change {
                field: 2,
                amount: 1,
            },
            Change {
                field: 2,
                amount: 1,
            },
        ],
        payload: b"",
    },
];

const BROKEN_STATUSES: &[Parts<'static>] = &[
    Parts::Status {
        group: 7,
        sender: 64,
        values: &[],
    },
    Parts::Status {
        group: 7,
        sender: 0,
        values: &[Change {
            field: 64,
            amount: 1,
        }],
    },
    Parts::Status {
        group: 7,
        sender: 0,
        values: &[Change {
            field: 1,
            amount: 0,
        }],
    },
    Parts::Status {
        group: 7,
        sender: 0,
        values: &[
            Change {
                field: 2,
                amount: 1,
            },
            Change {
                field: 1,
                amount: 1,
            },
        ],
    },
];

const BROKEN_REQUESTS: &[Parts<'static>] = &[
    Parts::Request {
        requester: 64,
        asked: 0,
        ranges: &[Range { first: 1, last: 1 }],
    },
    Parts::Request {
        requester: 0,
        asked: 64,
        ranges: &[Range { first: 1, last: 1 }],
    },
    Parts::Request {
        requester: 0,
        asked: 1,
        ranges: &[],
    },
    Parts::Request {
        requester: 0,
        asked: 1,
        ranges: &[Range { first: 0, last: 1 }],
    },
    Parts::Request {
        requester: 0,
        asked: 1,
        ranges: &[Range { first: 2, last: 1 }],
    },
    Parts::Request {
        requester: 0,
        asked: 1,
        ranges: &[Range { first: 1, last: 1 }, Range { first: 2, last: 2 }],
    },
    Parts::Request {
        requester: 0,
        asked: 1,
        ranges: &[
            Range {
                first: 1,
                last: LAST_NUMBER,
            },
            Range { first: 1, last: 1 },
        ],
    },
];

const BROKEN_HELPS: &[Parts<'static>] = &[
    Parts::Help {
        members: [64, 1, 0],
        ranges: &[Range { first: 1, last: 1 }],
    },
    Parts::Help {
        members: [2, 64, 0],
        ranges: &[Range { first: 1, last: 1 }],
    },
    Parts::Help {
        members: [2, 1, 64],
        ranges: &[Range { first: 1, last: 1 }],
    },
    Parts::Help {
        members: [2, 1, 0],
        ranges: &[],
    },
    Parts::Help {
        members: [2, 1, 0],
        ranges: &[Range { first: 0, last: 1 }],
    },
    Parts::Help {
        members: [2, 1, 0],
        ranges: &[Range { first: 1, last: 1 }, Range { first: 2, last: 2 }],
    },
];

#[test]
fn values_that_break_a_rule_have_no_text(rt: HostRuntime) {
    for rows in [BROKEN_CASTS, BROKEN_STATUSES, BROKEN_REQUESTS, BROKEN_HELPS] {
        for parts in rows {
            has_no_text(&rt, rt.alloc(), parts, EncodeFault::BadField);
        }
    }
}

const FRAME_FAULTS: &[(FrameFault, &str)] = &[
    (FrameFault::Short, "Short"),
    (FrameFault::UnknownKind, "UnknownKind"),
    (FrameFault::NotMinimal, "NotMinimal"),
    (FrameFault::TooLarge, "TooLarge"),
    (FrameFault::BadIndex, "BadIndex"),
    (FrameFault::ZeroNumber, "ZeroNumber"),
    (FrameFault::ZeroDifference, "ZeroDifference"),
    (FrameFault::OwnField, "OwnField"),
    (FrameFault::BadRange, "BadRange"),
    (FrameFault::EmptyBurst, "EmptyBurst"),
    (FrameFault::BurstTooLong, "BurstTooLong"),
    (FrameFault::PayloadTooLong, "PayloadTooLong"),
    (FrameFault::Trailing, "Trailing"),
    (FrameFault::NoMemory, "NoMemory"),
];

const ENCODE_FAULTS: &[(EncodeFault, &str)] = &[
    (EncodeFault::PayloadTooLong, "PayloadTooLong"),
    (EncodeFault::BadField, "BadField"),
    (EncodeFault::NoMemory, "NoMemory"),
];

#[test]
fn a_fault_prints_its_name(rt: HostRuntime) {
    for (fault, name) in FRAME_FAULTS {
        says(&rt, fault.to_string(rt.alloc()), name);
    }
    for (fault, name) in ENCODE_FAULTS {
        says(&rt, fault.to_string(rt.alloc()), name);
    }
}
