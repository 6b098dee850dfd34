//! The faults of a stream of bytes, in which frames stand.

use crate::asserts::says;
use cb_frames::{FrameFault, StreamFault};
use std::test::*;

#[test]
fn a_fault_prints_its_name(rt: HostRuntime) {
    const NAMES: [(StreamFault, &str); 3] = [
        (StreamFault::BadLength, "BadLength"),
        (
            StreamFault::BadFrame(FrameFault::OwnField),
            "BadFrame(OwnField)",
        ),
        (StreamFault::NoMemory, "NoMemory"),
    ];
    for (fault, name) in NAMES {
        says(&rt, fault.to_string(rt.alloc()), name);
    }
}
