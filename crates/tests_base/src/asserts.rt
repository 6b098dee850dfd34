//! What tests assert. An assert takes the prover seconds wherever it stands, so each kind stands here once.

use cb_times::NoMemory;
use std::fmt::Debug;
use std::process::Abort;
use std::test::*;

pub fn same<T: PartialEq + Debug + Copy>(rt: &impl Abort, found: T, expected: T) {
    assert_eq!(rt; found, expected);
}

/// It holds of this.
pub fn holds_at<T: Debug>(rt: &impl Abort, holds: bool, at: &T) {
    assert!(rt; holds, "at {at:?}");
}

/// The text is this one.
pub fn says(rt: &impl Abort, text: Result<String, NoMemory>, expected: &str) {
    let text = text.expect(rt, "memory");
    same(rt, text.as_str(), expected);
    drop(text);
}
