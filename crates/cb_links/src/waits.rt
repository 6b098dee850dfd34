//! How long is waited where there is nothing to do. Times are in microseconds.

use std::thread::sleep;
use std::time::{Clock, Duration};

/// An inlet that finds nothing says so after a millisecond. So long also waits a worker whose turn
/// brought nothing, or a fault.
pub const WAIT: u64 = 1_000;

/// Of that, for so long messages gather in a mailbox that has become empty.
pub const GATHERING: u64 = 400;

/// Waits a millisecond.
pub fn wait(rt: &impl Clock) {
    sleep(rt, Duration::from_micros(WAIT));
}
